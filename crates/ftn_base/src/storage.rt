//! Objects that take storage units, and the lists of common blocks (Fortran 90, 5.5.2 and 14.6.3).

use crate::entity::Sort;

/// A variable or a result that takes storage units.
#[derive(Clone, Copy)]
pub struct Object {
    /// How many storage units it takes (14.6.3.1); 2^32 - 1 stands for every greater number too.
    pub units: u32,
    /// The sort of its units.
    pub sort: Sort,
    /// The scoping unit that it belongs to.
    pub scope: u32,
}

/// A list of a common block in COMMON statements of one scoping unit (5.5.2).
#[derive(Drop)]
pub struct BlockList {
    /// The number of the block.
    pub block: u32,
    /// Whether the block has a name; else it is blank common.
    pub named: bool,
    /// The scoping unit.
    pub scope: u32,
    /// The objects of the list, in order.
    pub members: Vec<u32>,
}

/// A member of a list of a common block in a scoping unit.
#[derive(Clone, Copy)]
pub struct Member {
    /// The number of the block.
    pub block: u32,
    /// The scoping unit.
    pub scope: u32,
    /// The object.
    pub object: u32,
}
