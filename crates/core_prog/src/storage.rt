//! Variables and the storage that they lie in.

use ftn_base::Ty;
use sqlite_items::Items;

/// What a storage unit holds (Fortran 90, 14.6.3.1; the four kinds are this project's own).
#[derive(Clone, Copy)]
pub enum Content {
    /// Nothing: the unit is undefined (14.7).
    Nothing,
    /// An integer.
    Whole(i32),
    /// A logical.
    Truth(bool),
    /// One character.
    Byte(u8),
}

/// Storage units in a row with equal contents.
#[derive(Clone, Copy)]
pub struct Run {
    /// How many there are.
    pub count: u32,
    /// What each holds.
    pub content: Content,
}

/// A storage sequence (14.6.3): a common block, or a variable with all that EQUIVALENCE ties to it.
#[derive(Drop)]
pub struct Area {
    /// The number of its first storage unit in the row of all areas.
    pub start: u32,
    /// How many storage units it has.
    pub size: u32,
    /// What it holds before the run begins, from its first unit on. Units behind these runs hold nothing.
    pub initial: Items<Run>,
    /// The procedure at whose entry all of its units become undefined (14.7.6). An area without one is kept for the whole run.
    pub emptied: Option<u32>,
}

/// A bound of an array (5.1.2).
#[derive(Clone, Copy)]
pub enum Limit {
    /// A number.
    Number(i32),
    /// What the scalar integer dummy argument of this number holds when the procedure of the array is entered.
    Dummy(u32),
    /// `*`, as the last upper bound.
    Open,
}

/// The bounds of one dimension.
#[derive(Clone, Copy)]
pub struct Dimension {
    /// The lower bound, which is never open.
    pub low: Limit,
    /// The upper bound.
    pub high: Limit,
}

/// Where a variable is found.
#[derive(Clone, Copy)]
pub enum Home {
    /// In an area.
    Stored {
        /// The number of the area.
        area: u32,
        /// The unit of the area, from 0, that is the variable's first one.
        offset: u32,
        /// The procedure whose own variable or result it is. Those of the main program and of modules have none.
        owner: Option<u32>,
    },
    /// Where the actual argument of a procedure is.
    Dummy {
        /// The number of the procedure.
        procedure: u32,
        /// The place in its list of dummy arguments, from 0.
        position: u32,
    },
}

/// A variable, a dummy argument or the result of a function.
#[derive(Drop)]
pub struct Variable {
    /// Its type.
    pub ty: Ty,
    /// Its dimensions. A scalar has none.
    pub dimensions: Items<Dimension>,
    /// Where it is.
    pub home: Home,
}
