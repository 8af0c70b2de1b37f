//! Statements, constructs and program units.

use crate::form::Form;
use crate::token::Tokens;
use ftn_base::Range;
use sqlite_items::Items;

/// A statement and its tokens.
#[derive(Drop)]
pub struct Statement {
    /// What it says.
    pub form: Form,
    /// The numbers of its tokens in the file.
    pub tokens: Range,
}

/// A program unit, a procedure, an interface body or an interface block, from its opening to its ending (Fortran 90, 2.2, 12.3.2.1).
/// Each `u32` is the number of a statement in the file, from 0.
///
/// Each statement of a file stands in its units once, but for the first arm of an IF or a DO, whose head is also the opening. Put in
/// the order of their openings, the units inside and the blocks are all that stands between the opening and the ending.
#[cycle(unit)]
#[derive(Drop)]
pub struct Unit {
    /// The statement that opens it.
    pub opening: u32,
    /// The END statement.
    pub ending: u32,
    /// What it holds of its kind: interface blocks, then the procedures after CONTAINS; in an interface block its bodies.
    pub inner: Items<Unit>,
    /// Its own statements, CONTAINS as the last of them. Those of an interface block are its MODULE PROCEDURE statements.
    pub body: Items<Block>,
}

/// A statement by itself, or a construct (8.1).
#[cycle(block)]
#[derive(Drop)]
pub enum Block {
    /// A statement that is no part of a construct inside its unit.
    Plain(u32),
    /// An IF, DO or SELECT CASE construct.
    Nest {
        /// The statement that opens it.
        opening: u32,
        /// Its arms. A DO has one. A SELECT CASE has one for each CASE, maybe none.
        arms: Items<Arm>,
        /// The END statement.
        ending: u32,
    },
}

/// An arm of a construct (8.1).
#[cycle(block)]
#[derive(Drop)]
pub struct Arm {
    /// The statement that begins it: IF, ELSE IF, ELSE, DO or CASE.
    pub head: u32,
    /// What stands in it.
    pub body: Items<Block>,
}

/// A file that was read.
#[derive(Drop)]
pub struct FileTree {
    /// Its tokens.
    pub tokens: Tokens,
    /// Its statements in their order.
    pub statements: Items<Statement>,
    /// Its program units in their order.
    pub units: Items<Unit>,
}
