//! Resolved programs.

use crate::stmt::Stmt;
use crate::storage::{Area, Variable};
use sqlite_items::{Boxed, Items};

/// A procedure that the project defines (Fortran 90, 12.5.2).
#[derive(Drop)]
pub struct Procedure {
    /// The numbers of the variables that are its dummy arguments, in their order.
    pub dummies: Items<u32>,
    /// The number of the variable that is the result of a function.
    pub result: Option<u32>,
    /// Its executable statements.
    pub body: Items<Boxed<Stmt>>,
}

/// A resolved program: its executable statements with each name replaced by what it denotes, and the storage that they work on.
#[derive(Drop)]
pub struct Core {
    /// The variables, dummy arguments and results.
    pub variables: Items<Variable>,
    /// The procedures.
    pub procedures: Items<Procedure>,
    /// The storage areas, in the order of their units in the row of all.
    pub areas: Items<Area>,
    /// The executable statements of the main program.
    pub main: Items<Boxed<Stmt>>,
}
