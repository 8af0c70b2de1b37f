//! The parts of a program in first form.

use ftn_base::Name;
use sqlite_items::Items;

/// An operand of an expression.
#[derive(Drop)]
pub enum Operand {
    /// A reference to a variable (6.1).
    Variable(Name),
    /// A whole number (4.3.1.1).
    Whole(u32),
}

/// An operator between two operands (7.1.1.3).
#[derive(Clone, Copy)]
pub enum Sign {
    /// `+`
    Plus,
    /// `-`
    Minus,
}

/// An operator and its right operand.
#[derive(Drop)]
pub struct Term {
    /// The operator.
    pub sign: Sign,
    /// Its right operand.
    pub operand: Operand,
}

/// An expression: a chain of operands, which associates to the left (7.1.3).
#[derive(Drop)]
pub struct Sum {
    /// The first operand.
    pub first: Operand,
    /// What is added and taken away, from left to right.
    pub rest: Items<Term>,
}

/// An executable statement.
#[derive(Drop)]
pub enum Statement {
    /// `target = value` (7.5.1).
    Assign {
        /// The variable that gets the value.
        target: Name,
        /// The right side.
        value: Sum,
    },
    /// `print *, item, ..` (9.4.2).
    Print(Items<Sum>),
}

/// A main program in first form (11.1).
#[derive(Drop)]
pub struct Program {
    /// The name of the program.
    pub name: Name,
    /// The names of each `integer ::` line.
    pub declared: Items<Items<Name>>,
    /// The executable statements.
    pub statements: Items<Statement>,
}
