//! Reads expressions (Fortran 90, 7.1), and holds what the readers of statements share.
//!
//! `expression` gives the one tree that fits exactly the tokens, or the fault of tokens that no tree fits. To be trusted are `Grammar`,
//! `Levels`, `Operators`, `Lexemes`, `Phrases` and `Misfits` of `ftn_tree`, and `Exact` here; `steps` serves proofs alone, those of
//! readers in other crates too. Types and values aren't said here.
#![tactic(auto)]

mod assignment;
mod constants;
mod cursor;
mod expressions;
mod fault;
mod list;
mod misfits;
mod operators;
mod rules;

pub use assignment::is_assignment;
pub use constants::constant;
pub use cursor::Cursor;
pub use expressions::{
    expression, read_expression, read_expressions, read_names, read_reference, read_references,
};
pub use fault::{Misfit, StatementFault};
pub use list::{each_after_comma, separated};
pub use misfits::{is_deep, misfit};
