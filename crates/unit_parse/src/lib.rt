//! Program units and constructs: how the statements of a file nest (Fortran 90, 2.3.1, 8.1, 11, 12.3.2.1, 12.5.2).
//!
//! `parse` gives the tree of a file or its first fault, `nest` and `Nesting` the same of statements that are read. Laws: no statement is
//! both executable and another one, tokens have one form, statements nest in one way or have one fault, and a file and a text have one
//! tree or one first fault. To be trusted are `Marks`, `Regions`, `Nesting`, `NestFaults` and `FileFaults` of `ftn_tree`, and `Answers`,
//! `Parsing` and `Decided` here; `steps` serves proofs alone. Declarations aren't looked at here.
#![tactic(auto)]

mod fault;
mod files;
mod forms;
mod frames;
mod laws;
mod level;
mod nesting;
mod order;
mod statements;
mod words;

pub use fault::{NestFault, ParseFault};
pub use files::parse;
pub use laws::{
    nesting_is_decided, one_answer_per_file, one_answer_per_text, one_statement,
    statements_are_apart, units_hold_each_statement_once,
};
pub use nesting::{Nesting, nest};
