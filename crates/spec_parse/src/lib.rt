//! Reads the statements that begin and end program units, and specification statements (Fortran 90, 5, 11, 12).
//!
//! `specification` gives the one form that fits exactly the tokens of a statement, or the fault of tokens that no form fits, and
//! `one_specification` is the law that there is one form at most. To be trusted are `SpecificationForms`, `UnitForms`, `TypeForms`,
//! `Specifications`, `Grammar`, `Phrases` and `Misfits` of `ftn_tree`, and `Exact` of `expr_parse`; `steps` serves proofs alone. Where
//! the statement may stand isn't said here, nor what its names denote.
#![tactic(auto)]

mod attribute_statements;
mod attributes;
mod bounds;
mod colons;
mod common;
mod data;
mod declare;
mod endings;
mod implicits;
mod laws;
mod names;
mod rows;
mod specifications;
mod types;
mod units;
mod uses;

pub use laws::one_specification;
pub use specifications::{fitting_specification, specification};
