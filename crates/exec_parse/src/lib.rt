//! Reads executable statements (Fortran 90, 7.5.1, 8, 9.4, 12.4.3, 12.5.2.5).
//!
//! `executable` gives the one form that fits exactly the tokens of a statement, or the fault of tokens that no form fits, and
//! `one_executable` is the law that there is one form at most. To be trusted are `ExecutableForms`, `Grammar`, `Phrases` and `Misfits` of
//! `ftn_tree`, and `Exact` of `expr_parse`; `steps` serves proofs alone. Where the statement may stand isn't said here, nor what its
//! names denote.
#![tactic(auto)]

mod actions;
mod cases;
mod executables;
mod ifs;
mod laws;
mod lists;
mod loops;
mod transfers;

pub use executables::{executable, fitting_executable};
pub use laws::one_executable;
