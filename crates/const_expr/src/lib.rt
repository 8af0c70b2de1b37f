//! Constant expressions (Fortran 90, 7.1.6.1), where it is known what their names are.
//!
//! `evaluate` gives exactly the first token and the value of an expression, and the first of what is told of it, as `Evaluations` of
//! `ftn_tree` says; `fitted` gives a text of a length, and `function_named` an intrinsic function. A character value of more than 2^24 bytes
//! counts as want of memory. To be trusted are `Evaluations`, `Operations` and `Intrinsics` of `ftn_tree`, and `FirstTold`, `Seen` and
//! `Namings` here; `specs/steps` serves proofs alone.
#![tactic(auto)]

mod evaluated;
mod evaluating;
mod functions;
mod naming;
mod operating;
mod references;
mod texts;
mod told;

pub use evaluated::Evaluated;
pub use evaluating::evaluate;
pub use functions::function_named;
pub use naming::{Naming, Setting};
pub use texts::fitted;
pub use told::{Breach, Told};
