//! What operators and intrinsic functions give (Fortran 90, 7.2, 13.13), for constants and for runs.
//!
//! `unary`, `binary` and `intrinsic` give exactly the value that `Operations` and `Intrinsics` in the `specs/` of `ftn_tree` say, or the
//! fault that they say; want of memory alone may come at any time. Texts of any size are taken. To be trusted are those two files and
//! `Answers` here.
#![tactic(auto)]

mod failure;
mod intrinsics;
mod operators;
mod texts;

pub use failure::Failure;
pub use intrinsics::intrinsic;
pub use operators::{binary, unary};
