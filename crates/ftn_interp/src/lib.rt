//! What the operators and the intrinsic functions of resolved programs give (Fortran 90, 7.2, 13.13).
//!
//! `unary`, `binary` and `intrinsic` give exactly the value that the definitions of `core_prog` give (`Operations` in its `specs/`), or
//! the fault of the operation at its token. To be trusted are that file and `Answers` here. Whole programs aren't run yet.
#![tactic(auto)]

mod halt;
mod operators;

pub use halt::Halt;
pub use operators::{binary, intrinsic, unary};
