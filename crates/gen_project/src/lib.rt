//! Projects of any size, made from a number, to test with.
//!
//! `make` gives exactly the files of a seed. To be trusted is `Files`. That they are a project without a fault isn't
//! said here.
#![tactic(auto)]

mod project;
mod texts;

pub use project::make;
