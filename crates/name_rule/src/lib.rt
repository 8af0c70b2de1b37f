//! The rule of a house for the names that a refactoring makes.
//!
//! `allows` answers exactly whether the pattern admits a name, where the test that a rule is made of does. To be
//! trusted are `Admits` and `Rule`. Whether the bytes are a name of Fortran isn't said here.
#![tactic(auto)]

mod pattern;
mod rule;

pub use pattern::NamePattern;
pub use rule::NameRule;
