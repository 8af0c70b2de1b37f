//! Implicit types by first letter (Fortran 90, 5.3).
//!
//! A `LetterMap` promises the type of each letter after the ranges that were given, and the first letter that was given
//! twice. To be trusted is `ImplicitLetters` of `ftn_base`. Which ranges an IMPLICIT statement gives isn't said here.
#![tactic(auto)]

mod letter_map;
mod rows;

pub use ftn_base::Twice;
pub use letter_map::LetterMap;
