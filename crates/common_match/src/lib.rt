//! The shapes of lists in COMMON, compared (Fortran 90, 5.5.2).
//!
//! `same_shape` tells exactly the first position at which two lists differ. To be trusted is `Differences`. Nothing is
//! said of names, of initial values or of storage units.
#![tactic(auto)]

mod lists;

pub use lists::{Mismatch, same_shape};
