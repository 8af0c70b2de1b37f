//! Objects that ties of EQUIVALENCE bring into one sequence of storage units, with their offsets in it
//! (Fortran 90, 5.5.1 and 14.6.3).
//!
//! `classes` promises that two units are one exactly where a walk over the ties makes them one, or tells the first tie
//! that contradicts those before it. To be trusted are `Sound` and `Conflicts` here, and `Storage` of `ftn_base`;
//! `steps` serves proofs alone. It isn't said how long it takes: nearly in line with objects and ties.
#![tactic(auto)]

mod answer;
mod fault;
mod measuring;
mod moving;
mod numbering;
mod sequences;
mod solving;
mod start;

pub use answer::Classes;
pub use fault::TieFault;
pub use solving::classes;
