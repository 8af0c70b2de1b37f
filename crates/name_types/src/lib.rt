//! What the names of a project are in references: types, ranks, signatures and specific procedures (Fortran 90, 5.1, 12.2, 12.3.2.1, 12.4).
//!
//! `names_of` keeps the names of a project as references see them: of each entity its type, its rank and what it is, of each scoping unit
//! its dummy arguments and its result, of each generic name its specific procedures. To be trusted are `Procedures` and `KeyKinds` of
//! `ftn_tree`, and what they stand on, and of `specs/steps`, which else serves proofs alone, what the contract of `names_of` cites. It isn't
//! said how long a call takes.
#![tactic(auto)]

pub mod bodies;
pub mod declared;
pub mod extents;
pub mod gathering;
pub mod generics;
pub mod index;
pub mod kinds;
pub mod laws;
pub mod names;
pub mod namings;
pub mod signatures;
