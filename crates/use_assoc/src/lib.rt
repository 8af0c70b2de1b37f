//! USE association (Fortran 90, 11.3.2): what a module makes public, and what the USE statements of a scoping unit make accessible.
//!
//! `exports`, `accessible` and `association` give exactly the pairs that are defined, in their order, and exactly the
//! first item that isn't exported. `accessible` makes its own index of each module that the statements name;
//! `association` takes indexes that are made once for all scoping units, `Exports`. To be trusted are `Faults` here, and `Exports` and
//! `Accessible` of `ftn_base`; `steps` serves proofs alone. It isn't said how long a call takes: with indexes that
//! grows in line with the items, and for a statement without ONLY with the names of its module.
#![tactic(auto)]

mod access;
mod associating;
mod fault;
mod given;
mod groups;
mod name_set;
mod offering;
mod table;
mod uses;

pub use access::exports;
pub use associating::{Accessible, association, pairs_of};
pub use fault::UseFault;
pub use ftn_base::{Access, UseItem, UseList};
pub use offering::Exports;
pub use uses::accessible;
