//! What names denote (Fortran 90, 5.3, 11.3.2, 12.3.2, 14.1.2).
//!
//! `bind` gives the tables of a project with what each name denotes, as they are defined, or exactly the first fault of its modules and
//! names. To be trusted are `Meanings`, `Bindings` and `NameFaults` of `ftn_tree`, and what they stand on; `specs` here serves proofs
//! alone. It isn't said how long a call takes: it grows about in line with statements and names, and with what USE makes accessible.
#![tactic(auto)]

mod binding;
mod candidates;
mod cycles;
mod declared;
mod distinct;
mod entities;
mod exporting;
mod finding;
mod globals;
mod index;
mod item_faults;
mod items;
mod known;
mod meaning;
mod name_faults;
mod names;
mod numbering;
mod occurrences;
mod owned;
mod placed;
mod told;
mod use_faults;
mod uses;

pub use binding::bind;
