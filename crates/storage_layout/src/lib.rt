//! Where variables lie in storage sequences that COMMON and EQUIVALENCE make (Fortran 90, 5.5.1, 5.5.2 and 14.6.3).
//!
//! `layout` promises areas and offsets that are exactly those of walks over the links of lists and ties, or the first
//! of six faults. To be trusted are `Faults` here, and `Storage`, `StorageMembers`, `StorageGiven`, `StorageFaults` and
//! `StorageLayout` of `ftn_base`; `steps` serves proofs alone. It isn't said how long it takes: nearly in line with
//! objects, members and ties.
#![tactic(auto)]

mod answer;
mod common_size;
mod ends;
mod extension;
mod fault;
mod first;
mod holding;
mod joined_blocks;
mod joining;
mod kind;
mod laying;
mod limits;
mod member;
mod mixing;
mod naming;
mod reach;
mod reaches;
mod sorts;
mod span;
mod things;

pub use answer::Layout;
pub use fault::LayoutFault;
pub use ftn_base::{BlockList, Object};
pub use laying::layout;
