//! Scoping units and declarations (Fortran 90, 5, 12.5.2, 14.1.1, 14.1.2).
//!
//! `declare` gives the tables of a project as they are defined where its declarations have no fault, and else exactly their first fault:
//! its scoping units, each with its kind, path, host and letters, its declared entities, and where its names occur. To be trusted are
//! `Extents`, `Scopes`, `ScopeLetters`, `Sayings`, `Exclusions`, `GlobalNames`, `DeclarationFaults`, `DeclaredEntities` and `Projects`,
//! all of `ftn_tree`; `specs/steps` serves proofs alone. It isn't said how long a call takes: it grows about in line with statements and
//! names, but for the order of entities, which adds the logarithm of their number.
#![tactic(auto)]

pub mod block_names;
mod blocks;
pub mod declared_names;
pub mod draft;
pub mod draft_order;
pub mod drafts;
pub mod entities;
mod extents;
pub mod faults;
pub mod finding;
mod firsts;
pub mod forms;
pub mod global_names;
mod globals;
pub mod heard;
mod known_names;
mod letters;
mod name_drafts;
mod names;
pub mod noted;
pub mod occurrences;
pub mod own;
pub mod rows;
mod rules;
pub mod said_lists;
pub mod saying;
pub mod sayings;
mod scope_faults;
mod scopes;
pub mod scoping;
pub mod seen;
pub mod spelled;
mod statements;
mod tables;
mod unit_drafts;

pub use tables::declare;
