//! Renaming in a program in first form, its conditions and edits, and what keeps under it.
//!
//! `judge` accepts an order with the new text, or refuses it by the first condition that fails, at its least place. `rename_keeps` is the
//! law that an accepted rename keeps what the program does at each number of steps and what each name denotes; `first_meaning` runs
//! programs as the meaning says. To be trusted are `Names`, `Conditions`, `Edits`, `Renaming`, `Meaning`, `Kept` and `Keeping`; `steps`
//! and `MeaningLaws` serve proofs and laws. Nothing is said of programs that aren't in first form.
#![tactic(auto)]

mod conditions;
mod edits;
pub mod first_meaning;
mod judgement;
mod keeping;
mod rename;

pub use edits::{Edit, apply};
pub use judgement::{Cond, Judgement, judge};
pub use keeping::rename_keeps;
pub use rename::Rename;
