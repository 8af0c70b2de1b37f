//! Laws of two resolved programs that do the same (the pairing of programs is this project's own).
//!
//! No code runs here. `Premises` in `specs/` says of two programs when one is the other with its variables and procedures renamed, its
//! storage laid out anew, and some variables read and assigned by calls; the laws say that they then do the same at each input and number of
//! steps, or with calls within five steps for each. To be trusted are all files of `specs/`, on those of `core_prog`. Not said is how a
//! program comes to meet the premises.
#![tactic(auto)]

mod laws;

pub use laws::{a_call_reads, a_copy_takes_four_steps, alike, keeps, same_units, swapped_calls};
