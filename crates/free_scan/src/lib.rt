//! Reading free source form (Fortran 90, 3.3): pieces, tokens, and programs in first form.
//!
//! `scan` gives exactly the tokens of a text in an edition, or the first place at which it breaks a rule of source form, and ticks once
//! for each byte up to where it stops. `read_first_form` gives the program that a text in first form spells, or nothing. To be trusted are
//! `Lines`, `Code`, `Logical`, `Pieces`, `Reading` and `Breaks` of `ftn_tree`, `ScanFaults` here, and of first form `Lines`, `Pieces`,
//! `Tokens`, `Spelling`, `Clean` and `FirstForm` here; `steps` serves proofs alone. It isn't said how much memory a scan takes.
#![tactic(auto)]

pub mod first_form;
mod free_form;

pub use free_form::{ScanFault, one_row_of_pieces, scan};
