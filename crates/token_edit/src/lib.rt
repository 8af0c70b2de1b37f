//! Edits of a text: when they fit it, and the text that they make.
//!
//! `fits` says exactly whether edits fit, `apply` gives exactly the text that edits which fit make, and bytes outside
//! all ranges stay. To be trusted is `Edits`. What the text means isn't said here.
#![tactic(auto)]

mod applying;
mod edit;

pub use applying::{apply, bytes_outside_stay};
pub use edit::{Edit, fits};
