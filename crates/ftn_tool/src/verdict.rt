//! What becomes of a command over the files of a project.

use ftn_base::{Bytes, Fault, FileName, Limit};
use rename_ref::Cond;

/// A byte of a file of the project.
#[derive(Clone, Copy)]
pub struct Point {
    /// The number of the file, in byte order of names, from 0.
    pub file: u32,
    /// The offset of the byte.
    pub at: u32,
}

/// What becomes of a command over the files of a project.
#[derive(Drop)]
pub enum Verdict {
    /// A plan file waits for recovery.
    Waiting,
    /// The project passes this limit.
    Past(Limit),
    /// The project has this fault first.
    Broken(Fault),
    /// The project has no fault that this version looks for, and isn't in first form.
    NotBuilt,
    /// A condition of the order fails, at that place if it has one.
    Refused {
        /// The first condition that fails.
        cond: Cond,
        /// Its least place.
        at: Option<Point>,
    },
    /// The project has no fault.
    Checked {
        /// How many files it has.
        files: u32,
        /// How many program units.
        units: u32,
    },
    /// No condition of the order fails, and this file has a new text.
    Changed {
        /// Its name.
        name: FileName,
        /// Its new text.
        text: Bytes,
    },
}
