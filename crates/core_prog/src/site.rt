//! Where in the project something is written.

/// A token of the project.
#[derive(Clone, Copy)]
pub struct Site {
    /// The number of its file.
    pub file: u32,
    /// Its number in the file, from 0.
    pub token: u32,
}
