//! The order to rename.

use ftn_base::{Bytes, FileName};

/// The order to give the entity that a name token denotes a new name, everywhere.
#[derive(Drop)]
pub struct Rename {
    /// The file of the name token.
    pub file: FileName,
    /// The line of one of its bytes, from 1.
    pub line: u32,
    /// The column of that byte, from 1.
    pub column: u32,
    /// The new name, as it is written.
    pub new: Bytes,
}
