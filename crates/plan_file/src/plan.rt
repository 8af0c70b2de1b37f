//! Plans of changes.

use ftn_base::{Bytes, FileName};
use sqlite_items::Items;

/// Files with their new texts. Contracts see them as a list.
#[derive(Drop)]
pub struct Plan {
    /// The files. In a valid plan they are 1 to 4096 in strictly rising byte order of names, each name ends in `.f90`, and no
    /// text is longer than 4194304 bytes, nor are all together longer than 16777216.
    pub files: Items<(FileName, Bytes)>,
}
