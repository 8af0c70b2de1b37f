//! Faults that more links cannot undo.

/// A fault that more links cannot undo.
#[derive(Clone, Copy)]
pub enum Kind {
    /// Ties extend a block before its first unit.
    Before,
    /// Ties join two blocks.
    Twins,
    /// Ties make a numeric and a character unit one that lists alone do not.
    Mixed,
    /// Lists make a numeric and a character unit one.
    MixedLists,
}
