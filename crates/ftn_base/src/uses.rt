//! USE statements, and the accessibility statements of a module (Fortran 90, 5.2.3 and 11.3.2).

use crate::name::Name;
use sqlite_items::Items;

/// An item of a USE statement. Without `=>` both names are the same.
#[derive(Drop)]
pub struct UseItem {
    /// The name in the scoping unit.
    pub local: Name,
    /// The name in the module.
    pub source: Name,
}

/// A USE statement.
#[derive(Drop)]
pub struct UseList {
    /// The number of its module.
    pub module: u32,
    /// Whether it has ONLY.
    pub only: bool,
    /// Its items.
    pub items: Items<UseItem>,
}

/// The PUBLIC and PRIVATE statements of a module (5.2.3).
#[derive(Drop)]
pub struct Access {
    /// Whether a name that stands in neither list is public.
    pub default_public: bool,
    /// The names under PUBLIC.
    pub public: Items<Name>,
    /// The names under PRIVATE.
    pub private: Items<Name>,
}
