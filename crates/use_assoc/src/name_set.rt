//! Sets of names.

ghost use Rattle.std.specs.Prelude.{◌≡◌, [], IfOk, OnOk, map};
ghost use Rattle.std.specs.Str.{bytes_eq};
ghost use Rattle.indexmap.specs.IndexSet.{insert_key, insert_all};
ghost use Rattle.ftn_base.specs.Exports.{is_among};

use ftn_base::{Name, NoMemory};
use indexmap::IndexSet;
use std::alloc::Global;
use std::marker::Model;

/// Names, each once. Contracts see them in the order in which they came.
#[derive(Drop)]
pub struct NameSet {
    names: IndexSet<Name>,
}

impl Model for NameSet {
    ghost use Rattle.std.specs.Prelude.{List, ℕ};

    ghost Value = { List (List ℕ) };

    ghost view = { λ a. a.names.keys };
}

impl NameSet {
    /// No names. It takes no memory.
    pub fn new(alloc: Global) -> NameSet
        ensures { result ≡ [] }
    {
        NameSet {
            names: IndexSet::new(alloc),
        }
    }

    /// Whether the name is one of them.
    pub fn has(&self, name: &Name) -> bool
        ensures { result ≡ is_among self.now name.now }
    {
        self.names.contains(name)
    }

    /// Adds a name, unless it is one of them.
    pub fn add(&mut self, alloc: Global, name: &Name) -> Result<(), NoMemory>
        ensures { OnOk result (self.new ≡ insert_key bytes_eq self.old name.now) }
    {
        self.names.insert(name.copy(alloc)?)?;
        Ok(())
    }
}

/// The names of a list.
pub fn set_of(alloc: Global, names: &[Name]) -> Result<NameSet, NoMemory>
    ensures { IfOk result (λ set. is_among set ≡ is_among names.now) }
{
    let mut set = NameSet::new(alloc);
    for name in names {
        set.add(alloc, name)?;
    }
    Ok(set)
}
