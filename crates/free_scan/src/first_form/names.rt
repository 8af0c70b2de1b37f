//! Sets of names.

ghost use Rattle.std.specs.Prelude.{◌≡◌, ◌++◌, ◌∷◌, [], true, not, if◌then◌else◌, Some, None, IfOk};
ghost use Rattle.std.specs.List.{flat_map};
ghost use Rattle.free_scan.specs.Clean.{are_distinct, is_among};
ghost use Rattle.free_scan.specs.steps.Fresh.{are_fresh};

use ftn_base::{Name, NoMemory};
use indexmap::IndexSet;
use sqlite_items::Items;
use std::alloc::Global;
use std::marker::Model;

/// Names, each once. Contracts see them in the order in which they came.
#[derive(Drop)]
pub struct NameSet {
    names: IndexSet<Name>,
}

impl Model for NameSet {
    ghost use Rattle.std.specs.Prelude.{List, ℕ};

    ghost Value = { List (List ℕ) };

    ghost view = { λ a. a.names.keys };
}

impl NameSet {
    /// No names. It takes no memory.
    pub fn new(alloc: Global) -> NameSet
        ensures { result ≡ [] }
    {
        NameSet {
            names: IndexSet::new(alloc),
        }
    }

    /// Whether the name is one of them.
    pub fn has(&self, name: &Name) -> bool
        ensures { result ≡ is_among self.now name.now }
    {
        self.names.contains(name)
    }

    /// Adds a name that is none of them, and answers whether it did.
    pub fn add(&mut self, alloc: Global, name: &Name) -> Result<bool, NoMemory>
        ensures added { IfOk result (λ added. added ≡ not (is_among self.old name.now)) }
        ensures names { IfOk result (λ added. added ≡ true → self.new ≡ self.old ++ name.now ∷ []) }
    {
        Ok(self.names.insert(name.copy(alloc)?)?)
    }
}

fn add_all(set: &mut NameSet, alloc: Global, names: &[Name]) -> Result<bool, NoMemory>
    ensures fresh { IfOk result (λ fresh. fresh ≡ are_fresh set.old names.now) }
    ensures names { IfOk result (λ fresh. fresh ≡ true → set.new ≡ set.old ++ names.now) }
{
    for name in names {
        if !set.add(alloc, name)? {
            return Ok(false);
        }
    }
    Ok(true)
}

/// The names of each list, or nothing where two are the same.
pub fn gather(alloc: Global, lists: &[Items<Name>]) -> Result<Option<NameSet>, NoMemory>
    ensures { IfOk result (λ found. found ≡ (if are_distinct (flat_map (λ names. names) lists.now) then Some (flat_map (λ names. names) lists.now) else None)) }
{
    let mut set = NameSet::new(alloc);
    for names in lists {
        if !add_all(&mut set, alloc, names.as_slice())? {
            return Ok(None);
        }
    }
    Ok(Some(set))
}
