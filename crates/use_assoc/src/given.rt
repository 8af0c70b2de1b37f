//! The pairs that were given, each once.

ghost use Rattle.std.specs.Prelude.{◌≡◌, [], IfOk, OnOk};
ghost use Rattle.std.specs.Cmp.Lexicographic.{pointwise};
ghost use Rattle.std.specs.Cmp.Rules.{comparing, hashing};
ghost use Rattle.std.specs.Hash as fed;
ghost use Rattle.std.specs.Prelude.{◌==◌, nat_eq};
ghost use Rattle.std.proofs.Common.{rules};
ghost use Rattle.indexmap.specs.IndexSet.{insert_key};
ghost use Rattle.ftn_base.specs.Accessible.{is_same_pair};

use ftn_base::{EntityId, Name, NoMemory};
use indexmap::IndexSet;
use std::alloc::Global;
use std::hash::{Hash, Hasher};
use std::marker::Model;

/// An entity as a part of a key.
#[derive(Drop)]
struct Known {
    entity: EntityId,
}

impl Model for Known {
    ghost use Rattle.ftn_base.specs.declared.entity.EntityId.{EntityId};

    ghost Value = { EntityId };

    ghost view = { λ a. a.entity };
}

impl PartialEq for Known {
    ghost eq = { λ a b. nat_eq a.0 b.0 };

    ghost laws = { Prim.search (comparing, rules) };

    fn eq(&self, other: &Known) -> bool {
        self.entity.0 == other.entity.0
    }
}

impl Eq for Known {
    ghost laws = { Prim.search (comparing, rules) };
}

impl Hash for Known {
    ghost hash_input = { λ a. fed.u32 a.0 };

    ghost respects_eq = { Prim.search (hashing, rules) };

    fn hash<H: Hasher>(&self, state: &mut H) {
        self.entity.0.hash(state);
    }
}

/// Pairs of a name and an entity, each once. Contracts see them in the order in which they came.
#[derive(Drop)]
pub struct Given {
    pairs: IndexSet<(Name, Known)>,
}

impl Model for Given {
    ghost use Rattle.std.specs.Prelude.{List};
    ghost use Rattle.ftn_base.specs.Exports.{Pair};

    ghost Value = { List Pair };

    ghost view = { λ a. a.pairs.keys };
}

impl Given {
    /// No pairs. It takes no memory.
    pub fn new(alloc: Global) -> Given
        ensures { result ≡ [] }
    {
        Given {
            pairs: IndexSet::new(alloc),
        }
    }

    /// Adds a pair, unless it is one of them.
    pub fn add(&mut self, alloc: Global, name: &Name, entity: EntityId) -> Result<(), NoMemory>
        ensures { OnOk result (self.new ≡ insert_key is_same_pair self.old (name.now, entity)) }
    {
        self.pairs.insert((name.copy(alloc)?, Known { entity }))?;
        Ok(())
    }

    /// The pairs in order.
    pub fn pairs(&self, alloc: Global) -> Result<Vec<(Name, EntityId)>, NoMemory>
        ensures { IfOk result (λ pairs. pairs.items ≡ self.now) }
    {
        let mut pairs = Vec::new(alloc);
        for key in self.pairs.as_slice() {
            pairs.push((key.0.copy(alloc)?, key.1.entity))?;
        }
        Ok(pairs)
    }
}
