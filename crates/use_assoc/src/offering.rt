//! What one module exports, with an index.

ghost use Rattle.std.specs.Prelude.{◌≡◌, ◌<◌, IfOk, length};
ghost use Rattle.ftn_base.specs.Accessible as spec;
ghost use Rattle.use_assoc.specs.steps.Table.{found_in};

use crate::table::Table;
use ftn_base::{EntityId, Name, NoMemory};
use std::alloc::Global;
use std::marker::Model;

/// The pairs that a module exports, with an index by name that is built once and asked for any number of USE statements.
/// Contracts see the list of pairs.
#[derive(Drop)]
pub struct Exports {
    pairs: Vec<(Name, EntityId)>,
    table: Table,
}

impl Model for Exports {
    ghost use Rattle.std.specs.Prelude.{List, ◌≡◌};
    ghost use Rattle.ftn_base.specs.Exports.{Pair};
    ghost use Rattle.ftn_base.specs.Accessible.{entities_of};
    ghost use Rattle.use_assoc.specs.steps.Table.{found_in};

    ghost Value = { List Pair };

    ghost view = { λ a. a.pairs.items };

    ghost invariant = { λ a. found_in a.table.by_name ≡ entities_of a.pairs.items };
}

impl Exports {
    /// The index of these pairs.
    pub fn new(alloc: Global, pairs: Vec<(Name, EntityId)>) -> Result<Exports, NoMemory>
        ensures { IfOk result (λ made. made ≡ pairs.items) }
    {
        let table = Table::new(alloc, pairs.as_slice())?;
        Ok(Exports { pairs, table })
    }

    /// The pairs, in order.
    pub fn pairs(&self) -> &[(Name, EntityId)]
        ensures { result.now ≡ self.now }
    {
        self.pairs.as_slice()
    }

    /// The entities that are exported by that name, in order.
    pub fn entities(&self, name: &Name) -> &[EntityId]
        ensures { result.now ≡ spec.entities_of self.now name.now }
    {
        self.table().find(name)
    }

    /// The entities by name.
    pub(crate) fn table(&self) -> &Table
        ensures { found_in result.now.by_name ≡ spec.entities_of self.now }
    {
        &self.table
    }
}

/// What the module of that number exports.
pub(crate) fn exports_at(exports: &[Exports], number: u32) -> &Exports
    requires { number < length exports.now }
    ensures { result.now ≡ spec.exports_of exports.now number }
{
    &exports[number as usize]
}
