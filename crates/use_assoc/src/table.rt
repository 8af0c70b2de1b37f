//! The exports of modules by name.

ghost use Rattle.std.specs.Prelude.{◌≡◌, ◌<◌, ◌++◌, ◌∷◌, [], IfOk, OnOk, IsSome, IfSome, map, length, nat_eq, if◌then◌else◌};
ghost use Rattle.std.specs.Str.{bytes_eq};
ghost use Rattle.indexmap.specs.IndexMap.{get};
ghost use Rattle.ftn_base.specs.Accessible as spec;
ghost use Rattle.use_assoc.specs.steps.Table.{found_in, AreTables};

use ftn_base::{EntityId, Name, NoMemory};
use indexmap::IndexMap;
use sqlite_items::Items;
use std::alloc::Global;

/// The entities that a module exports, by name.
#[derive(Drop)]
pub struct Table {
    by_name: IndexMap<Name, Items<EntityId>>,
}

/// The table of each module that was asked for.
#[derive(Drop)]
pub struct Tables {
    by_module: IndexMap<u32, Table>,
}

fn add(table: &mut Table, alloc: Global, name: &Name, entity: EntityId) -> Result<(), NoMemory>
    ensures { OnOk result ((other : _) → found_in table.new.by_name other
        ≡ (if bytes_eq name.now other then found_in table.old.by_name other ++ entity ∷ [] else found_in table.old.by_name other)) }
{
    let mut entities = match table.by_name.swap_remove(name) {
        Some(entities) => entities,
        None => Items::new(alloc),
    };
    entities.push(entity)?;
    table.by_name.insert(name.copy(alloc)?, entities)?;
    Ok(())
}

/// What a module exports.
pub fn exports_of(exports: &[Vec<(Name, EntityId)>], number: u32) -> &[(Name, EntityId)]
    requires { number < length exports.now }
    ensures { result.now ≡ spec.exports_of (map (λ pairs. pairs.items) exports.now) number }
{
    exports[number as usize].as_slice()
}

impl Table {
    /// The table of these pairs.
    pub fn new(alloc: Global, pairs: &[(Name, EntityId)]) -> Result<Table, NoMemory>
        ensures { IfOk result (λ table. found_in table.by_name ≡ spec.entities_of pairs.now) }
    {
        let mut table = Table {
            by_name: IndexMap::new(alloc),
        };
        for pair in pairs {
            add(&mut table, alloc, &pair.0, pair.1)?;
        }
        Ok(table)
    }

    /// The entities of that name, in order.
    pub fn find(&self, name: &Name) -> &[EntityId]
        ensures { result.now ≡ found_in self.now.by_name name.now }
    {
        match self.by_name.get(name) {
            Some(entities) => entities.as_slice(),
            None => &[],
        }
    }
}

impl Tables {
    /// No tables. It takes no memory.
    pub fn new(alloc: Global) -> Tables
        ensures { (number : _) → get nat_eq result.by_module number ≡ None }
    {
        Tables {
            by_module: IndexMap::new(alloc),
        }
    }

    /// Makes the table of a module, unless it is there.
    pub fn prepare(
        &mut self,
        alloc: Global,
        exports: &[Vec<(Name, EntityId)>],
        number: u32,
    ) -> Result<(), NoMemory>
        requires number { number < length exports.now }
        requires tables { AreTables (map (λ pairs. pairs.items) exports.now) self.old.by_module }
        ensures there { OnOk result (IsSome (get nat_eq self.new.by_module number)) }
        ensures tables { OnOk result (AreTables (map (λ pairs. pairs.items) exports.now) self.new.by_module) }
    {
        if self.by_module.contains_key(&number) {
            return Ok(());
        }
        let table = Table::new(alloc, exports_of(exports, number))?;
        self.by_module.insert(number, table)?;
        Ok(())
    }

    /// The table of a module that was asked for.
    #[tactic(auto, using(crate::proofs::Modules::table_right))]
    pub fn of(&self, number: u32) -> &Table
        requires { IsSome (get nat_eq self.now.by_module number) }
        ensures { (exports : _) → AreTables exports self.now.by_module → found_in result.now.by_name ≡ spec.entities_of (spec.exports_of exports number) }
    {
        self.by_module.get(&number).unwrap()
    }
}
