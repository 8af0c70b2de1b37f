//! Which names of scoping units are those of which entities.

ghost use Rattle.std.specs.Prelude.{◌≡◌, ◌<◌, ℕ, List, None, length, map, replicate, IfOk};
ghost use Rattle.std.specs.Option.{is_none};
ghost use Rattle.decl_table.specs.steps.Said.{IsWithin};
ghost use Rattle.const_value.specs.steps.Links as steps;
ghost use Rattle.const_value.specs.steps.Names.{number_at};

use crate::name_numbers::{Names, Numbers, number_in};
use ftn_base::NoMemory;
use ftn_tree::Entity;
use std::alloc::Global;

/// For each entity the number of the name under which what it holds is declared, and for each name the entity of its scoping unit.
#[derive(Drop)]
pub struct Links {
    /// For each entity the number of a name.
    pub name_of: Vec<Option<usize>>,
    /// For each name the number of an entity.
    pub entity_of: Vec<Option<usize>>,
}

/// The number of the entity's name in a scoping unit.
fn number_of(names: &[Numbers<'_>], scope: u32, entity: &Entity) -> Option<usize>
    ensures { result ≡ steps.number_of (number_at names.now) scope entity.now }
{
    match names.get(scope as usize) {
        Some(numbers) => match &entity.name {
            Some(name) => number_in(numbers, name.bytes()),
            None => None,
        },
        None => None,
    }
}

/// The number of the name under which what an entity holds is declared: in the scoping unit that it opens, else in that to which it belongs.
fn name_of(names: &[Numbers<'_>], entity: &Entity) -> Option<usize>
    ensures { result ≡ steps.name_of (number_at names.now) entity.now }
{
    match entity.opens {
        Some(scope) => number_of(names, scope, entity),
        None => match entity.home {
            Some(scope) => number_of(names, scope, entity),
            None => None,
        },
    }
}

/// Puts an entity that opens nothing as that of its name, where that has none.
fn put_entity(name: Option<usize>, entity: &Entity, number: usize, entity_of: &mut [Option<usize>])
    requires { IsWithin (length entity_of.old) name }
    ensures { entity_of.new ≡ steps.put_entity name entity.now number entity_of.old }
{
    if let Some(name) = name {
        if entity.opens.is_none() && entity_of[name].is_none() {
            entity_of[name] = Some(number);
        }
    }
}

/// The links between names and entities.
pub fn links_of(alloc: Global, names: &Names<'_>, entities: &[Entity]) -> Result<Links, NoMemory>
    requires { (scope : ℕ) (name : List ℕ) → IsWithin (length names.now.all.items) (number_at names.now.numbers.items scope name) }
    ensures name_of { IfOk result (λ links. links.name_of.items ≡ map (steps.name_of (number_at names.now.numbers.items)) entities.now) }
    ensures entity_of { IfOk result (λ links. links.entity_of.items ≡ steps.put_all (number_at names.now.numbers.items) 0 (replicate (length names.now.all.items) None) entities.now) }
{
    let mut found = Vec::new(alloc);
    let mut entity_of = vec![in alloc; None; names.all.len()]?;
    let mut number = 0;
    for entity in entities {
        let name = name_of(&names.numbers, entity);
        put_entity(name, entity, number, &mut entity_of);
        found.push(name)?;
        number += 1;
    }
    Ok(Links {
        name_of: found,
        entity_of,
    })
}
