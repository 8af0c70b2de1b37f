//! Items of USE by the tokens in them (Fortran 90, 11.3.2).

ghost use Rattle.std.specs.Prelude.{◌≡◌, ◌++◌, nat_eq, if◌then◌else◌, map, Some, None, IfOk, OnOk, ℕ};
ghost use Rattle.std.specs.List.{flat_map};
ghost use Rattle.ftn_tree.specs.Bindings as spec;
ghost use Rattle.ftn_tree.specs.Extents.{layer_at};
ghost use Rattle.scope_bind.specs.steps.Exporting.{exported_everywhere};
ghost use Rattle.scope_bind.specs.steps.Items as steps;
ghost use Rattle.scope_bind.specs.steps.Known.{IsKnown};
ghost use Rattle.scope_bind.specs.steps.Uses.{module_token_at, used_by_token};

use crate::known::Known;
use crate::uses::module_token;
use decl_table::forms::{form_at, name_at};
use decl_table::spelled::name_of;
use ftn_base::{EntityId, NoMemory};
use ftn_tree::{Form, OnlyItem, Rename};
use indexmap::IndexMap;
use std::alloc::Global;
use use_assoc::Exports;

/// What a statement says as a USE: the number of the module, and for each token of an item the token of the name in the module.
#[derive(Drop)]
pub(crate) struct UseItems {
    pub number: Option<u32>,
    pub sources: IndexMap<u32, u32>,
}

fn push_renames(renames: &[Rename], found: &mut Vec<(u32, u32)>) -> Result<(), NoMemory>
    ensures { OnOk result (found.new.items ≡ found.old.items ++ flat_map spec.rename_tokens renames.now) }
{
    for one in renames {
        found.push((one.local, one.source))?;
        found.push((one.source, one.source))?;
    }
    Ok(())
}

fn push_only(items: &[OnlyItem], found: &mut Vec<(u32, u32)>) -> Result<(), NoMemory>
    ensures { OnOk result (found.new.items ≡ found.old.items ++ flat_map spec.only_tokens items.now) }
{
    for one in items {
        found.push((one.local.unwrap_or(one.source), one.source))?;
        found.push((one.source, one.source))?;
    }
    Ok(())
}

/// Adds each token of an item of a statement, and that of the name in the module.
fn push_items(
    known: &Known<'_, '_>,
    file: u32,
    statement: u32,
    found: &mut Vec<(u32, u32)>,
) -> Result<(), NoMemory>
    ensures { OnOk result (found.new.items ≡ found.old.items ++ steps.items_at (layer_at known.now.files.now file statement)) }
{
    match form_at(known.files, file, statement) {
        Some(Form::UseAll { renames, .. }) => push_renames(renames.as_slice(), found),
        Some(Form::UseOnly { items, .. }) => push_only(items.as_slice(), found),
        _ => Ok(()),
    }
}

fn put(sources: &mut IndexMap<u32, u32>, item: &(u32, u32)) -> Result<(), NoMemory>
    ensures { OnOk result ((other : ℕ) → steps.source_in sources.new other ≡ (if nat_eq item.now.0 other then Some item.now.1 else steps.source_in sources.old other)) }
{
    sources.insert(item.0, item.1)?;
    Ok(())
}

/// The names in the module, by the tokens of items.
fn sources_of(alloc: Global, items: &[(u32, u32)]) -> Result<IndexMap<u32, u32>, NoMemory>
    ensures { IfOk result (λ sources. (token : ℕ) → steps.source_in sources token ≡ steps.source_of token items.now) }
{
    let mut sources = IndexMap::new(alloc);
    let mut at = items.len();
    while at > 0 {
        at -= 1;
        put(&mut sources, &items[at])?;
    }
    Ok(sources)
}

/// The number of the module that a statement uses.
fn used_number(known: &Known<'_, '_>, file: u32, statement: u32) -> Option<u32>
    requires known { IsKnown known.now }
    ensures { result ≡ used_by_token known.now.files.now file (module_token_at known.now.files.now file statement) }
{
    match module_token(known, file, statement) {
        Some(token) => known.module_number(name_at(known.files, file, token)),
        None => None,
    }
}

/// What a statement says as a USE.
pub(crate) fn use_items(
    alloc: Global,
    known: &Known<'_, '_>,
    file: u32,
    statement: u32,
) -> Result<UseItems, NoMemory>
    requires known { IsKnown known.now }
    ensures { IfOk result (steps.AreItems known.now.files.now file statement) }
{
    let mut items = Vec::new(alloc);
    push_items(known, file, statement, &mut items)?;
    Ok(UseItems {
        number: used_number(known, file, statement),
        sources: sources_of(alloc, &items)?,
    })
}

/// What the item with a name at that token gives, where `exported` has what each module exports.
pub(crate) fn item_entities<'e>(
    alloc: Global,
    known: &Known<'_, '_>,
    exported: &'e [Exports],
    items: &UseItems,
    file: u32,
    statement: u32,
    token: u32,
) -> Result<&'e [EntityId], NoMemory>
    requires known { IsKnown known.now }
    requires exported { exported.now ≡ exported_everywhere known.now.files.now }
    requires items { steps.AreItems known.now.files.now file statement items.now }
    ensures { IfOk result (λ entities. entities.now ≡ steps.entities_at known.now.files.now file statement token) }
{
    let Some(number) = items.number else {
        return Ok(&[]);
    };
    let Some(source) = items.sources.get(&token).copied() else {
        return Ok(&[]);
    };
    let name = name_of(alloc, name_at(known.files, file, source))?;
    Ok(exported[number as usize].entities(&name))
}
