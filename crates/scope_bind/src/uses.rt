//! USE statements (Fortran 90, 11.3.2).

ghost use Rattle.std.specs.Prelude.{◌≡◌, ◌++◌, map, IfOk, OnOk};
ghost use Rattle.std.specs.List.{list_any};
ghost use Rattle.ftn_tree.specs.Extents.{layer_at};
ghost use Rattle.ftn_tree.specs.Meanings as spec;
ghost use Rattle.ftn_tree.specs.NameFaults as faults;
ghost use Rattle.module_graph.specs.Uses.{used_lists};
ghost use Rattle.scope_bind.specs.steps.Globals.{unit_at, IsNumber};
ghost use Rattle.scope_bind.specs.steps.Known.{IsKnown};
ghost use Rattle.scope_bind.specs.steps.Uses as steps;

use crate::known::Known;
use decl_table::forms::{form_at, name_at};
use decl_table::own::own_statements;
use decl_table::spelled::name_of;
use ftn_base::{NoMemory, UseItem, UseList};
use ftn_tree::{AccessWord, Extent, Form, OnlyItem, Rename};
use sqlite_items::Items;
use std::alloc::Global;

fn use_item(
    alloc: Global,
    known: &Known<'_, '_>,
    file: u32,
    local: u32,
    source: u32,
) -> Result<UseItem, NoMemory>
    requires local { steps.IsNameAt known.now.files.now file local }
    requires source { steps.IsNameAt known.now.files.now file source }
    ensures { IfOk result (λ item. item ≡ steps.item known.now.files.now file local source) }
{
    Ok(UseItem {
        local: name_of(alloc, name_at(known.files, file, local))?,
        source: name_of(alloc, name_at(known.files, file, source))?,
    })
}

fn rename_items(
    alloc: Global,
    known: &Known<'_, '_>,
    file: u32,
    renames: &[Rename],
) -> Result<Items<UseItem>, NoMemory>
    requires { steps.AreRenames known.now.files.now file renames.now }
    ensures { IfOk result (λ items. items ≡ map (spec.rename_item known.now.files.now file) renames.now) }
{
    let mut items = Items::new(alloc);
    for one in renames {
        items.push(use_item(alloc, known, file, one.local, one.source)?)?;
    }
    Ok(items)
}

fn only_items(
    alloc: Global,
    known: &Known<'_, '_>,
    file: u32,
    listed: &[OnlyItem],
) -> Result<Items<UseItem>, NoMemory>
    requires { steps.AreOnlyItems known.now.files.now file listed.now }
    ensures { IfOk result (λ items. items ≡ map (spec.only_item known.now.files.now file) listed.now) }
{
    let mut items = Items::new(alloc);
    for one in listed {
        let local = one.local.unwrap_or(one.source);
        items.push(use_item(alloc, known, file, local, one.source)?)?;
    }
    Ok(items)
}

/// Adds what a statement lists, where it is a USE of a module of the project.
fn push_list(
    alloc: Global,
    known: &Known<'_, '_>,
    file: u32,
    statement: u32,
    lists: &mut Vec<UseList>,
) -> Result<(), NoMemory>
    requires known { IsKnown known.now }
    ensures { OnOk result (lists.new.items ≡ lists.old.items ++ spec.use_at known.now.files.now file (layer_at known.now.files.now file statement)) }
{
    match form_at(known.files, file, statement) {
        Some(
            Form::UseAll {
                module: token,
                renames,
            },
        ) => {
            if let Some(number) = known.module_number(name_at(known.files, file, *token)) {
                lists.push(UseList {
                    module: number,
                    only: false,
                    items: rename_items(alloc, known, file, renames.as_slice())?,
                })?;
            }
        }
        Some(
            Form::UseOnly {
                module: token,
                items,
            },
        ) => {
            if let Some(number) = known.module_number(name_at(known.files, file, *token)) {
                lists.push(UseList {
                    module: number,
                    only: true,
                    items: only_items(alloc, known, file, items.as_slice())?,
                })?;
            }
        }
        _ => {}
    }
    Ok(())
}

/// What the USE statements of a scoping unit list.
fn use_list(alloc: Global, known: &Known<'_, '_>, scope: u32) -> Result<Vec<UseList>, NoMemory>
    requires known { IsKnown known.now }
    requires within { IsNumber known.now.files.now scope }
    ensures { IfOk result (λ lists. lists.items ≡ spec.use_lists known.now.files.now (unit_at known.now.files.now scope)) }
{
    let unit = known.unit(scope);
    let own = own_statements(alloc, &known.scoping.rows, unit, scope)?;
    let mut lists = Vec::new(alloc);
    for statement in &own {
        push_list(alloc, known, unit.file, *statement, &mut lists)?;
    }
    Ok(lists)
}

/// For each scoping unit what its USE statements list.
pub(crate) fn all_lists(alloc: Global, known: &Known<'_, '_>) -> Result<Vec<Vec<UseList>>, NoMemory>
    requires known { IsKnown known.now }
    ensures { IfOk result (λ made. steps.AreLists known.now.files.now made.items) }
{
    let mut made = Vec::new(alloc);
    for at in 0..known.scoping.units.len() {
        made.push(use_list(alloc, known, at as u32)?)?;
    }
    Ok(made)
}

/// The token of the module's name, where a statement is a USE.
pub(crate) fn module_token(known: &Known<'_, '_>, file: u32, statement: u32) -> Option<u32>
    ensures { result ≡ steps.module_token_at known.now.files.now file statement }
{
    match form_at(known.files, file, statement) {
        Some(Form::UseAll { module: token, .. } | Form::UseOnly { module: token, .. }) => Some(
            *token,
        ),
        _ => None,
    }
}

/// Adds the module that a statement uses.
fn push_used(
    known: &Known<'_, '_>,
    file: u32,
    statement: u32,
    used: &mut Vec<u32>,
) -> Result<(), NoMemory>
    requires known { IsKnown known.now }
    ensures { OnOk result (used.new.items ≡ used.old.items ++ steps.used_at known.now.files.now file statement) }
{
    if let Some(token) = module_token(known, file, statement) {
        if let Some(number) = known.module_number(name_at(known.files, file, token)) {
            used.push(number)?;
        }
    }
    Ok(())
}

/// The modules that are used in a program unit, also in what is inside it.
fn used_in(alloc: Global, known: &Known<'_, '_>, unit: Extent) -> Result<Vec<u32>, NoMemory>
    requires known { IsKnown known.now }
    ensures { IfOk result (λ used. used.items ≡ steps.used_in known.now.files.now unit) }
{
    let mut used = Vec::new(alloc);
    let opening = unit.opening as usize;
    for at in opening..unit.ending as usize + 1 {
        push_used(known, unit.file, at as u32, &mut used)?;
    }
    Ok(used)
}

/// For each module the modules that it uses, also in what is inside it.
pub(crate) fn module_uses(alloc: Global, known: &Known<'_, '_>) -> Result<Vec<Vec<u32>>, NoMemory>
    requires known { IsKnown known.now }
    ensures { IfOk result (λ uses. used_lists uses.items ≡ faults.module_uses known.now.files.now) }
{
    let mut uses = Vec::new(alloc);
    for scope in &known.globals.modules {
        uses.push(used_in(alloc, known, known.unit(*scope))?)?;
    }
    Ok(uses)
}

fn is_private_default(known: &Known<'_, '_>, file: u32, statement: u32) -> bool
    ensures { result ≡ spec.is_private_default (layer_at known.now.files.now file statement) }
{
    match form_at(known.files, file, statement) {
        Some(
            Form::Access {
                word: AccessWord::Private,
                names,
                ..
            },
        ) => names.is_empty(),
        _ => false,
    }
}

fn any_private(known: &Known<'_, '_>, file: u32, own: &[u32]) -> bool
    ensures { result ≡ list_any (λ statement. spec.is_private_default (layer_at known.now.files.now file statement)) own.now }
{
    own.iter()
        .any(|statement| is_private_default(known, file, *statement))
}

/// Whether PRIVATE without names stands in a scoping unit (5.2.3).
pub(crate) fn is_private(alloc: Global, known: &Known<'_, '_>, scope: u32) -> Result<bool, NoMemory>
    requires known { IsKnown known.now }
    requires within { IsNumber known.now.files.now scope }
    ensures { IfOk result (λ private. private ≡ steps.is_private known.now.files.now (unit_at known.now.files.now scope)) }
{
    let unit = known.unit(scope);
    let own = own_statements(alloc, &known.scoping.rows, unit, scope)?;
    Ok(any_private(known, unit.file, &own))
}
