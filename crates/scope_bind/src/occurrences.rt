//! What each occurrence of a name denotes (Fortran 90, 11.3.2, 12.3.2.1, 14.1.2).

ghost use Rattle.std.specs.Prelude.{◌≡◌, ◌<◌, ◌++◌, map, Some, slice_get, IfOk, OnOk};
ghost use Rattle.std.specs.List.{flat_map};
ghost use Rattle.ftn_tree.specs.Bindings as spec;
ghost use Rattle.ftn_tree.specs.Extents.{scope_of};
ghost use Rattle.ftn_tree.specs.Sayings.{mentions_at};
ghost use Rattle.decl_table.specs.steps.Occurrences.{count_in, IsNameAt, AreNamesAt};
ghost use Rattle.scope_bind.specs.steps.Exporting.{exported_everywhere};
ghost use Rattle.scope_bind.specs.steps.Globals.{unit_at, IsNumber};
ghost use Rattle.scope_bind.specs.steps.Items.{AreItems, entities_at};
ghost use Rattle.scope_bind.specs.steps.Known.{IsKnown};
ghost use Rattle.scope_bind.specs.steps.Meaning.{numbered, used_everywhere};
ghost use Rattle.scope_bind.specs.steps.Occurrences as steps;

use crate::items::{UseItems, item_entities, use_items};
use crate::known::Known;
use crate::meaning::{Meaning, used_meaning};
use decl_table::forms::name_at;
use decl_table::occurrences::count_in;
use decl_table::rows::number_at;
use decl_table::sayings::push_statement;
use decl_table::scoping::scope_name;
use decl_table::spelled::name_of;
use ftn_base::{EntityId, NoMemory};
use ftn_tree::{Mention, Role};
use std::alloc::Global;
use use_assoc::Exports;

/// A token, and what its name denotes there.
#[derive(Clone, Copy)]
pub(crate) struct Denoted {
    pub file: u32,
    pub token: u32,
    pub meaning: Meaning,
}

/// What is known where occurrences are read: what USE makes accessible in each scoping unit, and what each module exports.
#[derive(Clone, Copy)]
pub(crate) struct Made<'a> {
    pub used: &'a [Exports],
    pub exported: &'a [Exports],
}

/// What the name of an opening denotes.
fn opened_meaning(known: &Known<'_, '_>, scope: u32) -> Meaning
    requires known { IsKnown known.now }
    requires within { IsNumber known.now.files.now scope }
    ensures { result ≡ numbered known.now.files.now (spec.opened_meaning known.now.files.now (unit_at known.now.files.now scope)) }
{
    if known.is_body(scope) {
        let name = scope_name(known.files, known.unit(scope));
        known.meaning_of(scope, name, known.procedure_named(name))
    } else {
        Meaning::One(known.unit_entity(scope))
    }
}

fn block_meaning(known: &Known<'_, '_>, name: &[u8]) -> Meaning
    requires known { IsKnown known.now }
    ensures { result ≡ numbered known.now.files.now (spec.block_meaning known.now.files.now name.now) }
{
    if known.globals.blocks.contains(name) {
        Meaning::One(known.block_entity(name))
    } else {
        Meaning::Unknown
    }
}

fn module_meaning(known: &Known<'_, '_>, name: &[u8]) -> Meaning
    requires known { IsKnown known.now }
    ensures { result ≡ numbered known.now.files.now (spec.module_meaning known.now.files.now name.now) }
{
    match known.module_number(name) {
        Some(number) => Meaning::One(known.unit_entity(known.globals.modules[number as usize])),
        None => Meaning::Unknown,
    }
}

fn local_meaning(entities: &[EntityId]) -> Meaning
    ensures { result ≡ steps.local_meaning entities.now }
{
    match entities.first() {
        Some(entity) => Meaning::One(*entity),
        None => Meaning::Unknown,
    }
}

/// What a name denotes of which its place doesn't tell it.
fn name_meaning(
    alloc: Global,
    known: &Known<'_, '_>,
    used: &[Exports],
    scope: u32,
    mention: &Mention,
) -> Result<Meaning, NoMemory>
    requires known { IsKnown known.now }
    requires within { IsNumber known.now.files.now scope }
    requires used { used.now ≡ used_everywhere known.now.files.now }
    requires name { IsNameAt known.now.files.now (unit_at known.now.files.now scope).file mention.now }
    ensures { IfOk result (λ made. made ≡ steps.name_meaning known.now.files.now (unit_at known.now.files.now scope) mention.now) }
{
    let file = known.unit(scope).file;
    let name = name_of(alloc, name_at(known.files, file, mention.token))?;
    Ok(known.meaning_at(used, scope, mention, &name))
}

/// What a name denotes at a mention in a statement of the scoping unit.
fn meaning_by(
    alloc: Global,
    known: &Known<'_, '_>,
    made: Made<'_>,
    items: &UseItems,
    scope: u32,
    statement: u32,
    mention: &Mention,
) -> Result<Meaning, NoMemory>
    requires known { IsKnown known.now }
    requires within { IsNumber known.now.files.now scope }
    requires used { made.used.now ≡ used_everywhere known.now.files.now }
    requires exported { made.exported.now ≡ exported_everywhere known.now.files.now }
    requires items { AreItems known.now.files.now (unit_at known.now.files.now scope).file statement items.now }
    requires name { IsNameAt known.now.files.now (unit_at known.now.files.now scope).file mention.now }
    ensures { IfOk result (λ meaning. meaning ≡ steps.meaning_at known.now.files.now scope statement mention.now) }
{
    let unit = known.unit(scope);
    let token = mention.token;
    let name = name_at(known.files, unit.file, token);
    let (used, exported) = (made.used, made.exported);
    match mention.role {
        Role::Opens => Ok(opened_meaning(known, scope)),
        Role::Ends => {
            if statement == unit.ending {
                Ok(opened_meaning(known, scope))
            } else {
                name_meaning(alloc, known, used, scope, mention)
            }
        }
        Role::Slash => Ok(block_meaning(known, name)),
        Role::Module => Ok(module_meaning(known, name)),
        Role::Source => Ok(used_meaning(item_entities(
            alloc, known, exported, items, unit.file, statement, token,
        )?)),
        Role::Local => Ok(local_meaning(item_entities(
            alloc, known, exported, items, unit.file, statement, token,
        )?)),
        _ => name_meaning(alloc, known, used, scope, mention),
    }
}

/// Adds what the names of a statement denote that stands in the scoping unit.
fn push_mentions(
    alloc: Global,
    known: &Known<'_, '_>,
    made: Made<'_>,
    scope: u32,
    statement: u32,
    mentions: &[Mention],
    found: &mut Vec<Denoted>,
) -> Result<(), NoMemory>
    requires known { IsKnown known.now }
    requires within { IsNumber known.now.files.now scope }
    requires used { made.used.now ≡ used_everywhere known.now.files.now }
    requires exported { made.exported.now ≡ exported_everywhere known.now.files.now }
    requires names { AreNamesAt known.now.files.now (unit_at known.now.files.now scope).file mentions.now }
    ensures { OnOk result (found.new.items ≡ found.old.items ++ map (steps.denoted_by known.now.files.now scope statement) mentions.now) }
{
    let file = known.unit(scope).file;
    let items = use_items(alloc, known, file, statement)?;
    for mention in mentions {
        let meaning = meaning_by(alloc, known, made, &items, scope, statement, mention)?;
        found.push(Denoted {
            file,
            token: mention.token,
            meaning,
        })?;
    }
    Ok(())
}

/// Adds what the names of a statement denote.
fn push_at(
    alloc: Global,
    known: &Known<'_, '_>,
    made: Made<'_>,
    file: u32,
    statement: u32,
    found: &mut Vec<Denoted>,
) -> Result<(), NoMemory>
    requires known { IsKnown known.now }
    requires within { statement < count_in file known.now.files.now }
    requires used { made.used.now ≡ used_everywhere known.now.files.now }
    requires exported { made.exported.now ≡ exported_everywhere known.now.files.now }
    ensures { OnOk result (found.new.items ≡ found.old.items ++ steps.denoted_at known.now.files.now file statement) }
{
    let mut mentions = Vec::new(alloc);
    push_statement(alloc, known.files, file, statement, &mut mentions)?;
    match number_at(&known.scoping.rows, file, statement) {
        Some(scope) => push_mentions(alloc, known, made, scope, statement, &mentions, found),
        None => push_unknown(file, &mentions, found),
    }
}

/// Adds that the names denote nothing.
fn push_unknown(file: u32, mentions: &[Mention], found: &mut Vec<Denoted>) -> Result<(), NoMemory>
    ensures { OnOk result (found.new.items ≡ found.old.items ++ map (steps.unknown_at file) mentions.now) }
{
    for mention in mentions {
        found.push(Denoted {
            file,
            token: mention.token,
            meaning: Meaning::Unknown,
        })?;
    }
    Ok(())
}

/// Adds what the names of a file denote.
fn push_file(
    alloc: Global,
    known: &Known<'_, '_>,
    made: Made<'_>,
    file: u32,
    found: &mut Vec<Denoted>,
) -> Result<(), NoMemory>
    requires known { IsKnown known.now }
    requires used { made.used.now ≡ used_everywhere known.now.files.now }
    requires exported { made.exported.now ≡ exported_everywhere known.now.files.now }
    ensures { OnOk result (found.new.items ≡ found.old.items ++ steps.denoted_in_file known.now.files.now file) }
{
    for at in 0..count_in(known.files, file) {
        push_at(alloc, known, made, file, at as u32, found)?;
    }
    Ok(())
}

/// What each occurrence denotes, in their order.
pub(crate) fn all_denoted(
    alloc: Global,
    known: &Known<'_, '_>,
    made: Made<'_>,
) -> Result<Vec<Denoted>, NoMemory>
    requires known { IsKnown known.now }
    requires used { made.used.now ≡ used_everywhere known.now.files.now }
    requires exported { made.exported.now ≡ exported_everywhere known.now.files.now }
    ensures { IfOk result (λ found. found.items ≡ steps.all_denoted known.now.files.now) }
{
    let mut found = Vec::new(alloc);
    for at in 0..known.files.len() {
        push_file(alloc, known, made, at as u32, &mut found)?;
    }
    Ok(found)
}
