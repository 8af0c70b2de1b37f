//! All entities of a project, with their numbers (Fortran 90, 5.3, 13.10, 14.1).

ghost use Rattle.std.specs.Prelude.{◌≡◌, ◌+◌, ◌++◌, ◌∷◌, [], length, map, IfOk, OnOk};
ghost use Rattle.std.specs.List.{cons_option, flat_map};
ghost use Rattle.ftn_tree.specs.Bindings as spec;
ghost use Rattle.ftn_tree.specs.Extents.{scoping as scoping_of};
ghost use Rattle.ftn_tree.specs.GlobalNames.{firsts_after};
ghost use Rattle.ftn_tree.specs.Scopes.{name_at as name_at_of};
ghost use Rattle.decl_table.specs.steps.Blocks.{global_of};
ghost use Rattle.decl_table.specs.steps.Drafts.{drafted_of};
ghost use Rattle.decl_table.specs.steps.Spelled.{IsSpelled};
ghost use Rattle.scope_bind.specs.steps.Entities as steps;
ghost use Rattle.scope_bind.specs.steps.Globals.{unit_at, IsNumber};
ghost use Rattle.scope_bind.specs.steps.Known.{IsKnown};
ghost use Rattle.scope_bind.specs.steps.Meaning.{used_everywhere};
ghost use Rattle.scope_bind.specs.steps.Occurrences.{all_denoted as denoted_of};

use crate::distinct::{distinct, mentioned_tokens};
use crate::index::found_in;
use crate::known::Known;
use crate::meaning::Meaning;
use crate::name_faults::is_letter_typed;
use crate::occurrences::Denoted;
use decl_table::block_names::TokenAt;
use decl_table::draft::Draft;
use decl_table::draft_order::in_order;
use decl_table::drafts::all_drafts;
use decl_table::entities::entities_from;
use decl_table::forms::name_at;
use decl_table::seen::{Seen, is_first};
use decl_table::spelled::name_of;
use ftn_base::NoMemory;
use ftn_tree::{Entity, EntityKind, FileTree};
use indexmap::IndexSet;
use sqlite_items::Items;
use std::alloc::Global;
use use_assoc::Exports;

/// The name at a token of a scoping unit, where its first letter types it.
fn letter_draft(
    alloc: Global,
    known: &Known<'_, '_>,
    used: &[Exports],
    scope: u32,
    token: u32,
) -> Result<Option<Draft>, NoMemory>
    requires known { IsKnown known.now }
    requires within { IsNumber known.now.files.now scope }
    requires used { used.now ≡ used_everywhere known.now.files.now }
    requires name { IsSpelled (name_at_of known.now.files.now (unit_at known.now.files.now scope).file token) }
    ensures { IfOk result (λ draft. map (drafted_of known.now.files.now) (cons_option draft []) ≡ steps.letter_at known.now.files.now (unit_at known.now.files.now scope) token) }
{
    let file = known.unit(scope).file;
    let name = name_of(alloc, name_at(known.files, file, token))?;
    if !is_letter_typed(known, used, scope, &name) {
        return Ok(None);
    }
    Ok(Some(Draft {
        file,
        token: known.noted(scope, name.bytes()).first,
        last: false,
        name: Some(token),
        home: Some(scope),
        kind: EntityKind::Variable,
        implicit: true,
        opens: None,
    }))
}

/// Adds it where there is one.
fn push_if(draft: Option<Draft>, found: &mut Vec<Draft>) -> Result<(), NoMemory>
    ensures { OnOk result (found.new.items ≡ found.old.items ++ cons_option draft []) }
{
    if let Some(draft) = draft {
        found.push(draft)?;
    }
    Ok(())
}

/// Adds the names of a scoping unit that their first letters type (5.3).
fn push_letters(
    alloc: Global,
    known: &Known<'_, '_>,
    used: &[Exports],
    scope: u32,
    found: &mut Vec<Draft>,
) -> Result<(), NoMemory>
    requires known { IsKnown known.now }
    requires within { IsNumber known.now.files.now scope }
    requires used { used.now ≡ used_everywhere known.now.files.now }
    ensures { OnOk result (map (drafted_of known.now.files.now) found.new.items ≡ map (drafted_of known.now.files.now) found.old.items
        ++ spec.letter_drafts known.now.files.now (unit_at known.now.files.now scope)) }
{
    let all = mentioned_tokens(alloc, &known.own[scope as usize])?;
    for token in &distinct(alloc, known.files, known.unit(scope).file, &all)? {
        let draft = letter_draft(alloc, known, used, scope, *token)?;
        push_if(draft, found)?;
    }
    Ok(())
}

/// Adds those of all scoping units.
fn push_all_letters(
    alloc: Global,
    known: &Known<'_, '_>,
    used: &[Exports],
    found: &mut Vec<Draft>,
) -> Result<(), NoMemory>
    requires known { IsKnown known.now }
    requires used { used.now ≡ used_everywhere known.now.files.now }
    ensures { OnOk result (map (drafted_of known.now.files.now) found.new.items ≡ map (drafted_of known.now.files.now) found.old.items
        ++ flat_map (spec.letter_drafts known.now.files.now) (scoping_of known.now.files.now)) }
{
    for at in 0..known.scoping.units.len() {
        push_letters(alloc, known, used, at as u32, found)?;
    }
    Ok(())
}

/// Whether a name denotes the intrinsic function of its name.
fn is_intrinsic(known: &Known<'_, '_>, name: &[u8], meaning: Meaning) -> bool
    requires known { IsKnown known.now }
    ensures { result ≡ steps.is_intrinsic_number known.now.files.now name.now meaning }
{
    match meaning {
        Meaning::One(entity) => known.intrinsic_entity(name).0 == entity.0,
        _ => false,
    }
}

/// Where names denote the intrinsic functions of their names.
fn intrinsic_tokens(
    alloc: Global,
    known: &Known<'_, '_>,
    denoted: &[Denoted],
) -> Result<Vec<TokenAt>, NoMemory>
    requires known { IsKnown known.now }
    requires denoted { denoted.now ≡ denoted_of known.now.files.now }
    ensures { IfOk result (λ found. map (global_of known.now.files.now) found.items ≡ flat_map spec.intrinsic_at (spec.denotings known.now.files.now)) }
{
    let mut found = Vec::new(alloc);
    for one in denoted {
        let name = name_at(known.files, one.file, one.token);
        if is_intrinsic(known, name, one.meaning) {
            found.push(TokenAt {
                file: one.file,
                token: one.token,
            })?;
        }
    }
    Ok(found)
}

/// The intrinsic function of the name at that token.
fn draft_intrinsic(at: TokenAt) -> Draft
    ensures { result ≡ steps.intrinsic_as at }
{
    Draft {
        file: at.file,
        token: at.token,
        last: false,
        name: Some(at.token),
        home: None,
        kind: EntityKind::Intrinsic,
        implicit: false,
        opens: None,
    }
}

/// Adds the intrinsic function of each name, where that comes first.
fn push_firsts<'a>(
    alloc: Global,
    files: &'a [FileTree],
    names: &[TokenAt],
    found: &mut Vec<Draft>,
) -> Result<(), NoMemory>
    ensures { OnOk result (map (drafted_of files.now) found.new.items ≡ map (drafted_of files.now) found.old.items
        ++ map (spec.draft_intrinsic files.now) (firsts_after [] (map (global_of files.now) names.now))) }
{
    let mut seen: Seen<'a> = IndexSet::new(alloc);
    for at in names {
        if is_first(&mut seen, name_at(files, at.file, at.token))? {
            found.push(draft_intrinsic(*at))?;
        }
    }
    Ok(())
}

/// Adds each intrinsic function where a name first denotes it (13.10).
fn push_intrinsics(
    alloc: Global,
    known: &Known<'_, '_>,
    denoted: &[Denoted],
    found: &mut Vec<Draft>,
) -> Result<(), NoMemory>
    requires known { IsKnown known.now }
    requires denoted { denoted.now ≡ denoted_of known.now.files.now }
    ensures { OnOk result (map (drafted_of known.now.files.now) found.new.items ≡ map (drafted_of known.now.files.now) found.old.items
        ++ spec.intrinsic_drafts known.now.files.now) }
{
    let names = intrinsic_tokens(alloc, known, denoted)?;
    push_firsts(alloc, known.files, &names, found)?;
    Ok(())
}

/// All entities of a project, by file and first token, blank common last.
pub(crate) fn all_entities(
    alloc: Global,
    known: &Known<'_, '_>,
    used: &[Exports],
    denoted: &[Denoted],
) -> Result<Items<Entity>, NoMemory>
    requires known { IsKnown known.now }
    requires used { used.now ≡ used_everywhere known.now.files.now }
    requires denoted { denoted.now ≡ denoted_of known.now.files.now }
    ensures { IfOk result (λ entities. entities ≡ spec.bound_entities known.now.files.now) }
{
    let mut found = all_drafts(alloc, known.files, known.scoping, known.said, known.own)?;
    push_all_letters(alloc, known, used, &mut found)?;
    push_intrinsics(alloc, known, denoted, &mut found)?;
    let drafts = in_order(alloc, &found)?;
    entities_from(alloc, known.files, &drafts)
}

/// The provisional number of the scoping unit that an entity opens.
fn unit_number(known: &Known<'_, '_>, entity: &Entity) -> Option<u32>
    requires known { IsKnown known.now }
    ensures { result ≡ steps.unit_number_of known.now.files.now entity.now }
{
    match entity.opens {
        Some(scope) if scope < known.numbering.units => Some(scope),
        _ => None,
    }
}

/// The provisional number of the name of an entity in its home, where it has one there.
fn own_number(known: &Known<'_, '_>, entity: &Entity) -> Option<u32>
    requires known { IsKnown known.now }
    ensures { result ≡ steps.own_number_of known.now.files.now entity.now }
{
    if entity.opens.is_some() {
        return None;
    }
    let home = entity.home?;
    let name = match &entity.name {
        Some(name) => name.bytes(),
        None => return None,
    };
    let at = found_in(&known.numbering.own, home, name)?;
    Some(known.numbering.units + at)
}

/// The provisional number of a common block or an intrinsic function by its name.
fn name_number(known: &Known<'_, '_>, entity: &Entity) -> Option<u32>
    requires known { IsKnown known.now }
    ensures { result ≡ steps.name_number_of known.now.files.now entity.now }
{
    let name = match &entity.name {
        Some(name) => name.bytes(),
        None => return None,
    };
    let at = found_in(&known.numbering.names, 0, name)?;
    let occurrences = known.numbering.occurrences;
    match entity.kind {
        EntityKind::Block => Some(known.numbering.units + occurrences + at),
        EntityKind::Intrinsic => Some(known.numbering.units + occurrences + occurrences + at),
        _ => None,
    }
}

fn put_if(numbers: &mut [u32], number: Option<u32>, at: u32)
    ensures { numbers.new ≡ steps.put_if number at numbers.old }
{
    if let Some(number) = number {
        if (number as usize) < numbers.len() {
            numbers[number as usize] = at;
        }
    }
}

/// Gives an entity its number.
fn put_entity(known: &Known<'_, '_>, entity: &Entity, at: u32, numbers: &mut [u32])
    requires known { IsKnown known.now }
    ensures put { (rest : _) → length numbers.old ≡ steps.count_of known.now.files.now → steps.AreNumbers known.now.files.now (at + 1) rest numbers.old
        → steps.AreNumbers known.now.files.now at (entity.now ∷ rest) numbers.new }
    ensures long { length numbers.new ≡ length numbers.old }
{
    put_if(numbers, unit_number(known, entity), at);
    put_if(numbers, own_number(known, entity), at);
    put_if(numbers, name_number(known, entity), at);
}

/// For each provisional number the number of its entity, 0 where it has none.
pub(crate) fn final_numbers(
    alloc: Global,
    known: &Known<'_, '_>,
    entities: &[Entity],
) -> Result<Vec<u32>, NoMemory>
    requires known { IsKnown known.now }
    requires entities { entities.now ≡ spec.bound_entities known.now.files.now }
    ensures { IfOk result (λ numbers. steps.AreNumbers known.now.files.now 0 (spec.bound_entities known.now.files.now) numbers.items) }
{
    let occurrences = known.numbering.occurrences as usize;
    let count = known.numbering.units as usize + occurrences + occurrences + occurrences;
    let mut numbers = vec![in alloc; 0; count]?;
    let mut at = entities.len();
    while at > 0 {
        at -= 1;
        put_entity(known, &entities[at], at as u32, &mut numbers);
    }
    Ok(numbers)
}
