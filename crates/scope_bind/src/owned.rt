//! A module's own names, in the order in which they begin (Fortran 90, 5.2.3, 11.3.2).

ghost use Rattle.std.specs.Prelude.{◌≡◌, ◌++◌, ◌∷◌, [], map, IfOk, IfSome, OnOk};
ghost use Rattle.std.specs.List.{cons_option};
ghost use Rattle.ftn_tree.specs.Meanings as spec;
ghost use Rattle.ftn_tree.specs.Scopes as scopes;
ghost use Rattle.decl_table.specs.steps.Spelled.{IsSpelled};
ghost use Rattle.scope_bind.specs.declared.declared.Declared.TheVariants as made;
ghost use Rattle.scope_bind.specs.steps.Exporting as steps;
ghost use Rattle.scope_bind.specs.steps.Globals.{unit_at, IsNumber};
ghost use Rattle.scope_bind.specs.steps.Known.{IsKnown};
ghost use Rattle.scope_bind.specs.steps.Meaning as meanings;
ghost use Rattle.scope_bind.specs.steps.Meaning.{all_numbered};
ghost use Rattle.scope_bind.specs.steps.Owned as owned;

use crate::declared::Declared;
use crate::distinct::{declaring_tokens, distinct, mentioned_tokens};
use crate::known::Known;
use crate::meaning::{Meaning, or_meaning, used_meaning};
use crate::placed::{Placed, in_order};
use decl_table::declared_names::own_place;
use decl_table::forms::{name_at, name_token};
use decl_table::own::is_number;
use decl_table::spelled::name_of;
use ftn_base::{EntityId, Name, NoMemory};
use std::alloc::Global;
use use_assoc::Exports;

/// Where a name begins as an entity that the scoping unit declares.
fn own_begin(known: &Known<'_, '_>, scope: u32, name: &[u8]) -> u32
    requires known { IsKnown known.now }
    requires within { IsNumber known.now.files.now scope }
    ensures { result ≡ spec.begins_at known.now.files.now (unit_at known.now.files.now scope) (name.now, spec.own (unit_at known.now.files.now scope) name.now) }
{
    let heard = known.heard(scope, name);
    let noted = known.noted(scope, name);
    match heard.kind(known.has_result(scope), noted.referenced) {
        Some(kind) => own_place(kind, noted.first, &heard),
        None => noted.first,
    }
}

/// The procedure that the name at that token is, where it stands right inside the scoping unit.
fn inner_placed(known: &Known<'_, '_>, scope: u32, token: u32, inner: u32) -> Option<Placed>
    requires known { IsKnown known.now }
    requires within { IsNumber known.now.files.now scope }
    requires inner { IsNumber known.now.files.now inner }
    ensures pairs { map (owned.placed_pair known.now.files.now (unit_at known.now.files.now scope).file) (cons_option result [])
        ≡ map (owned.place_of known.now.files.now (unit_at known.now.files.now scope)) (steps.own_at known.now.files.now scope token (made.Unit inner)) }
    ensures name { IfSome result (λ one. one.name ≡ token) }
{
    if !is_number(scope, known.host(inner)) {
        return None;
    }
    Some(Placed {
        at: name_token(known.files, known.unit(inner)).unwrap_or(0),
        name: token,
        entity: known.unit_entity(inner),
    })
}

/// What the name at that token is in a scoping unit that declares it.
fn name_placed(known: &Known<'_, '_>, scope: u32, token: u32) -> Placed
    requires known { IsKnown known.now }
    requires within { IsNumber known.now.files.now scope }
    ensures pairs { map (owned.placed_pair known.now.files.now (unit_at known.now.files.now scope).file) (result ∷ [])
        ≡ map (owned.place_of known.now.files.now (unit_at known.now.files.now scope)) (steps.own_at known.now.files.now scope token made.Own) }
    ensures name { result.name ≡ token }
{
    let name = name_at(known.files, known.unit(scope).file, token);
    Placed {
        at: own_begin(known, scope, name),
        name: token,
        entity: known.own_entity(scope, name),
    }
}

/// What the name at that token is in a scoping unit, where it is an entity of its own.
fn own_placed(known: &Known<'_, '_>, scope: u32, token: u32, declared: Declared) -> Option<Placed>
    requires known { IsKnown known.now }
    requires within { IsNumber known.now.files.now scope }
    requires declared { steps.HasUnit known.now.files.now declared }
    ensures pairs { map (owned.placed_pair known.now.files.now (unit_at known.now.files.now scope).file) (cons_option result [])
        ≡ map (owned.place_of known.now.files.now (unit_at known.now.files.now scope)) (steps.own_at known.now.files.now scope token declared) }
    ensures name { IfSome result (λ one. one.name ≡ token) }
{
    match declared {
        Declared::Unit(inner) => inner_placed(known, scope, token, inner),
        Declared::Own => Some(name_placed(known, scope, token)),
        _ => None,
    }
}

/// Adds it where there is one.
fn push_if(one: Option<Placed>, placed: &mut Vec<Placed>) -> Result<(), NoMemory>
    ensures { OnOk result (placed.new.items ≡ placed.old.items ++ cons_option one []) }
{
    if let Some(one) = one {
        placed.push(one)?;
    }
    Ok(())
}

/// What a scoping unit declares, in order.
fn declared_placed(
    alloc: Global,
    known: &Known<'_, '_>,
    scope: u32,
) -> Result<Vec<Placed>, NoMemory>
    requires known { IsKnown known.now }
    requires within { IsNumber known.now.files.now scope }
    ensures pairs { IfOk result (λ made. map (owned.pair_of known.now.files.now (unit_at known.now.files.now scope).file) made.items
        ≡ all_numbered known.now.files.now (spec.declared_pairs known.now.files.now (unit_at known.now.files.now scope))) }
    ensures names { IfOk result (λ made. steps.AreSpelled known.now.files.now (unit_at known.now.files.now scope).file made.items) }
{
    let file = known.unit(scope).file;
    let all = declaring_tokens(alloc, &known.said[scope as usize])?;
    let tokens = distinct(alloc, known.files, file, &all)?;
    let mut placed = Vec::new(alloc);
    for token in &tokens {
        let declared = known.declared(scope, name_at(known.files, file, *token));
        let one = own_placed(known, scope, *token, declared);
        push_if(one, &mut placed)?;
    }
    in_order(alloc, &placed)
}

/// Whether it is nothing so far.
fn is_nothing(meaning: Meaning) -> bool
    ensures { result ≡ meanings.is_nothing meaning }
{
    matches!(meaning, Meaning::Nothing)
}

/// Whether nothing but its first letter tells what a name is, where `used` is what USE makes accessible in the scoping unit.
fn is_for_letter(known: &Known<'_, '_>, used: &Exports, scope: u32, name: &Name) -> bool
    requires known { IsKnown known.now }
    requires within { IsNumber known.now.files.now scope }
    ensures { (accessible : _) → used.now ≡ all_numbered known.now.files.now accessible
        → result ≡ steps.is_for_letter known.now.files.now accessible (unit_at known.now.files.now scope) name.now }
{
    let own = known.declared(scope, name.bytes());
    let declared = known.meaning_of(scope, name.bytes(), own);
    let meaning = or_meaning(declared, used_meaning(used.entities(name)));
    let plain = known.is_plain(scope, name.bytes());
    is_nothing(meaning) && plain
}

/// What the name at that token is, where nothing but its first letter tells it.
fn letter_at(
    alloc: Global,
    known: &Known<'_, '_>,
    used: &Exports,
    scope: u32,
    token: u32,
) -> Result<Option<Placed>, NoMemory>
    requires known { IsKnown known.now }
    requires within { IsNumber known.now.files.now scope }
    requires name { IsSpelled (scopes.name_at known.now.files.now (unit_at known.now.files.now scope).file token) }
    ensures pairs { IfOk result (λ one. (accessible : _) → used.now ≡ all_numbered known.now.files.now accessible
        → map (owned.placed_pair known.now.files.now (unit_at known.now.files.now scope).file) (cons_option one [])
        ≡ map (owned.place_of known.now.files.now (unit_at known.now.files.now scope)) (steps.letter_at known.now.files.now accessible scope token)) }
    ensures name { IfOk result (λ made. IfSome made (λ one. one.name ≡ token)) }
{
    let name = name_of(alloc, name_at(known.files, known.unit(scope).file, token))?;
    if !is_for_letter(known, used, scope, &name) {
        return Ok(None);
    }
    Ok(Some(name_placed(known, scope, token)))
}

/// What letters type in a scoping unit, in order.
fn letter_placed(
    alloc: Global,
    known: &Known<'_, '_>,
    used: &Exports,
    scope: u32,
) -> Result<Vec<Placed>, NoMemory>
    requires known { IsKnown known.now }
    requires within { IsNumber known.now.files.now scope }
    ensures pairs { IfOk result (λ made. (accessible : _) → used.now ≡ all_numbered known.now.files.now accessible
        → map (owned.pair_of known.now.files.now (unit_at known.now.files.now scope).file) made.items
        ≡ all_numbered known.now.files.now (steps.letters_placed known.now.files.now accessible (unit_at known.now.files.now scope))) }
    ensures names { IfOk result (λ made. steps.AreSpelled known.now.files.now (unit_at known.now.files.now scope).file made.items) }
{
    let file = known.unit(scope).file;
    let all = mentioned_tokens(alloc, &known.own[scope as usize])?;
    let tokens = distinct(alloc, known.files, file, &all)?;
    let mut placed = Vec::new(alloc);
    for token in &tokens {
        let one = letter_at(alloc, known, used, scope, *token)?;
        push_if(one, &mut placed)?;
    }
    in_order(alloc, &placed)
}

/// Adds the names of these with their entities.
fn push_pairs(
    alloc: Global,
    known: &Known<'_, '_>,
    scope: u32,
    placed: &[Placed],
    pairs: &mut Vec<(Name, EntityId)>,
) -> Result<(), NoMemory>
    requires known { IsKnown known.now }
    requires within { IsNumber known.now.files.now scope }
    requires names { steps.AreSpelled known.now.files.now (unit_at known.now.files.now scope).file placed.now }
    ensures { OnOk result (pairs.new.items ≡ pairs.old.items ++ map (owned.pair_of known.now.files.now (unit_at known.now.files.now scope).file) placed.now) }
{
    let file = known.unit(scope).file;
    for one in placed {
        let name = name_of(alloc, name_at(known.files, file, one.name))?;
        pairs.push((name, one.entity))?;
    }
    Ok(())
}

/// A module's own names: declared ones, and then those that letters type, where `used` is what USE makes accessible in it.
pub(crate) fn own_pairs(
    alloc: Global,
    known: &Known<'_, '_>,
    used: &Exports,
    scope: u32,
) -> Result<Vec<(Name, EntityId)>, NoMemory>
    requires known { IsKnown known.now }
    requires within { IsNumber known.now.files.now scope }
    ensures { IfOk result (λ pairs. (accessible : _) → used.now ≡ all_numbered known.now.files.now accessible
        → pairs.items ≡ all_numbered known.now.files.now (spec.own_pairs known.now.files.now accessible (unit_at known.now.files.now scope))) }
{
    let declared = declared_placed(alloc, known, scope)?;
    let letters = letter_placed(alloc, known, used, scope)?;
    let mut pairs = Vec::new(alloc);
    push_pairs(alloc, known, scope, &declared, &mut pairs)?;
    push_pairs(alloc, known, scope, &letters, &mut pairs)?;
    Ok(pairs)
}
