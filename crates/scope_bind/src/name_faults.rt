//! The faults of names (Fortran 90, 5.3, 11.3.2, 14.1.2).

ghost use Rattle.std.specs.Prelude.{◌≡◌, ◌<◌, ℕ, List, slice_get, IfOk, Some};
ghost use Rattle.std.specs.List.{flat_map};
ghost use Rattle.std.specs.Option.{unwrap_or};
ghost use Rattle.ftn_base.specs.declared.entity.Letter.TheVariants as no_type;
ghost use Rattle.ftn_tree.specs.Bindings.{Denoting, denotings, is_letter_typed as letter_typed};
ghost use Rattle.ftn_tree.specs.DeclarationFaults.{first_finding};
ghost use Rattle.ftn_tree.specs.Extents.{scoping as scoping_of};
ghost use Rattle.ftn_tree.specs.Meanings.{Key};
ghost use Rattle.ftn_tree.specs.NameFaults as spec;
ghost use Rattle.scope_bind.specs.steps.Globals.{unit_at, IsNumber};
ghost use Rattle.scope_bind.specs.steps.Known.{IsKnown};
ghost use Rattle.scope_bind.specs.steps.Meaning.{used_everywhere};
ghost use Rattle.scope_bind.specs.steps.NameFaults as steps;
ghost use Rattle.scope_bind.specs.steps.Numbering as numbers;
ghost use Rattle.scope_bind.specs.steps.Occurrences.{all_denoted, denoted};

use crate::declared::Declared;
use crate::distinct::{distinct, said_tokens};
use crate::finding::{Kinds, earlier, found};
use crate::index::found_in;
use crate::known::Known;
use crate::meaning::Meaning;
use crate::occurrences::Denoted;
use decl_table::finding::{Finding, Place};
use decl_table::forms::{first_token_at, name_at, name_token};
use decl_table::spelled::name_of;
use ftn_base::{EntityId, FaultKind, Letter, Name, NoMemory};
use ftn_tree::EntityKind;
use std::alloc::Global;
use use_assoc::Exports;

/// Where the entity begins that a scoping unit is.
fn unit_place(known: &Known<'_, '_>, scope: u32) -> Place
    requires known { IsKnown known.now }
    requires within { IsNumber known.now.files.now scope }
    ensures { result ≡ spec.key_place known.now.files.now (steps.unit_key known.now.files.now scope) }
{
    let unit = known.unit(scope);
    match name_token(known.files, unit) {
        Some(token) => Place {
            file: unit.file,
            token,
        },
        None => Place {
            file: unit.file,
            token: first_token_at(known.files, unit.file, unit.opening),
        },
    }
}

/// Where the entity begins that a name is in a scoping unit.
fn begin_place(known: &Known<'_, '_>, scope: u32, name: &[u8]) -> Place
    requires known { IsKnown known.now }
    requires within { IsNumber known.now.files.now scope }
    ensures { result ≡ steps.begin_place known.now.files.now scope name.now }
{
    Place {
        file: known.unit(scope).file,
        token: known.told(scope, name).place(),
    }
}

/// Where the entity begins that the name of an occurrence is in its scoping unit, or a first token where it stands in none.
fn own_place(known: &Known<'_, '_>, occurrence: u32) -> Place
    requires known { IsKnown known.now }
    requires within { occurrence < numbers.names_count known.now.files.now }
    ensures { (scope : ℕ) (name : List ℕ) → IsNumber known.now.files.now scope → numbers.own_occurrence known.now.files.now scope name ≡ Some occurrence
        → result ≡ steps.begin_place known.now.files.now scope name }
{
    let one = &known.tables.occurrences.as_slice()[occurrence as usize];
    if one.scope < known.numbering.units {
        begin_place(known, one.scope, one.name.bytes())
    } else {
        Place { file: 0, token: 0 }
    }
}

/// Where the entity of a provisional number begins.
fn entity_place(known: &Known<'_, '_>, entity: EntityId) -> Place
    requires known { IsKnown known.now }
    ensures { (key : Key) → numbers.IsNumbered known.now.files.now key → steps.IsMember known.now.files.now key → entity ≡ numbers.number known.now.files.now key
        → result ≡ spec.key_place known.now.files.now key }
{
    let units = known.numbering.units;
    if entity.0 < units {
        unit_place(known, entity.0)
    } else if entity.0 - units < known.numbering.occurrences {
        own_place(known, entity.0 - units)
    } else {
        Place { file: 0, token: 0 }
    }
}

fn reference_finding(known: &Known<'_, '_>, one: Denoted) -> Option<Finding>
    requires known { IsKnown known.now }
    ensures { (d : Denoting) → steps.IsNumberedMeaning known.now.files.now d.meaning → one ≡ denoted known.now.files.now d
        → result ≡ first_finding spec.name_rank (spec.reference_findings known.now.files.now d) }
{
    match one.meaning {
        Meaning::Several(_first, second) => Some(Finding {
            kind: FaultKind::Ambiguous,
            at: Place {
                file: one.file,
                token: one.token,
            },
            other: Some(entity_place(known, second)),
        }),
        Meaning::Unknown => Some(found(FaultKind::Unknown, one.file, one.token)),
        _ => None,
    }
}

/// The first fault of references.
pub(crate) fn first_of_references(known: &Known<'_, '_>, denoted: &[Denoted]) -> Option<Finding>
    requires known { IsKnown known.now }
    requires denoted { denoted.now ≡ all_denoted known.now.files.now }
    ensures { result ≡ first_finding spec.name_rank (flat_map (spec.reference_findings known.now.files.now) (denotings known.now.files.now)) }
{
    let mut first = None;
    for one in denoted {
        first = earlier(Kinds::Names, first, reference_finding(known, *one));
    }
    first
}

fn is_nothing(declared: Declared) -> bool
    ensures { result ≡ steps.is_nothing declared }
{
    matches!(declared, Declared::Nothing)
}

/// Whether the provisional number is that of what the name is in the scoping unit itself.
fn is_own_number(known: &Known<'_, '_>, scope: u32, name: &[u8], entity: EntityId) -> bool
    requires known { IsKnown known.now }
    requires within { IsNumber known.now.files.now scope }
    ensures { result ≡ steps.is_own_number known.now.files.now scope name.now entity }
{
    if found_in(&known.numbering.own, scope, name).is_none() {
        return false;
    }
    known.own_entity(scope, name).0 == entity.0
}

fn is_own_meaning(known: &Known<'_, '_>, scope: u32, name: &[u8], meaning: Meaning) -> bool
    requires known { IsKnown known.now }
    requires within { IsNumber known.now.files.now scope }
    ensures { result ≡ steps.is_own_meaning known.now.files.now scope name.now meaning }
{
    match meaning {
        Meaning::One(entity) => is_own_number(known, scope, name, entity),
        _ => false,
    }
}

/// Whether the name is that of an entity of the scoping unit which its first letter alone types.
pub(crate) fn is_letter_typed(
    known: &Known<'_, '_>,
    used: &[Exports],
    scope: u32,
    name: &Name,
) -> bool
    requires known { IsKnown known.now }
    requires within { IsNumber known.now.files.now scope }
    requires used { used.now ≡ used_everywhere known.now.files.now }
    ensures { result ≡ letter_typed known.now.files.now (unit_at known.now.files.now scope) name.now }
{
    let declared = known.declared(scope, name.bytes());
    if !is_nothing(declared) {
        return false;
    }
    let meaning = known.denotes(used, scope, name);
    is_own_meaning(known, scope, name.bytes(), meaning)
}

fn has_type(kind: Option<EntityKind>) -> bool
    ensures { result ≡ steps.has_some_type kind }
{
    matches!(
        kind,
        Some(EntityKind::Variable | EntityKind::Constant | EntityKind::Dummy | EntityKind::Answer)
    )
}

/// The place of the first letter of a name in the alphabet.
fn first_letter(name: &[u8]) -> u8
    ensures { result ≡ steps.first_letter name.now }
{
    match name.first() {
        Some(byte) => byte.saturating_sub(97),
        None => 0,
    }
}

/// What is wrong with the type of a letter.
fn fault_of_letter(letters: &[Letter], at: u8) -> Option<FaultKind>
    ensures { result ≡ steps.letter_kind (unwrap_or (slice_get letters.now at) no_type.Nothing) }
{
    match letters.get(at as usize) {
        Some(letter) => match letter {
            Letter::Known(_ty) => None,
            Letter::Real => Some(FaultKind::RealOutOfProfile),
            Letter::Nothing => Some(FaultKind::Unknown),
        },
        None => Some(FaultKind::Unknown),
    }
}

/// What is wrong with the first letter of a name, where that types it (5.3).
fn letter_fault(known: &Known<'_, '_>, scope: u32, name: &[u8]) -> Option<FaultKind>
    requires known { IsKnown known.now }
    requires within { IsNumber known.now.files.now scope }
    ensures { result ≡ steps.letter_kind (spec.letter_of known.now.files.now (unit_at known.now.files.now scope) name.now) }
{
    let entry = &known.tables.scopes.as_slice()[scope as usize];
    fault_of_letter(entry.letters.as_slice(), first_letter(name))
}

/// What the name declares in the scoping unit.
fn kind_of(known: &Known<'_, '_>, scope: u32, name: &[u8]) -> Option<EntityKind>
    requires known { IsKnown known.now }
    requires within { IsNumber known.now.files.now scope }
    ensures { result ≡ steps.kind_of known.now.files.now (unit_at known.now.files.now scope) name.now }
{
    let referenced = known.noted(scope, name).referenced;
    known
        .heard(scope, name)
        .kind(known.has_result(scope), referenced)
}

/// Whether a name is a constant, a variable or a result, and no type is written for it.
fn needs_type(known: &Known<'_, '_>, used: &[Exports], scope: u32, name: &Name) -> bool
    requires known { IsKnown known.now }
    requires within { IsNumber known.now.files.now scope }
    requires used { used.now ≡ used_everywhere known.now.files.now }
    ensures { result ≡ spec.needs_type known.now.files.now (unit_at known.now.files.now scope) name.now (spec.said_of known.now.files.now (unit_at known.now.files.now scope) name.now) }
{
    let heard = known.heard(scope, name.bytes());
    if heard.typed {
        return false;
    }
    if heard.answer {
        return true;
    }
    if has_type(kind_of(known, scope, name.bytes())) {
        return true;
    }
    is_letter_typed(known, used, scope, name)
}

/// A fault where a name begins in a scoping unit.
fn found_at(known: &Known<'_, '_>, kind: FaultKind, scope: u32, name: &[u8]) -> Finding
    requires known { IsKnown known.now }
    requires within { IsNumber known.now.files.now scope }
    ensures { result ≡ steps.found_at known.now.files.now kind (unit_at known.now.files.now scope) name.now }
{
    let token = known.told(scope, name).place();
    found(kind, known.unit(scope).file, token)
}

fn type_finding(known: &Known<'_, '_>, used: &[Exports], scope: u32, name: &Name) -> Option<Finding>
    requires known { IsKnown known.now }
    requires within { IsNumber known.now.files.now scope }
    requires used { used.now ≡ used_everywhere known.now.files.now }
    ensures { result ≡ first_finding spec.name_rank (steps.types_of known.now.files.now (unit_at known.now.files.now scope) name.now) }
{
    if !needs_type(known, used, scope, name) {
        return None;
    }
    match letter_fault(known, scope, name.bytes()) {
        Some(kind) => Some(found_at(known, kind, scope, name.bytes())),
        None => None,
    }
}

/// Whether USE makes something accessible by that name.
fn is_used(known: &Known<'_, '_>, used: &[Exports], scope: u32, name: &Name) -> bool
    requires known { IsKnown known.now }
    requires within { IsNumber known.now.files.now scope }
    requires used { used.now ≡ used_everywhere known.now.files.now }
    ensures { result ≡ steps.is_used known.now.files.now (unit_at known.now.files.now scope) name.now }
{
    !used[scope as usize].entities(name).is_empty()
}

fn local_finding(
    known: &Known<'_, '_>,
    used: &[Exports],
    scope: u32,
    name: &Name,
) -> Option<Finding>
    requires known { IsKnown known.now }
    requires within { IsNumber known.now.files.now scope }
    requires used { used.now ≡ used_everywhere known.now.files.now }
    ensures { result ≡ first_finding spec.name_rank (steps.locals_of known.now.files.now (unit_at known.now.files.now scope) name.now) }
{
    if !known.heard(scope, name.bytes()).declared {
        return None;
    }
    if !is_used(known, used, scope, name) {
        return None;
    }
    Some(found_at(known, FaultKind::Conflicting, scope, name.bytes()))
}

/// The first fault of a name that is said in a scoping unit.
fn name_finding(known: &Known<'_, '_>, used: &[Exports], scope: u32, name: &Name) -> Option<Finding>
    requires known { IsKnown known.now }
    requires within { IsNumber known.now.files.now scope }
    requires used { used.now ≡ used_everywhere known.now.files.now }
    ensures { result ≡ first_finding spec.name_rank (steps.findings_of known.now.files.now (unit_at known.now.files.now scope) name.now) }
{
    let of_type = type_finding(known, used, scope, name);
    let local = local_finding(known, used, scope, name);
    earlier(Kinds::Names, of_type, local)
}

/// The first fault of the names of a scoping unit.
fn first_of_scope(
    alloc: Global,
    known: &Known<'_, '_>,
    used: &[Exports],
    scope: u32,
) -> Result<Option<Finding>, NoMemory>
    requires known { IsKnown known.now }
    requires within { IsNumber known.now.files.now scope }
    requires used { used.now ≡ used_everywhere known.now.files.now }
    ensures { IfOk result (λ found. found ≡ first_finding spec.name_rank (spec.name_findings known.now.files.now (unit_at known.now.files.now scope))) }
{
    let file = known.unit(scope).file;
    let all = said_tokens(alloc, &known.said[scope as usize])?;
    let mut first = None;
    for token in &distinct(alloc, known.files, file, &all)? {
        let name = name_of(alloc, name_at(known.files, file, *token))?;
        let next = name_finding(known, used, scope, &name);
        first = earlier(Kinds::Names, first, next);
    }
    Ok(first)
}

/// The first fault of the names of all scoping units.
pub(crate) fn first_of_names(
    alloc: Global,
    known: &Known<'_, '_>,
    used: &[Exports],
) -> Result<Option<Finding>, NoMemory>
    requires known { IsKnown known.now }
    requires used { used.now ≡ used_everywhere known.now.files.now }
    ensures { IfOk result (λ found. found ≡ first_finding spec.name_rank (flat_map (spec.name_findings known.now.files.now) (scoping_of known.now.files.now))) }
{
    let mut first = None;
    for at in 0..known.scoping.units.len() {
        let next = first_of_scope(alloc, known, used, at as u32)?;
        first = earlier(Kinds::Names, first, next);
    }
    Ok(first)
}
