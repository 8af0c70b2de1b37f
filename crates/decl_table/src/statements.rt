//! Faults of IMPLICIT, and of PUBLIC and PRIVATE without names (Fortran 90, 5.2.3, 5.3).

ghost use Rattle.std.specs.Prelude.{◌≡◌, ◌++◌, map, IfOk, OnOk};
ghost use Rattle.std.specs.List.{flat_map};
ghost use Rattle.ftn_base.specs.ImplicitLetters as letters;
ghost use Rattle.ftn_tree.specs.DeclarationFaults as spec;
ghost use Rattle.ftn_tree.specs.Extents.{layer_at};
ghost use Rattle.ftn_tree.specs.ScopeLetters as implicit;
ghost use Rattle.ftn_tree.specs.Scopes as scopes;
ghost use Rattle.decl_table.specs.steps.Statements as steps;

use crate::finding::{Finding, Place, earlier};
use crate::forms::{first_token_at, form_at};
use crate::letters::{Given, given_range, put_given};
use crate::names::is_module;
use ftn_base::{FaultKind, NoMemory};
use ftn_tree::{Extent, FileTree, Form, ImplicitType, LetterGroup, LetterRange, ScopeKind};
use implicit_type::LetterMap;
use std::alloc::Global;

/// The first of conflicts at these tokens.
fn first_at(file: u32, tokens: &[u32]) -> Option<Finding>
    ensures { result ≡ spec.first_finding spec.declaration_rank (steps.conflicts file tokens.now) }
{
    let mut found = None;
    for token in tokens {
        let next = Finding {
            kind: FaultKind::Conflicting,
            at: Place {
                file,
                token: *token,
            },
            other: None,
        };
        found = earlier(found, Some(next));
    }
    found
}

fn push_ranges(
    files: &[FileTree],
    file: u32,
    written: &ImplicitType,
    ranges: &[LetterRange],
    found: &mut Vec<Given>,
) -> Result<(), NoMemory>
    ensures { OnOk result (found.new.items ≡ found.old.items ++ map (implicit.given_range files.now file written.now) ranges.now) }
{
    for range in ranges {
        found.push(given_range(files, file, written, range))?;
    }
    Ok(())
}

fn push_groups(
    files: &[FileTree],
    file: u32,
    groups: &[LetterGroup],
    found: &mut Vec<Given>,
) -> Result<(), NoMemory>
    ensures { OnOk result (found.new.items ≡ found.old.items ++ flat_map (implicit.given_group files.now file) groups.now) }
{
    for group in groups {
        push_ranges(files, file, &group.ty, group.ranges.as_slice(), found)?;
    }
    Ok(())
}

fn push_given(
    files: &[FileTree],
    file: u32,
    statement: u32,
    found: &mut Vec<Given>,
) -> Result<(), NoMemory>
    ensures { OnOk result (found.new.items ≡ found.old.items ++ steps.givens_in files.now file statement) }
{
    match form_at(files, file, statement) {
        Some(
            Form::Implicit {
                groups: Some(groups),
            },
        ) => push_groups(files, file, groups.as_slice(), found),
        _ => Ok(()),
    }
}

/// All ranges that the IMPLICIT statements among these give, in their order.
fn givens_among(
    alloc: Global,
    files: &[FileTree],
    file: u32,
    own: &[u32],
) -> Result<Vec<Given>, NoMemory>
    ensures { IfOk result (λ found. found.items ≡ flat_map (steps.givens_in files.now file) own.now) }
{
    let mut found = Vec::new(alloc);
    for statement in own {
        push_given(files, file, *statement, &mut found)?;
    }
    Ok(found)
}

/// Adds the first token of a range that gives a letter which was given before.
fn push_again(map: &LetterMap, given: &Given, tokens: &mut Vec<u32>) -> Result<(), NoMemory>
    ensures { OnOk result (tokens.new.items ≡ tokens.old.items ++ steps.again_at map.now given.now) }
{
    if map.was_given(given.from, given.to) {
        tokens.push(given.token)?;
    }
    Ok(())
}

/// The first tokens of ranges that give a letter that one before them gave.
fn given_again(alloc: Global, givens: &[Given]) -> Result<Vec<u32>, NoMemory>
    ensures { IfOk result (λ tokens. tokens.items ≡ implicit.given_again letters.none givens.now) }
{
    let mut tokens = Vec::new(alloc);
    let mut map = LetterMap::none();
    for given in givens {
        push_again(&map, given, &mut tokens)?;
        map = put_given(&map, given);
    }
    Ok(tokens)
}

/// Whether it is IMPLICIT NONE, where it is IMPLICIT.
fn implicit_none(files: &[FileTree], file: u32, statement: u32) -> Option<bool>
    ensures { result ≡ steps.implicit_none (layer_at files.now file statement) }
{
    match form_at(files, file, statement) {
        Some(Form::Implicit { groups }) => Some(groups.is_none()),
        _ => None,
    }
}

/// What IMPLICIT statements came: whether any did, and whether IMPLICIT NONE did.
#[derive(Clone, Copy)]
struct Came {
    any: bool,
    none: bool,
}

/// What came after the statement too.
fn with_statement(came: Came, implicit: Option<bool>) -> Came
    ensures { result ≡ steps.with_statement came implicit }
{
    match implicit {
        Some(none) => Came {
            any: true,
            none: came.none || none,
        },
        None => came,
    }
}

/// Whether it is IMPLICIT after another one, one of the two being IMPLICIT NONE.
fn is_beside(came: Came, implicit: Option<bool>) -> bool
    ensures { result ≡ steps.is_beside came implicit }
{
    match implicit {
        Some(none) => (none && came.any) || came.none,
        None => false,
    }
}

/// Adds the first token of the statement, where it is one of those.
fn push_first(
    files: &[FileTree],
    file: u32,
    statement: u32,
    holds: bool,
    tokens: &mut Vec<u32>,
) -> Result<(), NoMemory>
    ensures { OnOk result (tokens.new.items ≡ tokens.old.items ++ steps.first_if files.now file statement holds) }
{
    if holds {
        tokens.push(first_token_at(files, file, statement))?;
    }
    Ok(())
}

/// The first tokens of IMPLICIT statements that come after another one, one of the two being IMPLICIT NONE.
fn beside_none(
    alloc: Global,
    files: &[FileTree],
    file: u32,
    own: &[u32],
) -> Result<Vec<u32>, NoMemory>
    ensures { IfOk result (λ tokens. tokens.items ≡ steps.beside_by files.now file steps.nothing own.now) }
{
    let mut tokens = Vec::new(alloc);
    let mut came = Came {
        any: false,
        none: false,
    };
    for statement in own {
        let implicit = implicit_none(files, file, *statement);
        push_first(
            files,
            file,
            *statement,
            is_beside(came, implicit),
            &mut tokens,
        )?;
        came = with_statement(came, implicit);
    }
    Ok(tokens)
}

/// Whether it is PUBLIC or PRIVATE without names.
fn is_default_access(files: &[FileTree], file: u32, statement: u32) -> bool
    ensures { result ≡ spec.is_default_access (layer_at files.now file statement) }
{
    match form_at(files, file, statement) {
        Some(Form::Access { names, .. }) => names.is_empty(),
        _ => false,
    }
}

/// The first tokens of PUBLIC and PRIVATE statements without names.
fn default_accesses(
    alloc: Global,
    files: &[FileTree],
    file: u32,
    own: &[u32],
) -> Result<Vec<u32>, NoMemory>
    ensures { IfOk result (λ tokens. tokens.items ≡ flat_map (steps.access_at files.now file) own.now) }
{
    let mut tokens = Vec::new(alloc);
    for statement in own {
        let holds = is_default_access(files, file, *statement);
        push_first(files, file, *statement, holds, &mut tokens)?;
    }
    Ok(tokens)
}

/// The same outside of modules, and none in a module.
fn accesses(
    alloc: Global,
    files: &[FileTree],
    file: u32,
    kind: ScopeKind,
    own: &[u32],
) -> Result<Vec<u32>, NoMemory>
    ensures { IfOk result (λ tokens. tokens.items ≡ steps.access_by files.now file kind own.now) }
{
    if is_module(kind) {
        return Ok(Vec::new(alloc));
    }
    default_accesses(alloc, files, file, own)
}

/// The first fault of IMPLICIT statements in a scoping unit, or of PUBLIC or PRIVATE without names outside of modules.
pub(crate) fn statements_fault(
    alloc: Global,
    files: &[FileTree],
    unit: Extent,
    kind: ScopeKind,
    own: &[u32],
) -> Result<Option<Finding>, NoMemory>
    requires kind { kind ≡ scopes.scope_kind files.now unit }
    requires own { own.now ≡ scopes.own_statements files.now unit }
    ensures { IfOk result (λ found. found ≡ spec.first_finding spec.declaration_rank (spec.letter_faults files.now unit ++ (spec.none_faults files.now unit ++ spec.access_faults files.now unit))) }
{
    let givens = givens_among(alloc, files, unit.file, own)?;
    let again = given_again(alloc, &givens)?;
    let beside = beside_none(alloc, files, unit.file, own)?;
    let access = accesses(alloc, files, unit.file, kind, own)?;
    let letters = first_at(unit.file, &again);
    let none = first_at(unit.file, &beside);
    let last = first_at(unit.file, &access);
    Ok(earlier(letters, earlier(none, last)))
}
