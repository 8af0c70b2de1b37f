//! What the statements of a scoping unit say of its names.

ghost use Rattle.std.specs.Prelude.{◌≡◌, ◌≤◌, ◌<◌, ◌+◌, ◌++◌, length, map, slice_get, Some, [], IfOk, OnOk};
ghost use Rattle.std.specs.List.{flat_map};
ghost use Rattle.ftn_tree.specs.DeclarationFaults as faults;
ghost use Rattle.ftn_tree.specs.Extents as extents;
ghost use Rattle.ftn_tree.specs.Projects.{AreTrees};
ghost use Rattle.ftn_tree.specs.Sayings as spec;
ghost use Rattle.ftn_tree.specs.Scopes.{all_statements};
ghost use Rattle.decl_table.specs.steps.Located.{IsScoping};
ghost use Rattle.decl_table.specs.steps.Said as steps;

use crate::finding::Finding;
use crate::forms::{form_at, name_at, name_token};
use crate::names::first_of_names;
use crate::own::is_number;
use crate::rows::number_at;
use crate::saying::Saying;
use crate::scoping::{Scoping, unit_at};
use ftn_base::NoMemory;
use ftn_tree::{Extent, FileTree, Mention, Role, ScopeKind};
use std::alloc::Global;

/// Adds the names in a statement of a file.
pub fn push_statement(
    alloc: Global,
    files: &[FileTree],
    file: u32,
    statement: u32,
    found: &mut Vec<Mention>,
) -> Result<(), NoMemory>
    ensures { OnOk result (found.new.items ≡ found.old.items ++ spec.mentions_at files.now file statement) }
{
    match form_at(files, file, statement) {
        Some(form) => form.push_mentions(alloc, found),
        None => Ok(()),
    }
}

/// What the opening of an inner scoping unit says in its host.
fn inner_role(body: bool) -> Role
    ensures { result ≡ spec.inner_role body }
{
    if body { Role::Body } else { Role::Inner }
}

/// Adds the name of an inner scoping unit, where it has one.
fn push_name(
    alloc: Global,
    files: &[FileTree],
    unit: Extent,
    body: bool,
    found: &mut Vec<Mention>,
) -> Result<(), NoMemory>
    requires { body ≡ extents.is_body files.now unit }
    ensures { OnOk result (found.new.items ≡ found.old.items ++ spec.inner_mention files.now unit) }
{
    if let Some(token) = name_token(files, unit) {
        found.push(Mention::new(alloc, token, inner_role(body)))?;
    }
    Ok(())
}

/// Adds the name of the scoping unit `inner`, where it opens at that statement and its host has the number.
fn push_inner(
    alloc: Global,
    files: &[FileTree],
    scoping: &Scoping,
    number: u32,
    statement: u32,
    inner: u32,
    found: &mut Vec<Mention>,
) -> Result<(), NoMemory>
    requires known { IsScoping files.now scoping.now }
    requires within { inner < length (extents.scoping files.now) }
    ensures { OnOk result (found.new.items ≡ found.old.items ++ steps.inner_by files.now number statement (slice_get (extents.scoping files.now) inner)) }
{
    let (unit, body, host) = unit_at(files, scoping, inner);
    if unit.opening == statement && is_number(number, host) {
        push_name(alloc, files, unit, body, found)?;
    }
    Ok(())
}

/// Adds what is said at a statement in the scoping unit of that number, where `found` is the number that the statement has.
fn push_by(
    alloc: Global,
    files: &[FileTree],
    scoping: &Scoping,
    number: u32,
    file: u32,
    statement: u32,
    stands: Option<u32>,
    found: &mut Vec<Mention>,
) -> Result<(), NoMemory>
    requires known { IsScoping files.now scoping.now }
    requires within { steps.IsWithin (length (extents.scoping files.now)) stands }
    ensures { OnOk result (found.new.items ≡ found.old.items ++ steps.said_by files.now number file statement stands) }
{
    if is_number(number, stands) {
        return push_statement(alloc, files, file, statement, found);
    }
    match stands {
        Some(inner) => push_inner(alloc, files, scoping, number, statement, inner, found),
        None => Ok(()),
    }
}

/// Adds what is said at a statement in a scoping unit.
fn push_said(
    alloc: Global,
    files: &[FileTree],
    scoping: &Scoping,
    unit: Extent,
    number: u32,
    statement: u32,
    found: &mut Vec<Mention>,
) -> Result<(), NoMemory>
    requires trees { AreTrees files.now }
    requires known { IsScoping files.now scoping.now }
    requires unit { slice_get (extents.scoping files.now) number ≡ Some unit }
    requires low { unit.opening ≤ statement }
    requires high { statement ≤ unit.ending }
    ensures { OnOk result (found.new.items ≡ found.old.items ++ spec.said_at files.now unit statement) }
{
    let stands = number_at(&scoping.rows, unit.file, statement);
    push_by(
        alloc, files, scoping, number, unit.file, statement, stands, found,
    )
}

/// All that is said in a scoping unit, in the order of tokens.
pub fn all_said(
    alloc: Global,
    files: &[FileTree],
    scoping: &Scoping,
    unit: Extent,
    number: u32,
) -> Result<Vec<Mention>, NoMemory>
    requires trees { AreTrees files.now }
    requires known { IsScoping files.now scoping.now }
    requires unit { slice_get (extents.scoping files.now) number ≡ Some unit }
    ensures { IfOk result (λ said. said.items ≡ flat_map (spec.said_at files.now unit) (all_statements unit)) }
{
    let mut said = Vec::new(alloc);
    let opening = unit.opening as usize;
    for at in opening..unit.ending as usize + 1 {
        push_said(alloc, files, scoping, unit, number, at as u32, &mut said)?;
    }
    Ok(said)
}

/// Each with the name that it is said of.
pub fn sayings<'a>(
    alloc: Global,
    files: &'a [FileTree],
    file: u32,
    mentions: &'a [Mention],
) -> Result<Vec<Saying<'a>>, NoMemory>
    ensures { IfOk result (λ said. said.items ≡ map (spec.saying files.now file) mentions.now) }
{
    let mut said = Vec::new(alloc);
    for mention in mentions {
        said.push(Saying {
            name: name_at(files, file, mention.token),
            said: mention,
        })?;
    }
    Ok(said)
}

/// The first fault that the names of a scoping unit give.
pub fn names_fault(
    alloc: Global,
    files: &[FileTree],
    scoping: &Scoping,
    unit: Extent,
    kind: ScopeKind,
    number: u32,
) -> Result<Option<Finding>, NoMemory>
    requires trees { AreTrees files.now }
    requires known { IsScoping files.now scoping.now }
    requires unit { slice_get (extents.scoping files.now) number ≡ Some unit }
    ensures { IfOk result (λ found. found ≡ faults.first_finding faults.declaration_rank (faults.each_after kind unit.file [] (spec.sayings files.now unit))) }
{
    let mentions = all_said(alloc, files, scoping, unit, number)?;
    let said = sayings(alloc, files, unit.file, &mentions)?;
    first_of_names(alloc, kind, unit.file, &said)
}
