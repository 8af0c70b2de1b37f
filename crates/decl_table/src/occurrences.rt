//! Where the names of a project occur.

ghost use Rattle.std.specs.Prelude.{◌≡◌, ◌<◌, ◌++◌, map, IfOk, OnOk};
ghost use Rattle.std.specs.List.{flat_map};
ghost use Rattle.ftn_tree.specs.DeclaredEntities as spec;
ghost use Rattle.ftn_tree.specs.Projects.{AreTrees};
ghost use Rattle.ftn_tree.specs.Sayings.{mentions_at};
ghost use Rattle.decl_table.specs.steps.Located.{IsScoping};
ghost use Rattle.decl_table.specs.steps.Occurrences as steps;

use crate::forms::{name_at, span_of};
use crate::rows::number_at;
use crate::sayings::push_statement;
use crate::scoping::Scoping;
use crate::spelled::name_of;
use ftn_base::NoMemory;
use ftn_tree::{FileTree, Mention, Occurrence};
use sqlite_items::Items;
use std::alloc::Global;

fn occurrence(
    alloc: Global,
    files: &[FileTree],
    file: u32,
    scope: u32,
    mention: &Mention,
) -> Result<Occurrence, NoMemory>
    requires { steps.IsNameAt files.now file mention.now }
    ensures { IfOk result (λ made. made ≡ steps.occurrence_by files.now file scope mention.now) }
{
    Ok(Occurrence {
        span: span_of(files, file, mention.token),
        scope,
        name: name_of(alloc, name_at(files, file, mention.token))?,
        role: mention.role,
    })
}

fn push_occurrences(
    alloc: Global,
    files: &[FileTree],
    file: u32,
    scope: u32,
    mentions: &[Mention],
    found: &mut Vec<Occurrence>,
) -> Result<(), NoMemory>
    requires { steps.AreNamesAt files.now file mentions.now }
    ensures { OnOk result (found.new.items ≡ found.old.items ++ map (steps.occurrence_by files.now file scope) mentions.now) }
{
    for mention in mentions {
        found.push(occurrence(alloc, files, file, scope, mention)?)?;
    }
    Ok(())
}

fn or_first(found: Option<u32>) -> u32
    ensures { result ≡ steps.or_first found }
{
    match found {
        Some(number) => number,
        None => 0,
    }
}

/// How many statements a file has.
pub fn count_in(files: &[FileTree], file: u32) -> usize
    ensures { result ≡ steps.count_in file files.now }
{
    match files.get(file as usize) {
        Some(tree) => tree.statements.len(),
        None => 0,
    }
}

/// Adds the names of a statement.
fn push_at(
    alloc: Global,
    files: &[FileTree],
    scoping: &Scoping,
    file: u32,
    statement: u32,
    found: &mut Vec<Occurrence>,
) -> Result<(), NoMemory>
    requires trees { AreTrees files.now }
    requires known { IsScoping files.now scoping.now }
    requires within { statement < steps.count_in file files.now }
    ensures { OnOk result (found.new.items ≡ found.old.items ++ steps.occurrences_at files.now file statement) }
{
    let scope = or_first(number_at(&scoping.rows, file, statement));
    let mut mentions = Vec::new(alloc);
    push_statement(alloc, files, file, statement, &mut mentions)?;
    push_occurrences(alloc, files, file, scope, &mentions, found)
}

/// Adds the names of a file.
fn push_file(
    alloc: Global,
    files: &[FileTree],
    scoping: &Scoping,
    file: u32,
    found: &mut Vec<Occurrence>,
) -> Result<(), NoMemory>
    requires trees { AreTrees files.now }
    requires known { IsScoping files.now scoping.now }
    ensures { OnOk result (found.new.items ≡ found.old.items ++ steps.occurrences_of_file files.now file) }
{
    for at in 0..count_in(files, file) {
        push_at(alloc, files, scoping, file, at as u32, found)?;
    }
    Ok(())
}

/// Where the names of a project occur, in the order of files and tokens: the token of each, the scoping unit in which it stands, the
/// folded name, and where in its statement it stands.
pub fn occurrence_table(
    alloc: Global,
    files: &[FileTree],
    scoping: &Scoping,
) -> Result<Items<Occurrence>, NoMemory>
    requires trees { AreTrees files.now }
    requires known { IsScoping files.now scoping.now }
    ensures { IfOk result (λ found. found ≡ spec.occurrences_of files.now) }
{
    let mut found = Vec::new(alloc);
    for at in 0..files.len() {
        push_file(alloc, files, scoping, at as u32, &mut found)?;
    }
    Ok(Items::from_vec(found))
}
