//! Common blocks (Fortran 90, 5.5.2).

ghost use Rattle.std.specs.Prelude.{◌≡◌, ◌++◌, [], map, OnOk};
ghost use Rattle.std.specs.List.{find, list_any};
ghost use Rattle.ftn_tree.specs.DeclaredEntities as spec;
ghost use Rattle.ftn_tree.specs.Extents.{layer_at};
ghost use Rattle.ftn_tree.specs.GlobalNames.{blocks, firsts_after, program_units as program_units_of};
ghost use Rattle.ftn_tree.specs.Scopes.{all_statements};
ghost use Rattle.decl_table.specs.steps.Blanks.{blanks_of};
ghost use Rattle.decl_table.specs.steps.Blocks.{block_as, global_of};
ghost use Rattle.decl_table.specs.steps.Drafts.{drafted_of};

use crate::block_names::{TokenAt, push_names};
use crate::draft::Draft;
use crate::forms::{first_token_at, form_at, name_at};
use crate::seen::{Seen, is_first};
use ftn_base::NoMemory;
use ftn_tree::{BlockName, CommonGroup, EntityKind, Extent, FileTree, Form};
use indexmap::IndexSet;
use std::alloc::Global;

/// The block of that name, where it has one.
fn draft_block(at: TokenAt, last: bool, name: Option<u32>) -> Draft
    ensures { result ≡ block_as at last name }
{
    Draft {
        file: at.file,
        token: at.token,
        last,
        name,
        home: None,
        kind: EntityKind::Block,
        implicit: false,
        opens: None,
    }
}

/// Adds the block of each name, where that comes first.
fn push_firsts<'a>(
    alloc: Global,
    files: &'a [FileTree],
    names: &[TokenAt],
    found: &mut Vec<Draft>,
) -> Result<(), NoMemory>
    ensures { OnOk result (map (drafted_of files.now) found.new.items ≡ map (drafted_of files.now) found.old.items
        ++ map (spec.draft_block files.now) (firsts_after [] (map (global_of files.now) names.now))) }
{
    let mut seen: Seen<'a> = IndexSet::new(alloc);
    for at in names {
        if is_first(&mut seen, name_at(files, at.file, at.token))? {
            found.push(draft_block(*at, false, Some(at.token)))?;
        }
    }
    Ok(())
}

/// Adds the named blocks of these program units of a project.
pub fn push_blocks(
    alloc: Global,
    files: &[FileTree],
    units: &[Extent],
    found: &mut Vec<Draft>,
) -> Result<(), NoMemory>
    requires { units.now ≡ program_units_of files.now }
    ensures { OnOk result (map (drafted_of files.now) found.new.items ≡ map (drafted_of files.now) found.old.items
        ++ map (spec.draft_block files.now) (blocks files.now)) }
{
    let mut names = Vec::new(alloc);
    push_names(alloc, files, units, &mut names)?;
    push_firsts(alloc, files, &names, found)
}

/// Whether it is blank common.
fn is_blank(group: &CommonGroup) -> bool
    ensures { result ≡ spec.is_blank group.now }
{
    match group.block {
        BlockName::Named { .. } => false,
        _ => true,
    }
}

fn holds_blank(groups: &[CommonGroup]) -> bool
    ensures { result ≡ list_any spec.is_blank groups.now }
{
    groups.iter().any(|group| is_blank(group))
}

/// Whether a statement is COMMON with blank common.
fn lists_blank(files: &[FileTree], file: u32, statement: u32) -> bool
    ensures { result ≡ spec.lists_blank_at (layer_at files.now file statement) }
{
    match form_at(files, file, statement) {
        Some(Form::Common { groups }) => holds_blank(groups.as_slice()),
        _ => false,
    }
}

/// The first such statement of a program unit.
fn first_blank(files: &[FileTree], unit: Extent) -> Option<u32>
    ensures { result ≡ find (λ statement. spec.lists_blank_at (layer_at files.now unit.file statement)) (all_statements unit) }
{
    let opening = unit.opening as usize;
    for at in opening..unit.ending as usize + 1 {
        if lists_blank(files, unit.file, at as u32) {
            return Some(at as u32);
        }
    }
    None
}

/// Adds blank common, where it stands in one of these program units.
pub fn push_blank(
    files: &[FileTree],
    units: &[Extent],
    found: &mut Vec<Draft>,
) -> Result<(), NoMemory>
    ensures { OnOk result (map (drafted_of files.now) found.new.items ≡ map (drafted_of files.now) found.old.items
        ++ spec.draft_blank files.now (blanks_of files.now units.now)) }
{
    for unit in units {
        if let Some(statement) = first_blank(files, *unit) {
            let at = TokenAt {
                file: unit.file,
                token: first_token_at(files, unit.file, statement),
            };
            found.push(draft_block(at, true, None))?;
            return Ok(());
        }
    }
    Ok(())
}
