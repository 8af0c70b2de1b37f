//! The names of common blocks where COMMON gives them (Fortran 90, 5.5.2).

ghost use Rattle.std.specs.Prelude.{◌≡◌, ◌++◌, OnOk};
ghost use Rattle.std.specs.List.{flat_map};
ghost use Rattle.ftn_tree.specs.Scopes.{all_statements};
ghost use Rattle.decl_table.specs.steps.Blocks as steps;

use crate::forms::form_at;
use ftn_base::NoMemory;
use ftn_tree::{Extent, FileTree, Form, Mention, Role};
use std::alloc::Global;

/// A token of a file.
#[derive(Clone, Copy)]
pub struct TokenAt {
    /// The number of the file.
    pub file: u32,
    /// The number of the token.
    pub token: u32,
}

/// Adds the names between slashes.
fn push_slashes(file: u32, mentions: &[Mention], found: &mut Vec<TokenAt>) -> Result<(), NoMemory>
    ensures { OnOk result (found.new.items ≡ found.old.items ++ steps.slashes file mentions.now) }
{
    for mention in mentions {
        if mention.says(Role::Slash) {
            let token = mention.token;
            found.push(TokenAt { file, token })?;
        }
    }
    Ok(())
}

/// Adds the names of blocks in a form.
fn push_form_names(
    alloc: Global,
    file: u32,
    form: &Form,
    found: &mut Vec<TokenAt>,
) -> Result<(), NoMemory>
    ensures { OnOk result (found.new.items ≡ found.old.items ++ steps.names_in file form.now) }
{
    if let Form::Common { .. } = form {
        let mut mentions = Vec::new(alloc);
        form.push_mentions(alloc, &mut mentions)?;
        push_slashes(file, &mentions, found)?;
    }
    Ok(())
}

/// Adds the names of blocks in a statement.
fn push_statement_names(
    alloc: Global,
    files: &[FileTree],
    file: u32,
    statement: u32,
    found: &mut Vec<TokenAt>,
) -> Result<(), NoMemory>
    ensures { OnOk result (found.new.items ≡ found.old.items ++ steps.names_at files.now file statement) }
{
    if let Some(form) = form_at(files, file, statement) {
        push_form_names(alloc, file, form, found)?;
    }
    Ok(())
}

/// Adds the names of blocks in a program unit.
fn push_unit_names(
    alloc: Global,
    files: &[FileTree],
    unit: Extent,
    found: &mut Vec<TokenAt>,
) -> Result<(), NoMemory>
    ensures { OnOk result (found.new.items ≡ found.old.items ++ flat_map (steps.names_at files.now unit.file) (all_statements unit)) }
{
    let opening = unit.opening as usize;
    for at in opening..unit.ending as usize + 1 {
        push_statement_names(alloc, files, unit.file, at as u32, found)?;
    }
    Ok(())
}

/// Adds the names of blocks in program units.
pub fn push_names(
    alloc: Global,
    files: &[FileTree],
    units: &[Extent],
    found: &mut Vec<TokenAt>,
) -> Result<(), NoMemory>
    ensures { OnOk result (found.new.items ≡ found.old.items ++ steps.names_of files.now units.now) }
{
    for unit in units {
        push_unit_names(alloc, files, *unit, found)?;
    }
    Ok(())
}
