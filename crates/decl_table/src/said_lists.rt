//! What is said in each scoping unit of a project, and the names that occur in its own statements.

ghost use Rattle.std.specs.Prelude.{◌≡◌, map, Some, slice_get, IfOk};
ghost use Rattle.std.specs.List.{flat_map};
ghost use Rattle.ftn_tree.specs.DeclaredEntities.{own_mentions};
ghost use Rattle.ftn_tree.specs.Extents.{scoping as scoping_of};
ghost use Rattle.ftn_tree.specs.Projects.{AreTrees};
ghost use Rattle.ftn_tree.specs.Sayings as spec;
ghost use Rattle.decl_table.specs.steps.Located.{IsScoping};
ghost use Rattle.decl_table.specs.steps.SaidLists as steps;

use crate::own::own_statements;
use crate::saying::Saying;
use crate::sayings::{all_said, push_statement, sayings};
use crate::scoping::Scoping;
use ftn_base::NoMemory;
use ftn_tree::{Extent, FileTree, Mention};
use std::alloc::Global;

/// All that is said in each.
pub fn said_lists(
    alloc: Global,
    files: &[FileTree],
    scoping: &Scoping,
) -> Result<Vec<Vec<Mention>>, NoMemory>
    requires trees { AreTrees files.now }
    requires known { IsScoping files.now scoping.now }
    ensures { IfOk result (λ made. map (λ one. one.items) made.items ≡ map (steps.all_said files.now) (scoping_of files.now)) }
{
    let mut made = Vec::new(alloc);
    let mut number = 0;
    for unit in &scoping.units {
        made.push(all_said(alloc, files, scoping, *unit, number)?)?;
        number += 1;
    }
    Ok(made)
}

/// Each with the name that it is said of.
pub fn saying_lists<'a>(
    alloc: Global,
    files: &'a [FileTree],
    scoping: &Scoping,
    said: &'a [Vec<Mention>],
) -> Result<Vec<Vec<Saying<'a>>>, NoMemory>
    requires trees { AreTrees files.now }
    requires known { IsScoping files.now scoping.now }
    requires said { map (λ one. one.items) said.now ≡ map (steps.all_said files.now) (scoping_of files.now) }
    ensures { IfOk result (λ made. map (λ one. one.items) made.items ≡ map (spec.sayings files.now) (scoping_of files.now)) }
{
    let mut made = Vec::new(alloc);
    let mut at = 0;
    for unit in &scoping.units {
        made.push(sayings(alloc, files, unit.file, &said[at])?)?;
        at += 1;
    }
    Ok(made)
}

/// The names in the scoping unit's own statements.
fn own_list(
    alloc: Global,
    files: &[FileTree],
    scoping: &Scoping,
    unit: Extent,
    number: u32,
) -> Result<Vec<Mention>, NoMemory>
    requires trees { AreTrees files.now }
    requires known { IsScoping files.now scoping.now }
    requires unit { slice_get (scoping_of files.now) number ≡ Some unit }
    ensures { IfOk result (λ own. own.items ≡ own_mentions files.now unit) }
{
    let statements = own_statements(alloc, &scoping.rows, unit, number)?;
    let mut own = Vec::new(alloc);
    for statement in &statements {
        push_statement(alloc, files, unit.file, *statement, &mut own)?;
    }
    Ok(own)
}

/// The names in the own statements of each.
pub fn own_lists(
    alloc: Global,
    files: &[FileTree],
    scoping: &Scoping,
) -> Result<Vec<Vec<Mention>>, NoMemory>
    requires trees { AreTrees files.now }
    requires known { IsScoping files.now scoping.now }
    ensures { IfOk result (λ made. map (λ one. one.items) made.items ≡ map (own_mentions files.now) (scoping_of files.now)) }
{
    let mut made = Vec::new(alloc);
    let mut number = 0;
    for unit in &scoping.units {
        made.push(own_list(alloc, files, scoping, *unit, number)?)?;
        number += 1;
    }
    Ok(made)
}
