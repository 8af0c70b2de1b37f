//! The global names of a project, in their order (Fortran 90, 11, 14.1.1).

ghost use Rattle.std.specs.Prelude.{◌≡◌, ◌≤◌, ◌++◌, map, IfOk, OnOk};
ghost use Rattle.ftn_tree.specs.DeclarationFaults as faults;
ghost use Rattle.ftn_tree.specs.GlobalNames as spec;
ghost use Rattle.ftn_tree.specs.Projects.{AreTrees};
ghost use Rattle.decl_table.specs.steps.Blocks as blocks;
ghost use Rattle.decl_table.specs.steps.GlobalLists as steps;
ghost use Rattle.decl_table.specs.steps.Located.{IsScoping};

use crate::block_names::{TokenAt, push_names};
use crate::finding::{Finding, earlier};
use crate::forms::{first_token_at, name_at, name_token};
use crate::globals::{Given, blocks_fault, units_fault};
use crate::scoping::{Scoping, unit_at};
use ftn_base::NoMemory;
use ftn_tree::{Extent, FileTree};
use std::alloc::Global;

/// Adds a scoping unit without a host.
fn push_outer(unit: Extent, host: Option<u32>, units: &mut Vec<Extent>) -> Result<(), NoMemory>
    ensures { OnOk result (units.new.items ≡ units.old.items ++ steps.outer_at unit host) }
{
    if host.is_none() {
        units.push(unit)?;
    }
    Ok(())
}

/// The program units: the scoping units without a host.
pub fn program_units(
    alloc: Global,
    files: &[FileTree],
    scoping: &Scoping,
) -> Result<Vec<Extent>, NoMemory>
    requires trees { AreTrees files.now }
    requires known { IsScoping files.now scoping.now }
    ensures { IfOk result (λ units. units.items ≡ spec.program_units files.now) }
{
    let mut units = Vec::new(alloc);
    for at in 0..scoping.units.len() {
        let number = at as u32;
        let (unit, _, host) = unit_at(files, scoping, number);
        push_outer(unit, host, &mut units)?;
    }
    Ok(units)
}

/// The name of a program unit, or the first token of an opening without one.
fn unit_global<'a>(files: &'a [FileTree], unit: Extent) -> Given<'a>
    ensures { result ≡ spec.unit_global files.now unit }
{
    match name_token(files, unit) {
        Some(token) => Given {
            name: name_at(files, unit.file, token),
            has_name: true,
            file: unit.file,
            token,
        },
        None => Given {
            name: b"",
            has_name: false,
            file: unit.file,
            token: first_token_at(files, unit.file, unit.opening),
        },
    }
}

fn unit_globals<'a>(
    alloc: Global,
    files: &'a [FileTree],
    units: &[Extent],
) -> Result<Vec<Given<'a>>, NoMemory>
    ensures { IfOk result (λ found. found.items ≡ map (spec.unit_global files.now) units.now) }
{
    let mut found = Vec::new(alloc);
    for unit in units {
        found.push(unit_global(files, *unit))?;
    }
    Ok(found)
}

/// The names that stand at these tokens.
fn names_at<'a>(
    alloc: Global,
    files: &'a [FileTree],
    tokens: &[TokenAt],
) -> Result<Vec<Given<'a>>, NoMemory>
    ensures { IfOk result (λ found. found.items ≡ map (blocks.global_of files.now) tokens.now) }
{
    let mut found = Vec::new(alloc);
    for at in tokens {
        found.push(Given {
            name: name_at(files, at.file, at.token),
            has_name: true,
            file: at.file,
            token: at.token,
        })?;
    }
    Ok(found)
}

/// The names of common blocks in these program units, wherever they are given.
fn block_names<'a>(
    alloc: Global,
    files: &'a [FileTree],
    units: &[Extent],
) -> Result<Vec<Given<'a>>, NoMemory>
    ensures { IfOk result (λ found. found.items ≡ map (blocks.global_of files.now) (blocks.names_of files.now units.now)) }
{
    let mut tokens = Vec::new(alloc);
    push_names(alloc, files, units, &mut tokens)?;
    names_at(alloc, files, &tokens)
}

/// The first global name that is declared twice.
pub fn global_fault(
    alloc: Global,
    files: &[FileTree],
    scoping: &Scoping,
) -> Result<Option<Finding>, NoMemory>
    requires trees { AreTrees files.now }
    requires known { IsScoping files.now scoping.now }
    ensures { IfOk result (λ found. found ≡ faults.first_finding faults.declaration_rank (faults.global_findings files.now)) }
{
    let units = program_units(alloc, files, scoping)?;
    let names = unit_globals(alloc, files, &units)?;
    let blocks = block_names(alloc, files, &units)?;
    let (twice, seen) = units_fault(alloc, &names)?;
    let conflict = blocks_fault(alloc, &seen, &blocks)?;
    Ok(earlier(twice, conflict))
}
