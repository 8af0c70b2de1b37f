//! The program units, procedures, interface bodies and interface blocks of a project, and which is right around which.

ghost use Rattle.std.specs.Prelude.{◌≡◌, ◌≤◌, ◌++◌, length, map, OnOk, IfOk};
ghost use Rattle.std.specs.List.{flat_map};
ghost use Rattle.ftn_base.specs.Limits.{most_files};
ghost use Rattle.ftn_tree.specs.Extents as spec;
ghost use Rattle.ftn_tree.specs.Projects.{AreTrees};
ghost use Rattle.name_types.specs.steps.Generics as steps;

use decl_table::rows::{Painted, paint_all};
use ftn_base::NoMemory;
use ftn_tree::{Extent, FileTree, Unit};
use std::alloc::Global;

/// All of a project in the order of their openings, and of each the number of the innermost one around it.
#[derive(Drop)]
pub struct Extents {
    pub all: Vec<Extent>,
    pub around: Vec<Option<u32>>,
}

/// Adds a unit of a file and then all that is inside it.
fn push_unit(file: u32, unit: &Unit, found: &mut Vec<Extent>) -> Result<(), NoMemory>
    ensures { OnOk result (found.new.items ≡ found.old.items ++ spec.extents_in file unit.now) }
{
    found.push(Extent {
        file,
        opening: unit.opening,
        ending: unit.ending,
    })?;
    for inner in unit.inner.as_slice() {
        push_unit(file, inner, found)?;
    }
    Ok(())
}

/// Adds the units of a file and all that is inside them.
fn push_units(file: u32, units: &[Unit], found: &mut Vec<Extent>) -> Result<(), NoMemory>
    ensures { OnOk result (found.new.items ≡ found.old.items ++ flat_map (spec.extents_in file) units.now) }
{
    for unit in units {
        push_unit(file, unit, found)?;
    }
    Ok(())
}

fn push_all(alloc: Global, files: &[FileTree]) -> Result<Vec<Extent>, NoMemory>
    requires { length files.now ≤ most_files }
    ensures { IfOk result (λ found. found.items ≡ spec.extents files.now) }
{
    let mut found = Vec::new(alloc);
    let mut file = 0;
    for tree in files {
        push_units(file, tree.units.as_slice(), &mut found)?;
        file += 1;
    }
    Ok(found)
}

/// The extents of a project.
pub fn extents_of(alloc: Global, files: &[FileTree]) -> Result<Extents, NoMemory>
    requires { AreTrees files.now }
    ensures all { IfOk result (λ made. made.all.items ≡ spec.extents files.now) }
    ensures around { IfOk result (λ made. made.around.items ≡ map (steps.around_number files.now) (spec.extents files.now)) }
{
    let all = push_all(alloc, files)?;
    let Painted { around, .. } = paint_all(alloc, files, &all)?;
    Ok(Extents { all, around })
}
