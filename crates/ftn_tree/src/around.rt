//! The units around a statement.

ghost use Rattle.std.specs.Prelude.{◌≡◌, ◌++◌, OnOk, ℕ, List, map, reverse, not, slice_get, Some};
ghost use Rattle.std.specs.List.{filter, find};
ghost use Rattle.std.specs.Option.{option_map};
ghost use Rattle.ftn_tree.specs.declared.table.Extent.{Extent};
ghost use Rattle.ftn_tree.specs.declared.unit.FileTree.{FileTree};
ghost use Rattle.ftn_tree.specs.Around as spec;
ghost use Rattle.ftn_tree.specs.Extents.{covers, extents, is_interface_at, layer_at, scope_of};
ghost use Rattle.ftn_tree.specs.Projects.{AreTrees};

use crate::unit::{FileTree, Unit};
use ftn_base::NoMemory;

impl FileTree {
    /// Adds the openings of the units that hold the statement with that number, the innermost first: of procedures, interface bodies,
    /// interface blocks and the program unit. Statements are numbered from 0 in their order, and a unit holds its opening and its
    /// ending, too. The first unit, where it is no interface block, is the scoping unit of the statement (Fortran 90, 2.2). It fails
    /// for want of memory.
    pub fn units_around(&self, statement: u32, into: &mut Vec<u32>) -> Result<(), NoMemory>
        ensures { OnOk result (into.new.items ≡ into.old.items ++ spec.units_around self.now.units statement) }
    {
        push_around(self.units.as_slice(), statement, into)
    }
}

#[cycle(around)]
fn push_around(units: &[Unit], statement: u32, into: &mut Vec<u32>) -> Result<(), NoMemory>
    ensures { OnOk result (into.new.items ≡ into.old.items ++ spec.units_around units.now statement) }
{
    for unit in units {
        push_unit(unit, statement, into)?;
    }
    Ok(())
}

#[cycle(around)]
fn push_unit(unit: &Unit, statement: u32, into: &mut Vec<u32>) -> Result<(), NoMemory>
    ensures { OnOk result (into.new.items ≡ into.old.items ++ spec.around statement unit.now) }
{
    if unit.opening <= statement && statement <= unit.ending {
        push_around(unit.inner.as_slice(), statement, into)?;
        into.push(unit.opening)?;
    }
    Ok(())
}

/// The law that the units around a statement of a file, as [`FileTree::units_around`] tells them, are the extents of the project that
/// hold it, the innermost first, and that its scoping unit is the first of them that is no interface block (Fortran 90, 2.2).
pub fn units_around_are_extents()
    ensures around { (files : List FileTree) (file statement : ℕ) (tree : FileTree) → AreTrees files → slice_get files file ≡ Some tree
        → spec.units_around tree.units statement ≡ reverse (map (λ (e : Extent). e.opening) (filter (covers file statement) (extents files))) }
    ensures scope { (files : List FileTree) (file statement : ℕ) (tree : FileTree) → AreTrees files → slice_get files file ≡ Some tree
        → option_map (λ (e : Extent). e.opening) (scope_of files file statement) ≡ find (λ opening. not (is_interface_at (layer_at files file opening))) (spec.units_around tree.units statement) }
{}
