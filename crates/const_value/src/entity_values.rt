//! What is known of the entities of a project as values.

ghost use Rattle.std.specs.Prelude.{◌≡◌, ℕ, ◌≤◌, true, slice_get, Some, None, Err, IsOk, IfOk};
ghost use Rattle.ftn_base.specs.declared.entity.Shape.{Shape};
ghost use Rattle.ftn_base.specs.declared.fault.Fault.{Fault};
ghost use Rattle.ftn_tree.specs.declared.table.Entity.{Entity};
ghost use Rattle.ftn_tree.specs.declared.table.TableFault.TheVariants as table_fault;
ghost use Rattle.ftn_tree.specs.Bindings.{bound_of};
ghost use Rattle.ftn_tree.specs.ConstantFaults.{constant_fault};
ghost use Rattle.ftn_tree.specs.DeclarationFaults.{declaration_fault};
ghost use Rattle.ftn_tree.specs.EntityValues.{values_of};
ghost use Rattle.ftn_tree.specs.NameFaults.{name_fault};
ghost use Rattle.ftn_tree.specs.Projects.{AreTrees};
ghost use Rattle.ftn_tree.specs.StorageObjects.{takes_storage, units_in};
ghost use Rattle.const_value.specs.steps.Gathered.{IsGathered};
ghost use Rattle.const_value.specs.steps.Known.{IsKnown};

use crate::circles::Circles;
use crate::entity_lists::{constants_of, kinds_of, shapes_of};
use crate::given_files::givens_of;
use crate::knowledge::{Knowledge, measure_all};
use crate::measured::Measured;
use crate::project::Project;
use crate::project_faults::first_fault;
use ftn_base::NoMemory;
use ftn_tree::{Bound, FileTree, TableFault, Values};
use sqlite_items::Items;
use std::alloc::Global;

/// What is known of the names of a project, or the first fault of its constants and shapes.
fn judged(alloc: Global, files: &[FileTree], project: &Project<'_>) -> Result<Knowledge, TableFault>
    requires trees { AreTrees files.now }
    requires names { name_fault files.now ≡ None }
    requires gathered { IsGathered files.now project.now }
    ensures known { IfOk result (λ all. IsKnown files.now project.now all.known.items all.namings.items) }
    ensures sound { IsOk result → constant_fault files.now ≡ None }
    ensures fault { (f : Fault) → result ≡ Err (table_fault.Project f) → constant_fault files.now ≡ Some f }
{
    let circles = Circles::of(alloc, project)?;
    let known = measure_all(alloc, project, &circles)?;
    match first_fault(alloc, project, &circles, &known)? {
        Some(fault) => Err(TableFault::Project(fault)),
        None => Ok(known),
    }
}

/// What is known of the entities of a project that has no fault.
fn all_values(
    alloc: Global,
    files: &[FileTree],
    project: &Project<'_>,
    all: &Knowledge,
) -> Result<Values, NoMemory>
    requires trees { AreTrees files.now }
    requires declared { declaration_fault files.now ≡ None }
    requires names { name_fault files.now ≡ None }
    requires gathered { IsGathered files.now project.now }
    requires known { IsKnown files.now project.now all.now.known.items all.now.namings.items }
    requires found { constant_fault files.now ≡ None }
    ensures values { IfOk result (λ made. made ≡ values_of files.now) }
{
    let known: &[Measured] = &all.known;
    let shapes = shapes_of(alloc, project, known)?;
    let constants = constants_of(alloc, project, known)?;
    let kinds = kinds_of(alloc, project, known)?;
    let given = givens_of(alloc, project, all)?;
    Ok(Values {
        shapes: Items::from_vec(shapes),
        constants: Items::from_vec(constants),
        kinds: Items::from_vec(kinds),
        given: Items::from_vec(given),
    })
}

/// What is known of the entities of a project as values, or the first fault of its constants and shapes (Fortran 90, 2.4, 5.1, 5.2.9,
/// 5.2.10, 7.1.6.1), for the trees of its files in their order and their tables with what each name denotes, where the project has no
/// fault of its declarations, modules and names. Each shape of a variable or a result that is no dummy argument takes a storage unit at least
/// (14.6.3.1). It fails too where memory is refused, and where a character value has more than 2^24 bytes.
pub fn values(alloc: Global, files: &[FileTree], bound: &Bound) -> Result<Values, TableFault>
    requires trees { AreTrees files.now }
    requires bound { bound.now ≡ bound_of files.now }
    requires declared { declaration_fault files.now ≡ None }
    requires names { name_fault files.now ≡ None }
    ensures values { IfOk result (λ made. made ≡ values_of files.now) }
    ensures units { IfOk result (λ made. (number : ℕ) (entity : Entity) (shape : Shape) → slice_get bound.now.tables.entities number ≡ Some entity → takes_storage entity.kind ≡ true → slice_get made.shapes number ≡ Some (Some shape) → 1 ≤ units_in shape) }
    ensures sound { IsOk result → constant_fault files.now ≡ None }
    ensures fault { (f : Fault) → result ≡ Err (table_fault.Project f) → constant_fault files.now ≡ Some f }
{
    let project = Project::gather(alloc, files, bound)?;
    let known = judged(alloc, files, &project)?;
    let made = all_values(alloc, files, &project, &known)?;
    Ok(made)
}
