//! The types of a project.

ghost use Rattle.std.specs.Prelude.{◌≡◌, map, None, Some, Err, IfOk, IsOk};
ghost use Rattle.ftn_base.specs.declared.fault.Fault.{Fault};
ghost use Rattle.ftn_tree.specs.declared.table.TableFault.TheVariants as table_fault;
ghost use Rattle.ftn_tree.specs.Bindings.{bound_of};
ghost use Rattle.ftn_tree.specs.ConstantFaults.{constant_fault};
ghost use Rattle.ftn_tree.specs.DeclarationFaults.{declaration_fault};
ghost use Rattle.ftn_tree.specs.EntityValues.{values_of};
ghost use Rattle.ftn_tree.specs.Extents.{scoping as scoping_of};
ghost use Rattle.ftn_tree.specs.NameFaults.{name_fault};
ghost use Rattle.ftn_tree.specs.Projects.{AreTrees};
ghost use Rattle.ftn_tree.specs.Sayings.{sayings};
ghost use Rattle.ftn_tree.specs.TypeFaults.{type_fault};
ghost use Rattle.const_value.specs.steps.Gathered.{IsGathered};
ghost use Rattle.decl_table.specs.steps.Located.{IsScoping};
ghost use Rattle.name_types.specs.steps.Gathered.{AreNames};
ghost use Rattle.type_check.specs.steps.Declared.{AreDeclared};

use crate::procedures::Declared;
use crate::project::{Known, first_fault};
use const_value::project::Project;
use decl_table::said_lists::{said_lists, saying_lists};
use decl_table::saying::Saying;
use decl_table::scoping::{Scoping, scoping_units};
use ftn_base::{Fault, NoMemory};
use ftn_tree::{Bound, FileTree, Mention, TableFault, Values};
use name_types::gathering::names_of;
use name_types::names::Names;
use std::alloc::Global;

/// The first fault of types, where all is known that it takes to compare procedures.
fn fault_by<'a>(
    alloc: Global,
    files: &'a [FileTree],
    names: &'a Names<'_>,
    scoping: &'a Scoping,
    declared: &'a Declared<'_>,
) -> Result<Option<Fault>, NoMemory>
    requires trees { AreTrees files.now }
    requires faultless { declaration_fault files.now ≡ None }
    requires bound { name_fault files.now ≡ None }
    requires constants { constant_fault files.now ≡ None }
    requires names { AreNames files.now names.now }
    requires known { IsScoping files.now scoping.now }
    requires procedures { AreDeclared files.now declared.now }
    ensures { IfOk result (λ fault. fault ≡ type_fault files.now) }
{
    let known = Known {
        files,
        scoping,
        names,
        declared,
    };
    first_fault(alloc, &known)
}

/// The same, where it is known what is said in each scoping unit.
fn fault_saying<'a>(
    alloc: Global,
    files: &'a [FileTree],
    names: &'a Names<'_>,
    scoping: &'a Scoping,
    said: &'a [Vec<Saying<'_>>],
) -> Result<Option<Fault>, NoMemory>
    requires trees { AreTrees files.now }
    requires declared { declaration_fault files.now ≡ None }
    requires bound { name_fault files.now ≡ None }
    requires constants { constant_fault files.now ≡ None }
    requires names { AreNames files.now names.now }
    requires known { IsScoping files.now scoping.now }
    requires said { map (λ one. one.items) said.now ≡ map (sayings files.now) (scoping_of files.now) }
    ensures { IfOk result (λ fault. fault ≡ type_fault files.now) }
{
    let declared = Declared::of(alloc, files, names, scoping, said)?;
    fault_by(alloc, files, names, scoping, &declared)
}

/// The same, where it is known what the names are.
fn fault_with<'a>(
    alloc: Global,
    files: &'a [FileTree],
    names: &'a Names<'_>,
    scoping: &'a Scoping,
) -> Result<Option<Fault>, NoMemory>
    requires trees { AreTrees files.now }
    requires declared { declaration_fault files.now ≡ None }
    requires bound { name_fault files.now ≡ None }
    requires constants { constant_fault files.now ≡ None }
    requires names { AreNames files.now names.now }
    requires known { IsScoping files.now scoping.now }
    ensures { IfOk result (λ fault. fault ≡ type_fault files.now) }
{
    let mentions: Vec<Vec<Mention>> = said_lists(alloc, files, scoping)?;
    let said = saying_lists(alloc, files, scoping, &mentions)?;
    fault_saying(alloc, files, names, scoping, &said)
}

/// The same, where it is known what the statements declare.
fn fault_in<'a>(
    alloc: Global,
    files: &'a [FileTree],
    project: &'a Project<'_>,
    values: &'a Values,
    scoping: &'a Scoping,
) -> Result<Option<Fault>, NoMemory>
    requires trees { AreTrees files.now }
    requires declared { declaration_fault files.now ≡ None }
    requires bound { name_fault files.now ≡ None }
    requires constants { constant_fault files.now ≡ None }
    requires gathered { IsGathered files.now project.now }
    requires values { values.now ≡ values_of files.now }
    requires known { IsScoping files.now scoping.now }
    ensures { IfOk result (λ fault. fault ≡ type_fault files.now) }
{
    let names = names_of(alloc, files, project, values, scoping)?;
    fault_with(alloc, files, &names, scoping)
}

/// The same of the trees alone.
fn fault_of(
    alloc: Global,
    files: &[FileTree],
    bound: &Bound,
    values: &Values,
) -> Result<Option<Fault>, NoMemory>
    requires trees { AreTrees files.now }
    requires bound { bound.now ≡ bound_of files.now }
    requires values { values.now ≡ values_of files.now }
    requires declared { declaration_fault files.now ≡ None }
    requires names { name_fault files.now ≡ None }
    requires constants { constant_fault files.now ≡ None }
    ensures { IfOk result (λ fault. fault ≡ type_fault files.now) }
{
    let project = Project::gather(alloc, files, bound)?;
    let scoping = scoping_units(alloc, files)?;
    fault_in(alloc, files, &project, values, &scoping)
}

/// The first fault of a project's types (Fortran 90, 5.1, 5.2.9, 7.1.4, 7.5.1, 8.1, 9.4.2, 12.3.2, 12.4), for the trees of its files in their
/// order, their tables with what each name denotes, and what is known of the entities as values, where the project has no fault of its
/// declarations, modules, names, constants and shapes. It fails too where memory is refused.
pub fn check(
    alloc: Global,
    files: &[FileTree],
    bound: &Bound,
    values: &Values,
) -> Result<(), TableFault>
    requires trees { AreTrees files.now }
    requires bound { bound.now ≡ bound_of files.now }
    requires values { values.now ≡ values_of files.now }
    requires declared { declaration_fault files.now ≡ None }
    requires names { name_fault files.now ≡ None }
    requires constants { constant_fault files.now ≡ None }
    ensures sound { IsOk result → type_fault files.now ≡ None }
    ensures fault { (f : Fault) → result ≡ Err (table_fault.Project f) → type_fault files.now ≡ Some f }
{
    match fault_of(alloc, files, bound, values)? {
        Some(fault) => Err(TableFault::Project(fault)),
        None => Ok(()),
    }
}
