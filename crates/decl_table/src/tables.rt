//! The tables of a project.

ghost use Rattle.std.specs.Prelude.{◌≡◌, Err, None, Some, IfOk, IsOk};
ghost use Rattle.ftn_base.specs.declared.fault.Fault.{Fault};
ghost use Rattle.ftn_tree.specs.DeclarationFaults as faults;
ghost use Rattle.ftn_tree.specs.DeclaredEntities as spec;
ghost use Rattle.ftn_tree.specs.Projects.{AreTrees};
ghost use Rattle.ftn_tree.specs.declared.table.TableFault.TheVariants as table_fault;

use crate::entities::entity_table;
use crate::faults::declaration_fault;
use crate::occurrences::occurrence_table;
use crate::scopes::scope_table;
use crate::scoping::scoping_units;
use ftn_tree::{FileTree, TableFault, Tables};
use std::alloc::Global;

/// The scoping units of a project, its declared entities, and where its names occur, or the first fault of its declarations (Fortran 90,
/// 5, 12.3.2, 12.5.2, 14.1.1, 14.1.2), for the trees of its files in their order. Names that only their first letter declares, and
/// intrinsic functions, are not among the entities. It fails too where memory is refused.
pub fn declare(alloc: Global, files: &[FileTree]) -> Result<Tables, TableFault>
    requires { AreTrees files.now }
    ensures tables { IfOk result (λ tables. tables ≡ spec.tables_of files.now) }
    ensures sound { IsOk result → faults.declaration_fault files.now ≡ None }
    ensures fault { (f : Fault) → result ≡ Err (table_fault.Project f) → faults.declaration_fault files.now ≡ Some f }
{
    let scoping = scoping_units(alloc, files)?;
    if let Some(fault) = declaration_fault(alloc, files, &scoping)? {
        return Err(TableFault::Project(fault));
    }
    Ok(Tables {
        scopes: scope_table(alloc, files, &scoping)?,
        entities: entity_table(alloc, files, &scoping)?,
        occurrences: occurrence_table(alloc, files, &scoping)?,
    })
}
