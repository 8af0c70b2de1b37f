//! The first fault of the declarations in scoping units.

ghost use Rattle.std.specs.Prelude.{◌≡◌, slice_get, Some, IfOk};
ghost use Rattle.std.specs.List.{flat_map};
ghost use Rattle.ftn_tree.specs.DeclarationFaults as spec;
ghost use Rattle.ftn_tree.specs.Extents as extents;
ghost use Rattle.ftn_tree.specs.Projects.{AreTrees};
ghost use Rattle.decl_table.specs.steps.Located.{IsScoping};

use crate::finding::{Finding, earlier};
use crate::own::own_statements;
use crate::sayings::names_fault;
use crate::scoping::{Scoping, kind_of, unit_at};
use crate::statements::statements_fault;
use ftn_base::NoMemory;
use ftn_tree::{Extent, FileTree};
use std::alloc::Global;

/// The first fault of the declarations in a scoping unit.
fn scope_fault(
    alloc: Global,
    files: &[FileTree],
    scoping: &Scoping,
    unit: Extent,
    body: bool,
    number: u32,
) -> Result<Option<Finding>, NoMemory>
    requires trees { AreTrees files.now }
    requires known { IsScoping files.now scoping.now }
    requires unit { slice_get (extents.scoping files.now) number ≡ Some unit }
    requires body { body ≡ extents.is_body files.now unit }
    ensures { IfOk result (λ found. found ≡ spec.first_finding spec.declaration_rank (spec.scope_findings files.now unit)) }
{
    let kind = kind_of(files, unit, body);
    let names = names_fault(alloc, files, scoping, unit, kind, number)?;
    let own = own_statements(alloc, &scoping.rows, unit, number)?;
    let statements = statements_fault(alloc, files, unit, kind, &own)?;
    Ok(earlier(names, statements))
}

/// The first fault of the declarations in all scoping units.
pub(crate) fn scopes_fault(
    alloc: Global,
    files: &[FileTree],
    scoping: &Scoping,
) -> Result<Option<Finding>, NoMemory>
    requires trees { AreTrees files.now }
    requires known { IsScoping files.now scoping.now }
    ensures { IfOk result (λ found. found ≡ spec.first_finding spec.declaration_rank (flat_map (spec.scope_findings files.now) (extents.scoping files.now))) }
{
    let mut found = None;
    for at in 0..scoping.units.len() {
        let number = at as u32;
        let (unit, body, _) = unit_at(files, scoping, number);
        let next = scope_fault(alloc, files, scoping, unit, body, number)?;
        found = earlier(found, next);
    }
    Ok(found)
}
