//! Which procedure each reference of a project calls: of a generic name the one specific procedure that is meant (Fortran 90, 12.4, 14.1.2.3).

ghost use Rattle.std.specs.Prelude.{◌≡◌, ◌++◌, map, slice_get, Some, IfOk, OnOk};
ghost use Rattle.std.specs.List.{flat_map};
ghost use Rattle.decl_table.specs.steps.Located.{IsScoping};
ghost use Rattle.ftn_tree.specs.Calls as spec;
ghost use Rattle.ftn_tree.specs.Extents as extents;
ghost use Rattle.ftn_tree.specs.Projects.{AreTrees};
ghost use Rattle.name_types.specs.steps.Gathered.{AreNames};
ghost use Rattle.name_types.specs.steps.Senses.{IsRight};
ghost use Rattle.type_check.specs.steps.Calling as steps;

use crate::expression_calls::Call;
use crate::statement_calls::push_form;
use decl_table::forms::form_at;
use decl_table::own::own_statements;
use decl_table::scoping::{Scoping, unit_at};
use ftn_base::NoMemory;
use ftn_tree::{Extent, FileTree};
use name_types::names::{Names, Setting};
use std::alloc::Global;

/// A name where it stands, its scoping unit, and the procedure that it calls.
#[derive(Clone, Copy)]
pub struct CallSite {
    pub file: u32,
    pub token: u32,
    pub scope: Extent,
    pub procedure: Extent,
}

/// Adds what a statement of a scoping unit calls.
fn push_statement(
    alloc: Global,
    files: &[FileTree],
    unit: Extent,
    setting: &Setting<'_>,
    statement: u32,
    made: &mut Vec<Call>,
) -> Result<(), NoMemory>
    requires right { IsRight files.now unit setting.now }
    ensures { OnOk result (map steps.call_seen made.new.items ≡ map steps.call_seen made.old.items ++ spec.statement_calls files.now unit statement) }
{
    match form_at(files, unit.file, statement) {
        Some(form) => push_form(alloc, setting, form, made),
        None => Ok(()),
    }
}

fn push_statements(
    alloc: Global,
    files: &[FileTree],
    unit: Extent,
    setting: &Setting<'_>,
    statements: &[u32],
    made: &mut Vec<Call>,
) -> Result<(), NoMemory>
    requires right { IsRight files.now unit setting.now }
    ensures { OnOk result (map steps.call_seen made.new.items ≡ map steps.call_seen made.old.items ++ flat_map (spec.statement_calls files.now unit) statements.now) }
{
    for statement in statements {
        push_statement(alloc, files, unit, setting, *statement, made)?;
    }
    Ok(())
}

fn statements_calls(
    alloc: Global,
    files: &[FileTree],
    unit: Extent,
    setting: &Setting<'_>,
    statements: &[u32],
) -> Result<Vec<Call>, NoMemory>
    requires right { IsRight files.now unit setting.now }
    ensures { IfOk result (λ made. map steps.call_seen made.items ≡ flat_map (spec.statement_calls files.now unit) statements.now) }
{
    let mut made = Vec::new(alloc);
    push_statements(alloc, files, unit, setting, statements, &mut made)?;
    Ok(made)
}

/// Adds calls of a scoping unit with their places.
fn push_sites(unit: Extent, calls: &[Call], sites: &mut Vec<CallSite>) -> Result<(), NoMemory>
    ensures { OnOk result (map steps.site_seen sites.new.items ≡ map steps.site_seen sites.old.items ++ map (spec.called_from unit) (map steps.call_seen calls.now)) }
{
    for call in calls {
        sites.push(CallSite {
            file: unit.file,
            token: call.name,
            scope: unit,
            procedure: call.procedure,
        })?;
    }
    Ok(())
}

/// Adds what the own statements of a scoping unit call.
fn push_unit(
    alloc: Global,
    files: &[FileTree],
    names: &Names<'_>,
    scoping: &Scoping,
    unit: Extent,
    number: u32,
    sites: &mut Vec<CallSite>,
) -> Result<(), NoMemory>
    requires trees { AreTrees files.now }
    requires names { AreNames files.now names.now }
    requires scoping { IsScoping files.now scoping.now }
    requires unit { slice_get (extents.scoping files.now) number ≡ Some unit }
    ensures { OnOk result (map steps.site_seen sites.new.items ≡ map steps.site_seen sites.old.items ++ spec.scope_calls files.now unit) }
{
    let own = own_statements(alloc, &scoping.rows, unit, number)?;
    let setting = Setting {
        names,
        file: unit.file,
        scope: number,
    };
    let made = statements_calls(alloc, files, unit, &setting, &own)?;
    push_sites(unit, &made, sites)?;
    Ok(())
}

/// All references of procedures that the project defines, scoping unit by scoping unit, by what its names are.
pub fn calls_of(
    alloc: Global,
    files: &[FileTree],
    names: &Names<'_>,
    scoping: &Scoping,
) -> Result<Vec<CallSite>, NoMemory>
    requires trees { AreTrees files.now }
    requires names { AreNames files.now names.now }
    requires scoping { IsScoping files.now scoping.now }
    ensures { IfOk result (λ sites. map steps.site_seen sites.items ≡ spec.calls_of files.now) }
{
    let mut sites = Vec::new(alloc);
    for at in 0..scoping.units.len() {
        let number = at as u32;
        let (unit, _, _) = unit_at(files, scoping, number);
        push_unit(alloc, files, names, scoping, unit, number, &mut sites)?;
    }
    Ok(sites)
}
