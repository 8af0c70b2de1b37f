//! The first fault of a project's constants and shapes.

ghost use Rattle.std.specs.Prelude.{◌≡◌, ◌≤◌, Some, None, length, IfOk, OnOk};
ghost use Rattle.std.specs.List.{flat_map};
ghost use Rattle.std.specs.Option.{option_map};
ghost use Rattle.ftn_base.specs.Limits.{most_files};
ghost use Rattle.ftn_tree.specs.DeclarationFaults.{fault_of};
ghost use Rattle.ftn_tree.specs.Extents.{scoping};
ghost use Rattle.ftn_tree.specs.Projects.{AreTrees};
ghost use Rattle.decl_table.specs.steps.Rows.{rows_of};
ghost use Rattle.const_value.specs.steps.Findings.{gathered};
ghost use Rattle.const_value.specs.steps.FirstFault as steps;
ghost use Rattle.const_value.specs.steps.References.{IsSized, IsWhole};
ghost use Rattle.const_value.specs.steps.Telling.{sight_of, statement_told};
ghost use Rattle.const_value.specs.steps.Told.{first_seen};

use crate::case_faults::unit_faults;
use crate::circles::Circles;
use crate::faults::Faults;
use crate::knowledge::Knowledge;
use crate::project::Project;
use crate::shape_faults::name_faults;
use crate::statement_faults::statement_faults;
use crate::view::View;
use decl_table::rows::{Row, number_at};
use decl_table::scoping::scoping_units;
use ftn_base::{Fault, NoMemory};
use ftn_tree::{FileTree, Statement, Unit};
use std::alloc::Global;

/// Whether a statement stands in a scoping unit.
fn is_within(rows: &[Row], file: u32, at: usize) -> bool
    ensures { result ≡ steps.is_within rows.now file at }
{
    if at < 4294967296 {
        number_at(rows, file, at as u32).is_some()
    } else {
        false
    }
}

/// Adds the faults of a statement, where it stands in a scoping unit.
fn faults_if(
    alloc: Global,
    view: &View<'_>,
    within: bool,
    statement: &Statement,
    faults: &mut Faults,
) -> Result<(), NoMemory>
    ensures { OnOk result (first_seen faults.new ≡ gathered (first_seen faults.old) (steps.if_within within (statement_told view.now statement.now))) }
{
    if within {
        statement_faults(alloc, view, &statement.form, faults)?;
        Ok(())
    } else {
        Ok(())
    }
}

fn statements_faults(
    alloc: Global,
    view: &View<'_>,
    rows: &[Row],
    statements: &[Statement],
    faults: &mut Faults,
) -> Result<(), NoMemory>
    ensures { OnOk result (first_seen faults.new ≡ gathered (first_seen faults.old) (steps.statements_by (sight_of view.now) rows.now 0 statements.now)) }
{
    let mut at = 0;
    for statement in statements {
        let within = is_within(rows, view.file, at);
        faults_if(alloc, view, within, statement, faults)?;
        at += 1;
    }
    Ok(())
}

fn units_faults(
    alloc: Global,
    view: &View<'_>,
    units: &[Unit],
    faults: &mut Faults,
) -> Result<(), NoMemory>
    ensures { OnOk result (first_seen faults.new ≡ gathered (first_seen faults.old) (flat_map (steps.unit_told view.now) units.now)) }
{
    for unit in units {
        unit_faults(alloc, view, unit, faults)?;
    }
    Ok(())
}

/// Adds the faults of the statements and the constructs of a file.
fn file_faults(
    alloc: Global,
    project: &Project<'_>,
    all: &Knowledge,
    rows: &[Row],
    file: u32,
    tree: &FileTree,
    faults: &mut Faults,
) -> Result<(), NoMemory>
    ensures { OnOk result (first_seen faults.new ≡ gathered (first_seen faults.old) (steps.file_told project.now all.now.known.items all.now.namings.items rows.now file tree.now)) }
{
    let view = View::of(project, &all.known, &all.namings, file);
    statements_faults(alloc, &view, rows, tree.statements.as_slice(), faults)?;
    units_faults(alloc, &view, tree.units.as_slice(), faults)?;
    Ok(())
}

fn files_faults(
    alloc: Global,
    project: &Project<'_>,
    all: &Knowledge,
    rows: &[Row],
    faults: &mut Faults,
) -> Result<(), NoMemory>
    requires { length project.now.files.now ≤ most_files }
    ensures { OnOk result (first_seen faults.new ≡ gathered (first_seen faults.old) (steps.files_told project.now all.now.known.items all.now.namings.items rows.now 0 project.now.files.now)) }
{
    let mut file = 0;
    for tree in project.files {
        file_faults(alloc, project, all, rows, file, tree, faults)?;
        file += 1;
    }
    Ok(())
}

fn names_faults(
    alloc: Global,
    project: &Project<'_>,
    all: &Knowledge,
    faults: &mut Faults,
) -> Result<(), NoMemory>
    requires sized { IsSized project.now }
    requires known { length all.now.known.items ≡ length project.now.names.items }
    ensures { OnOk result (first_seen faults.new ≡ gathered (first_seen faults.old) (steps.names_told project.now all.now.known.items all.now.namings.items)) }
{
    for name in 0..project.names.len() {
        name_faults(alloc, project, &all.known, &all.namings, name, faults)?;
    }
    Ok(())
}

fn fault_from(project: &Project<'_>, faults: &Faults) -> Option<Fault>
    ensures { result ≡ option_map (fault_of project.now.files.now) (first_seen faults.now) }
{
    match faults.first {
        Some(found) => Some(found.fault(project.files)),
        None => None,
    }
}

/// The first fault of a project's constants and shapes.
pub(crate) fn first_fault(
    alloc: Global,
    project: &Project<'_>,
    circles: &Circles,
    all: &Knowledge,
) -> Result<Option<Fault>, NoMemory>
    requires trees { AreTrees project.now.files.now }
    requires sized { IsSized project.now }
    requires whole { IsWhole circles.now }
    requires names { length project.now.names.items ≡ length circles.now.uses.items }
    requires known { length all.now.known.items ≡ length project.now.names.items }
    ensures { IfOk result (λ fault. fault ≡ option_map (fault_of project.now.files.now) (gathered None (steps.all_told circles.now project.now all.now.known.items all.now.namings.items (rows_of project.now.files.now (scoping project.now.files.now))))) }
{
    let scoping = scoping_units(alloc, project.files)?;
    let mut faults = Faults::none();
    circles.push_faults(project, &mut faults);
    names_faults(alloc, project, all, &mut faults)?;
    files_faults(alloc, project, all, &scoping.rows, &mut faults)?;
    Ok(fault_from(project, &faults))
}
