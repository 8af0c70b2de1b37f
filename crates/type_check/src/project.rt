//! The first fault of a project's types: its scoping units in turn.

ghost use Rattle.std.specs.Prelude.{◌≡◌, [], slice_get, Some, IfOk, OnOk};
ghost use Rattle.std.specs.List.{flat_map};
ghost use Rattle.std.specs.Option.{option_map};
ghost use Rattle.ftn_tree.specs.ConstantFaults as constants;
ghost use Rattle.ftn_tree.specs.DeclarationFaults.{fault_of};
ghost use Rattle.ftn_tree.specs.Extents as extents;
ghost use Rattle.ftn_tree.specs.TypeFaults as spec;
ghost use Rattle.type_check.specs.steps.Findings.{gathered};
ghost use Rattle.type_check.specs.steps.Noted.{first_seen, noted};
ghost use Rattle.type_check.specs.steps.Walking.{IsKnown, IsSettled};

use crate::faults::Faults;
use crate::procedures::{Declared, scope_faults};
use crate::statements::statement_faults;
use decl_table::forms::form_at;
use decl_table::own::own_statements;
use decl_table::scoping::{Scoping, unit_at};
use ftn_base::{Fault, NoMemory};
use ftn_tree::{Extent, FileTree};
use name_types::names::{Names, Setting};
use std::alloc::Global;

/// A project with its scoping units, what its names are, and what it takes to compare procedures.
#[derive(Clone, Copy)]
pub struct Known<'a> {
    pub files: &'a [FileTree],
    pub scoping: &'a Scoping,
    pub names: &'a Names<'a>,
    pub declared: &'a Declared<'a>,
}

/// Adds what is told of a statement of a scoping unit.
fn statement_if(
    alloc: Global,
    files: &[FileTree],
    unit: Extent,
    setting: &Setting<'_>,
    statement: u32,
    faults: &mut Faults,
) -> Result<(), NoMemory>
    requires settled { IsSettled files.now unit setting.now }
    requires fine { constants.designators_told files.now unit.file (extents.layer_at files.now unit.file statement) ≡ [] }
    ensures { OnOk result (first_seen faults.new ≡ noted unit.file (first_seen faults.old) (spec.statement_told files.now unit statement)) }
{
    match form_at(files, unit.file, statement) {
        Some(form) => statement_faults(alloc, setting, form, faults),
        None => Ok(()),
    }
}

/// Adds what is told of some statements of a scoping unit, one after the other.
fn each_fault(
    alloc: Global,
    files: &[FileTree],
    unit: Extent,
    setting: &Setting<'_>,
    statements: &[u32],
    faults: &mut Faults,
) -> Result<(), NoMemory>
    requires settled { IsSettled files.now unit setting.now }
    requires fine { flat_map (constants.statement_told files.now unit.file) statements.now ≡ [] }
    ensures { OnOk result (first_seen faults.new ≡ noted unit.file (first_seen faults.old) (flat_map (spec.statement_told files.now unit) statements.now)) }
{
    for statement in statements {
        statement_if(alloc, files, unit, setting, *statement, faults)?;
    }
    Ok(())
}

/// Adds what is told of a scoping unit: of its own statements, and of the procedures that it declares.
fn unit_faults(
    alloc: Global,
    known: &Known<'_>,
    unit: Extent,
    is_body: bool,
    number: u32,
    faults: &mut Faults,
) -> Result<(), NoMemory>
    requires known { IsKnown known.now }
    requires unit { slice_get (extents.scoping known.now.files.now) number ≡ Some unit }
    requires body { is_body ≡ extents.is_body known.now.files.now unit }
    ensures { OnOk result (first_seen faults.new ≡ noted unit.file (first_seen faults.old) (spec.scope_told known.now.files.now unit)) }
{
    let own = own_statements(alloc, &known.scoping.rows, unit, number)?;
    let setting = Setting {
        names: known.names,
        file: unit.file,
        scope: number,
    };
    each_fault(alloc, known.files, unit, &setting, &own, faults)?;
    scope_faults(
        alloc,
        known.files,
        known.declared,
        number,
        unit,
        is_body,
        faults,
    )
}

/// Adds what is told of all scoping units.
fn all_faults(alloc: Global, known: &Known<'_>, faults: &mut Faults) -> Result<(), NoMemory>
    requires known { IsKnown known.now }
    ensures { OnOk result (first_seen faults.new ≡ gathered (first_seen faults.old) (spec.type_findings known.now.files.now)) }
{
    for at in 0..known.scoping.units.len() {
        let number = at as u32;
        let (unit, is_body, _) = unit_at(known.files, known.scoping, number);
        unit_faults(alloc, known, unit, is_body, number, faults)?;
    }
    Ok(())
}

fn fault_from(files: &[FileTree], faults: &Faults) -> Option<Fault>
    ensures { result ≡ option_map (fault_of files.now) (first_seen faults.now) }
{
    match faults.first {
        Some(found) => Some(found.fault(files)),
        None => None,
    }
}

/// The first fault of a project's types.
pub fn first_fault(alloc: Global, known: &Known<'_>) -> Result<Option<Fault>, NoMemory>
    requires known { IsKnown known.now }
    ensures { IfOk result (λ fault. fault ≡ spec.type_fault known.now.files.now) }
{
    let mut faults = Faults::none();
    all_faults(alloc, known, &mut faults)?;
    Ok(fault_from(known.files, &faults))
}
