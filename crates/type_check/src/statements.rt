//! Faults of types in statements (Fortran 90, 5.2.9, 5.5.1, 7.5.1, 8.1, 9.4.2, 12.3.2.1, 12.4).

ghost use Rattle.std.specs.Prelude.{◌≡◌, Some, [], List, OnOk};
ghost use Rattle.std.specs.List.{flat_map};
ghost use Rattle.std.specs.Option.{option_map};
ghost use Rattle.ftn_tree.specs.declared.form.Form.{out-Form};
ghost use Rattle.ftn_tree.specs.declared.table.Extent.{Extent};
ghost use Rattle.ftn_tree.specs.declared.unit.FileTree.{FileTree};
ghost use Rattle.ftn_tree.specs.ConstantFaults as constants;
ghost use Rattle.ftn_tree.specs.TypeFaults as spec;
ghost use Rattle.type_check.specs.steps.DataRight.{IsDataRight};
ghost use Rattle.type_check.specs.steps.Kept.{told_seen, typed_seen};
ghost use Rattle.type_check.specs.steps.Noted.{first_seen, noted};
ghost use Rattle.name_types.specs.steps.Senses.{IsRight};
ghost use Rattle.type_check.specs.steps.Stated as steps;

use crate::actions::action_told;
use crate::data::group_faults;
use crate::designators::{designators_faults, sets_faults, specifics_faults};
use crate::faults::Faults;
use crate::places::{placed_faults, target_told};
use crate::references::name_typed;
use crate::typed::{Told, Typed, sooner, told_where};
use ftn_base::{FaultKind, NoMemory};
use ftn_tree::{DataGroup, DoControl, Form};
use name_types::kinds::Kind;
use name_types::names::Setting;
use std::alloc::Global;

/// The first of what is told of a DO variable: an integer scalar that may be defined (8.1.4.1).
fn variable_told(variable: &Typed) -> Option<Told>
    ensures { option_map told_seen result ≡ steps.variable_told (typed_seen variable.now) }
{
    let wrong = variable.is_other_than(Kind::integer());
    sooner(
        target_told(variable),
        told_where(wrong, FaultKind::WrongType, variable.first),
    )
}

/// The first of what is told of a DO statement as a whole.
fn control_told(setting: &Setting<'_>, control: &Option<DoControl>) -> Option<Told>
    ensures { option_map told_seen result ≡ steps.control_told setting.now control.now }
{
    match control {
        Some(control) => {
            let sense = setting.sense(control.variable, false);
            variable_told(&name_typed(control.variable, &sense))
        }
        None => None,
    }
}

/// Adds what is told of the groups of DATA, where the names of their values are those of constants.
fn groups_faults(setting: &Setting<'_>, groups: &[DataGroup], faults: &mut Faults)
    ensures { (files : List FileTree) (e : Extent) → IsDataRight files e setting.now → flat_map (constants.group_told files e.file) groups.now ≡ []
        → first_seen faults.new ≡ steps.noted_groups files e setting.now (first_seen faults.old) groups.now }
{
    for group in groups {
        designators_faults(setting, group.objects.as_slice(), faults);
        group_faults(setting, group, faults);
    }
}

/// Adds what is told of a statement as a whole.
fn whole_faults(
    alloc: Global,
    setting: &Setting<'_>,
    form: &Form,
    faults: &mut Faults,
) -> Result<(), NoMemory>
    ensures { (files : List FileTree) (e : Extent) → IsDataRight files e setting.now → constants.designators_told files e.file (Some (out-Form form.now)) ≡ []
        → OnOk result (first_seen faults.new ≡ steps.noted_whole files e setting.now (first_seen faults.old) (out-Form form.now)) }
{
    match form {
        Form::If { inner, .. } => {
            let told = action_told(alloc, setting, inner.get())?;
            faults.note_told(setting.file, told);
        }
        Form::Do { control, .. } => faults.note_told(setting.file, control_told(setting, control)),
        Form::ModuleProcedure { names } => specifics_faults(setting, names.as_slice(), faults),
        Form::Equivalence { sets } => sets_faults(setting, sets.as_slice(), faults),
        Form::Data { groups } => groups_faults(setting, groups.as_slice(), faults),
        _ => {
            let told = action_told(alloc, setting, form)?;
            faults.note_told(setting.file, told);
        }
    }
    Ok(())
}

/// Adds the faults of types in a statement of a scoping unit, by what the names in it are: what is told of each expression in its place, and
/// of the statement as a whole. The names of DATA's values are those of constants.
pub fn statement_faults(
    alloc: Global,
    setting: &Setting<'_>,
    form: &Form,
    faults: &mut Faults,
) -> Result<(), NoMemory>
    ensures { (files : List FileTree) (e : Extent) → IsRight files e setting.now → IsDataRight files e setting.now
        → constants.designators_told files e.file (Some (out-Form form.now)) ≡ []
        → OnOk result (first_seen faults.new ≡ noted e.file (first_seen faults.old) (spec.form_told files e (out-Form form.now))) }
{
    placed_faults(alloc, setting, form, faults)?;
    whole_faults(alloc, setting, form, faults)
}
