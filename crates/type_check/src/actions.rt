//! Assignments and calls of subroutines as wholes (Fortran 90, 7.5.1, 12.4.3).

ghost use Rattle.std.specs.Prelude.{◌≡◌, map, IfOk};
ghost use Rattle.std.specs.Option.{option_map};
ghost use Rattle.ftn_tree.specs.declared.form.Form.{out-Form};
ghost use Rattle.ftn_tree.specs.TypeFaults as spec;
ghost use Rattle.type_check.specs.steps.Choices.{choice_kept};
ghost use Rattle.name_types.specs.steps.Kinds.{kind_seen, signature_seen};
ghost use Rattle.type_check.specs.steps.Kept.{told_seen, typed_seen};
ghost use Rattle.name_types.specs.steps.Senses.{sense_seen};
ghost use Rattle.type_check.specs.steps.Sights as sights;
ghost use Rattle.type_check.specs.steps.Stated as steps;

use crate::arguments::{first_misfit, first_undefinable};
use crate::generic_references::{Choice, choice_told, choose};
use crate::typed::{Told, Typed, sooner, told_where};
use crate::typing::{actual_arguments, typed};
use ftn_base::{FaultKind, NoMemory};
use ftn_tree::Form;
use name_types::kinds::{Kind, Sense, Signature, same_sort};
use name_types::names::Setting;
use std::alloc::Global;

/// Whether a value may be assigned: a scalar of the target's type.
fn is_assignable(target: &Option<Kind>, value: &Kind) -> bool
    ensures { result ≡ spec.is_assignable (option_map kind_seen target.now) (kind_seen value.now) }
{
    match target {
        Some(target) => !value.is_array() && same_sort(target.sort, value.sort),
        None => !value.is_array(),
    }
}

fn is_misassigned(target: &Typed, value: &Typed) -> bool
    ensures { result ≡ sights.fails (spec.is_assignable (typed_seen target.now).kind) (typed_seen value.now) }
{
    match &value.kind {
        Some(kind) => !is_assignable(&target.kind, kind),
        None => false,
    }
}

/// What is told of an assignment as a whole (7.5.1).
fn assignment_told(target: &Typed, value: &Typed) -> Option<Told>
    ensures { option_map told_seen result ≡ steps.assignment_told (typed_seen target.now) (typed_seen value.now) }
{
    let misassigned = is_misassigned(target, value);
    told_where(misassigned, FaultKind::WrongType, value.first)
}

/// The first of what is told of a call of a procedure: it is a subroutine, and takes its actual arguments.
fn procedure_told(name: u32, signature: &Signature, actuals: &[Typed]) -> Option<Told>
    ensures { option_map told_seen result ≡ steps.procedure_told name (signature_seen signature.now) (map typed_seen actuals.now) }
{
    if signature.function {
        Some(Told {
            kind: FaultKind::WrongType,
            token: name,
        })
    } else {
        sooner(
            first_misfit(name, signature, actuals),
            first_undefinable(signature, actuals),
        )
    }
}

/// The first of what is told of the specific procedure that is meant.
fn meant_told(name: u32, found: &Choice<'_>, actuals: &[Typed]) -> Option<Told>
    ensures { option_map told_seen result ≡ sights.sooner_told (sights.undefinables_of_choice (choice_kept found.now) (map typed_seen actuals.now)) (steps.subroutine_of_choice name (choice_kept found.now)) }
{
    match found {
        Choice::One(signature) => sooner(
            first_undefinable(signature, actuals),
            told_where(signature.function, FaultKind::WrongType, name),
        ),
        Choice::Unknown => None,
        Choice::NoneFits => None,
        Choice::Several => None,
    }
}

/// The first of what is told of a call by a generic name (12.4.4).
fn chosen_told(name: u32, found: &Choice<'_>, actuals: &[Typed]) -> Option<Told>
    ensures { option_map told_seen result ≡ steps.chosen_told name (choice_kept found.now) (map typed_seen actuals.now) }
{
    sooner(choice_told(name, found), meant_told(name, found, actuals))
}

/// The first of what is told of a call as a whole, by what the name is (12.4.3).
fn call_told(name: u32, sense: &Sense<'_>, actuals: &[Typed]) -> Option<Told>
    ensures { option_map told_seen result ≡ steps.call_told name (sense_seen sense.now) (map typed_seen actuals.now) }
{
    match sense {
        Sense::Procedure(signature) => procedure_told(name, signature, actuals),
        Sense::Generic {
            specifics,
            signatures,
        } => {
            let found = choose(specifics, signatures, actuals);
            chosen_told(name, &found, actuals)
        }
        _ => Some(Told {
            kind: FaultKind::WrongType,
            token: name,
        }),
    }
}

/// The first of what is told of an assignment or a call as a whole.
pub(crate) fn action_told(
    alloc: Global,
    setting: &Setting<'_>,
    form: &Form,
) -> Result<Option<Told>, NoMemory>
    ensures { IfOk result (λ told. option_map told_seen told ≡ steps.action_told setting.now (out-Form form.now)) }
{
    match form {
        Form::Assign { target, value } => {
            let target = typed(alloc, setting, target)?;
            let value = typed(alloc, setting, value)?;
            Ok(assignment_told(&target, &value))
        }
        Form::Call { name, args } => {
            let actuals = actual_arguments(alloc, setting, args)?;
            Ok(call_told(*name, &setting.called(*name), &actuals))
        }
        _ => Ok(None),
    }
}
