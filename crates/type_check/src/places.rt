//! What the places of a statement want of the expressions in them (Fortran 90, 7.5.1, 8.1, 9.4.2, 12.4.1).

ghost use Rattle.std.specs.Prelude.{◌≡◌, IfOk, OnOk};
ghost use Rattle.std.specs.Option.{option_map};
ghost use Rattle.ftn_tree.specs.Wants.{expressions_of};
ghost use Rattle.const_value.specs.steps.Projects.{sort_seen};
ghost use Rattle.type_check.specs.steps.Kept.{told_seen, typed_seen};
ghost use Rattle.type_check.specs.steps.Noted.{first_seen};
ghost use Rattle.type_check.specs.steps.Stated as steps;

use crate::faults::Faults;
use crate::typed::{Told, Typed, sooner, told_where};
use crate::typing::typed;
use const_value::project::Sort;
use ftn_base::{FaultKind, NoMemory};
use ftn_tree::{Form, Placed, Want};
use name_types::kinds::Kind;
use name_types::names::Setting;
use std::alloc::Global;

/// Whether it may not be defined, and nothing of it is told that says more (14.7.6).
fn is_undefinable(target: &Typed) -> bool
    ensures { result ≡ steps.is_undefinable (typed_seen target.now) }
{
    !target.standing.definable && (target.standing.datum || target.kind.is_some())
}

/// The first of what is told of what gets a value: it may be defined (14.7.6).
pub(crate) fn target_told(target: &Typed) -> Option<Told>
    ensures { option_map told_seen result ≡ steps.target_told (typed_seen target.now) }
{
    let undefinable = is_undefinable(target);
    sooner(
        target.told,
        told_where(undefinable, FaultKind::NotDefinable, target.first),
    )
}

/// The first of what is told of the value of an entity: a scalar of its type (5.1, 5.2.10).
fn value_told(sort: Option<Sort>, value: &Typed) -> Option<Told>
    ensures { option_map told_seen result ≡ steps.value_told (option_map sort_seen sort) (typed_seen value.now) }
{
    match sort {
        Some(sort) => value.wanted(Kind::scalar(sort)),
        None => value.told,
    }
}

/// The first of what is told of an expression in a place that wants this.
fn want_told(setting: &Setting<'_>, want: Want, made: &Typed) -> Option<Told>
    ensures { option_map told_seen result ≡ steps.want_told setting.now want (typed_seen made.now) }
{
    match want {
        Want::Target | Want::Input => target_told(made),
        Want::Assigned => made.told,
        Want::Condition => made.wanted(Kind::logical()),
        Want::Output | Want::Argument(_) => made.argument_told(),
        Want::Value(name) => value_told(setting.sort(name), made),
        _ => made.wanted(Kind::integer()),
    }
}

/// The first of what is told of an expression in its place, and of what is passed in it.
fn placed_told(
    alloc: Global,
    setting: &Setting<'_>,
    placed: &Placed<'_>,
) -> Result<Option<Told>, NoMemory>
    ensures { IfOk result (λ told. option_map told_seen told ≡ steps.placed_told setting.now placed.now) }
{
    let made = typed(alloc, setting, placed.expr)?;
    Ok(sooner(want_told(setting, placed.want, &made), made.passed))
}

fn each_placed(
    alloc: Global,
    setting: &Setting<'_>,
    placed: &[Placed<'_>],
    faults: &mut Faults,
) -> Result<(), NoMemory>
    ensures { OnOk result (first_seen faults.new ≡ steps.noted_each setting.now.file (steps.placed_told setting.now) (first_seen faults.old) placed.now) }
{
    for one in placed {
        let told = placed_told(alloc, setting, one)?;
        faults.note_told(setting.file, told);
    }
    Ok(())
}

/// Adds what is told of the expressions of a statement, each in its place.
pub(crate) fn placed_faults(
    alloc: Global,
    setting: &Setting<'_>,
    form: &Form,
    faults: &mut Faults,
) -> Result<(), NoMemory>
    ensures { OnOk result (first_seen faults.new ≡ steps.noted_each setting.now.file (steps.placed_told setting.now) (first_seen faults.old) (expressions_of form.now)) }
{
    let mut placed = Vec::new(alloc);
    form.push_expressions(&mut placed)?;
    each_placed(alloc, setting, &placed, faults)
}
