//! Faults of the constant expressions in statements (Fortran 90, 5.1, 5.2.9, 5.2.10, 5.5.1, 8.1.3.1).

ghost use Rattle.std.specs.Prelude.{◌≡◌, Some, [], false, length, OnOk};
ghost use Rattle.std.specs.List.{cons_option, flat_map};
ghost use Rattle.std.specs.Option.{option_copied, option_map_or, option_and_then};
ghost use Rattle.ftn_tree.specs.declared.form.Form.{out-Form};
ghost use Rattle.ftn_tree.specs.ConstantFaults as spec;
ghost use Rattle.ftn_tree.specs.Constants.{whole_in};
ghost use Rattle.ftn_tree.specs.Wants.{expressions_of};
ghost use Rattle.const_value.specs.steps.Findings.{gathered};
ghost use Rattle.const_value.specs.steps.Measuring.{given};
ghost use Rattle.const_value.specs.steps.Telling as steps;
ghost use Rattle.const_value.specs.steps.Told.{first_seen};

use crate::faults::Faults;
use crate::telling::told_of;
use crate::view::View;
use const_expr::{Naming, evaluate};
use ftn_base::{FaultKind, NoMemory};
use ftn_tree::{
    DataConstant, DataGroup, DataValue, Designator, Expr, Form, Placed, Repeat, Value, Want,
};
use sqlite_items::Items;
use std::alloc::Global;

/// Whether the place wants a constant: a length, a value or a CASE value.
fn wants_constant(want: Want) -> bool
    ensures { result ≡ spec.wants_constant want }
{
    matches!(want, Want::Length | Want::Value(_) | Want::Case)
}

/// Adds what is told of an expression, where its place wants a constant.
fn placed_fault(
    alloc: Global,
    view: &View<'_>,
    placed: &Placed<'_>,
    faults: &mut Faults,
) -> Result<(), NoMemory>
    ensures { OnOk result (first_seen faults.new ≡ gathered (first_seen faults.old) (steps.placed_told view.now placed.now)) }
{
    if !wants_constant(placed.want) {
        return Ok(());
    }
    let told = told_of(alloc, view, placed.expr)?;
    faults.note_told(view.file, &told);
    Ok(())
}

fn placed_faults(
    alloc: Global,
    view: &View<'_>,
    placed: &[Placed<'_>],
    faults: &mut Faults,
) -> Result<(), NoMemory>
    ensures { OnOk result (first_seen faults.new ≡ gathered (first_seen faults.old) (flat_map (steps.placed_told view.now) placed.now)) }
{
    for one in placed {
        placed_fault(alloc, view, one, faults)?;
    }
    Ok(())
}

/// The bounds of each dimension of what a name denotes, where its shape is known and has so many dimensions.
fn pairs_of<'a>(view: &View<'a>, token: u32, count: usize) -> Option<&'a [(i32, i32)]>
    ensures { option_copied result ≡ steps.pairs_of view.now token count }
{
    let entity = view.names.entity(token)?;
    let name = view.project.name_of(entity as usize)?;
    let known = view.known.get(name)?;
    known.ty?;
    match &known.bounds {
        Some(bounds) => {
            if bounds.pairs().len() == count {
                Some(bounds.pairs())
            } else {
                None
            }
        }
        None => None,
    }
}

fn is_outside(value: &Option<Value>, pair: Option<(i32, i32)>) -> bool
    ensures { result ≡ option_map_or (λ z. option_map_or (spec.is_outside z) pair false) (whole_in value.now) false }
{
    match value {
        Some(Value::Whole(z)) => match pair {
            Some((low, high)) => *z < low || high < *z,
            None => false,
        },
        _ => false,
    }
}

fn subscript_faults(
    alloc: Global,
    view: &View<'_>,
    subscript: &Expr,
    pair: Option<(i32, i32)>,
    faults: &mut Faults,
) -> Result<(), NoMemory>
    ensures { OnOk result (first_seen faults.new ≡ gathered (first_seen faults.old) (spec.subscript_told view.now.file (given view.now subscript.now) pair)) }
{
    let made = evaluate(alloc, &view.names, subscript)?;
    let stray = made.told.stray.is_some();
    let outside = is_outside(&made.value, pair);
    faults.note_if(stray, FaultKind::NotConstant, view.file, made.first);
    faults.note_breach(view.file, &made.told);
    faults.note_if(outside, FaultKind::BadShape, view.file, made.first);
    Ok(())
}

/// The bounds of a dimension of what a name denotes, where there are so many dimensions.
fn pair_at(view: &View<'_>, token: u32, count: usize, at: usize) -> Option<(i32, i32)>
    ensures { result ≡ steps.pair_at (steps.pairs_of view.now token count) at }
{
    match pairs_of(view, token, count) {
        Some(pairs) => pairs.get(at).copied(),
        None => None,
    }
}

fn subscripts_faults(
    alloc: Global,
    view: &View<'_>,
    token: u32,
    subscripts: &[Expr],
    faults: &mut Faults,
) -> Result<(), NoMemory>
    ensures { OnOk result (first_seen faults.new ≡ gathered (first_seen faults.old) (steps.subscripts_told view.now (steps.pairs_of view.now token (length subscripts.now)) 0 subscripts.now)) }
{
    let mut at = 0;
    for subscript in subscripts {
        let pair = pair_at(view, token, subscripts.len(), at);
        subscript_faults(alloc, view, subscript, pair, faults)?;
        at += 1;
    }
    Ok(())
}

fn designator_faults(
    alloc: Global,
    view: &View<'_>,
    designator: &Designator,
    faults: &mut Faults,
) -> Result<(), NoMemory>
    ensures { OnOk result (first_seen faults.new ≡ gathered (first_seen faults.old) (steps.designator_told view.now designator.now)) }
{
    match &designator.subscripts {
        Some(subscripts) => {
            subscripts_faults(alloc, view, designator.name, subscripts.as_slice(), faults)?;
            Ok(())
        }
        None => Ok(()),
    }
}

fn designators_faults(
    alloc: Global,
    view: &View<'_>,
    designators: &[Designator],
    faults: &mut Faults,
) -> Result<(), NoMemory>
    ensures { OnOk result (first_seen faults.new ≡ gathered (first_seen faults.old) (flat_map (steps.designator_told view.now) designators.now)) }
{
    for designator in designators {
        designator_faults(alloc, view, designator, faults)?;
    }
    Ok(())
}

fn sets_faults(
    alloc: Global,
    view: &View<'_>,
    sets: &[Items<Designator>],
    faults: &mut Faults,
) -> Result<(), NoMemory>
    ensures { OnOk result (first_seen faults.new ≡ gathered (first_seen faults.old) (flat_map (flat_map (steps.designator_told view.now)) sets.now)) }
{
    for set in sets {
        designators_faults(alloc, view, set.as_slice(), faults)?;
    }
    Ok(())
}

/// Adds that a name is none of a constant.
fn name_fault(view: &View<'_>, token: u32, faults: &mut Faults)
    ensures { first_seen faults.new ≡ gathered (first_seen faults.old) (steps.name_told view.now token) }
{
    match view.names.naming(token) {
        Some(Naming::Constant { .. }) => {}
        _ => faults.note(FaultKind::NotConstant, view.file, token),
    }
}

fn name_fault_if(view: &View<'_>, token: Option<u32>, faults: &mut Faults)
    ensures { first_seen faults.new ≡ gathered (first_seen faults.old) (flat_map (steps.name_told view.now) (cons_option token [])) }
{
    if let Some(token) = token {
        name_fault(view, token, faults);
    }
}

fn repeat_name(repeat: &Option<Repeat>) -> Option<u32>
    ensures { result ≡ option_and_then spec.repeat_name repeat.now }
{
    match repeat {
        Some(Repeat::Named(token)) => Some(*token),
        _ => None,
    }
}

fn constant_name(constant: &DataConstant) -> Option<u32>
    ensures { result ≡ spec.constant_name constant.now }
{
    match constant {
        DataConstant::Named(token) => Some(*token),
        _ => None,
    }
}

fn value_faults(view: &View<'_>, value: &DataValue, faults: &mut Faults)
    ensures { first_seen faults.new ≡ gathered (first_seen faults.old) (flat_map (steps.name_told view.now) (spec.names_of_value value.now)) }
{
    name_fault_if(view, repeat_name(&value.repeat), faults);
    name_fault_if(view, constant_name(&value.constant), faults);
}

fn values_faults(view: &View<'_>, values: &[DataValue], faults: &mut Faults)
    ensures { first_seen faults.new ≡ gathered (first_seen faults.old) (flat_map (steps.name_told view.now) (flat_map spec.names_of_value values.now)) }
{
    for value in values {
        value_faults(view, value, faults);
    }
}

fn group_faults(
    alloc: Global,
    view: &View<'_>,
    group: &DataGroup,
    faults: &mut Faults,
) -> Result<(), NoMemory>
    ensures { OnOk result (first_seen faults.new ≡ gathered (first_seen faults.old) (steps.group_told view.now group.now)) }
{
    designators_faults(alloc, view, group.objects.as_slice(), faults)?;
    values_faults(view, group.values.as_slice(), faults);
    Ok(())
}

fn groups_faults(
    alloc: Global,
    view: &View<'_>,
    groups: &[DataGroup],
    faults: &mut Faults,
) -> Result<(), NoMemory>
    ensures { OnOk result (first_seen faults.new ≡ gathered (first_seen faults.old) (flat_map (steps.group_told view.now) groups.now)) }
{
    for group in groups {
        group_faults(alloc, view, group, faults)?;
    }
    Ok(())
}

/// Adds the faults of the constant expressions in a statement.
pub(crate) fn statement_faults(
    alloc: Global,
    view: &View<'_>,
    form: &Form,
    faults: &mut Faults,
) -> Result<(), NoMemory>
    ensures { OnOk result (first_seen faults.new ≡ gathered (gathered (first_seen faults.old) (flat_map (steps.placed_told view.now) (expressions_of form.now))) (steps.designators_told view.now (Some (out-Form form.now)))) }
{
    let mut placed = Vec::new(alloc);
    form.push_expressions(&mut placed)?;
    placed_faults(alloc, view, &placed, faults)?;
    match form {
        Form::Equivalence { sets } => sets_faults(alloc, view, sets.as_slice(), faults),
        Form::Data { groups } => groups_faults(alloc, view, groups.as_slice(), faults),
        _ => Ok(()),
    }
}
