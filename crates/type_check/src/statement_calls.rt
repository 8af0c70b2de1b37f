//! Which procedures a statement calls (Fortran 90, 12.4).

ghost use Rattle.std.specs.Prelude.{◌≡◌, ◌++◌, List, map, OnOk};
ghost use Rattle.ftn_tree.specs.declared.form.Form.{out-Form};
ghost use Rattle.ftn_tree.specs.declared.table.Extent.{Extent};
ghost use Rattle.ftn_tree.specs.declared.unit.FileTree.{FileTree};
ghost use Rattle.ftn_tree.specs.Calls as spec;
ghost use Rattle.ftn_tree.specs.Wants.{expressions_of};
ghost use Rattle.name_types.specs.steps.Senses.{IsRight};
ghost use Rattle.type_check.specs.steps.Calling as steps;

use crate::expression_calls::{Call, called, push_call, push_calls};
use ftn_base::NoMemory;
use ftn_tree::{Form, Placed};
use name_types::names::Setting;
use std::alloc::Global;

/// Adds what CALL calls (12.4.3).
fn push_action(
    alloc: Global,
    setting: &Setting<'_>,
    form: &Form,
    made: &mut Vec<Call>,
) -> Result<(), NoMemory>
    ensures { OnOk result (map steps.call_seen made.new.items ≡ map steps.call_seen made.old.items ++ steps.action_by setting.now (out-Form form.now)) }
{
    match form {
        Form::Call { name, args } => {
            let sense = setting.called(*name);
            let found = called(alloc, setting, *name, &sense, args)?;
            push_call(found, made)
        }
        _ => Ok(()),
    }
}

/// Adds what a statement calls as a whole.
fn push_whole(
    alloc: Global,
    setting: &Setting<'_>,
    form: &Form,
    made: &mut Vec<Call>,
) -> Result<(), NoMemory>
    ensures { OnOk result (map steps.call_seen made.new.items ≡ map steps.call_seen made.old.items ++ steps.whole_by setting.now (out-Form form.now)) }
{
    match form {
        Form::If { inner, .. } => push_action(alloc, setting, inner.get(), made),
        _ => push_action(alloc, setting, form, made),
    }
}

fn push_placed(
    alloc: Global,
    setting: &Setting<'_>,
    placed: &[Placed<'_>],
    made: &mut Vec<Call>,
) -> Result<(), NoMemory>
    ensures { OnOk result (map steps.call_seen made.new.items ≡ map steps.call_seen made.old.items ++ steps.placed_by setting.now placed.now) }
{
    for one in placed {
        push_calls(alloc, setting, one.expr, made)?;
    }
    Ok(())
}

fn push_expressions(
    alloc: Global,
    setting: &Setting<'_>,
    form: &Form,
    made: &mut Vec<Call>,
) -> Result<(), NoMemory>
    ensures { OnOk result (map steps.call_seen made.new.items ≡ map steps.call_seen made.old.items ++ steps.placed_by setting.now (expressions_of form.now)) }
{
    let mut placed = Vec::new(alloc);
    form.push_expressions(&mut placed)?;
    push_placed(alloc, setting, &placed, made)
}

/// Adds what a statement of a scoping unit calls: as a whole, and then in its expressions.
pub fn push_form(
    alloc: Global,
    setting: &Setting<'_>,
    form: &Form,
    made: &mut Vec<Call>,
) -> Result<(), NoMemory>
    ensures { (files : List FileTree) (e : Extent) → IsRight files e setting.now
        → OnOk result (map steps.call_seen made.new.items ≡ map steps.call_seen made.old.items ++ spec.form_calls files e (out-Form form.now)) }
{
    push_whole(alloc, setting, form, made)?;
    push_expressions(alloc, setting, form, made)?;
    Ok(())
}
