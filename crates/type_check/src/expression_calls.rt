//! Which procedures the references in expressions call (Fortran 90, 12.4.2, 14.1.2.3).

ghost use Rattle.std.specs.Prelude.{◌≡◌, ◌++◌, map, IfOk, OnOk};
ghost use Rattle.std.specs.Option.{option_copied, option_map};
ghost use Rattle.ftn_tree.specs.Calls as spec;
ghost use Rattle.name_types.specs.steps.Kinds.{signature_seen};
ghost use Rattle.name_types.specs.steps.Senses.{sense_seen};
ghost use Rattle.type_check.specs.steps.Calling as steps;
ghost use Rattle.type_check.specs.steps.Typing.{arguments_by};

use crate::generic_references::meant;
use crate::typing::actual_arguments;
use ftn_base::NoMemory;
use ftn_tree::{Expr, Extent, Part};
use name_types::kinds::{Sense, Signature};
use name_types::names::Setting;
use sqlite_items::{Boxed, Items};
use std::alloc::Global;

/// The token of a name that calls, and the procedure.
#[derive(Clone, Copy)]
pub struct Call {
    pub name: u32,
    pub procedure: Extent,
}

fn call_if(name: u32, signature: Option<&Signature>) -> Option<Call>
    ensures { steps.found_seen result ≡ spec.call_if name (option_map signature_seen (option_copied signature.entry)) }
{
    match signature {
        Some(signature) => Some(Call {
            name,
            procedure: signature.procedure,
        }),
        None => None,
    }
}

/// What a name calls, by what it is: of a generic name the one specific procedure that is meant.
pub fn called(
    alloc: Global,
    setting: &Setting<'_>,
    name: u32,
    sense: &Sense<'_>,
    args: &Option<Items<Expr>>,
) -> Result<Option<Call>, NoMemory>
    ensures { IfOk result (λ found. steps.found_seen found ≡ spec.call_by name (sense_seen sense.now) (arguments_by setting.now args.now)) }
{
    match sense {
        Sense::Itself(signature) => Ok(call_if(name, Some(signature))),
        Sense::Procedure(signature) => Ok(call_if(name, Some(signature))),
        Sense::Generic {
            specifics,
            signatures,
        } => {
            let actuals = actual_arguments(alloc, setting, args)?;
            Ok(call_if(name, meant(specifics, signatures, &actuals)))
        }
        Sense::Data { .. } => Ok(None),
        Sense::Intrinsic(_) => Ok(None),
        Sense::Other => Ok(None),
    }
}

/// Adds a call, where it is one.
pub fn push_call(found: Option<Call>, made: &mut Vec<Call>) -> Result<(), NoMemory>
    ensures { OnOk result (map steps.call_seen made.new.items ≡ map steps.call_seen made.old.items ++ steps.found_seen found) }
{
    if let Some(call) = found {
        made.push(call)?;
    }
    Ok(())
}

/// Adds what a name with its arguments calls.
fn push_name(
    alloc: Global,
    setting: &Setting<'_>,
    name: u32,
    args: &Option<Items<Expr>>,
    made: &mut Vec<Call>,
) -> Result<(), NoMemory>
    ensures { OnOk result (map steps.call_seen made.new.items ≡ map steps.call_seen made.old.items ++ steps.name_calls setting.now name args.now) }
{
    let sense = setting.sense(name, args.is_some());
    let found = called(alloc, setting, name, &sense, args)?;
    push_call(found, made)
}

/// Adds the calls in an expression, each before those in its arguments.
#[cycle(calling)]
pub fn push_calls(
    alloc: Global,
    setting: &Setting<'_>,
    expr: &Expr,
    made: &mut Vec<Call>,
) -> Result<(), NoMemory>
    ensures { OnOk result (map steps.call_seen made.new.items ≡ map steps.call_seen made.old.items ++ steps.calls_by setting.now expr.now) }
{
    match expr {
        Expr::Whole { .. } => {}
        Expr::Truth { .. } => {}
        Expr::Quoted { .. } => {}
        Expr::Paren { inner, .. } => push_calls(alloc, setting, inner.get(), made)?,
        Expr::Unary { arg, .. } => push_calls(alloc, setting, arg.get(), made)?,
        Expr::Binary { left, right, .. } => {
            push_calls(alloc, setting, left.get(), made)?;
            push_calls(alloc, setting, right.get(), made)?;
        }
        Expr::Refer { name, args, part } => {
            push_name(alloc, setting, *name, args, made)?;
            push_args(alloc, setting, args, made)?;
            push_part(alloc, setting, part, made)?;
        }
    }
    Ok(())
}

#[cycle(calling)]
fn push_args(
    alloc: Global,
    setting: &Setting<'_>,
    args: &Option<Items<Expr>>,
    made: &mut Vec<Call>,
) -> Result<(), NoMemory>
    ensures { OnOk result (map steps.call_seen made.new.items ≡ map steps.call_seen made.old.items ++ steps.args_calls setting.now args.now) }
{
    match args {
        Some(args) => {
            for arg in args.as_slice() {
                push_calls(alloc, setting, arg, made)?;
            }
            Ok(())
        }
        None => Ok(()),
    }
}

#[cycle(calling)]
fn push_part(
    alloc: Global,
    setting: &Setting<'_>,
    part: &Option<Boxed<Part>>,
    made: &mut Vec<Call>,
) -> Result<(), NoMemory>
    ensures { OnOk result (map steps.call_seen made.new.items ≡ map steps.call_seen made.old.items ++ steps.part_calls setting.now part.now) }
{
    match part {
        Some(part) => {
            let part = part.get();
            push_end(alloc, setting, &part.low, made)?;
            push_end(alloc, setting, &part.high, made)?;
            Ok(())
        }
        None => Ok(()),
    }
}

#[cycle(calling)]
fn push_end(
    alloc: Global,
    setting: &Setting<'_>,
    end: &Option<Expr>,
    made: &mut Vec<Call>,
) -> Result<(), NoMemory>
    ensures { OnOk result (map steps.call_seen made.new.items ≡ map steps.call_seen made.old.items ++ steps.end_calls setting.now end.now) }
{
    match end {
        Some(expr) => push_calls(alloc, setting, expr, made),
        None => Ok(()),
    }
}
