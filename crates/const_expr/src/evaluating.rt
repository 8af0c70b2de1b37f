//! The values of constant expressions (Fortran 90, 7.1.6.1).

ghost use Rattle.std.specs.Prelude.{◌≡◌, IfOk, List, Option, Some};
ghost use Rattle.ftn_tree.specs.Evaluations as spec;
ghost use Rattle.const_expr.specs.Namings as names;
ghost use Rattle.const_expr.specs.Seen.{seen};
ghost use Rattle.const_expr.specs.steps.Parts.{range_seen, AreParts};
ghost use Rattle.std.specs.Option.{option_map};

use crate::evaluated::Evaluated;
use crate::naming::{Naming, Setting};
use crate::operating::{binary_operation, unary_operation};
use crate::references::{Parts, Range, call, constant};
use ftn_base::NoMemory;
use ftn_tree::{Expr, Part, Value};
use sqlite_items::{Boxed, Items};
use std::alloc::Global;

/// What an expression gives: its first token, its value where it is constant and has one, and the first of what is told of it. It fails
/// where memory is refused, and where a character value would have more than 2^24 bytes.
#[cycle(evaluating)]
pub fn evaluate(alloc: Global, setting: &Setting<'_>, expr: &Expr) -> Result<Evaluated, NoMemory>
    ensures { IfOk result (λ e. e ≡ seen (names.evaluated_by setting.now.row.now setting.now.namings.now expr.now)) }
{
    match expr {
        Expr::Whole { token, value } => Ok(Evaluated::sure(*token, Value::Whole(*value))),
        Expr::Truth { token, value } => Ok(Evaluated::sure(*token, Value::Truth(*value))),
        Expr::Quoted { token, value } => {
            Ok(Evaluated::sure(*token, Value::Chars(value.copy(alloc)?)))
        }
        Expr::Paren { token, inner } => {
            Ok(evaluate(alloc, setting, inner.get())?.in_parens(*token))
        }
        Expr::Unary { op, operator, arg } => {
            let arg = evaluate(alloc, setting, arg.get())?;
            unary_operation(*op, *operator, arg)
        }
        Expr::Binary {
            operator,
            left,
            right,
            ..
        } => {
            let left = evaluate(alloc, setting, left.get())?;
            let right = evaluate(alloc, setting, right.get())?;
            binary_operation(*operator, left, right)
        }
        Expr::Refer { name, args, part } => {
            let given = evaluate_args(alloc, setting, args)?;
            let range = evaluate_part(alloc, setting, part)?;
            refer(alloc, setting, *name, given, range)
        }
    }
}

/// A name that is that, with its arguments or subscripts and its range.
fn refer_to(
    alloc: Global,
    naming: &Naming,
    name: u32,
    args: Option<Parts>,
    range: Option<Range>,
) -> Result<Evaluated, NoMemory>
    ensures { (es : Option (List spec.Evaluated)) (r : Option (Option spec.Evaluated × Option spec.Evaluated)) → AreParts es args → range ≡ range_seen r
        → IfOk result (λ e. e ≡ seen (spec.reference name (names.naming_of (Some naming.now)) es r)) }
{
    match naming {
        Naming::Function(function) => match args {
            Some(args) => call(alloc, name, *function, args, &range),
            None => Ok(Evaluated::stray(name)),
        },
        Naming::Constant {
            value,
            rank,
            bounds,
        } => constant(alloc, name, value, *rank, bounds, args, range),
        Naming::Stray => Ok(Evaluated::stray(name)),
    }
}

/// A name, by its arguments or subscripts and its range.
fn refer(
    alloc: Global,
    setting: &Setting<'_>,
    name: u32,
    args: Option<Parts>,
    range: Option<Range>,
) -> Result<Evaluated, NoMemory>
    ensures { (es : Option (List spec.Evaluated)) (r : Option (Option spec.Evaluated × Option spec.Evaluated)) → AreParts es args → range ≡ range_seen r
        → IfOk result (λ e. e ≡ seen (spec.reference name (names.naming_by setting.now.row.now setting.now.namings.now name) es r)) }
{
    match setting.naming(name) {
        Some(naming) => refer_to(alloc, naming, name, args, range),
        None => Ok(Evaluated::stray(name)),
    }
}

/// What arguments or subscripts give, where they are written.
#[cycle(evaluating)]
fn evaluate_args(
    alloc: Global,
    setting: &Setting<'_>,
    args: &Option<Items<Expr>>,
) -> Result<Option<Parts>, NoMemory>
    ensures { IfOk result (AreParts (names.given_by setting.now.row.now setting.now.namings.now args.now)) }
{
    match args {
        Some(args) => {
            let mut parts = Parts::none(alloc);
            for arg in args.as_slice() {
                let next = evaluate(alloc, setting, arg)?;
                parts = parts.with(next)?;
            }
            Ok(Some(parts))
        }
        None => Ok(None),
    }
}

#[cycle(evaluating)]
fn evaluate_part(
    alloc: Global,
    setting: &Setting<'_>,
    part: &Option<Boxed<Part>>,
) -> Result<Option<Range>, NoMemory>
    ensures { IfOk result (λ range. range ≡ range_seen (names.range_by setting.now.row.now setting.now.namings.now part.now)) }
{
    match part {
        Some(part) => {
            let part = part.get();
            let low = evaluate_end(alloc, setting, &part.low)?;
            let high = evaluate_end(alloc, setting, &part.high)?;
            Ok(Some(Range { low, high }))
        }
        None => Ok(None),
    }
}

#[cycle(evaluating)]
fn evaluate_end(
    alloc: Global,
    setting: &Setting<'_>,
    end: &Option<Expr>,
) -> Result<Option<Evaluated>, NoMemory>
    ensures { IfOk result (λ made. made ≡ option_map seen (names.end_by setting.now.row.now setting.now.namings.now end.now)) }
{
    match end {
        Some(expr) => Ok(Some(evaluate(alloc, setting, expr)?)),
        None => Ok(None),
    }
}
