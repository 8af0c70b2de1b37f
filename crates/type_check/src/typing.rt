//! The types of expressions (Fortran 90, 7.1.4).

ghost use Rattle.std.specs.Prelude.{◌≡◌, map, IfOk};
ghost use Rattle.std.specs.Option.{option_map};
ghost use Rattle.ftn_tree.specs.ExpressionTypes as spec;
ghost use Rattle.ftn_tree.specs.Trees.{tree_of};
ghost use Rattle.type_check.specs.steps.Kept.{seen, typed_seen};
ghost use Rattle.type_check.specs.steps.Ranges.{given_seen, range_kept};
ghost use Rattle.name_types.specs.steps.Senses.{sense_by};
ghost use Rattle.type_check.specs.steps.Sights as sights;
ghost use Rattle.type_check.specs.steps.Typing as steps;

use crate::arguments::arguments;
use crate::data_references::Range;
use crate::operators::{binary_typed, in_parens, unary_typed};
use crate::references::reference_typed;
use crate::typed::Typed;
use ftn_base::NoMemory;
use ftn_tree::{Expr, Part};
use name_types::kinds::Kind;
use name_types::names::Setting;
use sqlite_items::{Boxed, Items};
use std::alloc::Global;

/// What an expression is: its first token, its type and rank, the first of what is told of it, and how it stands.
#[cycle(typing)]
pub fn typed(alloc: Global, setting: &Setting<'_>, expr: &Expr) -> Result<Typed, NoMemory>
    ensures { IfOk result (λ t. typed_seen t ≡ seen (spec.typed (sense_by setting.now) (tree_of expr.now))) }
{
    match expr {
        Expr::Whole { token, .. } => { Ok(Typed::expression(*token, Kind::integer(), None, None)) }
        Expr::Truth { token, .. } => { Ok(Typed::expression(*token, Kind::logical(), None, None)) }
        Expr::Quoted { token, .. } => {
            Ok(Typed::expression(*token, Kind::character(), None, None))
        }
        Expr::Paren { token, inner } => {
            let inner = typed(alloc, setting, inner.get())?;
            Ok(in_parens(*token, &inner))
        }
        Expr::Unary { op, operator, arg } => {
            let arg = typed(alloc, setting, arg.get())?;
            Ok(unary_typed(*op, *operator, &arg))
        }
        Expr::Binary {
            operator,
            left,
            right,
            ..
        } => {
            let left = typed(alloc, setting, left.get())?;
            let right = typed(alloc, setting, right.get())?;
            Ok(binary_typed(*operator, &left, &right))
        }
        Expr::Refer { name, args, part } => {
            let given = typed_args(alloc, setting, args)?;
            let range = typed_part(alloc, setting, part)?;
            refer(alloc, setting, *name, &given, &range)
        }
    }
}

/// A name with its arguments or subscripts and its range.
fn refer(
    alloc: Global,
    setting: &Setting<'_>,
    name: u32,
    given: &Option<Vec<Typed>>,
    range: &Option<Range>,
) -> Result<Typed, NoMemory>
    ensures { IfOk result (λ t. typed_seen t ≡ steps.referred setting.now name (given_seen given.now) (range_kept range.now)) }
{
    let sense = setting.sense(name, given.is_some());
    reference_typed(alloc, name, &sense, given, range)
}

/// What arguments or subscripts are, where they are written.
#[cycle(typing)]
pub fn typed_args(
    alloc: Global,
    setting: &Setting<'_>,
    args: &Option<Items<Expr>>,
) -> Result<Option<Vec<Typed>>, NoMemory>
    ensures { IfOk result (λ made. given_seen made ≡ option_map (map seen) (steps.given_by setting.now args.now)) }
{
    match args {
        Some(args) => {
            let mut parts = Vec::new(alloc);
            for arg in args.as_slice() {
                let next = typed(alloc, setting, arg)?;
                parts.push(next)?;
            }
            Ok(Some(parts))
        }
        None => Ok(None),
    }
}

#[cycle(typing)]
fn typed_part(
    alloc: Global,
    setting: &Setting<'_>,
    part: &Option<Boxed<Part>>,
) -> Result<Option<Range>, NoMemory>
    ensures { IfOk result (λ range. range_kept range ≡ sights.range_seen (steps.range_by setting.now part.now)) }
{
    match part {
        Some(part) => {
            let part = part.get();
            let low = typed_end(alloc, setting, &part.low)?;
            let high = typed_end(alloc, setting, &part.high)?;
            Ok(Some(Range { low, high }))
        }
        None => Ok(None),
    }
}

#[cycle(typing)]
fn typed_end(
    alloc: Global,
    setting: &Setting<'_>,
    end: &Option<Expr>,
) -> Result<Option<Typed>, NoMemory>
    ensures { IfOk result (λ made. option_map typed_seen made ≡ option_map seen (steps.end_by setting.now end.now)) }
{
    match end {
        Some(expr) => Ok(Some(typed(alloc, setting, expr)?)),
        None => Ok(None),
    }
}

/// The actual arguments of a call.
pub fn actual_arguments(
    alloc: Global,
    setting: &Setting<'_>,
    args: &Option<Items<Expr>>,
) -> Result<Vec<Typed>, NoMemory>
    ensures { IfOk result (λ made. map typed_seen made.items ≡ map seen (steps.arguments_by setting.now args.now)) }
{
    match typed_args(alloc, setting, args)? {
        Some(given) => arguments(alloc, &given),
        None => Ok(Vec::new(alloc)),
    }
}
