//! Expressions in places, in bounds and in lengths.

ghost use Rattle.std.specs.Prelude.{◌≡◌, ◌++◌, ◌∷◌, [], OnOk};
ghost use Rattle.ftn_tree.specs.Wants as spec;

use crate::expr::Expr;
use crate::parts::{BoundPair, CharLength, LengthSelector, LengthValue, TypeSpec};
use crate::want::{Placed, Want};
use ftn_base::NoMemory;
use sqlite_items::Items;

pub(crate) fn place<'a>(
    want: Want,
    expr: &'a Expr,
    found: &mut Vec<Placed<'a>>,
) -> Result<(), NoMemory>
    ensures { OnOk result (found.new.items ≡ found.old.items ++ spec.placed want expr.now ∷ []) }
{
    found.push(Placed { want, expr })?;
    Ok(())
}

pub(crate) fn place_if<'a>(
    want: Want,
    expr: &'a Option<Expr>,
    found: &mut Vec<Placed<'a>>,
) -> Result<(), NoMemory>
    ensures { OnOk result (found.new.items ≡ found.old.items ++ spec.if_placed want expr.now) }
{
    match expr {
        Some(expr) => place(want, expr, found),
        None => Ok(()),
    }
}

pub(crate) fn place_each<'a>(
    want: Want,
    exprs: &'a [Expr],
    found: &mut Vec<Placed<'a>>,
) -> Result<(), NoMemory>
    ensures { OnOk result (found.new.items ≡ found.old.items ++ spec.each_placed want exprs.now) }
{
    for expr in exprs {
        place(want, expr, found)?;
    }
    Ok(())
}

pub(crate) fn place_if_each<'a>(
    want: Want,
    exprs: &'a Option<Items<Expr>>,
    found: &mut Vec<Placed<'a>>,
) -> Result<(), NoMemory>
    ensures { OnOk result (found.new.items ≡ found.old.items ++ spec.if_each_placed want exprs.now) }
{
    match exprs {
        Some(exprs) => place_each(want, exprs.as_slice(), found),
        None => Ok(()),
    }
}

fn place_bound<'a>(pair: &'a BoundPair, found: &mut Vec<Placed<'a>>) -> Result<(), NoMemory>
    ensures { OnOk result (found.new.items ≡ found.old.items ++ spec.of_bound pair.now) }
{
    place_if(Want::Bound, &pair.low, found)?;
    place_if(Want::Bound, &pair.high, found)
}

pub(crate) fn place_bounds<'a>(
    pairs: &'a [BoundPair],
    found: &mut Vec<Placed<'a>>,
) -> Result<(), NoMemory>
    ensures { OnOk result (found.new.items ≡ found.old.items ++ spec.of_bounds pairs.now) }
{
    for pair in pairs {
        place_bound(pair, found)?;
    }
    Ok(())
}

pub(crate) fn place_own_bounds<'a>(
    pairs: &'a Option<Items<BoundPair>>,
    found: &mut Vec<Placed<'a>>,
) -> Result<(), NoMemory>
    ensures { OnOk result (found.new.items ≡ found.old.items ++ spec.of_own_bounds pairs.now) }
{
    match pairs {
        Some(pairs) => place_bounds(pairs.as_slice(), found),
        None => Ok(()),
    }
}

fn place_length<'a>(length: &'a LengthValue, found: &mut Vec<Placed<'a>>) -> Result<(), NoMemory>
    ensures { OnOk result (found.new.items ≡ found.old.items ++ spec.of_length length.now) }
{
    match length {
        LengthValue::Assumed => Ok(()),
        LengthValue::Given(expr) => place(Want::Length, expr, found),
    }
}

fn place_star<'a>(length: &'a CharLength, found: &mut Vec<Placed<'a>>) -> Result<(), NoMemory>
    ensures { OnOk result (found.new.items ≡ found.old.items ++ spec.of_star length.now) }
{
    match length {
        CharLength::Whole { .. } => Ok(()),
        CharLength::Paren(length) => place_length(length, found),
    }
}

pub(crate) fn place_own_length<'a>(
    length: &'a Option<CharLength>,
    found: &mut Vec<Placed<'a>>,
) -> Result<(), NoMemory>
    ensures { OnOk result (found.new.items ≡ found.old.items ++ spec.of_own_length length.now) }
{
    match length {
        Some(length) => place_star(length, found),
        None => Ok(()),
    }
}

fn place_selector<'a>(
    length: &'a LengthSelector,
    found: &mut Vec<Placed<'a>>,
) -> Result<(), NoMemory>
    ensures { OnOk result (found.new.items ≡ found.old.items ++ spec.of_selector length.now) }
{
    match length {
        LengthSelector::Star(length) => place_star(length, found),
        LengthSelector::Paren { length, .. } => place_length(length, found),
    }
}

pub(crate) fn place_type<'a>(ty: &'a TypeSpec, found: &mut Vec<Placed<'a>>) -> Result<(), NoMemory>
    ensures { OnOk result (found.new.items ≡ found.old.items ++ spec.of_type ty.now) }
{
    match ty {
        TypeSpec::Integer | TypeSpec::Logical | TypeSpec::Character(None) => Ok(()),
        TypeSpec::Character(Some(length)) => place_selector(length, found),
    }
}

pub(crate) fn place_prefix<'a>(
    ty: &'a Option<TypeSpec>,
    found: &mut Vec<Placed<'a>>,
) -> Result<(), NoMemory>
    ensures { OnOk result (found.new.items ≡ found.old.items ++ spec.of_prefix ty.now) }
{
    match ty {
        Some(ty) => place_type(ty, found),
        None => Ok(()),
    }
}
