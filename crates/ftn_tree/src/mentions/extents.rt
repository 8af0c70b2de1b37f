//! Names in bounds and in lengths (Fortran 90, 5.1.1.5, 5.1.2.4).

ghost use Rattle.std.specs.Prelude.{◌≡◌, ◌++◌, ◌∷◌, [], OnOk};
ghost use Rattle.ftn_tree.specs.PartMentions as spec;

use crate::mention::Mention;
use crate::mentions::naming::push_if_expr;
use crate::parts::{BoundPair, CharLength, LengthSelector, LengthValue, TypeSpec};
use ftn_base::NoMemory;
use sqlite_items::Items;
use std::alloc::Global;

pub(crate) fn push_bound(
    alloc: Global,
    pair: &BoundPair,
    found: &mut Vec<Mention>,
) -> Result<(), NoMemory>
    ensures { OnOk result (found.new.items ≡ found.old.items ++ spec.in_bound pair.now) }
{
    push_if_expr(alloc, &pair.low, found)?;
    push_if_expr(alloc, &pair.high, found)
}

pub(crate) fn push_bounds(
    alloc: Global,
    pairs: &[BoundPair],
    found: &mut Vec<Mention>,
) -> Result<(), NoMemory>
    ensures { OnOk result (found.new.items ≡ found.old.items ++ spec.in_bounds pairs.now) }
{
    for pair in pairs {
        push_bound(alloc, pair, found)?;
    }
    Ok(())
}

pub(crate) fn push_if_bounds(
    alloc: Global,
    pairs: &Option<Items<BoundPair>>,
    found: &mut Vec<Mention>,
) -> Result<(), NoMemory>
    ensures { OnOk result (found.new.items ≡ found.old.items ++ spec.in_own_bounds pairs.now) }
{
    match pairs {
        Some(pairs) => push_bounds(alloc, pairs.as_slice(), found),
        None => Ok(()),
    }
}

pub(crate) fn push_length(
    alloc: Global,
    length: &LengthValue,
    found: &mut Vec<Mention>,
) -> Result<(), NoMemory>
    ensures { OnOk result (found.new.items ≡ found.old.items ++ spec.in_length length.now) }
{
    match length {
        LengthValue::Assumed => Ok(()),
        LengthValue::Given(expr) => expr.push_mentions(alloc, found),
    }
}

pub(crate) fn push_star(
    alloc: Global,
    length: &CharLength,
    found: &mut Vec<Mention>,
) -> Result<(), NoMemory>
    ensures { OnOk result (found.new.items ≡ found.old.items ++ spec.in_star length.now) }
{
    match length {
        CharLength::Whole { .. } => Ok(()),
        CharLength::Paren(length) => push_length(alloc, length, found),
    }
}

pub(crate) fn push_if_star(
    alloc: Global,
    length: &Option<CharLength>,
    found: &mut Vec<Mention>,
) -> Result<(), NoMemory>
    ensures { OnOk result (found.new.items ≡ found.old.items ++ spec.in_own_length length.now) }
{
    match length {
        Some(length) => push_star(alloc, length, found),
        None => Ok(()),
    }
}

pub(crate) fn push_selector(
    alloc: Global,
    length: &LengthSelector,
    found: &mut Vec<Mention>,
) -> Result<(), NoMemory>
    ensures { OnOk result (found.new.items ≡ found.old.items ++ spec.in_selector length.now) }
{
    match length {
        LengthSelector::Star(length) => push_star(alloc, length, found),
        LengthSelector::Paren { length, .. } => push_length(alloc, length, found),
    }
}

pub(crate) fn push_type(
    alloc: Global,
    ty: &TypeSpec,
    found: &mut Vec<Mention>,
) -> Result<(), NoMemory>
    ensures { OnOk result (found.new.items ≡ found.old.items ++ spec.in_type ty.now) }
{
    match ty {
        TypeSpec::Integer | TypeSpec::Logical | TypeSpec::Character(None) => Ok(()),
        TypeSpec::Character(Some(length)) => push_selector(alloc, length, found),
    }
}
