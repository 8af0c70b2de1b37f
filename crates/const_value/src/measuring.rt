//! Types with their lengths, bounds and values of names (Fortran 90, 5.1, 5.1.1.5, 5.1.2.4.1, 5.2.10).

ghost use Rattle.std.specs.Prelude.{◌≡◌, ◌<◌, length, Some, None, IfOk, if◌then◌else◌};
ghost use Rattle.std.specs.List.{list_any};
ghost use Rattle.std.specs.Option.{option_map};
ghost use Rattle.ftn_base.specs.declared.entity.Length.TheVariants.{Fixed};
ghost use Rattle.ftn_tree.specs.Constants as spec;
ghost use Rattle.ftn_tree.specs.Sorts as sorts;
ghost use Rattle.const_value.specs.steps.Lengths.{length_seen};
ghost use Rattle.const_value.specs.steps.Measuring as steps;
ghost use Rattle.const_value.specs.steps.Projects.{sort_of, sort_seen, written_at};
ghost use Rattle.const_value.specs.steps.Written.{pairs, typing_seen};

use crate::lengths::{WrittenLength, written_length};
use crate::measured::Measured;
use crate::project::{Project, Sort};
use crate::view::View;
use crate::written::Typing;
use const_expr::{evaluate, fitted};
use ftn_base::{Bounds, Length, Letter, NoMemory, Ty};
use ftn_tree::{BoundPair, Expr, TypeSpec, Value};
use std::alloc::Global;

/// The value of an expression where it is an integer.
pub(crate) fn whole_in(alloc: Global, view: &View<'_>, expr: &Expr) -> Result<Option<i32>, NoMemory>
    ensures { IfOk result (λ z. z ≡ spec.whole_in (steps.given view.now expr.now).value) }
{
    Ok(match evaluate(alloc, &view.names, expr)?.value {
        Some(Value::Whole(z)) => Some(z),
        _ => None,
    })
}

/// A negative length is 0.
fn fixed(z: i32) -> Length
    ensures { result ≡ Fixed (spec.at_least_none z) }
{
    Length::Fixed(if z < 0 { 0 } else { z as u32 })
}

/// The length as it is declared; none is 1.
fn length_of(
    alloc: Global,
    view: &View<'_>,
    length: WrittenLength<'_>,
) -> Result<Option<Length>, NoMemory>
    ensures { IfOk result (λ made. made ≡ steps.length_by (steps.given view.now) (length_seen length.entry)) }
{
    match length {
        WrittenLength::Unwritten => Ok(Some(Length::Fixed(1))),
        WrittenLength::Whole(z) => Ok(Some(fixed(z))),
        WrittenLength::Star => Ok(Some(Length::Assumed)),
        WrittenLength::Given(expr) => match whole_in(alloc, view, expr)? {
            Some(z) => Ok(Some(fixed(z))),
            None => Ok(None),
        },
    }
}

fn written_type(alloc: Global, view: &View<'_>, typing: &Typing<'_>) -> Result<Option<Ty>, NoMemory>
    ensures { IfOk result (λ ty. ty ≡ steps.typed_by (steps.given view.now) (typing_seen typing.now)) }
{
    match typing.ty {
        TypeSpec::Integer => Ok(Some(Ty::Integer)),
        TypeSpec::Logical => Ok(Some(Ty::Logical)),
        TypeSpec::Character(_) => {
            match length_of(alloc, view, written_length(typing))? {
                Some(length) => Ok(Some(Ty::Character(length))),
                None => Ok(None),
            }
        }
    }
}

/// The type as it is declared, where its length is known.
fn declared_type(alloc: Global, view: &View<'_>, name: usize) -> Result<Option<Ty>, NoMemory>
    requires names { name < length view.now.project.now.names.items }
    requires written { name < length view.now.project.now.written.items }
    ensures { IfOk result (λ ty. ty ≡ steps.declared_type (steps.given view.now) view.now.project.now.bound.now view.now.project.now.names.items view.now.project.now.written.items name) }
{
    match &view.project.written[name].typing {
        Some(typing) => written_type(alloc, view, typing),
        None => Ok(match view.project.letter_of(name) {
            Letter::Known(ty) => Some(ty),
            _ => None,
        }),
    }
}

/// The bounds of a dimension: a lower one that isn't written is 1, an upper one that isn't written isn't known.
fn bound_pair(
    alloc: Global,
    view: &View<'_>,
    pair: &BoundPair,
) -> Result<(Option<i32>, Option<i32>), NoMemory>
    ensures { IfOk result (λ made. made ≡ steps.pair_values (steps.given view.now) pair.now) }
{
    let low = match &pair.low {
        Some(expr) => whole_in(alloc, view, expr)?,
        None => Some(1),
    };
    let high = match &pair.high {
        Some(expr) => whole_in(alloc, view, expr)?,
        None => None,
    };
    Ok((low, high))
}

/// The bounds, where all are known, and whether a dimension has no element.
fn bounds_of(
    alloc: Global,
    view: &View<'_>,
    pairs: &[BoundPair],
) -> Result<(Option<Bounds>, bool), NoMemory>
    ensures bounds { IfOk result (λ made. made.0 ≡ spec.all_pairs (steps.pairs_of (steps.given view.now) pairs.now)) }
    ensures empty { IfOk result (λ made. made.1 ≡ list_any spec.is_empty_pair (steps.pairs_of (steps.given view.now) pairs.now)) }
{
    let mut known = Some(Bounds::new(alloc));
    let mut empty = false;
    for pair in pairs {
        match bound_pair(alloc, view, pair)? {
            (Some(low), Some(high)) => {
                empty = empty || high < low;
                known = match known {
                    Some(bounds) => Some(bounds.with(low, high)?),
                    None => None,
                };
            }
            _ => known = None,
        }
    }
    Ok((known, empty))
}

fn sort_of_value(value: &Value) -> Sort
    ensures { sort_seen result ≡ sorts.sort_of_value value.now }
{
    match value {
        Value::Whole(_) => Sort::Whole,
        Value::Truth(_) => Sort::Truth,
        Value::Chars(_) => Sort::Text,
    }
}

/// A text is cut, or gets blanks, to the length of its type.
pub(crate) fn with_length(alloc: Global, ty: Option<Ty>, value: Value) -> Result<Value, NoMemory>
    ensures { IfOk result (λ made. made ≡ spec.with_length ty value) }
{
    match ty {
        Some(Ty::Character(Length::Fixed(length))) => match value {
            Value::Chars(text) => Ok(Value::Chars(fitted(alloc, length, text.bytes())?)),
            other => Ok(other),
        },
        _ => Ok(value),
    }
}

fn is_sort(sort: Sort, found: Option<Sort>) -> bool
    ensures { result ≡ sorts.is_sort (sort_seen sort) (option_map sort_seen found) }
{
    match found {
        Some(found) => found == sort,
        None => false,
    }
}

/// The value that is written for a name, where it has the name's type.
pub(crate) fn value_of(
    alloc: Global,
    view: &View<'_>,
    name: usize,
    ty: Option<Ty>,
) -> Result<Option<Value>, NoMemory>
    requires names { name < length view.now.project.now.names.items }
    requires written { name < length view.now.project.now.written.items }
    ensures { IfOk result (λ made. made ≡ steps.value_of (steps.given view.now) (sort_of view.now.project.now.bound.now view.now.project.now.names.items view.now.project.now.written.items name) ty
        (written_at view.now.project.now.written.items name).value) }
{
    let project: &Project<'_> = view.project;
    let Some(expr) = project.written[name].value else {
        return Ok(None);
    };
    let Some(value) = evaluate(alloc, &view.names, expr)?.value else {
        return Ok(None);
    };
    if !is_sort(sort_of_value(&value), project.sort_of(name)) {
        return Ok(None);
    }
    Ok(Some(with_length(alloc, ty, value)?))
}

/// What is known of a name, its value if that is wanted.
pub(crate) fn measure(
    alloc: Global,
    view: &View<'_>,
    name: usize,
    valued: bool,
) -> Result<Measured, NoMemory>
    requires names { name < length view.now.project.now.names.items }
    requires written { name < length view.now.project.now.written.items }
    ensures ty { IfOk result (λ made. made.ty ≡ steps.declared_type (steps.given view.now) view.now.project.now.bound.now view.now.project.now.names.items view.now.project.now.written.items name) }
    ensures bounds { IfOk result (λ made. made.bounds ≡ spec.all_pairs (steps.pairs_of (steps.given view.now) (pairs (written_at view.now.project.now.written.items name)))) }
    ensures empty { IfOk result (λ made. made.empty ≡ list_any spec.is_empty_pair (steps.pairs_of (steps.given view.now) (pairs (written_at view.now.project.now.written.items name)))) }
    ensures value { IfOk result (λ made. made.value ≡ (if valued then steps.value_of (steps.given view.now)
        (sort_of view.now.project.now.bound.now view.now.project.now.names.items view.now.project.now.written.items name) made.ty (written_at view.now.project.now.written.items name).value else None)) }
{
    let ty = declared_type(alloc, view, name)?;
    let pairs = view.project.written[name].pairs();
    let (bounds, empty) = bounds_of(alloc, view, pairs)?;
    let value = if valued {
        value_of(alloc, view, name, ty)?
    } else {
        None
    };
    Ok(Measured {
        ty,
        bounds,
        empty,
        value,
    })
}
