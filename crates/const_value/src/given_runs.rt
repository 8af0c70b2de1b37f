//! Runs of elements and of values in DATA (Fortran 90, 5.2.9). Repeats are counted and nothing is written out.

ghost use Rattle.std.specs.Prelude.{◌≡◌, ◌+◌, ◌-ℤ◌, ℕ, Option, map};
ghost use Rattle.std.specs.Option.{option_map};
ghost use Rattle.ftn_tree.specs.Arrays as arrays;
ghost use Rattle.ftn_tree.specs.EntityValues as entities;
ghost use Rattle.ftn_tree.specs.Givens as givens;
ghost use Rattle.const_value.specs.steps.Runs.{limited, next_from};

use ftn_base::{Bounds, Length, Ty};

/// So many elements or values on end, from that position of the group on. A number that is too large for 64 bits counts as the greatest
/// one.
#[derive(Clone, Copy)]
pub(crate) struct Run {
    pub from: u64,
    pub count: u64,
}

impl Run {
    /// The position after the last one.
    pub fn end(&self) -> u64
        ensures { result ≡ limited (self.now.from + self.now.count) }
    {
        self.from.saturating_add(self.count)
    }
}

fn elements_in(pairs: &[(i32, i32)]) -> u64
    ensures { result ≡ limited (arrays.elements (map arrays.axis_from pairs.now)) }
{
    match pairs {
        [] => 1,
        [pair, rest @ ..] => extent_of(*pair).saturating_mul(elements_in(rest)),
    }
}

/// The number of elements.
pub(crate) fn elements_of(bounds: &Bounds) -> u64
    ensures { result ≡ limited (arrays.elements (map arrays.axis_from bounds.now)) }
{
    elements_in(bounds.pairs())
}

/// The number of whole numbers from the lower bound to the upper one.
fn extent_of(pair: (i32, i32)) -> u64
    ensures { result ≡ arrays.span pair.0 pair.1 }
{
    let (low, high) = pair;
    if high < low {
        0
    } else {
        (i64::from(high) - i64::from(low) + 1) as u64
    }
}

/// How far a number is from a lower bound.
fn distance(low: i32, number: i32) -> u64
    ensures { result ≡ arrays.at_least_zero (number -ℤ low) }
{
    if number < low {
        0
    } else {
        (i64::from(number) - i64::from(low)) as u64
    }
}

/// The place of an element by its subscript in the first dimension and its place in the others.
fn next_place(pair: (i32, i32), subscript: i32, place: Option<u64>) -> Option<u64>
    ensures { (n : Option ℕ) → place ≡ option_map limited n → result ≡ option_map limited (next_from pair subscript n) }
{
    let place = place?;
    let (low, high) = pair;
    if subscript < low || high < subscript {
        return None;
    }
    let below = extent_of(pair).saturating_mul(place);
    Some(distance(low, subscript).saturating_add(below))
}

/// The place of an element in array order, from 0, where each subscript is in the bounds of its dimension (6.2.2.2).
pub(crate) fn place_in(bounds: &[(i32, i32)], subscripts: &[i32]) -> Option<u64>
    ensures { result ≡ option_map limited (arrays.place_in (map arrays.axis_from bounds.now) subscripts.now) }
{
    match bounds {
        [] => Some(0),
        [pair, more @ ..] => match subscripts {
            [] => Some(0),
            [subscript, rest @ ..] => next_place(*pair, *subscript, place_in(more, rest)),
        },
    }
}

/// The storage units of an element.
pub(crate) fn units_of(ty: Ty) -> u64
    ensures { result ≡ givens.units_of ty }
{
    match ty {
        Ty::Character(Length::Fixed(length)) => u64::from(length),
        _ => 1,
    }
}

/// The number, or the greatest one of 32 bits.
pub(crate) fn capped(number: u64) -> u32
    ensures { result ≡ entities.capped number }
{
    if number < 4294967295 {
        number as u32
    } else {
        4294967295
    }
}
