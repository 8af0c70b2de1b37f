//! Variables and constants, their elements and substrings (Fortran 90, 6.1.1, 6.2.2).

ghost use Rattle.std.specs.Prelude.{◌≡◌};
ghost use Rattle.std.specs.Option.{option_map};
ghost use Rattle.ftn_tree.specs.ExpressionTypes as spec;
ghost use Rattle.name_types.specs.steps.Kinds.{kind_seen};
ghost use Rattle.type_check.specs.steps.Kept.{told_seen, typed_seen};
ghost use Rattle.type_check.specs.steps.Ranges.{given_seen, range_kept};
ghost use Rattle.type_check.specs.steps.Sights as sights;

use crate::arguments::{all_passed, all_wanted};
use crate::typed::{Standing, Told, Typed, kind_if, sooner, told_where};
use const_value::project::Sort;
use ftn_base::FaultKind;
use name_types::kinds::Kind;

/// The ends of a substring range, as far as they are written.
#[derive(Clone, Copy)]
pub struct Range {
    pub low: Option<Typed>,
    pub high: Option<Typed>,
}

fn end_wanted(end: &Option<Typed>) -> Option<Told>
    ensures { option_map told_seen result ≡ sights.end_told (sights.wanted spec.integer) (option_map typed_seen end.now) }
{
    match end {
        Some(end) => end.wanted(Kind::integer()),
        None => None,
    }
}

/// The first of what is told of a range: its ends are integers.
pub fn range_told(range: &Option<Range>) -> Option<Told>
    ensures { option_map told_seen result ≡ sights.in_range (sights.wanted spec.integer) (range_kept range.now) }
{
    match range {
        Some(range) => sooner(end_wanted(&range.low), end_wanted(&range.high)),
        None => None,
    }
}

fn end_passed(end: &Option<Typed>) -> Option<Told>
    ensures { option_map told_seen result ≡ sights.end_told sights.passed_of (option_map typed_seen end.now) }
{
    match end {
        Some(end) => end.passed,
        None => None,
    }
}

/// The first of what is passed in a range to be defined and may not be.
pub fn range_passed(range: &Option<Range>) -> Option<Told>
    ensures { option_map told_seen result ≡ sights.in_range sights.passed_of (range_kept range.now) }
{
    match range {
        Some(range) => sooner(end_passed(&range.low), end_passed(&range.high)),
        None => None,
    }
}

fn subscripts_told(given: &Option<Vec<Typed>>) -> Option<Told>
    ensures { option_map told_seen result ≡ sights.given_told (sights.wanted spec.integer) (given_seen given.now) }
{
    match given {
        Some(given) => all_wanted(Kind::integer(), given),
        None => None,
    }
}

/// The first of what is passed in subscripts or arguments to be defined and may not be.
pub fn given_passed(given: &Option<Vec<Typed>>) -> Option<Told>
    ensures { option_map told_seen result ≡ sights.given_told sights.passed_of (given_seen given.now) }
{
    match given {
        Some(given) => all_passed(given),
        None => None,
    }
}

/// What is told of the number of subscripts: there are as many as dimensions, and none of a scalar.
fn count_told(name: u32, rank: usize, given: &Option<Vec<Typed>>) -> Option<Told>
    ensures { option_map told_seen result ≡ sights.count_told name rank (given_seen given.now) }
{
    match given {
        Some(given) => sooner(
            told_where(given.len() != rank, FaultKind::WrongCount, name),
            told_where(given.len() == 0 && rank == 0, FaultKind::WrongType, name),
        ),
        None => None,
    }
}

/// What is told of a substring range: it stands behind a text, and not behind an array.
fn ranged_told(name: u32, kind: &Kind, whole: bool, range: &Option<Range>) -> Option<Told>
    ensures { option_map told_seen result ≡ sights.ranged_told name (kind_seen kind.now) whole (range_kept range.now) }
{
    let fits = matches!(kind.sort, Sort::Text) && !(whole && kind.rank > 0);
    told_where(range.is_some() && !fits, FaultKind::WrongType, name)
}

fn data_told(
    name: u32,
    kind: &Kind,
    given: &Option<Vec<Typed>>,
    range: &Option<Range>,
) -> Option<Told>
    ensures { option_map told_seen result ≡ sights.data_told name (kind_seen kind.now) (given_seen given.now) (range_kept range.now) }
{
    let counted = sooner(
        count_told(name, kind.rank, given),
        ranged_told(name, kind, given.is_none(), range),
    );
    sooner(subscripts_told(given), sooner(range_told(range), counted))
}

/// A variable or a constant, an element of it, or a substring of that.
pub fn data_typed(
    name: u32,
    kind: Kind,
    definable: bool,
    given: &Option<Vec<Typed>>,
    range: &Option<Range>,
) -> Typed
    ensures { typed_seen result ≡ sights.data_typed name (kind_seen kind) definable (given_seen given.now) (range_kept range.now) }
{
    let told = data_told(name, &kind, given, range);
    let rank = if given.is_some() { 0 } else { kind.rank };
    Typed {
        first: name,
        kind: kind_if(
            &told,
            Kind {
                sort: kind.sort,
                rank,
            },
        ),
        told,
        passed: sooner(given_passed(given), range_passed(range)),
        standing: Standing {
            reference: true,
            element: given.is_some() && range.is_none() && kind.rank > 0,
            datum: true,
            definable,
        },
    }
}
