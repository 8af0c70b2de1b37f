//! References: what a name is with its arguments or subscripts and its range (Fortran 90, 6.1.1, 6.2.2, 12.4).

ghost use Rattle.std.specs.Prelude.{◌≡◌, map, None, IfOk};
ghost use Rattle.std.specs.Option.{option_map};
ghost use Rattle.ftn_tree.specs.ExpressionTypes as spec;
ghost use Rattle.type_check.specs.steps.Kept.{seen, told_seen, typed_seen};
ghost use Rattle.type_check.specs.steps.Ranges.{given_seen, range_kept};
ghost use Rattle.name_types.specs.steps.Senses.{sense_seen};
ghost use Rattle.type_check.specs.steps.Sights as sights;

use crate::arguments::{all_arguments_told, all_passed, arguments};
use crate::data_references::{Range, data_typed, given_passed, range_passed, range_told};
use crate::function_references::{function_typed, generic_typed, intrinsic_typed};
use crate::generic_references::choose;
use crate::typed::{Standing, Told, Typed, sooner};
use ftn_base::{FaultKind, NoMemory};
use ftn_tree::Intrinsic;
use name_types::kinds::Sense;
use std::alloc::Global;

/// A function in itself: a call, of a name that is also its result's.
fn itself(call: Typed) -> Typed
    ensures { typed_seen result ≡ sights.itself (typed_seen call) }
{
    Typed {
        first: call.first,
        kind: call.kind,
        told: call.told,
        passed: call.passed,
        standing: Standing {
            reference: true,
            element: false,
            datum: true,
            definable: false,
        },
    }
}

/// Something that no expression has, by what is told of and passed in what follows it.
fn stray(name: u32, told: Option<Told>, passed: Option<Told>, range: &Option<Range>) -> Typed
    ensures { typed_seen result ≡ sights.stray name (option_map told_seen told) (option_map told_seen passed) (range_kept range.now) }
{
    let wrong = Some(Told {
        kind: FaultKind::WrongType,
        token: name,
    });
    Typed {
        first: name,
        kind: None,
        told: sooner(told, sooner(range_told(range), wrong)),
        passed: sooner(passed, range_passed(range)),
        standing: Standing::call(),
    }
}

fn given_told(given: &Option<Vec<Typed>>) -> Option<Told>
    ensures { option_map told_seen result ≡ sights.given_told sights.argument_told (given_seen given.now) }
{
    match given {
        Some(given) => all_arguments_told(given),
        None => None,
    }
}

/// A name that no expression has.
fn nothing_typed(name: u32, given: &Option<Vec<Typed>>, range: &Option<Range>) -> Typed
    ensures { typed_seen result ≡ sights.nothing_typed name (given_seen given.now) (range_kept range.now) }
{
    stray(name, given_told(given), given_passed(given), range)
}

/// A call with these actual arguments.
fn called_typed(name: u32, sense: &Sense<'_>, actuals: &[Typed], range: &Option<Range>) -> Typed
    ensures { typed_seen result ≡ sights.called_typed name (sense_seen sense.now) (map typed_seen actuals.now) (range_kept range.now) }
{
    match sense {
        Sense::Itself(signature) => itself(function_typed(name, signature, actuals, range)),
        Sense::Procedure(signature) => function_typed(name, signature, actuals, range),
        Sense::Generic {
            specifics,
            signatures,
        } => {
            let found = choose(specifics, signatures, actuals);
            generic_typed(name, &found, actuals, range)
        }
        Sense::Intrinsic(_) => stray(
            name,
            all_arguments_told(actuals),
            all_passed(actuals),
            range,
        ),
        Sense::Data { .. } => stray(
            name,
            all_arguments_told(actuals),
            all_passed(actuals),
            range,
        ),
        Sense::Other => stray(
            name,
            all_arguments_told(actuals),
            all_passed(actuals),
            range,
        ),
    }
}

/// A call, where there are arguments.
fn given_typed(
    alloc: Global,
    name: u32,
    sense: &Sense<'_>,
    given: &Option<Vec<Typed>>,
    range: &Option<Range>,
) -> Result<Typed, NoMemory>
    ensures { IfOk result (λ t. typed_seen t ≡ sights.given_typed name (sense_seen sense.now) (given_seen given.now) (range_kept range.now)) }
{
    match given {
        Some(given) => {
            let actuals = arguments(alloc, given)?;
            Ok(called_typed(name, sense, &actuals, range))
        }
        None => Ok(stray(name, None, None, range)),
    }
}

/// An intrinsic function, where there are arguments.
fn intrinsic_given(
    name: u32,
    function: Intrinsic,
    given: &Option<Vec<Typed>>,
    range: &Option<Range>,
) -> Typed
    ensures { typed_seen result ≡ sights.intrinsic_given name function (given_seen given.now) (range_kept range.now) }
{
    match given {
        Some(given) => intrinsic_typed(name, function, given, range),
        None => stray(name, None, None, range),
    }
}

/// A name, by what it is, with its arguments or subscripts and its range.
pub fn reference_typed(
    alloc: Global,
    name: u32,
    sense: &Sense<'_>,
    given: &Option<Vec<Typed>>,
    range: &Option<Range>,
) -> Result<Typed, NoMemory>
    ensures { IfOk result (λ t. typed_seen t ≡ sights.reference_typed name (sense_seen sense.now) (given_seen given.now) (range_kept range.now)) }
{
    match sense {
        Sense::Data { kind, definable } => Ok(data_typed(name, *kind, *definable, given, range)),
        Sense::Itself(_) => given_typed(alloc, name, sense, given, range),
        Sense::Procedure(_) => given_typed(alloc, name, sense, given, range),
        Sense::Generic { .. } => given_typed(alloc, name, sense, given, range),
        Sense::Intrinsic(function) => Ok(intrinsic_given(name, *function, given, range)),
        Sense::Other => Ok(nothing_typed(name, given, range)),
    }
}

fn plain_typed(name: u32, sense: &Sense<'_>) -> Typed
    ensures { typed_seen result ≡ sights.reference_typed name (sense_seen sense.now) None None }
{
    match sense {
        Sense::Data { kind, definable } => data_typed(name, *kind, *definable, &None, &None),
        Sense::Itself(_) => stray(name, None, None, &None),
        Sense::Procedure(_) => stray(name, None, None, &None),
        Sense::Generic { .. } => stray(name, None, None, &None),
        Sense::Intrinsic(_) => stray(name, None, None, &None),
        Sense::Other => nothing_typed(name, &None, &None),
    }
}

/// A name alone, by what it is.
pub fn name_typed(name: u32, sense: &Sense<'_>) -> Typed
    ensures { typed_seen result ≡ seen (spec.reference_typed name (sense_seen sense.now) None None) }
{
    plain_typed(name, sense)
}
