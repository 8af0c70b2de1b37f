//! Actual arguments, and what they are passed to (Fortran 90, 12.4.1).

ghost use Rattle.std.specs.Prelude.{◌≡◌, List, map, IfOk};
ghost use Rattle.std.specs.Option.{option_map};
ghost use Rattle.ftn_tree.specs.ExpressionTypes as spec;
ghost use Rattle.name_types.specs.steps.Kinds.{formal_seen, kind_seen, signature_seen};
ghost use Rattle.type_check.specs.steps.Kept.{first_told, seen, told_seen, typed_seen};
ghost use Rattle.type_check.specs.steps.Sights as sights;

use crate::typed::{Told, Typed, kind_if, sooner, told_where};
use ftn_base::{FaultKind, NoMemory};
use name_types::kinds::{Formal, Kind, Signature, same_sort};
use std::alloc::Global;

/// Whether it is an expression of an array that is no reference.
fn is_array_made(actual: &Typed) -> bool
    ensures { result ≡ sights.is_array_made (typed_seen actual.now) }
{
    match &actual.kind {
        Some(kind) => !actual.standing.reference && kind.is_array(),
        None => false,
    }
}

impl Typed {
    /// The first of what is told of it as an actual argument: a whole array is passed by its name alone.
    pub fn argument_told(&self) -> Option<Told>
        ensures { option_map told_seen result ≡ sights.argument_told (typed_seen self.now) }
    {
        sooner(
            self.told,
            told_where(is_array_made(self), FaultKind::WrongType, self.first),
        )
    }

    /// What it is as an actual argument.
    pub fn argument(&self) -> Typed
        ensures { typed_seen result ≡ sights.argument (typed_seen self.now) }
    {
        let told = self.argument_told();
        Typed {
            first: self.first,
            kind: match self.kind {
                Some(kind) => kind_if(&told, kind),
                None => None,
            },
            told,
            passed: self.passed,
            standing: self.standing,
        }
    }
}

/// What they are as actual arguments.
pub fn arguments(alloc: Global, given: &[Typed]) -> Result<Vec<Typed>, NoMemory>
    ensures { IfOk result (λ made. map typed_seen made.items ≡ map sights.argument (map typed_seen given.now)) }
{
    let mut made = Vec::new(alloc);
    for part in given {
        made.push(part.argument())?;
    }
    Ok(made)
}

/// The first of what is told of some expressions.
pub fn all_told(parts: &[Typed]) -> Option<Told>
    ensures { option_map told_seen result ≡ sights.among sights.told_of (map typed_seen parts.now) }
{
    match parts {
        [] => None,
        [part, rest @ ..] => sooner(part.told, all_told(rest)),
    }
}

/// The first of what is told of some expressions as actual arguments.
pub fn all_arguments_told(parts: &[Typed]) -> Option<Told>
    ensures { option_map told_seen result ≡ sights.among sights.argument_told (map typed_seen parts.now) }
{
    match parts {
        [] => None,
        [part, rest @ ..] => sooner(part.argument_told(), all_arguments_told(rest)),
    }
}

/// The first of what is told of some expressions in places that want that type and rank.
pub fn all_wanted(kind: Kind, parts: &[Typed]) -> Option<Told>
    ensures { option_map told_seen result ≡ sights.among (sights.wanted (kind_seen kind)) (map typed_seen parts.now) }
{
    match parts {
        [] => None,
        [part, rest @ ..] => sooner(part.wanted(kind), all_wanted(kind, rest)),
    }
}

/// The first of what is passed in them to be defined and may not be.
pub fn all_passed(parts: &[Typed]) -> Option<Told>
    ensures { option_map told_seen result ≡ sights.among sights.passed_of (map typed_seen parts.now) }
{
    match parts {
        [] => None,
        [part, rest @ ..] => sooner(part.passed, all_passed(rest)),
    }
}

/// Whether a dummy argument takes a value: one of its type, a scalar a scalar, an array an array or an element of one (12.4.1.1).
fn takes(want: &Option<Kind>, element: bool, kind: &Kind) -> bool
    ensures { result ≡ spec.takes (option_map kind_seen want.now) element (kind_seen kind.now) }
{
    match want {
        None => true,
        Some(want) => {
            if !same_sort(want.sort, kind.sort) {
                false
            } else if want.is_array() {
                kind.is_array() || element
            } else {
                !kind.is_array()
            }
        }
    }
}

fn misfits_one(formal: &Formal, actual: &Typed) -> bool
    ensures { result ≡ sights.fails (spec.takes (formal_seen formal.now).kind (typed_seen actual.now).standing.element) (typed_seen actual.now) }
{
    match &actual.kind {
        Some(kind) => !takes(&formal.kind, actual.standing.element, kind),
        None => false,
    }
}

/// What is told of an actual argument that its dummy argument doesn't take.
fn misfit(formal: &Formal, actual: &Typed) -> Option<Told>
    ensures { option_map told_seen result ≡ sights.misfit (formal_seen formal.now) (typed_seen actual.now) }
{
    told_where(
        misfits_one(formal, actual),
        FaultKind::WrongType,
        actual.first,
    )
}

fn misfits_among(formals: &[Formal], actuals: &[Typed]) -> Option<Told>
    ensures { option_map told_seen result ≡ sights.among_pairs sights.misfit (map formal_seen formals.now) (map typed_seen actuals.now) }
{
    match formals {
        [] => None,
        [formal, more @ ..] => match actuals {
            [] => None,
            [actual, rest @ ..] => sooner(misfit(formal, actual), misfits_among(more, rest)),
        },
    }
}

/// The first of what is told of actual arguments that don't fit a procedure's dummy arguments.
pub fn first_misfit(name: u32, signature: &Signature, actuals: &[Typed]) -> Option<Told>
    ensures { option_map told_seen result ≡ sights.misfits name (signature_seen signature.now).formals (map typed_seen actuals.now) }
{
    if signature.formals.len() == actuals.len() {
        misfits_among(&signature.formals, actuals)
    } else {
        Some(Told {
            kind: FaultKind::WrongCount,
            token: name,
        })
    }
}

/// What is told of an actual argument that is passed to be defined and may not be (5.1.2.3).
fn undefinable(formal: &Formal, actual: &Typed) -> Option<Told>
    ensures { option_map told_seen result ≡ sights.undefinable (formal_seen formal.now) (typed_seen actual.now) }
{
    told_where(
        formal.out && actual.kind.is_some() && !actual.standing.definable,
        FaultKind::NotDefinable,
        actual.first,
    )
}

fn undefinables_among(formals: &[Formal], actuals: &[Typed]) -> Option<Told>
    ensures { option_map told_seen result ≡ sights.among_pairs sights.undefinable (map formal_seen formals.now) (map typed_seen actuals.now) }
{
    match formals {
        [] => None,
        [formal, more @ ..] => match actuals {
            [] => None,
            [actual, rest @ ..] => {
                sooner(undefinable(formal, actual), undefinables_among(more, rest))
            }
        },
    }
}

/// The first of what is told of actual arguments that are passed to be defined and may not be.
pub fn first_undefinable(signature: &Signature, actuals: &[Typed]) -> Option<Told>
    ensures { option_map told_seen result ≡ sights.undefinables (signature_seen signature.now).formals (map typed_seen actuals.now) }
{
    if signature.formals.len() == actuals.len() {
        undefinables_among(&signature.formals, actuals)
    } else {
        None
    }
}

/// The first of what is told of actual arguments that don't fit a procedure's dummy arguments, by what they are.
pub fn misfits(name: u32, signature: &Signature, actuals: &[Typed]) -> Option<Told>
    ensures { (ts : List spec.Typed) → map typed_seen actuals.now ≡ map seen ts
        → option_map told_seen result ≡ first_told (spec.misfits name (signature_seen signature.now).formals ts) }
{
    first_misfit(name, signature, actuals)
}

/// The first of what is told of actual arguments that are passed to be defined and may not be, by what they are.
pub fn undefinables(signature: &Signature, actuals: &[Typed]) -> Option<Told>
    ensures { (ts : List spec.Typed) → map typed_seen actuals.now ≡ map seen ts
        → option_map told_seen result ≡ first_told (spec.undefinables (signature_seen signature.now).formals ts) }
{
    first_undefinable(signature, actuals)
}
