//! Which specific procedure a generic name means (Fortran 90, 12.4.4, 14.1.2.3).

ghost use Rattle.std.specs.Prelude.{◌≡◌, List, map};
ghost use Rattle.std.specs.Option.{option_and_then, option_copied, option_map, option_map_or};
ghost use Rattle.ftn_tree.specs.ExpressionTypes as spec;
ghost use Rattle.type_check.specs.steps.Choices.{choice_kept};
ghost use Rattle.name_types.specs.steps.Kinds.{formal_seen, kind_seen, signature_seen};
ghost use Rattle.type_check.specs.steps.Kept.{first_told, seen, told_seen, typed_seen};
ghost use Rattle.name_types.specs.steps.Senses.{signature_at, specifics_by};
ghost use Rattle.type_check.specs.steps.Sights as sights;

use crate::typed::{Told, Typed};
use ftn_base::FaultKind;
use name_types::kinds::{Formal, Kind, Signature};

/// Which specific procedure fits.
#[derive(Clone, Copy)]
pub enum Choice<'a> {
    /// That isn't asked, since something is told of an argument.
    Unknown,
    /// None does.
    NoneFits,
    /// This one.
    One(&'a Signature),
    /// Two or more.
    Several,
}

fn is_kind(want: &Kind, found: &Option<Kind>) -> bool
    ensures { result ≡ spec.is_kind (kind_seen want.now) (option_map kind_seen found.now) }
{
    match found {
        Some(found) => want.is_same(found),
        None => false,
    }
}

fn is_exact(formal: &Formal, actual: &Typed) -> bool
    ensures { result ≡ sights.is_exact (formal_seen formal.now) (typed_seen actual.now) }
{
    match &formal.kind {
        Some(want) => is_kind(want, &actual.kind),
        None => false,
    }
}

fn are_exact(formals: &[Formal], actuals: &[Typed]) -> bool
    ensures { result ≡ sights.are_exact (map formal_seen formals.now) (map typed_seen actuals.now) }
{
    match formals {
        [] => true,
        [formal, more @ ..] => match actuals {
            [] => true,
            [actual, rest @ ..] => is_exact(formal, actual) && are_exact(more, rest),
        },
    }
}

/// Whether types and ranks of the dummy arguments are exactly the actual ones.
fn fits(signature: &Signature, actuals: &[Typed]) -> bool
    ensures { result ≡ sights.fits (map typed_seen actuals.now) (signature_seen signature.now) }
{
    signature.formals.len() == actuals.len() && are_exact(&signature.formals, actuals)
}

/// Whether each has a type.
fn have_kinds(actuals: &[Typed]) -> bool
    ensures { result ≡ sights.have_kinds (map typed_seen actuals.now) }
{
    match actuals {
        [] => true,
        [actual, rest @ ..] => actual.kind.is_some() && have_kinds(rest),
    }
}

/// The procedure of a scoping unit, where it fits.
fn fitting<'a>(signatures: &'a [Signature], scope: u32, actuals: &[Typed]) -> Option<&'a Signature>
    ensures { option_map signature_seen (option_copied result) ≡ option_and_then (sights.if_fits (map typed_seen actuals.now)) (signature_at signatures.now scope) }
{
    match signatures.get(scope as usize) {
        Some(signature) => {
            if fits(signature, actuals) {
                Some(signature)
            } else {
                None
            }
        }
        None => None,
    }
}

/// With one more that fits, where it does.
fn with<'a>(found: Choice<'a>, more: Option<&'a Signature>) -> Choice<'a>
    ensures { choice_kept result ≡ sights.choice_with (choice_kept found.entry) (option_map signature_seen (option_copied more.entry)) }
{
    match more {
        None => found,
        Some(signature) => match found {
            Choice::NoneFits => Choice::One(signature),
            _ => Choice::Several,
        },
    }
}

fn choice_among<'a>(specifics: &[u32], signatures: &'a [Signature], actuals: &[Typed]) -> Choice<'a>
    ensures { choice_kept result ≡ sights.chosen_among (specifics_by signatures.now specifics.now) (map typed_seen actuals.now) }
{
    let mut found = Choice::NoneFits;
    for scope in specifics {
        found = with(found, fitting(signatures, *scope, actuals));
    }
    found
}

/// Which of the specific procedures of a generic name fits the actual arguments.
pub fn choose<'a>(specifics: &[u32], signatures: &'a [Signature], actuals: &[Typed]) -> Choice<'a>
    ensures { choice_kept result ≡ sights.choice (specifics_by signatures.now specifics.now) (map typed_seen actuals.now) }
{
    if have_kinds(actuals) {
        choice_among(specifics, signatures, actuals)
    } else {
        Choice::Unknown
    }
}

/// What is told where none fits, or several do.
pub fn choice_told(name: u32, found: &Choice<'_>) -> Option<Told>
    ensures { option_map told_seen result ≡ sights.choice_told name (choice_kept found.now) }
{
    match found {
        Choice::NoneFits => Some(Told {
            kind: FaultKind::NoSpecific,
            token: name,
        }),
        Choice::Several => Some(Told {
            kind: FaultKind::TwoSpecifics,
            token: name,
        }),
        Choice::Unknown => None,
        Choice::One(_) => None,
    }
}

/// What is told of a reference by a generic name, by what its actual arguments are.
pub fn generic_told(
    name: u32,
    specifics: &[u32],
    signatures: &[Signature],
    actuals: &[Typed],
) -> Option<Told>
    ensures { (ts : List spec.Typed) → map typed_seen actuals.now ≡ map seen ts
        → option_map told_seen result ≡ first_told (spec.generic_told name (specifics_by signatures.now specifics.now) ts) }
{
    choice_told(name, &choose(specifics, signatures, actuals))
}

fn meant_by<'a>(found: Choice<'a>) -> Option<&'a Signature>
    ensures { option_map signature_seen (option_copied result) ≡ sights.meant (choice_kept found.entry) }
{
    match found {
        Choice::One(signature) => Some(signature),
        _ => None,
    }
}

/// The one specific procedure that is meant, by what the actual arguments are.
pub fn meant<'a>(
    specifics: &[u32],
    signatures: &'a [Signature],
    actuals: &[Typed],
) -> Option<&'a Signature>
    ensures { (ts : List spec.Typed) → map typed_seen actuals.now ≡ map seen ts
        → option_map signature_seen (option_copied result) ≡ spec.meant (specifics_by signatures.now specifics.now) ts }
{
    meant_by(choose(specifics, signatures, actuals))
}
