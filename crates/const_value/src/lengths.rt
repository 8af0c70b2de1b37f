//! Lengths of character entities as they are written (Fortran 90, 5.1.1.5).

ghost use Rattle.std.specs.Prelude.{◌≡◌};
ghost use Rattle.ftn_tree.specs.Declarations.{type_length};
ghost use Rattle.const_value.specs.steps.Lengths as steps;
ghost use Rattle.const_value.specs.steps.Written.{typing_seen};

use crate::written::Typing;
use ftn_tree::{CharLength, Expr, LengthSelector, LengthValue, TypeSpec};

/// A length as it is written.
#[derive(Clone, Copy)]
pub(crate) enum WrittenLength<'a> {
    /// None is.
    Unwritten,
    /// A whole number.
    Whole(i32),
    /// `*`.
    Star,
    /// An expression.
    Given(&'a Expr),
}

fn of_value(value: &LengthValue) -> WrittenLength<'_>
    ensures { steps.length_seen result ≡ steps.of_value value.now }
{
    match value {
        LengthValue::Assumed => WrittenLength::Star,
        LengthValue::Given(expr) => WrittenLength::Given(expr),
    }
}

fn of_length(length: &CharLength) -> WrittenLength<'_>
    ensures { steps.length_seen result ≡ steps.of_length length.now }
{
    match length {
        CharLength::Whole { value, .. } => WrittenLength::Whole(*value),
        CharLength::Paren(value) => of_value(value),
    }
}

fn of_type(ty: &TypeSpec) -> WrittenLength<'_>
    ensures { steps.length_seen result ≡ steps.length_in (type_length ty.now) }
{
    match ty {
        TypeSpec::Character(Some(LengthSelector::Star(length))) => of_length(length),
        TypeSpec::Character(Some(LengthSelector::Paren { length, .. })) => of_value(length),
        _ => WrittenLength::Unwritten,
    }
}

/// The length of an entity: its own, else that of the type.
pub(crate) fn written_length<'a>(typing: &Typing<'a>) -> WrittenLength<'a>
    ensures { steps.length_seen result ≡ steps.length_as (typing_seen typing.now) }
{
    match typing.length {
        Some(length) => of_length(length),
        None => of_type(typing.ty),
    }
}
