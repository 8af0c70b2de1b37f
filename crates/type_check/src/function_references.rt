//! Function references (Fortran 90, 12.4.2, 13.10).

ghost use Rattle.std.specs.Prelude.{◌≡◌, map};
ghost use Rattle.std.specs.Option.{option_map};
ghost use Rattle.ftn_tree.specs.ExpressionTypes as spec;
ghost use Rattle.ftn_tree.specs.Intrinsics as intrinsics;
ghost use Rattle.const_value.specs.steps.Projects.{sort_seen};
ghost use Rattle.type_check.specs.steps.Choices.{choice_kept};
ghost use Rattle.name_types.specs.steps.Kinds.{kind_seen, signature_seen};
ghost use Rattle.type_check.specs.steps.Kept.{told_seen, typed_seen};
ghost use Rattle.type_check.specs.steps.Ranges.{range_kept};
ghost use Rattle.type_check.specs.steps.Sights as sights;

use crate::arguments::{
    all_arguments_told, all_passed, all_told, all_wanted, first_misfit, first_undefinable,
};
use crate::data_references::{Range, range_passed, range_told};
use crate::generic_references::{Choice, choice_told};
use crate::typed::{Standing, Told, Typed, kind_if, sooner, told_where};
use const_value::project::Sort;
use ftn_base::FaultKind;
use ftn_tree::Intrinsic;
use name_types::kinds::{Kind, Signature};

/// What is told of a function reference with a range behind it, where that is told without it.
fn call_told(name: u32, told: Option<Told>, range: &Option<Range>) -> Option<Told>
    ensures { option_map told_seen result ≡ sights.call_told name (option_map told_seen told) (range_kept range.now) }
{
    let stray = told_where(
        range.is_some() && told.is_none(),
        FaultKind::WrongType,
        name,
    );
    sooner(told, sooner(range_told(range), stray))
}

/// A function reference, by what is told of it and what its arguments can't be passed to.
fn call_typed(
    name: u32,
    kind: Kind,
    told: Option<Told>,
    passed: Option<Told>,
    actuals: &[Typed],
    range: &Option<Range>,
) -> Typed
    ensures { typed_seen result ≡ sights.call_typed name (kind_seen kind) (option_map told_seen told) (option_map told_seen passed) (map typed_seen actuals.now) (range_kept range.now) }
{
    let all = call_told(name, told, range);
    Typed {
        first: name,
        kind: kind_if(&all, kind),
        told: all,
        passed: sooner(all_passed(actuals), sooner(range_passed(range), passed)),
        standing: Standing::call(),
    }
}

/// The type of a result, as a scalar.
fn scalar_of(result_kind: &Option<Kind>) -> Kind
    ensures { kind_seen result ≡ spec.scalar_of (option_map kind_seen result_kind.now) }
{
    match result_kind {
        Some(kind) => Kind::scalar(kind.sort),
        None => Kind::integer(),
    }
}

fn is_array_result(result_kind: &Option<Kind>) -> bool
    ensures { result ≡ sights.is_array_result (option_map kind_seen result_kind.now) }
{
    match result_kind {
        Some(kind) => kind.is_array(),
        None => false,
    }
}

/// What is told of a procedure that is called as a function: its result is a scalar, and it is a function.
fn result_told(name: u32, signature: &Signature) -> Option<Told>
    ensures { option_map told_seen result ≡ sights.result_told name (signature_seen signature.now) }
{
    told_where(
        !signature.function || is_array_result(&signature.result),
        FaultKind::WrongType,
        name,
    )
}

/// A reference to a function.
pub fn function_typed(
    name: u32,
    signature: &Signature,
    actuals: &[Typed],
    range: &Option<Range>,
) -> Typed
    ensures { typed_seen result ≡ sights.function_typed name (signature_seen signature.now) (map typed_seen actuals.now) (range_kept range.now) }
{
    let told = sooner(
        first_misfit(name, signature, actuals),
        result_told(name, signature),
    );
    call_typed(
        name,
        scalar_of(&signature.result),
        sooner(all_told(actuals), told),
        first_undefinable(signature, actuals),
        actuals,
        range,
    )
}

fn meant_result(found: &Choice<'_>) -> Kind
    ensures { kind_seen result ≡ spec.meant_result (sights.meant (choice_kept found.now)) }
{
    match found {
        Choice::One(signature) => scalar_of(&signature.result),
        Choice::Unknown => Kind::integer(),
        Choice::NoneFits => Kind::integer(),
        Choice::Several => Kind::integer(),
    }
}

fn result_of_choice(name: u32, found: &Choice<'_>) -> Option<Told>
    ensures { option_map told_seen result ≡ sights.result_of_choice name (choice_kept found.now) }
{
    match found {
        Choice::One(signature) => result_told(name, signature),
        Choice::Unknown => None,
        Choice::NoneFits => None,
        Choice::Several => None,
    }
}

fn undefinables_of_choice(found: &Choice<'_>, actuals: &[Typed]) -> Option<Told>
    ensures { option_map told_seen result ≡ sights.undefinables_of_choice (choice_kept found.now) (map typed_seen actuals.now) }
{
    match found {
        Choice::One(signature) => first_undefinable(signature, actuals),
        Choice::Unknown => None,
        Choice::NoneFits => None,
        Choice::Several => None,
    }
}

/// A reference by a generic name, by the procedure that is meant.
pub fn generic_typed(
    name: u32,
    found: &Choice<'_>,
    actuals: &[Typed],
    range: &Option<Range>,
) -> Typed
    ensures { typed_seen result ≡ sights.generic_typed name (choice_kept found.now) (map typed_seen actuals.now) (range_kept range.now) }
{
    let told = sooner(choice_told(name, found), result_of_choice(name, found));
    call_typed(
        name,
        meant_result(found),
        sooner(all_told(actuals), told),
        undefinables_of_choice(found, actuals),
        actuals,
        range,
    )
}

/// The type that an intrinsic function wants of its arguments.
fn want_of(function: Intrinsic) -> Sort
    ensures { sort_seen result ≡ sights.want_of function }
{
    match function {
        Intrinsic::Len => Sort::Text,
        Intrinsic::LenTrim => Sort::Text,
        Intrinsic::Trim => Sort::Text,
        Intrinsic::Ichar => Sort::Text,
        Intrinsic::Index => Sort::Text,
        _ => Sort::Whole,
    }
}

/// The type of an intrinsic function's result.
fn gives_of(function: Intrinsic) -> Sort
    ensures { sort_seen result ≡ intrinsics.gives_of function }
{
    match function {
        Intrinsic::Trim => Sort::Text,
        Intrinsic::Char => Sort::Text,
        _ => Sort::Whole,
    }
}

/// Whether an intrinsic function takes so many arguments.
fn is_enough(function: Intrinsic, count: usize) -> bool
    ensures { result ≡ sights.is_enough function count }
{
    match function {
        Intrinsic::Mod => count == 2,
        Intrinsic::Sign => count == 2,
        Intrinsic::Index => count == 2,
        Intrinsic::Min => count > 1,
        Intrinsic::Max => count > 1,
        _ => count == 1,
    }
}

fn takes_any(function: Intrinsic) -> bool
    ensures { result ≡ sights.takes_any function }
{
    match function {
        Intrinsic::Min => true,
        Intrinsic::Max => true,
        _ => false,
    }
}

/// What is told of the arguments of an intrinsic function: MIN and MAX have two or more.
fn intrinsic_told(name: u32, function: Intrinsic, actuals: &[Typed]) -> Option<Told>
    ensures { option_map told_seen result ≡ sights.intrinsic_told name function (map typed_seen actuals.now) }
{
    let is_enough = is_enough(function, actuals.len());
    if takes_any(function) || is_enough {
        sooner(
            all_wanted(Kind::scalar(want_of(function)), actuals),
            told_where(!is_enough, FaultKind::WrongCount, name),
        )
    } else {
        sooner(
            all_arguments_told(actuals),
            Some(Told {
                kind: FaultKind::WrongCount,
                token: name,
            }),
        )
    }
}

/// A reference to an intrinsic function.
pub fn intrinsic_typed(
    name: u32,
    function: Intrinsic,
    actuals: &[Typed],
    range: &Option<Range>,
) -> Typed
    ensures { typed_seen result ≡ sights.intrinsic_typed name function (map typed_seen actuals.now) (range_kept range.now) }
{
    call_typed(
        name,
        Kind::scalar(gives_of(function)),
        intrinsic_told(name, function, actuals),
        None,
        actuals,
        range,
    )
}
