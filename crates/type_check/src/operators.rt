//! Types of operations (Fortran 90, 7.1.4, 7.2).

ghost use Rattle.std.specs.Prelude.{◌≡◌};
ghost use Rattle.std.specs.Option.{option_map};
ghost use Rattle.ftn_tree.specs.ExpressionTypes as spec;
ghost use Rattle.ftn_tree.specs.KeyKinds as kinds;
ghost use Rattle.ftn_tree.specs.Sorts as sorts;
ghost use Rattle.const_value.specs.steps.Projects.{sort_seen};
ghost use Rattle.name_types.specs.steps.Kinds.{kind_seen};
ghost use Rattle.type_check.specs.steps.Kept.{told_seen, typed_seen};
ghost use Rattle.type_check.specs.steps.Sights as sights;

use crate::typed::{Standing, Told, Typed, sooner, told_where};
use const_value::project::Sort;
use ftn_base::FaultKind;
use ftn_tree::Operator;
use name_types::kinds::{Kind, same_sort};

/// Whether an operator is a relation.
fn is_relation(operator: Operator) -> bool
    ensures { result ≡ sorts.is_relation operator }
{
    match operator {
        Operator::Eq => true,
        Operator::Ne => true,
        Operator::Lt => true,
        Operator::Le => true,
        Operator::Gt => true,
        Operator::Ge => true,
        _ => false,
    }
}

/// The type that an operator which is no relation wants of its operands and gives.
fn sort_of_operator(operator: Operator) -> Sort
    ensures { sort_seen result ≡ sorts.sort_of_operator operator }
{
    match operator {
        Operator::Concat => Sort::Text,
        Operator::Not => Sort::Truth,
        Operator::And => Sort::Truth,
        Operator::Or => Sort::Truth,
        Operator::Eqv => Sort::Truth,
        Operator::Neqv => Sort::Truth,
        _ => Sort::Whole,
    }
}

/// An expression in parentheses, which is no reference.
pub fn in_parens(token: u32, inner: &Typed) -> Typed
    ensures { typed_seen result ≡ sights.in_parens token (typed_seen inner.now) }
{
    Typed {
        first: token,
        kind: inner.kind,
        told: inner.told,
        passed: inner.passed,
        standing: Standing::none(),
    }
}

/// An operator before an operand.
pub fn unary_typed(op: u32, operator: Operator, arg: &Typed) -> Typed
    ensures { typed_seen result ≡ sights.unary_typed op operator (typed_seen arg.now) }
{
    let want = Kind::scalar(sort_of_operator(operator));
    Typed::expression(op, want, arg.wanted(want), arg.passed)
}

/// Whether a relation compares such values: integers or character values, and scalars (7.2.3).
fn may_be_compared(kind: &Kind) -> bool
    ensures { result ≡ spec.may_be_compared (kind_seen kind.now) }
{
    !matches!(kind.sort, Sort::Truth) && kind.rank == 0
}

fn cannot_be_compared(operand: &Typed) -> bool
    ensures { result ≡ sights.fails spec.may_be_compared (typed_seen operand.now) }
{
    match &operand.kind {
        Some(kind) => !may_be_compared(kind),
        None => false,
    }
}

/// What is told of an operand of a relation.
fn compared(operand: &Typed) -> Option<Told>
    ensures { option_map told_seen result ≡ sights.compared (typed_seen operand.now) }
{
    sooner(
        operand.told,
        told_where(
            cannot_be_compared(operand),
            FaultKind::WrongType,
            operand.first,
        ),
    )
}

/// Whether both operands may be compared, and their types differ.
fn differ(left: &Option<Kind>, right: &Option<Kind>) -> bool
    ensures { result ≡ spec.differ (option_map kind_seen left.now) (option_map kind_seen right.now) }
{
    match left {
        Some(one) => match right {
            Some(other) => may_be_compared(one) && may_be_compared(other) && !one.is_same(other),
            None => false,
        },
        None => false,
    }
}

/// A relation between two operands.
fn relation_typed(left: &Typed, right: &Typed) -> Typed
    ensures { typed_seen result ≡ sights.relation_typed (typed_seen left.now) (typed_seen right.now) }
{
    let both = told_where(
        differ(&left.kind, &right.kind),
        FaultKind::WrongType,
        left.first,
    );
    Typed::expression(
        left.first,
        Kind::logical(),
        sooner(compared(left), sooner(compared(right), both)),
        sooner(left.passed, right.passed),
    )
}

/// Another operator between two operands.
fn other_typed(operator: Operator, left: &Typed, right: &Typed) -> Typed
    ensures { typed_seen result ≡ sights.other_typed operator (typed_seen left.now) (typed_seen right.now) }
{
    let want = Kind::scalar(sort_of_operator(operator));
    Typed::expression(
        left.first,
        want,
        sooner(left.wanted(want), right.wanted(want)),
        sooner(left.passed, right.passed),
    )
}

/// An operator between two operands.
pub fn binary_typed(operator: Operator, left: &Typed, right: &Typed) -> Typed
    ensures { typed_seen result ≡ sights.binary_typed operator (typed_seen left.now) (typed_seen right.now) }
{
    if is_relation(operator) {
        relation_typed(left, right)
    } else {
        other_typed(operator, left, right)
    }
}
