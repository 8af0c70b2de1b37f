//! Operators on values (Fortran 90, 7.2).

ghost use Rattle.std.specs.Prelude.{◌≡◌, ◌++◌, IfOk};
ghost use Rattle.ftn_tree.specs.Operations as spec;
ghost use Rattle.value_ops.specs.Answers.{Makes};

use crate::failure::Failure;
use crate::texts;
use ftn_base::{
    ArithmeticFault, Bytes, NoMemory, difference, negative, power, product, quotient, sum,
};
use ftn_tree::{Operator, Value, ValueFault};
use std::cmp::Ordering;

/// The integer, or why there is none.
pub(crate) fn whole_of(made: Result<i32, ArithmeticFault>) -> Result<Value, Failure>
    ensures { Makes (spec.whole_of made) result }
{
    match made {
        Ok(number) => Ok(Value::Whole(number)),
        Err(ArithmeticFault::Overflow) => Err(Failure::Fault(ValueFault::TooBig)),
        Err(ArithmeticFault::Zero) => Err(Failure::Fault(ValueFault::ByZero)),
    }
}

fn truth_of(truth: Option<bool>) -> Result<Value, Failure>
    ensures { Makes (spec.truth_of truth) result }
{
    match truth {
        Some(truth) => Ok(Value::Truth(truth)),
        None => Err(Failure::Fault(ValueFault::IllTyped)),
    }
}

/// Whether the relation holds (7.1.4, 7.2.3) of operands that compare in this way. Other operators are none.
fn relation(operator: Operator, how: Ordering) -> Option<bool>
    ensures { result ≡ spec.relation operator how }
{
    match operator {
        Operator::Eq => Some(how.is_eq()),
        Operator::Ne => Some(how.is_ne()),
        Operator::Lt => Some(how.is_lt()),
        Operator::Le => Some(how.is_le()),
        Operator::Gt => Some(how.is_gt()),
        Operator::Ge => Some(how.is_ge()),
        _ => None,
    }
}

/// An operator between integers (7.2.1, 7.2.3).
fn of_wholes(operator: Operator, a: i32, b: i32) -> Result<Value, Failure>
    ensures { Makes (spec.of_wholes operator a b) result }
{
    match operator {
        Operator::Plus => whole_of(sum(a, b)),
        Operator::Minus => whole_of(difference(a, b)),
        Operator::Times => whole_of(product(a, b)),
        Operator::Divide => whole_of(quotient(a, b)),
        Operator::Power => whole_of(power(a, b)),
        _ => truth_of(relation(operator, a.cmp(&b))),
    }
}

/// An operator between logicals (7.2.4).
fn of_truths(operator: Operator, a: bool, b: bool) -> Result<Value, Failure>
    ensures { Makes (spec.of_truths operator a b) result }
{
    match operator {
        Operator::And => Ok(Value::Truth(a && b)),
        Operator::Or => Ok(Value::Truth(a || b)),
        Operator::Eqv => Ok(Value::Truth(if a { b } else { !b })),
        Operator::Neqv => Ok(Value::Truth(if a { !b } else { b })),
        _ => Err(Failure::Fault(ValueFault::IllTyped)),
    }
}

fn joined(a: Bytes, b: &Bytes) -> Result<Bytes, NoMemory>
    ensures { IfOk result (λ made. made ≡ a ++ b.now) }
{
    let mut text = a.into_vec();
    text.extend_from_slice(b.bytes())?;
    Ok(Bytes::from_vec(text))
}

/// An operator between texts (7.2.2, 7.2.3).
fn of_texts(operator: Operator, a: Bytes, b: Bytes) -> Result<Value, Failure>
    ensures { Makes (spec.of_texts operator a b) result }
{
    match operator {
        Operator::Concat => Ok(Value::Chars(joined(a, &b)?)),
        _ => truth_of(relation(operator, texts::compare(a.bytes(), b.bytes()))),
    }
}

/// The value of an operator between two operands. Operands that it doesn't take give `IllTyped`.
pub fn binary(operator: Operator, left: Value, right: Value) -> Result<Value, Failure>
    ensures { Makes (spec.binary_of operator left right) result }
{
    match left {
        Value::Whole(a) => match right {
            Value::Whole(b) => of_wholes(operator, a, b),
            Value::Truth(_) => Err(Failure::Fault(ValueFault::IllTyped)),
            Value::Chars(_) => Err(Failure::Fault(ValueFault::IllTyped)),
        },
        Value::Truth(a) => match right {
            Value::Truth(b) => of_truths(operator, a, b),
            Value::Whole(_) => Err(Failure::Fault(ValueFault::IllTyped)),
            Value::Chars(_) => Err(Failure::Fault(ValueFault::IllTyped)),
        },
        Value::Chars(a) => match right {
            Value::Chars(b) => of_texts(operator, a, b),
            Value::Whole(_) => Err(Failure::Fault(ValueFault::IllTyped)),
            Value::Truth(_) => Err(Failure::Fault(ValueFault::IllTyped)),
        },
    }
}

fn sign_of(operator: Operator, a: i32) -> Result<Value, Failure>
    ensures { Makes (spec.sign_of operator a) result }
{
    match operator {
        Operator::Plus => Ok(Value::Whole(a)),
        Operator::Minus => whole_of(negative(a)),
        _ => Err(Failure::Fault(ValueFault::IllTyped)),
    }
}

fn denial_of(operator: Operator, a: bool) -> Result<Value, Failure>
    ensures { Makes (spec.denial_of operator a) result }
{
    match operator {
        Operator::Not => Ok(Value::Truth(!a)),
        _ => Err(Failure::Fault(ValueFault::IllTyped)),
    }
}

/// The value of an operator before its operand. An operand that it doesn't take gives `IllTyped`.
pub fn unary(operator: Operator, arg: Value) -> Result<Value, Failure>
    ensures { Makes (spec.unary_of operator arg) result }
{
    match arg {
        Value::Whole(a) => sign_of(operator, a),
        Value::Truth(a) => denial_of(operator, a),
        Value::Chars(_) => Err(Failure::Fault(ValueFault::IllTyped)),
    }
}
