//! Operations on parts that were evaluated (Fortran 90, 7.1.6.1).

ghost use Rattle.std.specs.Prelude.{◌≡◌, Result, Err, Some, None, IfOk};
ghost use Rattle.ftn_tree.specs.declared.value.Value.{Value as ValueOf};
ghost use Rattle.ftn_tree.specs.declared.intrinsic.ValueFault.{ValueFault};
ghost use Rattle.ftn_tree.specs.Evaluations as spec;
ghost use Rattle.ftn_tree.specs.Operations as operations;
ghost use Rattle.const_expr.specs.Seen.{seen};
ghost use Rattle.const_expr.specs.steps.Parts.{told_in_parts};
ghost use Rattle.value_ops.specs.Answers.{Makes};
ghost use Rattle.std.specs.Prelude.{List};

use crate::evaluated::Evaluated;
use crate::texts::is_too_long;
use crate::told::Told;
use ftn_base::NoMemory;
use ftn_tree::{Operator, Value, ValueFault};
use value_ops::{Failure, binary, unary};

/// An operation of which a part has no value.
pub(crate) fn without_value(first: u32, told: Told) -> Evaluated
    ensures { (parts : List spec.Evaluated) → told ≡ told_in_parts parts → result ≡ seen (spec.operation first parts None) }
{
    Evaluated {
        first,
        value: None,
        told,
    }
}

/// An operation on parts that gives no value.
fn failed(first: u32, told: Told, failure: Failure) -> Result<Evaluated, NoMemory>
    ensures { (parts : List spec.Evaluated) → (due : Result ValueOf ValueFault) → told ≡ told_in_parts parts → Makes due (Err failure)
        → IfOk result (λ done. done ≡ seen (spec.operation first parts (Some due))) }
{
    match failure {
        Failure::Fault(fault) => Ok(Evaluated {
            first,
            value: None,
            told: told.joined(&Told::breach(fault, first)),
        }),
        Failure::NoMemory => Err(NoMemory),
    }
}

/// An operation on parts of which that is told.
pub(crate) fn operation(
    first: u32,
    told: Told,
    made: Result<Value, Failure>,
) -> Result<Evaluated, NoMemory>
    ensures { (parts : List spec.Evaluated) → (due : Result ValueOf ValueFault) → told ≡ told_in_parts parts → Makes due made
        → IfOk result (λ done. done ≡ seen (spec.operation first parts (Some due))) }
{
    match made {
        Ok(value) => Ok(Evaluated {
            first,
            value: Some(value),
            told,
        }),
        Err(failure) => failed(first, told, failure),
    }
}

/// An operator before an operand.
pub(crate) fn unary_operation(
    op: u32,
    operator: Operator,
    arg: Evaluated,
) -> Result<Evaluated, NoMemory>
    ensures { (e : spec.Evaluated) → arg ≡ seen e → IfOk result (λ done. done ≡ seen (spec.unary_operation op operator e)) }
{
    let Evaluated { value, told, .. } = arg;
    match value {
        Some(value) => operation(op, told, unary(operator, value)),
        None => Ok(without_value(op, told)),
    }
}

fn binary_of(operator: Operator, left: Value, right: Value) -> Result<Value, Failure>
    ensures { Makes (operations.binary_of operator left right) result }
{
    if is_too_long(operator, &left, &right) {
        return Err(Failure::NoMemory);
    }
    binary(operator, left, right)
}

/// An operator between two operands.
pub(crate) fn binary_operation(
    operator: Operator,
    left: Evaluated,
    right: Evaluated,
) -> Result<Evaluated, NoMemory>
    ensures { (a b : spec.Evaluated) → left ≡ seen a → right ≡ seen b → IfOk result (λ done. done ≡ seen (spec.binary_operation operator a b)) }
{
    let Evaluated { first, value, told } = left;
    let told = told.joined(&right.told);
    match value {
        Some(a) => match right.value {
            Some(b) => operation(first, told, binary_of(operator, a, b)),
            None => Ok(without_value(first, told)),
        },
        None => Ok(without_value(first, told)),
    }
}
