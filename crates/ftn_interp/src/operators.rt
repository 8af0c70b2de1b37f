//! Operators and intrinsic functions in a run (Fortran 90, 7.2, 13.13).

ghost use Rattle.core_prog.specs.Operations as spec;
ghost use Rattle.ftn_interp.specs.Answers.{Makes};
ghost use Rattle.std.specs.Prelude.{◌≡◌, Result};
ghost use Rattle.ftn_tree.specs.declared.value.Value.{Value};
ghost use Rattle.ftn_tree.specs.declared.intrinsic.ValueFault.{ValueFault};
ghost use Rattle.value_ops.specs.Answers as ops;

use crate::halt::Halt;
use core_prog::{FaultCode, Site};
use ftn_tree::{Intrinsic, Operator, Value, ValueFault};
use std::alloc::Global;
use value_ops::Failure;

/// The value, or the end that its want brings at that token.
fn placed(at: Site, made: Result<Value, Failure>) -> Result<Value, Halt>
    ensures { (due : Result Value ValueFault) → ops.Makes due made → Makes (spec.placed at due) result }
{
    match made {
        Ok(value) => Ok(value),
        Err(Failure::Fault(ValueFault::TooBig)) => Err(Halt::Faulted(FaultCode::Overflow, at)),
        Err(Failure::Fault(ValueFault::ByZero)) => Err(Halt::Faulted(FaultCode::Zero, at)),
        Err(Failure::Fault(ValueFault::OutOfRange)) => Err(Halt::Faulted(FaultCode::Range, at)),
        Err(Failure::Fault(ValueFault::IllTyped)) => Err(Halt::Cut),
        Err(Failure::NoMemory) => Err(Halt::NoMemory),
    }
}

/// The value of an operator between two operands. Operands that the operator doesn't take give `Cut`.
pub fn binary(at: Site, operator: Operator, left: Value, right: Value) -> Result<Value, Halt>
    ensures { Makes (spec.binary_of at operator left right) result }
{
    placed(at, value_ops::binary(operator, left, right))
}

/// The value of an operator before its operand. An operand that the operator doesn't take gives `Cut`.
pub fn unary(at: Site, operator: Operator, arg: Value) -> Result<Value, Halt>
    ensures { Makes (spec.unary_of at operator arg) result }
{
    placed(at, value_ops::unary(operator, arg))
}

/// The value of an intrinsic function of these arguments. Arguments that it doesn't take give `Cut`.
pub fn intrinsic(
    alloc: Global,
    at: Site,
    function: Intrinsic,
    args: &[Value],
) -> Result<Value, Halt>
    ensures { Makes (spec.intrinsic_of at function args.now) result }
{
    placed(at, value_ops::intrinsic(alloc, function, args))
}
