//! Operators and intrinsic functions of resolved programs.

use core_prog::{FaultCode, Intrinsic, Site};
use ftn_base::Bytes;
use ftn_interp::{Halt, binary, intrinsic, unary};
use ftn_tree::{Operator, Value};
use std::alloc::Global;

/// A token of the first file.
fn site() -> Site {
    Site { file: 0, token: 7 }
}

fn text(alloc: Global, bytes: &[u8]) -> Option<Value> {
    Some(Value::Chars(Bytes::from_slice(alloc, bytes).ok()?))
}

fn is_text(made: Result<Value, Halt>, wanted: &[u8]) -> bool {
    match made {
        Ok(Value::Chars(bytes)) => bytes.bytes() == wanted,
        _ => false,
    }
}

/// Two texts joined, and two that differ in blanks at the end alone.
fn texts(alloc: Global) -> Option<bool> {
    let ab = text(alloc, b"ab")?;
    let joined = binary(site(), Operator::Concat, ab, text(alloc, b" c")?);
    let longer = text(alloc, b"ab  ")?;
    let same = binary(site(), Operator::Eq, longer, text(alloc, b"ab")?);
    Some(is_text(joined, b"ab c") && matches!(same, Ok(Value::Truth(true))))
}

/// Numbers, a number past 32 bits, and an operator that takes no numbers.
fn numbers() -> bool {
    let power = binary(site(), Operator::Power, Value::Whole(-2), Value::Whole(31));
    let past = unary(site(), Operator::Minus, Value::Whole(i32::MIN));
    let denied = unary(site(), Operator::Not, Value::Whole(1));
    let overflow = matches!(
        past,
        Err(Halt::Faulted(FaultCode::Overflow, Site { file: 0, token: 7 }))
    );
    matches!(power, Ok(Value::Whole(i32::MIN))) && overflow && matches!(denied, Err(Halt::Cut))
}

/// TRIM and CHAR, which give texts of their own.
fn functions(alloc: Global) -> Option<bool> {
    let trimmed = intrinsic(alloc, site(), Intrinsic::Trim, &[text(alloc, b" a  ")?]);
    let made = intrinsic(alloc, site(), Intrinsic::Char, &[Value::Whole(255)]);
    let past = intrinsic(alloc, site(), Intrinsic::Char, &[Value::Whole(256)]);
    let range = matches!(past, Err(Halt::Faulted(FaultCode::Range, _)));
    Some(is_text(trimmed, b" a") && is_text(made, b"\xff") && range)
}

#[test]
fn operations_have_values(rt: HostRuntime) {
    assert!(rt; texts(rt.alloc()) == Some(true));
    assert!(rt; numbers());
    assert!(rt; functions(rt.alloc()) == Some(true));
}
