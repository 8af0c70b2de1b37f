//! The intrinsic functions (Fortran 90, 13.13).

ghost use Rattle.std.specs.Prelude.{◌≡◌, ◌==◌, ◌+◌, length, pos, take, bytes_eq, [], ◌∷◌, Err};
ghost use Rattle.std.specs.List.{suffix_len};
ghost use Rattle.ftn_base.specs.Arithmetic.{kept as kept_of};
ghost use Rattle.ftn_tree.specs.Intrinsics as spec;
ghost use Rattle.ftn_tree.specs.declared.intrinsic.ValueFault.TheVariants as faults;
ghost use Rattle.value_ops.specs.declared.failure.Failure.TheVariants as failures;
ghost use Rattle.value_ops.specs.Answers.{Makes};

use crate::failure::Failure;
use crate::operators::whole_of;
use ftn_base::{ArithmeticFault, Bytes};
use ftn_tree::{Intrinsic, Value, ValueFault};
use std::alloc::Global;

fn kept(number: i64) -> Result<i32, ArithmeticFault>
    ensures { result ≡ kept_of number }
{
    if i64::from(i32::MIN) <= number && number <= i64::from(i32::MAX) {
        Ok(number as i32)
    } else {
        Err(ArithmeticFault::Overflow)
    }
}

fn kept_count(count: usize) -> Result<i32, ArithmeticFault>
    ensures { result ≡ kept_of (pos count) }
{
    if count <= 2147483647 {
        Ok(count as i32)
    } else {
        Err(ArithmeticFault::Overflow)
    }
}

fn remainder(a: i32, b: i32) -> Result<i32, ArithmeticFault>
    ensures { result ≡ spec.remainder a b }
{
    if b == 0 {
        return Err(ArithmeticFault::Zero);
    }
    kept(i64::from(a) % i64::from(b))
}

fn signed(a: i32, b: i32) -> Result<i32, ArithmeticFault>
    ensures { result ≡ kept_of (spec.signed a b) }
{
    let size = i64::from(a.unsigned_abs());
    kept(if 0 <= b { size } else { -size })
}

/// The least of an integer and others, all of which have to be integers.
fn least(first: i32, others: &[Value]) -> Result<Value, Failure>
    ensures { Makes (spec.picked spec.lesser first others.now) result }
{
    let mut least = first;
    for other in others {
        match other {
            Value::Whole(number) => {
                if *number < least {
                    least = *number;
                }
            }
            _ => return Err(Failure::Fault(ValueFault::IllTyped)),
        }
    }
    Ok(Value::Whole(least))
}

/// The greatest of an integer and others, all of which have to be integers.
fn greatest(first: i32, others: &[Value]) -> Result<Value, Failure>
    ensures { Makes (spec.picked spec.greater first others.now) result }
{
    let mut greatest = first;
    for other in others {
        match other {
            Value::Whole(number) => {
                if greatest < *number {
                    greatest = *number;
                }
            }
            _ => return Err(Failure::Fault(ValueFault::IllTyped)),
        }
    }
    Ok(Value::Whole(greatest))
}

/// How many bytes the text has without the blanks at its end.
fn trimmed_len(text: &[u8]) -> usize
    ensures { result + suffix_len (λ byte. byte == 32) text.now ≡ length text.now }
{
    let mut len = text.len();
    while len > 0 && text[len - 1] == b' ' {
        len -= 1;
    }
    len
}

fn trimmed(text: &[u8]) -> &[u8]
    ensures { result.now ≡ spec.trimmed text.now }
{
    &text[..trimmed_len(text)]
}

fn begins_with(text: &[u8], part: &[u8]) -> bool
    ensures { result ≡ bytes_eq (take (length part.now) text.now) part.now }
{
    part.len() <= text.len() && &text[..part.len()] == part
}

/// Where the part first stands in the text, from 1, or 0.
#[tactic(auto, using(crate::proofs::Searching::passed_over, crate::proofs::Searching::stands_there))]
fn index(text: &[u8], part: &[u8]) -> usize
    ensures { result ≡ spec.index_from 1 part.now text.now }
{
    let mut at = 0;
    'starts: while at < text.len() {
        if begins_with(&text[at..], part) {
            return at + 1;
        }
        at += 1;
    }
    if part.is_empty() { at + 1 } else { 0 }
}

fn ill_typed() -> Result<Value, Failure>
    ensures { result ≡ Err (failures.Fault faults.IllTyped) }
{
    Err(Failure::Fault(ValueFault::IllTyped))
}

fn code_of(text: &[u8]) -> Result<Value, Failure>
    ensures { Makes (spec.code_of text.now) result }
{
    match text {
        [byte] => Ok(Value::Whole(i32::from(*byte))),
        _ => Err(Failure::Fault(ValueFault::OutOfRange)),
    }
}

fn char_of(alloc: Global, number: i32) -> Result<Value, Failure>
    ensures { Makes (spec.char_of number) result }
{
    if 0 <= number && number < 256 {
        return Ok(Value::Chars(Bytes::from_slice(alloc, &[number as u8])?));
    }
    Err(Failure::Fault(ValueFault::OutOfRange))
}

fn of_number(alloc: Global, function: Intrinsic, a: i32) -> Result<Value, Failure>
    ensures { Makes (spec.of_number function a) result }
{
    match function {
        Intrinsic::Abs => whole_of(kept(i64::from(a.unsigned_abs()))),
        Intrinsic::Char => char_of(alloc, a),
        _ => ill_typed(),
    }
}

fn of_text(alloc: Global, function: Intrinsic, a: &[u8]) -> Result<Value, Failure>
    ensures { Makes (spec.of_text function a.now) result }
{
    match function {
        Intrinsic::Len => whole_of(kept_count(a.len())),
        Intrinsic::LenTrim => whole_of(kept_count(trimmed(a).len())),
        Intrinsic::Trim => Ok(Value::Chars(Bytes::from_slice(alloc, trimmed(a))?)),
        Intrinsic::Ichar => code_of(a),
        _ => ill_typed(),
    }
}

fn of_one(alloc: Global, function: Intrinsic, a: &Value) -> Result<Value, Failure>
    ensures { Makes (spec.intrinsic_value function (a.now ∷ [])) result }
{
    match a {
        Value::Whole(number) => of_number(alloc, function, *number),
        Value::Truth(_) => ill_typed(),
        Value::Chars(text) => of_text(alloc, function, text.bytes()),
    }
}

fn of_two_numbers(function: Intrinsic, a: i32, b: i32) -> Result<Value, Failure>
    ensures { Makes (spec.of_numbers function a b []) result }
{
    match function {
        Intrinsic::Mod => whole_of(remainder(a, b)),
        Intrinsic::Sign => whole_of(signed(a, b)),
        Intrinsic::Min => Ok(Value::Whole(if b < a { b } else { a })),
        Intrinsic::Max => Ok(Value::Whole(if a < b { b } else { a })),
        _ => ill_typed(),
    }
}

fn of_numbers(function: Intrinsic, a: i32, b: i32, rest: &[Value]) -> Result<Value, Failure>
    ensures { Makes (spec.of_numbers function a b rest.now) result }
{
    if rest.is_empty() {
        return of_two_numbers(function, a, b);
    }
    match function {
        Intrinsic::Min => least(if b < a { b } else { a }, rest),
        Intrinsic::Max => greatest(if a < b { b } else { a }, rest),
        _ => ill_typed(),
    }
}

fn of_pair(function: Intrinsic, a: &[u8], b: &[u8], rest: &[Value]) -> Result<Value, Failure>
    ensures { Makes (spec.of_pair function a.now b.now rest.now) result }
{
    match function {
        Intrinsic::Index => match rest {
            [] => whole_of(kept_count(index(a, b))),
            _ => ill_typed(),
        },
        _ => ill_typed(),
    }
}

fn of_more(function: Intrinsic, a: &Value, b: &Value, rest: &[Value]) -> Result<Value, Failure>
    ensures { Makes (spec.intrinsic_value function (a.now ∷ b.now ∷ rest.now)) result }
{
    match a {
        Value::Whole(a) => match b {
            Value::Whole(b) => of_numbers(function, *a, *b, rest),
            Value::Truth(_) => ill_typed(),
            Value::Chars(_) => ill_typed(),
        },
        Value::Truth(_) => ill_typed(),
        Value::Chars(a) => match b {
            Value::Chars(b) => of_pair(function, a.bytes(), b.bytes(), rest),
            Value::Whole(_) => ill_typed(),
            Value::Truth(_) => ill_typed(),
        },
    }
}

/// The value of an intrinsic function of these arguments (13.13). Arguments that it doesn't take give `IllTyped`.
pub fn intrinsic(alloc: Global, function: Intrinsic, args: &[Value]) -> Result<Value, Failure>
    ensures { Makes (spec.intrinsic_value function args.now) result }
{
    match args {
        [] => ill_typed(),
        [a, more @ ..] => match more {
            [] => of_one(alloc, function, a),
            [b, rest @ ..] => of_more(function, a, b, rest),
        },
    }
}
