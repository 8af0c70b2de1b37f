//! Character values: substrings, and lengths that texts are brought to (Fortran 90, 6.1.1, 7.5.1).

ghost use Rattle.std.specs.Prelude.{◌≡◌, ◌+◌, ◌≤◌, IfOk, IfSome};
ghost use Rattle.ftn_tree.specs.Arrays as arrays;
ghost use Rattle.ftn_tree.specs.Operations as operations;

use ftn_base::{Bytes, NoMemory};
use ftn_tree::{Operator, Value};
use std::alloc::Global;

/// The most bytes that a character value has here; a longer one counts as want of memory.
const MOST: usize = 16777216;

/// The text cut, or with blanks at its end, to that length.
pub fn fitted(alloc: Global, length: u32, text: &[u8]) -> Result<Bytes, NoMemory>
    ensures { IfOk result (λ made. made ≡ operations.fitted length text.now) }
{
    let length = length as usize;
    if length > MOST {
        return Err(NoMemory);
    }
    if length <= text.len() {
        return Bytes::from_slice(alloc, &text[..length]);
    }
    let mut made = Vec::from_slice(alloc, text)?;
    made.resize(length, b' ')?;
    Ok(Bytes::from_vec(made))
}

/// The first character of a substring, from 0, and how many there are. Where the range is empty its ends are free.
pub(crate) fn substring(length: usize, low: i64, high: i64) -> Option<(usize, usize)>
    ensures value { result ≡ arrays.substring length low high }
    ensures within { IfSome result (λ part. part.0 + part.1 ≤ length) }
{
    if high < low {
        return Some((0, 0));
    }
    if 1 <= low {
        if high as usize <= length {
            return Some(((low - 1) as usize, (high - low) as usize + 1));
        }
        return None;
    }
    None
}

/// Whether the operator joins two texts to one that is too long.
pub(crate) fn is_too_long(operator: Operator, left: &Value, right: &Value) -> bool {
    match operator {
        Operator::Concat => match left {
            Value::Chars(a) => match right {
                Value::Chars(b) => a.bytes().len() > MOST
                    || b.bytes().len() > MOST - a.bytes().len(),
                _ => false,
            },
            _ => false,
        },
        _ => false,
    }
}
