//! What tokens stand for (Fortran 90, 3.1, 4.3).

ghost use Rattle.std.specs.Prelude.{◌≡◌, nat_lt, IfOk};
ghost use Rattle.ftn_base.specs.Limits.{greatest_integer};
ghost use Rattle.ftn_tree.specs.Breaks as breaks;
ghost use Rattle.ftn_tree.specs.Reading as reading;

use crate::free_form::line::begins_with;
use crate::free_form::pieces::after;
use ftn_base::{GREATEST_INTEGER, NoMemory, ShortBytes};
use ftn_tree::TokenKind;
use std::alloc::Global;

/// A number beyond the greatest one, for which all greater ones stand.
const BEYOND: u64 = 4294967296;

/// Whether the digits mean a number beyond the greatest one.
pub(crate) fn is_too_big(digits: &[u8]) -> bool
    ensures { result ≡ nat_lt greatest_integer (breaks.number_of digits.now) }
{
    let mut number: u64 = 0;
    for digit in digits {
        number = (number * 10 + u64::from(digit.saturating_sub(48))).min(BEYOND);
    }
    number > u64::from(GREATEST_INTEGER)
}

/// What a constant stands for, given its bytes after the opening quote: a doubled quote stands for one (4.3.2.1).
fn inside(alloc: Global, quote: u8, rest: &[u8]) -> Result<Vec<u8>, NoMemory>
    ensures { IfOk result (λ made. made.items ≡ reading.inside quote rest.now) }
{
    let mut made = Vec::with_capacity(alloc, rest.len())?;
    let mut at: usize = 0;
    'bytes: while at < rest.len() {
        let byte = rest[at];
        if byte != quote {
            made.push(byte)?;
            at += 1;
        } else if begins_with(quote, after(rest, at + 1)) {
            made.push(quote)?;
            at += 2;
        } else {
            return Ok(made);
        }
    }
    Ok(made)
}

/// What a constant stands for, given its bytes with the quotes.
fn constant_value(alloc: Global, bytes: &[u8]) -> Result<Vec<u8>, NoMemory>
    ensures { IfOk result (λ made. made.items ≡ reading.constant_value bytes.now) }
{
    match bytes {
        [] => Ok(Vec::new(alloc)),
        [quote, rest @ ..] => inside(alloc, *quote, rest),
    }
}

/// What a token of that kind stands for: the word in lower case, what a constant stands for, or else its bytes.
pub(crate) fn value_of(alloc: Global, kind: TokenKind, bytes: &[u8]) -> Result<ShortBytes, NoMemory>
    ensures { IfOk result (λ made. made ≡ reading.value_of kind bytes.now) }
{
    match kind {
        TokenKind::Word | TokenKind::Dotted => ShortBytes::folded(alloc, bytes),
        TokenKind::Quoted => Ok(ShortBytes::from_vec(constant_value(alloc, bytes)?)),
        TokenKind::Whole | TokenKind::RealForm | TokenKind::Mark => ShortBytes::from_slice(
            alloc, bytes,
        ),
    }
}
