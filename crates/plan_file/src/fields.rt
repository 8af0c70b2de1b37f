//! The field that stands in front of bytes. It is read loosely, and taken where it is what the writer writes.

ghost use Rattle.std.specs.Prelude.{◌≡◌, ◌++◌, ◌∷◌, ◌<◌, ◌≤◌, ◌^◌, ℕ, List, length, not, true, ◌==◌, Some, IfOk, IfSome, IsSomeAnd, MatchOption, codes};
ghost use Rattle.std.specs.Fmt.{decimal};
ghost use Rattle.std.specs.List.{position};
ghost use Rattle.ftn_base.specs.Names.{is_file_name};
ghost use Rattle.ftn_base.specs.Limits.{most_files};
ghost use Rattle.plan_file.specs.Fields.{BeginsWith};
ghost use Rattle.plan_file.specs.steps.Next.{lacks};
ghost use Rattle.plan_file.specs.Plans.{count_field, file_field, text_field};

use crate::writing::{put_count, put_file_field};
use ftn_base::NoMemory;
use std::alloc::Global;
use std::str;

/// What stands after the field, where the bytes begin with it.
pub(crate) fn after<'a>(bytes: &'a [u8], field: &[u8]) -> Option<&'a [u8]>
    ensures { MatchOption result (BeginsWith field.now bytes.now → ⊥) (λ rest. bytes.now ≡ field.now ++ rest.now) }
{
    bytes.strip_prefix(field)
}

/// The place of the first byte that is `end`.
fn place_of(bytes: &[u8], end: u8) -> Option<usize>
    ensures place { result ≡ position (λ b. b == end) bytes.now }
    ensures within { IfSome result (λ at. at < length bytes.now) }
{
    bytes.iter().position(|byte| *byte == end)
}

/// The bytes before and after the first that is `end`.
fn split(bytes: &[u8], end: u8) -> Option<(&[u8], &[u8])>
    ensures { (word rest : List ℕ) → lacks end word ≡ true → bytes.now ≡ word ++ end ∷ rest → IsSomeAnd result (λ parts. (parts.0.now ≡ word) × (parts.1.now ≡ rest)) }
{
    let at = place_of(bytes, end)?;
    Some((&bytes[..at], &bytes[at + 1..]))
}

/// The number that the digits spell.
fn number(digits: &[u8]) -> Option<u32>
    ensures { (n : ℕ) → n < 2 ^ 32 → digits.now ≡ decimal n → result ≡ Some n }
{
    str::from_utf8(digits).ok()?.parse().ok()
}

/// The number of the count field, if that field stands in front.
fn likely_count(bytes: &[u8]) -> Option<u32>
    ensures { (n : ℕ) → n < 2 ^ 32 → BeginsWith (count_field n) bytes.now → result ≡ Some n }
{
    let rest = after(bytes, b"files ")?;
    number(split(rest, b'\n')?.0)
}

/// The count field that stands in front, and what stands after it.
pub(crate) fn count_at<'a>(
    alloc: Global,
    bytes: &'a [u8],
) -> Result<Option<(u32, &'a [u8])>, NoMemory>
    ensures stands { IfOk result (λ found. IfSome found (λ count. bytes.now ≡ count_field count.0 ++ count.1.now)) }
    ensures only { IfOk result (λ found. (n : ℕ) → n < 2 ^ 32 → BeginsWith (count_field n) bytes.now → IsSomeAnd found (λ count. count.0 ≡ n)) }
{
    let Some(count) = likely_count(bytes) else {
        return Ok(None);
    };
    let mut field = Vec::new(alloc);
    put_count(alloc, &mut field, count as usize)?;
    match after(bytes, &field) {
        None => Ok(None),
        Some(rest) => Ok(Some((count, rest))),
    }
}

/// The length and the name of the file field, if that field stands in front.
fn likely_file(bytes: &[u8]) -> Option<(u32, &[u8])>
    ensures { (size : ℕ) (name : List ℕ) → size < 2 ^ 32 → is_file_name name ≡ true → BeginsWith (file_field size name) bytes.now → IsSomeAnd result (λ file. (file.0 ≡ size) × (file.1.now ≡ name)) }
{
    let rest = after(bytes, b"file ")?;
    let (digits, rest) = split(rest, b' ')?;
    let size = number(digits)?;
    let (name, _) = split(rest, b'\n')?;
    Some((size, name))
}

/// The file field that stands in front, as length and name, and what stands after it.
pub(crate) fn file_at<'a>(
    alloc: Global,
    bytes: &'a [u8],
) -> Result<Option<(u32, &'a [u8], &'a [u8])>, NoMemory>
    ensures stands { IfOk result (λ found. IfSome found (λ file. bytes.now ≡ file_field file.0 file.1.now ++ file.2.now)) }
    ensures only { IfOk result (λ found. (size : ℕ) (name : List ℕ) → size < 2 ^ 32 → is_file_name name ≡ true → BeginsWith (file_field size name) bytes.now → IsSomeAnd found (λ file. (file.0 ≡ size) × (file.1.now ≡ name))) }
{
    let Some((size, name)) = likely_file(bytes) else {
        return Ok(None);
    };
    let mut field = Vec::new(alloc);
    put_file_field(alloc, &mut field, size as usize, name)?;
    match after(bytes, &field) {
        None => Ok(None),
        Some(rest) => Ok(Some((size, name, rest))),
    }
}

/// The text of that length that stands in front, and what stands after its field.
pub(crate) fn text_at(bytes: &[u8], size: u32) -> Option<(&[u8], &[u8])>
    ensures { MatchOption result ((text : List ℕ) → length text ≡ size → BeginsWith (text_field text) bytes.now → ⊥) (λ found. (length found.0.now ≡ size) × (bytes.now ≡ text_field found.0.now ++ found.1.now)) }
{
    let size = size as usize;
    if bytes.len() < size {
        return None;
    }
    let (text, rest) = bytes.split_at(size);
    match after(rest, b"\n") {
        None => None,
        Some(rest) => Some((text, rest)),
    }
}
