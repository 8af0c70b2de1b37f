//! The character set, and folding (Fortran 90, 3.1: case does not count).

ghost use Rattle.std.specs.Prelude.{◌≡◌, IfOk};
ghost use Rattle.ftn_base.specs.Letters as spec;

use std::alloc::{AllocError, Global};

/// Whether the byte is a letter.
pub fn is_letter(byte: u8) -> bool
    ensures { result ≡ spec.is_letter byte }
{
    byte.is_ascii_alphabetic()
}

/// Whether the byte is a digit.
pub fn is_digit(byte: u8) -> bool
    ensures { result ≡ spec.is_digit byte }
{
    byte.is_ascii_digit()
}

/// Whether the byte may stand in a name after its first letter: a letter, a digit or `_` (3.2.1).
pub fn is_name_byte(byte: u8) -> bool
    ensures { result ≡ spec.is_name_byte byte }
{
    is_letter(byte) || is_digit(byte) || byte == b'_'
}

/// Whether the byte is a blank: a space or, as this project's own, a tab.
pub fn is_blank(byte: u8) -> bool
    ensures { result ≡ spec.is_blank byte }
{
    byte == b' ' || byte == b'\t'
}

/// The byte in lower case, where it is a letter.
pub fn fold_byte(byte: u8) -> u8
    ensures { result ≡ spec.fold_byte byte }
{
    byte.to_ascii_lowercase()
}

/// A copy of the bytes with each letter in lower case.
pub fn folded(alloc: Global, bytes: &[u8]) -> Result<Vec<u8>, AllocError>
    ensures { IfOk result (λ made. made.items ≡ spec.folded bytes.now) }
{
    bytes.iter().map(|byte| fold_byte(*byte)).collect(alloc)
}
