//! Rows of tokens, and what one token says.

ghost use Rattle.std.specs.List.{slice_split};
ghost use Rattle.std.specs.Option.{option_map};
ghost use Rattle.std.specs.Prelude.{◌≡◌, map, filter, IfOk};
ghost use Rattle.std.specs.Str.{bytes_eq};
ghost use Rattle.free_scan.specs.steps.Reading as spec;
ghost use Rattle.free_scan.specs.Spelling.{is_some_row, lexeme_of, number_of, rows_of};
ghost use Rattle.free_scan.specs.Tokens.{is_line_end};

use crate::first_form::token::{PieceKind, PlacedPiece};
use ftn_base::{GREATEST_INTEGER, NoMemory};
use std::alloc::Global;

/// Whether the bytes are that text.
pub fn is_text(bytes: &[u8], text: &[u8]) -> bool
    ensures { result ≡ bytes_eq bytes.now text.now }
{
    bytes == text
}

/// Whether the token is that mark.
pub fn says_mark(token: &PlacedPiece, text: &[u8]) -> bool
    ensures { result ≡ spec.says_mark text.now (lexeme_of token.now) }
{
    match token.kind {
        PieceKind::Word | PieceKind::Whole => false,
        PieceKind::Mark | PieceKind::Blank | PieceKind::Comment | PieceKind::LineEnd => {
            is_text(token.value.bytes(), text)
        }
    }
}

/// Whether the token is that word.
pub fn says_word(token: &PlacedPiece, text: &[u8]) -> bool
    ensures { result ≡ spec.says_word text.now (lexeme_of token.now) }
{
    token.kind == PieceKind::Word && is_text(token.value.bytes(), text)
}

/// Whether the token is a comma.
pub fn is_comma(token: &PlacedPiece) -> bool
    ensures { result ≡ spec.is_comma (lexeme_of token.now) }
{
    says_mark(token, b",")
}

fn ends_line(piece: &PlacedPiece) -> bool
    ensures { result ≡ is_line_end piece.now.kind }
{
    piece.kind == PieceKind::LineEnd
}

fn is_some(row: &[PlacedPiece]) -> bool
    ensures { result ≡ is_some_row row.now }
{
    matches!(row, [_, ..])
}

/// The value of a row of digits, if a variable may have it (4.3.1.1).
pub fn whole_value(digits: &[u8]) -> Option<u32>
    ensures { result ≡ spec.fitting (number_of digits.now) }
{
    let mut value = 0;
    for digit in digits {
        value = 10 * value + u64::from(digit.saturating_sub(b'0'));
        if value > u64::from(GREATEST_INTEGER) {
            return None;
        }
    }
    Some(value as u32)
}

/// The parts of a row between commas.
pub fn parts(alloc: Global, row: &[PlacedPiece]) -> Result<Vec<&[PlacedPiece]>, NoMemory>
    ensures { IfOk result (λ found. map (λ part. map lexeme_of part.now) found.items ≡ slice_split spec.is_comma (map lexeme_of row.now)) }
{
    Ok(row.split(|token| is_comma(token)).collect(alloc)?)
}

/// The rows of tokens on which a statement stands.
pub fn rows(alloc: Global, pieces: &[PlacedPiece]) -> Result<Vec<&[PlacedPiece]>, NoMemory>
    ensures { IfOk result (λ found. map (λ row. row.now) found.items ≡ rows_of pieces.now) }
{
    Ok(
        pieces
            .split(|piece| ends_line(piece))
            .filter(|row| is_some(row))
            .collect(alloc)?,
    )
}
