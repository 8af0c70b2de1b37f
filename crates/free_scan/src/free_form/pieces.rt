//! Pieces of a text without continuations, each as long as possible (Fortran 90, 3.2 and 4.3).

ghost use Rattle.std.specs.List.{prefix_len, sum_by};
ghost use Rattle.std.specs.Prelude.{◌≡◌, ◌<◌, ◌≤◌, ◌^◌, ◌+◌, ◌∷◌, ◌↔◌, ℕ, List, length, drop};
ghost use Rattle.ftn_base.specs.Letters as letters;
ghost use Rattle.ftn_tree.specs.Pieces as pieces;

use crate::free_form::line::{begins_with, is_quote};
use ftn_base::{is_blank, is_digit, is_letter, is_name_byte};
use ftn_tree::{PieceKind, TokenKind};

/// How many letters stand in front.
fn count_letters(rest: &[u8]) -> usize
    ensures { result ≡ prefix_len letters.is_letter rest.now }
{
    rest.iter().take_while(|byte| is_letter(**byte)).count()
}

/// How many digits stand in front.
fn count_digits(rest: &[u8]) -> usize
    ensures { result ≡ prefix_len letters.is_digit rest.now }
{
    rest.iter().take_while(|byte| is_digit(**byte)).count()
}

/// How many letters, digits and underscores stand in front.
fn count_name_bytes(rest: &[u8]) -> usize
    ensures { result ≡ prefix_len letters.is_name_byte rest.now }
{
    rest.iter().take_while(|byte| is_name_byte(**byte)).count()
}

/// What follows that many bytes.
#[tactic(auto, using(std::proofs::lemmas::List::take_rest))]
pub(crate) fn after(rest: &[u8], count: usize) -> &[u8]
    requires { count ≤ length rest.now }
    ensures { result.now ≡ drop count rest.now }
{
    &rest[count..]
}

/// Whether the two bytes make one mark (3.2.3, 3.2.6).
pub(crate) fn is_pair(first: u8, second: u8) -> bool
    ensures { result ≡ pieces.is_pair first second }
{
    match first {
        b'*' | b':' => second == first,
        b'/' => second == b'/' || second == b'=' || second == b')',
        b'=' => second == b'=' || second == b'>',
        b'<' | b'>' => second == b'=',
        b'(' => second == b'/',
        _ => false,
    }
}

/// Whether the byte is a mark by itself.
pub(crate) fn is_mark(byte: u8) -> bool
    ensures { result ≡ pieces.is_mark byte }
{
    matches!(
        byte,
        b'(' | b')' | b',' | b'=' | b'+' | b'-' | b'*' | b'/' | b'<' | b'>' | b':' | b'%'
    )
}

/// The mark of this byte alone.
fn one_mark(first: u8) -> (PieceKind, usize)
    ensures { result ≡ pieces.one_mark first }
{
    if is_mark(first) {
        (PieceKind::Token(TokenKind::Mark), 1)
    } else {
        (PieceKind::Stray, 1)
    }
}

/// The mark that begins with this byte, where those follow it.
fn mark_at(first: u8, rest: &[u8]) -> (PieceKind, usize)
    ensures { result ≡ pieces.mark_at first rest.now }
{
    match rest {
        [] => one_mark(first),
        [second, ..] => {
            if is_pair(first, *second) {
                (PieceKind::Token(TokenKind::Mark), 2)
            } else {
                one_mark(first)
            }
        }
    }
}

/// How many bytes after a point are letters, one at least, and a second point (3.2.3, 4.3.2.2).
#[tactic(auto, using(crate::proofs::PieceLaws::run_fits))]
fn dotted_len(rest: &[u8]) -> Option<usize>
    ensures { result ≡ pieces.dotted_len rest.now }
{
    let count = count_letters(rest);
    if count >= 1 && begins_with(b'.', after(rest, count)) {
        Some(count + 1)
    } else {
        None
    }
}

/// The piece that begins with a point, where those bytes follow it.
#[tactic(auto, using(crate::proofs::PieceLaws::run_fits))]
fn point_at(rest: &[u8]) -> (PieceKind, usize)
    ensures { result ≡ pieces.point_at rest.now }
{
    match dotted_len(rest) {
        Some(size) => (PieceKind::Token(TokenKind::Dotted), 1 + size),
        None => {
            let count = count_digits(rest);
            if count >= 1 {
                (PieceKind::Token(TokenKind::RealForm), 1 + count)
            } else {
                (PieceKind::Stray, 1)
            }
        }
    }
}

/// The piece that begins with a digit, where those bytes follow it (4.3.1).
#[tactic(auto, using(crate::proofs::PieceLaws::run_fits))]
fn number_at(rest: &[u8]) -> (PieceKind, usize)
    ensures { result ≡ pieces.number_at (1 + prefix_len letters.is_digit rest.now) (drop (prefix_len letters.is_digit rest.now) rest.now) }
{
    let digits = count_digits(rest);
    let more = after(rest, digits);
    match more {
        [b'_', ..] => (
            PieceKind::Token(TokenKind::RealForm),
            1 + digits + count_name_bytes(more),
        ),
        [b'.', fraction @ ..] => {
            if dotted_len(fraction).is_some() {
                (PieceKind::Token(TokenKind::Whole), 1 + digits)
            } else {
                (
                    PieceKind::Token(TokenKind::RealForm),
                    1 + digits + 1 + count_digits(fraction),
                )
            }
        }
        _ => (PieceKind::Token(TokenKind::Whole), 1 + digits),
    }
}

/// How many bytes a constant has after its opening quote, if it is closed; a doubled quote doesn't close it (4.3.2.1).
fn constant_len(quote: u8, rest: &[u8]) -> Option<usize>
    ensures { result ≡ pieces.constant_len quote rest.now }
{
    let mut at: usize = 0;
    'bytes: while at < rest.len() {
        if rest[at] != quote {
            at += 1;
        } else if begins_with(quote, after(rest, at + 1)) {
            at += 2;
        } else {
            return Some(at + 1);
        }
    }
    None
}

/// The character constant that begins with this quote, where those bytes follow it.
fn constant_at(quote: u8, rest: &[u8]) -> (PieceKind, usize)
    ensures { result ≡ pieces.constant_at quote rest.now }
{
    match constant_len(quote, rest) {
        Some(size) => (PieceKind::Token(TokenKind::Quoted), 1 + size),
        None => (PieceKind::Unclosed, 1 + rest.len()),
    }
}

/// The piece that begins with this byte, where those follow it.
#[tactic(auto, using(crate::proofs::PieceLaws::run_fits))]
fn piece_at(first: u8, rest: &[u8]) -> (PieceKind, usize)
    ensures { result ≡ pieces.front first rest.now }
{
    if is_blank(first) {
        (PieceKind::Blank, 1)
    } else if is_letter(first) {
        (
            PieceKind::Token(TokenKind::Word),
            1 + count_name_bytes(rest),
        )
    } else if is_digit(first) {
        number_at(rest)
    } else if first == b'.' {
        point_at(rest)
    } else if is_quote(first) {
        constant_at(first, rest)
    } else {
        mark_at(first, rest)
    }
}

/// The piece that begins with this byte, as long as possible where those follow it: what it is, and how many bytes it
/// has.
pub(crate) fn front(first: u8, rest: &[u8]) -> (PieceKind, usize)
    ensures piece { result ≡ pieces.front first rest.now }
    ensures size { (1 ≤ result.1) × (result.1 ≤ length rest.now + 1) }
{
    piece_at(first, rest)
}

/// No text can be read as pieces in two ways: the pieces that are computed are the only ones. Each has a byte at least,
/// and joined they are the text, none of its bytes left out (3.3.1).
pub fn one_row_of_pieces()
    ensures once { (text : List ℕ) (row : List pieces.Piece) → (pieces.pieces_of text ≡ row) ↔ pieces.ArePieces text row }
    ensures sized { (first : ℕ) (rest : List ℕ) → (1 ≤ (pieces.front first rest).1) × ((pieces.front first rest).1 ≤ length (first ∷ rest)) }
    ensures joined { (text : List ℕ) (row : List pieces.Piece) → pieces.ArePieces text row → sum_by (λ piece. piece.1) row ≡ length text }
{}
