//! Pieces and tokens of a text.

ghost use Rattle.std.specs.List.{prefix_len, sum_by};
ghost use Rattle.std.specs.Option.{option_map};
ghost use Rattle.std.specs.Prelude.{◌≡◌, ◌<◌, ◌≤◌, ◌^◌, ◌+◌, ◌++◌, ◌∷◌, ◌↔◌, ℕ, List, [], Some, not, length, IfOk, OnOk, IfSome};
ghost use Rattle.ftn_base.specs.Letters.{is_digit as digit, is_name_byte as name_byte};
ghost use Rattle.ftn_tree.specs.Lines.{is_line_feed};
ghost use Rattle.free_scan.specs.Pieces as pieces;
ghost use Rattle.free_scan.specs.Tokens as tokens;
ghost use Rattle.free_scan.specs.Tokens.{keep_if, placed_pieces_of, tokens_among};

use crate::free_form::{is_mark, is_pair};
use ftn_base::{NoMemory, Range, ShortBytes, is_digit, is_letter, is_name_byte};
use ftn_tree::{Token, TokenKind};
use sqlite_items::Items;
use std::alloc::Global;

/// What a piece of a text is. One that is no blank, no comment and no end of a line is a token.
#[derive(Clone, Copy)]
pub enum PieceKind {
    /// One blank.
    Blank,
    /// From `!` to the end of the line, which is no part of it (3.3.1.1).
    Comment,
    /// One LF.
    LineEnd,
    /// A letter and the letters, digits and underscores after it (3.2.1, 3.2.4).
    Word,
    /// A row of digits (3.2.2).
    Whole,
    /// An operator or another mark, of one byte or two (3.2.3, 3.2.6).
    Mark,
}

/// A token or the end of a line, with its place.
#[derive(Drop)]
pub struct PlacedPiece {
    /// What it is.
    pub kind: PieceKind,
    /// Its bytes in the text.
    pub range: Range,
    /// The line of its first byte, from 1.
    pub line: u32,
    /// The word in lower case, or else its bytes.
    pub value: ShortBytes,
}

/// How many bytes stand before the next LF.
fn count_to_line_end(rest: &[u8]) -> usize
    ensures { result ≡ prefix_len (λ c. not (is_line_feed c)) rest.now }
{
    rest.iter().take_while(|byte| **byte != b'\n').count()
}

/// How many letters, digits and underscores stand in front.
fn count_name_bytes(rest: &[u8]) -> usize
    ensures { result ≡ prefix_len name_byte rest.now }
{
    rest.iter().take_while(|byte| is_name_byte(**byte)).count()
}

/// How many digits stand in front.
fn count_digits(rest: &[u8]) -> usize
    ensures { result ≡ prefix_len digit rest.now }
{
    rest.iter().take_while(|byte| is_digit(**byte)).count()
}

/// The mark that begins with this byte, and what follows it.
fn mark_at(first: u8, rest: &[u8]) -> Option<(PieceKind, usize)>
    ensures { result ≡ pieces.mark_at first rest.now }
{
    if let [second, ..] = rest {
        if is_pair(first, *second) {
            return Some((PieceKind::Mark, 2));
        }
    }
    if is_mark(first) {
        Some((PieceKind::Mark, 1))
    } else {
        None
    }
}

/// The piece that begins with this byte, and what follows it.
#[tactic(auto, using(crate::proofs::PieceLaws::run_fits))]
fn piece_at(first: u8, rest: &[u8]) -> Option<(PieceKind, usize)>
    ensures { result ≡ pieces.front (first ∷ rest.now) }
{
    if first == b'\n' {
        Some((PieceKind::LineEnd, 1))
    } else if first == b' ' {
        Some((PieceKind::Blank, 1))
    } else if first == b'!' {
        Some((PieceKind::Comment, 1 + count_to_line_end(rest)))
    } else if is_letter(first) {
        Some((PieceKind::Word, 1 + count_name_bytes(rest)))
    } else if is_digit(first) {
        Some((PieceKind::Whole, 1 + count_digits(rest)))
    } else {
        mark_at(first, rest)
    }
}

/// The piece at the front of the text, as long as possible, and how many bytes it has.
fn front(text: &[u8]) -> Option<(PieceKind, usize)>
    ensures piece { result ≡ pieces.front text.now }
    ensures size { IfSome result (λ piece. (1 ≤ piece.1) × (piece.1 ≤ length text.now)) }
{
    match text {
        [] => None,
        [first, rest @ ..] => piece_at(*first, rest),
    }
}

/// Whether a piece of that kind is a token or the end of a line.
fn is_kept(kind: PieceKind) -> bool
    ensures { result ≡ tokens.is_kept kind }
{
    !matches!(kind, PieceKind::Blank | PieceKind::Comment)
}

/// The line after a piece that begins on this one.
fn line_after(line: u32, kind: PieceKind) -> u32
    requires { line + 1 < 2 ^ 32 }
    ensures line { result ≡ tokens.line_after line kind }
    ensures next { result ≤ line + 1 }
{
    if kind == PieceKind::LineEnd {
        line + 1
    } else {
        line
    }
}

/// What a piece of that kind says: the word in lower case, or else its bytes.
fn value_of(alloc: Global, kind: PieceKind, bytes: &[u8]) -> Result<ShortBytes, NoMemory>
    ensures { IfOk result (λ made. made ≡ tokens.value_of kind bytes.now) }
{
    if kind == PieceKind::Word {
        ShortBytes::folded(alloc, bytes)
    } else {
        ShortBytes::from_slice(alloc, bytes)
    }
}

/// The piece of that kind and size at the front of the rest of a text, which begins at that offset and on that line.
fn place_piece(
    alloc: Global,
    at: u32,
    line: u32,
    kind: PieceKind,
    rest: &[u8],
    size: usize,
) -> Result<PlacedPiece, NoMemory>
    requires within { size ≤ length rest.now }
    requires fits { at + size < 2 ^ 32 }
    ensures { IfOk result (λ made. made ≡ tokens.placed_piece at line kind rest.now size) }
{
    let value = value_of(alloc, kind, &rest[..size])?;
    let range = Range {
        start: at,
        end: at + size as u32,
    };
    Ok(PlacedPiece {
        kind,
        range,
        line,
        value,
    })
}

/// Keeps the piece of that kind and size at the front of the rest of a text, if it is a token or the end of a line.
fn keep(
    found: &mut Vec<PlacedPiece>,
    alloc: Global,
    at: u32,
    line: u32,
    kind: PieceKind,
    rest: &[u8],
    size: usize,
) -> Result<(), NoMemory>
    requires within { size ≤ length rest.now }
    requires fits { at + size < 2 ^ 32 }
    ensures { OnOk result (found.new.items ≡ found.old.items ++ keep_if (tokens.is_kept kind) (tokens.placed_piece at line kind rest.now size) []) }
{
    if is_kept(kind) {
        let piece = place_piece(alloc, at, line, kind, rest, size)?;
        found.push(piece)?;
    }
    Ok(())
}

/// The tokens of a text and the ends of its lines, or nothing where some byte begins no piece of first form.
pub fn scan(alloc: Global, text: &[u8]) -> Result<Option<Vec<PlacedPiece>>, NoMemory>
    requires { length text.now + 2 < 2 ^ 32 }
    ensures { IfOk result (λ found. option_map (λ pieces. pieces.items) found ≡ placed_pieces_of text.now) }
{
    let mut found = Vec::new(alloc);
    let mut at: usize = 0;
    let mut line: u32 = 1;
    'pieces: while at < text.len() {
        let rest = &text[at..];
        let Some((kind, size)) = front(rest) else {
            return Ok(None);
        };
        keep(&mut found, alloc, at as u32, line, kind, rest, size)?;
        line = line_after(line, kind);
        at += size;
    }
    Ok(Some(found))
}

/// Which token a piece of that kind is, if it is one.
fn token_kind(kind: PieceKind) -> Option<TokenKind>
    ensures { result ≡ tokens.token_kind kind }
{
    match kind {
        PieceKind::Word => Some(TokenKind::Word),
        PieceKind::Whole => Some(TokenKind::Whole),
        PieceKind::Mark => Some(TokenKind::Mark),
        PieceKind::Blank | PieceKind::Comment | PieceKind::LineEnd => None,
    }
}

/// The token that the piece is, if it is one.
fn token_of(piece: PlacedPiece) -> Option<Token>
    ensures { result ≡ tokens.token_of piece }
{
    let PlacedPiece {
        kind,
        range,
        line,
        value,
    } = piece;
    let kind = token_kind(kind)?;
    Some(Token {
        kind,
        range,
        line,
        split: false,
        value,
    })
}

/// The tokens among the pieces.
pub fn tokens_among(alloc: Global, pieces: Vec<PlacedPiece>) -> Result<Items<Token>, NoMemory>
    ensures { IfOk result (λ found. found ≡ tokens_among pieces.items) }
{
    let found = pieces.into_iter().filter_map(|piece| token_of(piece));
    Ok(Items::from_vec(found.collect(alloc)?))
}

/// No text can be read as pieces in two ways: the pieces that are computed are the only ones. Each has a byte at least,
/// and joined they are the text, none of its bytes left out (3.3.1).
pub fn pieces_are_unique()
    ensures once { (text : List ℕ) (ps : List pieces.Piece) → (pieces.pieces_of text ≡ Some ps) ↔ pieces.ArePieces text ps }
    ensures sized { (text : List ℕ) (piece : pieces.Piece) → pieces.front text ≡ Some piece → (1 ≤ piece.1) × (piece.1 ≤ length text) }
    ensures joined { (text : List ℕ) (ps : List pieces.Piece) → pieces.ArePieces text ps → sum_by (λ piece. piece.1) ps ≡ length text }
{}
