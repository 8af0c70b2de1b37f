//! Tokens of a row: bytes of one line, each of which stands for itself. So their places adjoin, and none is kept.

ghost use Rattle.std.specs.Prelude.{◌≡◌, ◌<◌, ◌^◌, ◌+◌, ◌++◌, None, length, IfOk, OnOk};
ghost use Rattle.ftn_tree.specs.Breaks.{piece_breaches};
ghost use Rattle.ftn_tree.specs.Reading.{over_run, token_of};
ghost use Rattle.free_scan.specs.steps.Firsts.{least};
ghost use Rattle.free_scan.specs.steps.PlainText as spec;
ghost use Rattle.free_scan.specs.steps.PlainText.{adjoining};

use crate::free_form::firsts::Firsts;
use crate::free_form::line::{calm_len, is_outside, is_wrong, quote_after};
use crate::free_form::pieces::{after, front};
use crate::free_form::values::{is_too_big, value_of};
use ftn_base::{Edition, FaultKind, NoMemory, Range, name_limit};
use ftn_tree::{PieceKind, Token, TokenKind};
use sqlite_items::Items;
use std::alloc::Global;

/// Whether the byte stands for itself, where that quote is open: it ends no statement, and may stand there.
fn is_plain(quote: Option<u8>, byte: u8) -> bool
    ensures { result ≡ spec.is_plain quote byte }
{
    !(is_outside(quote) && byte == b';' || is_wrong(quote, byte))
}

/// The quote that is open after the bytes, if each of them stands for itself, found byte by byte.
fn walked_end(quote: Option<u8>, bytes: &[u8]) -> Option<Option<u8>>
    ensures { result ≡ spec.plain_end quote bytes.now }
{
    let mut open = quote;
    for byte in bytes {
        if !is_plain(open, *byte) {
            return None;
        }
        open = quote_after(open, *byte);
    }
    Some(open)
}

/// The same where no quote is open at first.
fn outside_end(bytes: &[u8]) -> Option<Option<u8>>
    ensures { result ≡ spec.plain_end None bytes.now }
{
    walked_end(None, after(bytes, calm_len(bytes)))
}

/// The quote that is open after the bytes, if each of them stands for itself.
pub(crate) fn plain_end(quote: Option<u8>, bytes: &[u8]) -> Option<Option<u8>>
    ensures { result ≡ spec.plain_end quote bytes.now }
{
    match quote {
        None => outside_end(bytes),
        Some(_) => walked_end(quote, bytes),
    }
}

/// The token of bytes that adjoin, the first of which stands there.
fn row_token(
    alloc: Global,
    kind: TokenKind,
    bytes: &[u8],
    line: u32,
    at: u32,
) -> Result<Token, NoMemory>
    requires { at + length bytes.now < 2 ^ 32 }
    ensures { IfOk result (λ made. made ≡ spec.row_token kind bytes.now line at) }
{
    let value = value_of(alloc, kind, bytes)?;
    let end = at + bytes.len() as u32;
    Ok(Token {
        kind,
        range: Range { start: at, end },
        line,
        split: false,
        value,
    })
}

/// Puts the token of a piece behind those found, if the piece is one.
fn keep_piece(
    alloc: Global,
    kind: PieceKind,
    bytes: &[u8],
    line: u32,
    at: u32,
    items: &mut Items<Token>,
) -> Result<(), NoMemory>
    requires { at + length bytes.now < 2 ^ 32 }
    ensures { OnOk result (items.new ≡ items.old ++ spec.row_tokens kind bytes.now line at) }
{
    match kind {
        PieceKind::Token(kind) => {
            let token = row_token(alloc, kind, bytes, line, at)?;
            items.push(token)?;
            Ok(())
        }
        PieceKind::Blank | PieceKind::Stray | PieceKind::Unclosed => Ok(()),
    }
}

/// Notes the rules that a piece breaks, the first byte of which stands there.
fn note_piece(edition: Edition, kind: PieceKind, bytes: &[u8], at: u32, firsts: &mut Firsts)
    ensures { firsts.new ≡ least firsts.old (spec.row_breaches edition kind bytes.now at) }
{
    match kind {
        PieceKind::Stray => firsts.note(at, FaultKind::BadByte),
        PieceKind::Unclosed => firsts.note(at, FaultKind::OpenText),
        PieceKind::Token(TokenKind::Word) => {
            firsts.note_if(bytes.len() > name_limit(edition), at, FaultKind::LongName);
        }
        PieceKind::Token(TokenKind::Whole) => {
            firsts.note_if(is_too_big(bytes), at, FaultKind::BigNumber);
        }
        PieceKind::Blank | PieceKind::Token(_) => {}
    }
}

/// Puts the tokens of a row, the first byte of which stands there, behind those found, and notes the rules that it breaks.
pub(crate) fn read_row(
    alloc: Global,
    edition: Edition,
    bytes: &[u8],
    line: u32,
    start: u32,
    items: &mut Items<Token>,
    firsts: &mut Firsts,
) -> Result<(), NoMemory>
    requires { start + length bytes.now < 2 ^ 32 }
    ensures items { OnOk result (items.new ≡ items.old ++ over_run token_of bytes.now (adjoining line start (length bytes.now))) }
    ensures firsts { OnOk result (firsts.new ≡ least firsts.old (over_run (piece_breaches edition) bytes.now (adjoining line start (length bytes.now)))) }
{
    let mut at: usize = 0;
    'pieces: while at < bytes.len() {
        let (kind, size) = front(bytes[at], after(bytes, at + 1));
        let end = at + size;
        let piece = &bytes[at..end];
        let place = start + at as u32;
        keep_piece(alloc, kind, piece, line, place, items)?;
        note_piece(edition, kind, piece, place, firsts);
        at = end;
    }
    Ok(())
}
