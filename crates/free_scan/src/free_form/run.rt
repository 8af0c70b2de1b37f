//! Tokens of a run: bytes of a text that no continuation parts, each with its place.

ghost use Rattle.std.specs.List.{All};
ghost use Rattle.std.specs.Prelude.{◌≡◌, ◌<◌, ◌≤◌, ◌^◌, ◌+◌, ◌++◌, ◌∷◌, [], true, length, IfOk, OnOk};
ghost use Rattle.ftn_tree.specs.Breaks.{piece_breaches};
ghost use Rattle.ftn_tree.specs.Reading as reading;
ghost use Rattle.ftn_tree.specs.Reading.{over_run, token_of};
ghost use Rattle.free_scan.specs.steps.Firsts.{least};
ghost use Rattle.free_scan.specs.steps.Runs.{Fits};

use crate::free_form::firsts::Firsts;
use crate::free_form::pieces::{after, front};
use crate::free_form::values::{is_too_big, value_of};
use ftn_base::{Edition, FaultKind, NoMemory, Range, name_limit};
use ftn_tree::{PieceKind, Spot, Token, TokenKind};
use sqlite_items::Items;
use std::alloc::Global;
use std::marker::Model;

/// Bytes of a text that no continuation parts, each with its place. Contracts see the bytes and the places, which are as
/// many.
#[derive(Drop)]
pub(crate) struct Run {
    bytes: Vec<u8>,
    spots: Vec<Spot>,
}

impl Model for Run {
    ghost use Rattle.std.specs.Prelude.{List, ℕ};
    ghost use Rattle.ftn_tree.specs.declared.piece.Spot.{Spot};
    ghost use Rattle.free_scan.specs.steps.Runs.{IsRun};

    ghost Value = { List ℕ × List Spot };

    ghost view = { λ a. (a.bytes.items, a.spots.items) };

    ghost invariant = { λ a. IsRun a.bytes.items a.spots.items };
}

impl Run {
    /// A run of no bytes. It takes no memory.
    pub(crate) fn new(alloc: Global) -> Run
        ensures { result ≡ ([], []) }
    {
        Run {
            bytes: Vec::new(alloc),
            spots: Vec::new(alloc),
        }
    }

    /// Puts a byte at its end, which stands at that offset and on that line.
    pub(crate) fn push(&mut self, byte: u8, at: u32, line: u32) -> Result<(), NoMemory>
        requires { at + 1 < 2 ^ 32 }
        ensures bytes { OnOk result (self.new.0 ≡ self.old.0 ++ byte ∷ []) }
        ensures spots { OnOk result (self.new.1 ≡ self.old.1 ++ record { at = at; line = line } ∷ []) }
    {
        self.bytes.push(byte)?;
        if self.spots.push(Spot { at, line }).is_err() {
            self.bytes.pop();
            return Err(NoMemory);
        }
        Ok(())
    }

    /// Whether it has no bytes.
    pub(crate) fn is_empty(&self) -> bool
        ensures { result ≡ true → self.now ≡ ([], []) }
    {
        self.bytes.is_empty()
    }

    /// Takes all bytes out. It keeps the memory.
    pub(crate) fn clear(&mut self)
        ensures { self.new ≡ ([], []) }
    {
        self.bytes.clear();
        self.spots.clear();
    }

    /// The bytes, lent.
    pub(crate) fn bytes(&self) -> &[u8]
        ensures bytes { result.now ≡ self.now.0 }
        ensures alike { length self.now.0 ≡ length self.now.1 }
    {
        self.bytes.as_slice()
    }

    /// The places, lent.
    pub(crate) fn spots(&self) -> &[Spot]
        ensures spots { result.now ≡ self.now.1 }
        ensures fits { All Fits self.now.1 }
    {
        self.spots.as_slice()
    }

    /// Puts the tokens of the run behind those found, and notes the rules that it breaks.
    pub(crate) fn read(
        &self,
        alloc: Global,
        edition: Edition,
        items: &mut Items<Token>,
        firsts: &mut Firsts,
    ) -> Result<(), NoMemory>
        ensures items { OnOk result (items.new ≡ items.old ++ over_run token_of self.now.0 self.now.1) }
        ensures firsts { OnOk result (firsts.new ≡ least firsts.old (over_run (piece_breaches edition) self.now.0 self.now.1)) }
    {
        read_run(alloc, edition, self.bytes(), self.spots(), items, firsts)
    }
}

/// Where the last of some bytes stands.
fn last_of(first: Spot, rest: &[Spot]) -> Spot
    ensures { result ≡ reading.last_of first rest.now }
{
    match rest {
        [] => first,
        [.., last] => *last,
    }
}

/// The token of those bytes, the first of which stands there, and the others there.
fn make_token(
    alloc: Global,
    kind: TokenKind,
    bytes: &[u8],
    first: Spot,
    rest: &[Spot],
) -> Result<Token, NoMemory>
    requires { Fits (reading.last_of first rest.now) }
    ensures { IfOk result (λ made. made ≡ reading.token kind bytes.now first rest.now) }
{
    let value = value_of(alloc, kind, bytes)?;
    let last = last_of(first, rest);
    Ok(Token {
        kind,
        range: Range {
            start: first.at,
            end: last.at + 1,
        },
        line: first.line,
        split: u64::from(last.at) != u64::from(first.at) + rest.len() as u64,
        value,
    })
}

/// Puts the token of a piece behind those found, if the piece is one.
fn keep_token(
    alloc: Global,
    kind: PieceKind,
    bytes: &[u8],
    spots: &[Spot],
    items: &mut Items<Token>,
) -> Result<(), NoMemory>
    requires { All Fits spots.now }
    ensures { OnOk result (items.new ≡ items.old ++ token_of kind bytes.now spots.now) }
{
    match spots {
        [] => Ok(()),
        [first, rest @ ..] => match kind {
            PieceKind::Token(kind) => {
                let token = make_token(alloc, kind, bytes, *first, rest)?;
                items.push(token)?;
                Ok(())
            }
            PieceKind::Blank | PieceKind::Stray | PieceKind::Unclosed => Ok(()),
        },
    }
}

/// Notes the rules that a piece breaks.
fn note_breaches(
    edition: Edition,
    kind: PieceKind,
    bytes: &[u8],
    spots: &[Spot],
    firsts: &mut Firsts,
)
    ensures { firsts.new ≡ least firsts.old (piece_breaches edition kind bytes.now spots.now) }
{
    match spots {
        [] => {}
        [first, ..] => match kind {
            PieceKind::Stray => firsts.note(first.at, FaultKind::BadByte),
            PieceKind::Unclosed => firsts.note(first.at, FaultKind::OpenText),
            PieceKind::Token(TokenKind::Word) => {
                firsts.note_if(
                    bytes.len() > name_limit(edition),
                    first.at,
                    FaultKind::LongName,
                );
            }
            PieceKind::Token(TokenKind::Whole) => {
                firsts.note_if(is_too_big(bytes), first.at, FaultKind::BigNumber);
            }
            PieceKind::Blank | PieceKind::Token(_) => {}
        },
    }
}

/// Puts the tokens of a run, given its bytes and their places, behind those found, and notes the rules that it breaks.
pub(crate) fn read_run(
    alloc: Global,
    edition: Edition,
    bytes: &[u8],
    spots: &[Spot],
    items: &mut Items<Token>,
    firsts: &mut Firsts,
) -> Result<(), NoMemory>
    requires alike { length bytes.now ≡ length spots.now }
    requires fits { All Fits spots.now }
    ensures items { OnOk result (items.new ≡ items.old ++ over_run token_of bytes.now spots.now) }
    ensures firsts { OnOk result (firsts.new ≡ least firsts.old (over_run (piece_breaches edition) bytes.now spots.now)) }
{
    let mut at: usize = 0;
    'pieces: while at < bytes.len() {
        let (kind, size) = front(bytes[at], after(bytes, at + 1));
        let end = at + size;
        keep_token(alloc, kind, &bytes[at..end], &spots[at..end], items)?;
        note_breaches(edition, kind, &bytes[at..end], &spots[at..end], firsts);
        at = end;
    }
    Ok(())
}
