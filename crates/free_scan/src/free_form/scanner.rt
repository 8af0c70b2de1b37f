//! A scan that goes over the bytes of statements.

ghost use Rattle.std.specs.Prelude.{◌≡◌, ◌<◌, ◌≤◌, ◌+◌, ◌-◌, ◌^◌, [], ◌∷◌, ◌++◌, ◌&&◌, ◌==◌, ℕ, if◌then◌else◌, OnOk, IfOk, length};
ghost use Rattle.std.specs.List.{list_any};
ghost use Rattle.ftn_tree.specs.Breaks.{wrong_bytes};
ghost use Rattle.ftn_tree.specs.Code as code;
ghost use Rattle.ftn_tree.specs.Code.{open_after};
ghost use Rattle.ftn_tree.specs.Logical.{glyph, glyphs, gap, cut, is_cut};
ghost use Rattle.free_scan.specs.steps.Firsts.{least};
ghost use Rattle.free_scan.specs.steps.PlainText.{with_row};
ghost use Rattle.free_scan.specs.steps.Scanning as spec;

use crate::free_form::firsts::Firsts;
use crate::free_form::line::{is_outside, is_wrong, quote_after};
use crate::free_form::row::{plain_end, read_row};
use crate::free_form::run::Run;
use ftn_base::{Edition, FaultKind, NoMemory, Range};
use ftn_tree::{Spot, Token};
use sqlite_items::Items;
use std::alloc::Global;
use std::marker::Model;

/// What a scan found so far. Contracts see it but for the allocator.
#[derive(Drop)]
pub(crate) struct Scanner {
    alloc: Global,
    edition: Edition,
    items: Items<Token>,
    statements: Items<Range>,
    first: u32,
    run: Run,
    firsts: Firsts,
}

impl Model for Scanner {
    ghost use Rattle.free_scan.specs.steps.Scanning as spec;

    ghost Value = { spec.State };

    ghost view = { λ a. record {
      edition = a.edition;
      items = a.items;
      statements = a.statements;
      first = a.first;
      bytes = a.run.0;
      spots = a.run.1;
      firsts = a.firsts;
    } };
}

/// Whether the byte ends a statement: a `;` outside constants (3.3.1.4).
fn ends_statement(quote: Option<u8>, byte: u8) -> bool
    ensures { result ≡ (code.is_outside quote && byte == 59) }
{
    is_outside(quote) && byte == b';'
}

/// What a scan found.
#[derive(Drop)]
pub(crate) struct Parts {
    /// The tokens.
    pub(crate) items: Items<Token>,
    /// The numbers of the tokens of each statement.
    pub(crate) statements: Items<Range>,
    /// The first rule that a piece breaks.
    pub(crate) firsts: Firsts,
}

/// What holds after bytes of a line.
#[derive(Drop)]
pub(crate) struct TextEnd {
    /// The quote that is open.
    pub(crate) quote: Option<u8>,
    /// Whether a statement ends among the bytes.
    pub(crate) is_cut: bool,
}

impl Scanner {
    /// Before the text.
    pub(crate) fn new(alloc: Global, edition: Edition) -> Scanner
        ensures { result ≡ spec.begun edition }
    {
        Scanner {
            alloc,
            edition,
            items: Items::new(alloc),
            statements: Items::new(alloc),
            first: 0,
            run: Run::new(alloc),
            firsts: Firsts::new(),
        }
    }

    /// Takes a byte of the run.
    fn push(&mut self, byte: u8, spot: Spot) -> Result<(), NoMemory>
        requires { spot.at + 1 < 2 ^ 32 }
        ensures { OnOk result (self.new ≡ spec.pushed byte spot self.old) }
    {
        self.run.push(byte, spot.at, spot.line)
    }

    /// Reads the run, where no token goes on.
    fn flush(&mut self) -> Result<(), NoMemory>
        ensures { OnOk result (self.new ≡ spec.flushed self.old) }
    {
        self.run.read(self.alloc, self.edition, &mut self.items, &mut self.firsts)?;
        self.run.clear();
        Ok(())
    }

    /// The statement is over.
    fn end_statement(&mut self) -> Result<(), NoMemory>
        requires { length self.old.items < 2 ^ 32 }
        ensures { OnOk result (self.new ≡ spec.ended self.old) }
    {
        let end = self.items.len() as u32;
        if self.first < end {
            self.statements.push(Range {
                start: self.first,
                end,
            })?;
        }
        self.first = end;
        Ok(())
    }

    /// Reads the run, and the statement is over.
    pub(crate) fn cut(&mut self) -> Result<(), NoMemory>
        requires { spec.IsWithin (2 ^ 31 - 1) self.old }
        ensures { OnOk result (self.new ≡ spec.finished self.old) }
    {
        self.flush()?;
        self.end_statement()
    }

    /// A line begins, over whose start no token goes if it is so.
    #[tactic(auto, using(crate::proofs::ScanLaws::within_flushed))]
    pub(crate) fn begin_line(&mut self, is_gap: bool) -> Result<(), NoMemory>
        ensures state { OnOk result (self.new ≡ spec.taken_all self.old (if is_gap then gap ∷ [] else [])) }
        ensures within { OnOk result ((n : ℕ) → spec.IsWithin n self.old → spec.IsWithin n self.new) }
    {
        if is_gap {
            self.flush()?;
        }
        Ok(())
    }

    /// A line ends, and its statement with it if it is so.
    #[tactic(auto, using(crate::proofs::ScanLaws::within_finished))]
    fn end_line(&mut self, goes_on: bool) -> Result<(), NoMemory>
        requires { spec.IsWithin (2 ^ 31 - 1) self.old }
        ensures state { OnOk result (self.new ≡ spec.taken_all self.old (if goes_on then [] else cut ∷ [])) }
        ensures within { OnOk result ((n : ℕ) → spec.IsWithin n self.old → spec.IsWithin n self.new) }
    {
        if !goes_on {
            self.cut()?;
        }
        Ok(())
    }

    /// Takes a byte of a line, where that quote is open.
    fn take(&mut self, quote: Option<u8>, spot: Spot, byte: u8) -> Result<(), NoMemory>
        requires few { spec.IsWithin (2 ^ 31 - 1) self.old }
        requires near { spot.at + 1 < 2 ^ 32 }
        ensures { OnOk result (self.new ≡ spec.taken self.old (glyph quote spot byte)) }
    {
        if ends_statement(quote, byte) {
            self.cut()
        } else if is_outside(quote) && is_wrong(quote, byte) {
            self.push(b' ', spot)
        } else {
            self.push(byte, spot)
        }
    }

    /// Takes bytes of a line, which begin at that offset, where that quote is open, and notes those that may not stand there.
    fn take_text(
        &mut self,
        quote: Option<u8>,
        line: u32,
        at: u32,
        bytes: &[u8],
        code: &mut Firsts,
    ) -> Result<TextEnd, NoMemory>
        requires few { at + length bytes.now < 2 ^ 31 }
        requires within { spec.IsWithin at self.old }
        ensures state { OnOk result (self.new ≡ spec.taken_all self.old (glyphs quote line at bytes.now)) }
        ensures within { OnOk result (spec.IsWithin (at + length bytes.now) self.new) }
        ensures code { OnOk result (code.new ≡ least code.old (wrong_bytes quote at bytes.now)) }
        ensures end { IfOk result (λ end. (end.quote ≡ open_after quote bytes.now) × (end.is_cut ≡ list_any is_cut (glyphs quote line at bytes.now))) }
    {
        let mut open = quote;
        let mut is_cut = false;
        let mut next = at;
        for byte in bytes {
            let spot = Spot { at: next, line };
            code.note_if(is_wrong(open, *byte), next, FaultKind::BadByte);
            self.take(open, spot, *byte)?;
            is_cut |= ends_statement(open, *byte);
            open = quote_after(open, *byte);
            next += 1;
        }
        Ok(TextEnd {
            quote: open,
            is_cut,
        })
    }

    /// Reads bytes of a line that stand for themselves and adjoin from that offset on, where no run is left and no token goes on.
    fn flush_row(&mut self, line: u32, at: u32, bytes: &[u8]) -> Result<(), NoMemory>
        requires few { at + length bytes.now < 2 ^ 31 }
        requires no_bytes { self.old.bytes ≡ [] }
        requires no_spots { self.old.spots ≡ [] }
        ensures { OnOk result (self.new ≡ spec.flushed (with_row line at bytes.now self.old)) }
    {
        let found = &mut self.items;
        read_row(
            self.alloc,
            self.edition,
            bytes,
            line,
            at,
            found,
            &mut self.firsts,
        )
    }

    /// Reads bytes of a line that stand for themselves and adjoin from that offset on, where no run is left; their statement is
    /// over.
    fn cut_row(&mut self, line: u32, at: u32, bytes: &[u8]) -> Result<(), NoMemory>
        requires few { at + length bytes.now < 2 ^ 31 }
        requires within { spec.IsWithin at self.old }
        requires no_bytes { self.old.bytes ≡ [] }
        requires no_spots { self.old.spots ≡ [] }
        ensures { OnOk result (self.new ≡ spec.finished (with_row line at bytes.now self.old)) }
    {
        self.flush_row(line, at, bytes)?;
        self.end_statement()
    }

    /// Takes bytes of a line, which begin at that offset, where that quote is open, notes those that may not stand there, and
    /// ends the line.
    pub(crate) fn take_line(
        &mut self,
        quote: Option<u8>,
        line: u32,
        at: u32,
        bytes: &[u8],
        goes_on: bool,
        code: &mut Firsts,
    ) -> Result<TextEnd, NoMemory>
        requires few { at + length bytes.now < 2 ^ 31 }
        requires within { spec.IsWithin at self.old }
        ensures state { OnOk result (self.new ≡ spec.taken_all (spec.taken_all self.old (glyphs quote line at bytes.now)) (if goes_on then [] else cut ∷ [])) }
        ensures within { OnOk result (spec.IsWithin (at + length bytes.now) self.new) }
        ensures code { OnOk result (code.new ≡ least code.old (wrong_bytes quote at bytes.now)) }
        ensures end { IfOk result (λ end. (end.quote ≡ open_after quote bytes.now) × (end.is_cut ≡ list_any is_cut (glyphs quote line at bytes.now))) }
    {
        if !goes_on && self.run.is_empty() {
            if let Some(open) = plain_end(quote, bytes) {
                self.cut_row(line, at, bytes)?;
                return Ok(TextEnd {
                    quote: open,
                    is_cut: false,
                });
            }
        }
        let end = self.take_text(quote, line, at, bytes, code)?;
        self.end_line(goes_on)?;
        Ok(end)
    }

    /// What was found: the tokens, the statements, and the first breach in pieces.
    pub(crate) fn into_parts(self) -> Parts
        ensures items { result.items ≡ self.items }
        ensures statements { result.statements ≡ self.statements }
        ensures firsts { result.firsts ≡ self.firsts }
    {
        let Scanner {
            items,
            statements,
            firsts,
            ..
        } = self;
        Parts {
            items,
            statements,
            firsts,
        }
    }
}
