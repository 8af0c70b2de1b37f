//! Reading the lines of a text one after another.

ghost use Rattle.std.specs.Prelude.{◌≡◌, ◌<◌, ◌≤◌, ◌+◌, ◌^◌, if◌then◌else◌, List, [], ◌∷◌, ◌++◌, Some, None, OnOk, IfOk, IfSome, length};
ghost use Rattle.ftn_tree.specs.Breaks.{line_breaches, long_line};
ghost use Rattle.ftn_tree.specs.Lines.{Line};
ghost use Rattle.ftn_tree.specs.Logical.{after_line, line_glyphs};
ghost use Rattle.free_scan.specs.steps.Firsts.{least};
ghost use Rattle.free_scan.specs.steps.LinesLeft as left;
ghost use Rattle.free_scan.specs.steps.Scanning as spec;

use crate::free_form::carried::{Carried, count_at, is_gap, open_at, said, skipped, stands_alone};
use crate::free_form::firsts::Firsts;
use crate::free_form::line::{before_mark, goes_on, indent, is_comment};
use crate::free_form::scanner::{Scanner, TextEnd};
use ftn_base::{Edition, FaultKind, LINE_LIMIT, NoMemory, continuation_limit};
use sqlite_items::Items;
use std::alloc::Global;

/// What a line carries over to the next one, if it goes on.
fn carried_if(goes_on: bool, end: TextEnd, count: u32, mark: u32) -> Option<Carried>
    ensures { result ≡ (if goes_on then Some (record { within = end.quote; count = if end.is_cut then 0 else count; mark = mark }) else None) }
{
    if goes_on {
        Some(Carried {
            quote: end.quote,
            count: if end.is_cut { 0 } else { count },
            mark,
        })
    } else {
        None
    }
}

/// Reads a line that is no comment, where those before it carry that over.
fn read_code(
    scanner: &mut Scanner,
    code: &mut Firsts,
    before: Option<Carried>,
    edition: Edition,
    number: u32,
    at: u32,
    body: &[u8],
) -> Result<Option<Carried>, NoMemory>
    requires few { at + length body.now < 2 ^ 31 }
    requires counted { IfSome before (λ carried. carried.count ≤ at) }
    requires within { spec.IsWithin at scanner.old }
    ensures state { OnOk result (scanner.new ≡ spec.taken_all scanner.old (line_glyphs before (record { number = number; at = at; body = body.now }))) }
    ensures within { OnOk result (spec.IsWithin (at + length body.now) scanner.new) }
    ensures code { OnOk result (code.new ≡ least code.old (line_breaches edition before (record { number = number; at = at; body = body.now }))) }
    ensures carried { IfOk result (λ carried. carried ≡ after_line before (record { number = number; at = at; body = body.now })) }
{
    let is_gap = is_gap(&before, body);
    scanner.begin_line(is_gap)?;
    let count = count_at(&before);
    let start = at + skipped(&before, body) as u32;
    let whole = said(&before, body);
    let text = before_mark(whole);
    code.note_if(
        count == continuation_limit(edition) + 1,
        at,
        FaultKind::ManyContinuations,
    );
    code.note_if(
        stands_alone(&before, body),
        at + indent(body) as u32,
        FaultKind::LoneAmpersand,
    );
    let quote = open_at(&before, body);
    let goes_on = goes_on(whole);
    let end = scanner.take_line(quote, number, start, text, goes_on, code)?;
    Ok(carried_if(goes_on, end, count, start + text.len() as u32))
}

/// What was read of a text.
#[derive(Drop)]
pub(crate) struct Reader {
    /// What was found in statements.
    pub(crate) scanner: Scanner,
    /// The first rule that a line of code breaks.
    pub(crate) code: Firsts,
    /// The first line that is too long.
    pub(crate) long: Firsts,
    /// What the last line of code carries over.
    pub(crate) before: Option<Carried>,
    /// Where lines begin.
    pub(crate) starts: Items<u32>,
}

impl Reader {
    /// Before the text.
    pub(crate) fn new(alloc: Global, edition: Edition) -> Reader
        ensures scanner { result.scanner ≡ spec.begun edition }
        ensures code { result.code ≡ None }
        ensures long { result.long ≡ None }
        ensures before { result.before ≡ None }
        ensures starts { result.starts ≡ [] }
    {
        Reader {
            scanner: Scanner::new(alloc, edition),
            code: Firsts::new(),
            long: Firsts::new(),
            before: None,
            starts: Items::new(alloc),
        }
    }

    /// Reads a line.
    pub(crate) fn read_line(
        &mut self,
        edition: Edition,
        number: u32,
        at: u32,
        body: &[u8],
    ) -> Result<(), NoMemory>
        requires few { at + length body.now < 2 ^ 31 }
        requires counted { IfSome self.old.before (λ carried. carried.count ≤ at) }
        requires within { spec.IsWithin at self.old.scanner }
        ensures row { OnOk result ((rest : List Line) → left.row_left self.new.scanner self.new.before rest ≡ left.row_left self.old.scanner self.old.before (record { number = number; at = at; body = body.now } ∷ rest)) }
        ensures code { OnOk result ((rest : List Line) → left.code_left edition self.new.code self.new.before rest ≡ left.code_left edition self.old.code self.old.before (record { number = number; at = at; body = body.now } ∷ rest)) }
        ensures long { OnOk result (self.new.long ≡ least self.old.long (long_line (record { number = number; at = at; body = body.now }))) }
        ensures counted { OnOk result (IfSome self.new.before (λ carried. carried.count ≤ at + 1)) }
        ensures within { OnOk result (spec.IsWithin (at + length body.now) self.new.scanner) }
        ensures starts { OnOk result (self.new.starts ≡ self.old.starts ++ at ∷ []) }
    {
        self.starts.push(at)?;
        self.long.note_if(
            body.len() > LINE_LIMIT,
            at + LINE_LIMIT as u32,
            FaultKind::LongLine,
        );
        if !is_comment(body) {
            let before = self.before.take();
            self.before = read_code(
                &mut self.scanner,
                &mut self.code,
                before,
                edition,
                number,
                at,
                body,
            )?;
        }
        Ok(())
    }
}
