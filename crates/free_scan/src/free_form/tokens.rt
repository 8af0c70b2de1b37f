//! The tokens of a text.

ghost use Rattle.std.specs.List.{flat_map};
ghost use Rattle.std.specs.Prelude.{◌≡◌, ◌<◌, ◌≤◌, ◌+◌, ◌-◌, ◌^◌, [], None, drop, OnOk, IfOk, IfErr, length};
ghost use Rattle.ftn_base.specs.Limits.{most_file_bytes};
ghost use Rattle.ftn_tree.specs.Breaks.{breaches_from, breaches_of, end_breaches, long_line};
ghost use Rattle.ftn_tree.specs.Lines.{code_lines, line_starts, lines_of};
ghost use Rattle.ftn_tree.specs.Logical.{row_of};
ghost use Rattle.ftn_tree.specs.Reading.{tokens_of};
ghost use Rattle.free_scan.specs.steps.Firsts.{least, IsFirstOf};
ghost use Rattle.free_scan.specs.ScanFaults.{IsScanFault, HasTicked};
ghost use Rattle.free_scan.specs.steps.LinesLeft as left;
ghost use Rattle.free_scan.specs.steps.Scanning as spec;

use crate::free_form::carried::Carried;
use crate::free_form::firsts::Firsts;
use crate::free_form::line::{is_outside, without_return};
use crate::free_form::pieces::after;
use crate::free_form::reader::Reader;
use ftn_base::{Edition, FaultKind, NoMemory, Steps};
use ftn_tree::Tokens;
use std::alloc::Global;

/// Counts the bytes.
fn tick_all<L>(steps: &mut Steps<L>, bytes: usize)
    requires { steps.old + bytes < 2 ^ 64 }
    ensures { steps.new ≡ steps.old + bytes }
{
    for _ in 0..bytes {
        steps.tick();
    }
}

/// How many bytes stand before the next LF.
fn line_size(rest: &[u8]) -> usize
    ensures size { result ≡ left.line_size rest.now }
    ensures fits { result ≤ length rest.now }
{
    rest.iter().take_while(|byte| **byte != b'\n').count()
}

/// The line at the front of the rest of a text, given its size.
fn body_at(rest: &[u8], size: usize) -> &[u8]
    requires { size ≡ left.line_size rest.now }
    ensures body { result.now ≡ left.body_at rest.now }
    ensures fits { length result.now ≤ size }
{
    if size < rest.len() {
        without_return(&rest[..size])
    } else {
        rest
    }
}

/// Reads all lines of a text, one after another.
fn read_all<L>(
    alloc: Global,
    text: &[u8],
    edition: Edition,
    steps: &mut Steps<L>,
) -> Result<Reader, NoMemory>
    requires short { length text.now ≤ most_file_bytes }
    requires room { steps.old + length text.now < 2 ^ 64 }
    ensures row { IfOk result (λ reader. reader.scanner ≡ spec.taken_all (spec.begun edition) (row_of text.now)) }
    ensures code { IfOk result (λ reader. least reader.code (end_breaches reader.before) ≡ least None (breaches_from edition None (code_lines text.now))) }
    ensures long { IfOk result (λ reader. reader.long ≡ least None (flat_map long_line (lines_of text.now))) }
    ensures starts { IfOk result (λ reader. reader.starts ≡ line_starts text.now) }
    ensures within { IfOk result (λ reader. spec.IsWithin (2 ^ 31 - 1) reader.scanner) }
    ensures ticks { OnOk result (steps.new ≡ steps.old + length text.now) }
    ensures at_most { steps.new ≤ steps.old + length text.now }
    ensures at_least { steps.old ≤ steps.new }
{
    let mut reader = Reader::new(alloc, edition);
    let mut at = 0;
    let mut number = 1;
    'lines: while at <= text.len() {
        let rest = after(text, at);
        let size = line_size(rest);
        tick_all(steps, rest.len().min(size + 1));
        reader.read_line(edition, number, at as u32, body_at(rest, size))?;
        at += size + 1;
        number += 1;
    }
    Ok(reader)
}

/// Notes a statement that goes on where no line follows.
fn note_end(code: &mut Firsts, before: &Option<Carried>)
    ensures { code.new ≡ least code.old (end_breaches before.now) }
{
    if let Some(carried) = before {
        code.note_if(
            is_outside(carried.quote),
            carried.mark,
            FaultKind::LoneAmpersand,
        );
    }
}

/// The tokens of a text, and the first rule that it breaks.
fn read_text<L>(
    alloc: Global,
    text: &[u8],
    edition: Edition,
    steps: &mut Steps<L>,
) -> Result<(Tokens, Firsts), NoMemory>
    requires short { length text.now ≤ most_file_bytes }
    requires room { steps.old + length text.now < 2 ^ 64 }
    ensures tokens { IfOk result (λ read. read.0 ≡ tokens_of text.now) }
    ensures firsts { IfOk result (λ read. IsFirstOf read.1 (breaches_of edition text.now)) }
    ensures few { IfOk result (λ read. length read.0.statements < 2 ^ 32) }
    ensures ticks { OnOk result (steps.new ≡ steps.old + length text.now) }
    ensures at_most { steps.new ≤ steps.old + length text.now }
    ensures at_least { steps.old ≤ steps.new }
{
    let Reader {
        mut scanner,
        mut code,
        long,
        before,
        starts,
    } = read_all(alloc, text, edition, steps)?;
    note_end(&mut code, &before);
    scanner.cut()?;
    let parts = scanner.into_parts();
    let firsts = long.merged(code).merged(parts.firsts);
    let tokens = Tokens {
        items: parts.items,
        statements: parts.statements,
        line_starts: starts,
    };
    Ok((tokens, firsts))
}

/// Why a text has no tokens.
#[derive(Clone, Copy)]
pub enum ScanFault {
    /// It breaks a rule of free source form first at this offset, in bytes.
    At {
        /// The rule.
        kind: FaultKind,
        /// The offset.
        at: u32,
    },
    /// Memory was wanting.
    NoMemory,
}

impl From<NoMemory> for ScanFault {
    ghost use Rattle.std.specs.Prelude.{◌≡◌};
    ghost use Rattle.free_scan.specs.declared.free_form.tokens.ScanFault.TheVariants as faults;

    ghost from_gives = { λ _ fault. fault ≡ faults.NoMemory };

    fn from(_: NoMemory) -> ScanFault {
        ScanFault::NoMemory
    }
}

/// The tokens of a text in free source form (3.3), and its statements and lines; or the first place at which the text breaks
/// a rule, and which. Each byte that is read counts one step; a text that has tokens is read whole, and of one that breaks
/// a rule at least the bytes before that place.
pub fn scan<L>(
    alloc: Global,
    text: &[u8],
    edition: Edition,
    steps: &mut Steps<L>,
) -> Result<Tokens, ScanFault>
    requires short { length text.now ≤ most_file_bytes }
    requires room { steps.old + length text.now < 2 ^ 64 }
    ensures tokens { IfOk result (λ tokens. (breaches_of edition text.now ≡ []) × (tokens ≡ tokens_of text.now)) }
    ensures few { IfOk result (λ tokens. length tokens.statements < 2 ^ 32) }
    ensures broken { IfErr result (λ fault. IsScanFault edition text.now fault) }
    ensures ticks { OnOk result (steps.new ≡ steps.old + length text.now) }
    ensures at_most { steps.new ≤ steps.old + length text.now }
    ensures at_least { IfErr result (λ fault. HasTicked steps.old steps.new fault) }
{
    let (tokens, firsts) = read_text(alloc, text, edition, steps)?;
    match firsts.found() {
        None => Ok(tokens),
        Some((at, kind)) => Err(ScanFault::At { kind, at }),
    }
}
