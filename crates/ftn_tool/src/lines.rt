//! The lines that commands write, each with its LF.

ghost use Rattle.std.specs.List.{All};
ghost use Rattle.std.specs.Option.{option_map};
ghost use Rattle.std.specs.Prelude.{◌≡◌, ◌+◌, ◌++◌, ◌<◌, ◌^◌, length, codes, IfOk};
ghost use Rattle.std.specs.Fmt.{decimal};
ghost use Rattle.ftn_base.specs.Places as places;
ghost use Rattle.ftn_tool.specs.Lines as spec;
ghost use Rattle.ftn_tool.specs.Recovering.{due_line};
ghost use Rattle.ftn_tool.specs.steps.Fronts.{IsSmall};

use crate::verdict::{Point, Verdict};
use ftn_base::{Bytes, Fault, FileName, Limit, NoMemory, Span, line_and_column};
use plan_store::Found;
use rename_ref::Cond;
use std::alloc::Global;

/// What is written where a project isn't in first form.
const NOT_BUILT: &[u8] = b"fault NotBuilt -\n";

/// What is written where the store failed.
pub const STORE_FAULT: &[u8] = b"store fault\n";

/// What is written where a plan file waits for recovery.
pub const PENDING: &[u8] = b"pending\n";

/// What is written where there is nothing to recover.
const NOTHING: &[u8] = b"nothing to recover\n";

/// What is written where a plan file is too long.
const PLAN_LIMIT: &[u8] = b"limit plan\n";

/// What is written where the project passes a limit.
pub fn limit_line(which: Limit) -> &'static [u8]
    ensures { result.now ≡ spec.limit_line which }
{
    match which {
        Limit::Files => b"limit files\n",
        Limit::File => b"limit file\n",
        Limit::Project => b"limit project\n",
    }
}

/// What is written where words are no command.
pub fn bad_word(alloc: Global, position: u32) -> Result<Vec<u8>, NoMemory>
    ensures { IfOk result (λ made. made.items ≡ spec.bad_word_line position) }
{
    let number = position.to_string(alloc)?;
    let mut made = Vec::from_slice(alloc, b"bad word ")?;
    made.extend_from_slice(number.as_bytes())?;
    made.extend_from_slice(b"\n")?;
    Ok(made)
}

/// What is written with this verdict on these files.
pub fn verdict_line(
    alloc: Global,
    files: &[(FileName, Bytes)],
    verdict: &Verdict,
) -> Result<Bytes, NoMemory>
    requires { All IsSmall files.now }
    ensures { IfOk result (λ made. made ≡ spec.line_of files.now verdict.now) }
{
    match verdict {
        Verdict::Waiting => Ok(Bytes::from_slice(alloc, PENDING)?),
        Verdict::Past(which) => Ok(Bytes::from_slice(alloc, limit_line(*which))?),
        Verdict::Broken(fault) => fault_line(alloc, files, fault),
        Verdict::NotBuilt => Ok(Bytes::from_slice(alloc, NOT_BUILT)?),
        Verdict::Refused { cond, at } => refused_line(alloc, files, *cond, *at),
        Verdict::Checked { files, units } => ok_line(alloc, *files, *units),
        Verdict::Changed { .. } => applying_line(alloc, 1),
    }
}

/// What is written with what is found of a plan file.
pub fn found_line(alloc: Global, found: &Found) -> Result<Bytes, NoMemory>
    ensures { IfOk result (λ made. made ≡ due_line found.now) }
{
    match found {
        Found::Nothing => Ok(Bytes::from_slice(alloc, NOTHING)?),
        Found::TooLong => Ok(Bytes::from_slice(alloc, PLAN_LIMIT)?),
        Found::Broken(at) => no_plan_line(alloc, *at),
        Found::Planned(plan) => recovering_line(alloc, plan.files.len()),
    }
}

/// What is written where a plan file's bytes are no plan's text, by the offset of the first field that is broken or cut.
fn no_plan_line(alloc: Global, at: u32) -> Result<Bytes, NoMemory>
    ensures { IfOk result (λ made. made ≡ spec.no_plan_line at) }
{
    let at = at.to_string(alloc)?;
    let mut made = Vec::from_slice(alloc, b"fault NotAPlan ftn.plan:")?;
    made.extend_from_slice(at.as_bytes())?;
    made.extend_from_slice(b"\n")?;
    Ok(Bytes::from_vec(made))
}

/// What is written before a recovery of so many files.
fn recovering_line(alloc: Global, files: usize) -> Result<Bytes, NoMemory>
    ensures { IfOk result (λ made. made ≡ spec.recovering_line files) }
{
    let files = files.to_string(alloc)?;
    let mut made = Vec::from_slice(alloc, b"recovering ")?;
    made.extend_from_slice(files.as_bytes())?;
    made.extend_from_slice(b" files\n")?;
    Ok(Bytes::from_vec(made))
}

/// What is written where a condition fails.
fn refused_line(
    alloc: Global,
    files: &[(FileName, Bytes)],
    cond: Cond,
    at: Option<Point>,
) -> Result<Bytes, NoMemory>
    requires { All IsSmall files.now }
    ensures { IfOk result (λ made. made ≡ spec.refused_line files.now cond at) }
{
    let place = place_text(alloc, files, at)?;
    let mut made = Vec::from_slice(alloc, b"refused ")?;
    made.extend_from_slice(cond.name().as_bytes())?;
    made.extend_from_slice(b" ")?;
    made.extend_from_slice(&place)?;
    made.extend_from_slice(b"\n")?;
    Ok(Bytes::from_vec(made))
}

/// What is written where the project has a fault.
fn fault_line(alloc: Global, files: &[(FileName, Bytes)], fault: &Fault) -> Result<Bytes, NoMemory>
    requires { All IsSmall files.now }
    ensures { IfOk result (λ made. made ≡ spec.fault_line files.now fault.now) }
{
    let place = place_text(alloc, files, start_of(fault.span))?;
    let mut made = Vec::from_slice(alloc, b"fault ")?;
    made.extend_from_slice(fault.kind.name().as_bytes())?;
    made.extend_from_slice(b" ")?;
    made.extend_from_slice(&place)?;
    made.extend_from_slice(b"\n")?;
    Ok(Bytes::from_vec(made))
}

/// What is written before a change of so many files.
fn applying_line(alloc: Global, files: u32) -> Result<Bytes, NoMemory>
    ensures { IfOk result (λ made. made ≡ spec.applying_line files) }
{
    let files = files.to_string(alloc)?;
    let mut made = Vec::from_slice(alloc, b"applying ")?;
    made.extend_from_slice(files.as_bytes())?;
    made.extend_from_slice(b" files\n")?;
    Ok(Bytes::from_vec(made))
}

/// What is written where a project has no fault.
fn ok_line(alloc: Global, files: u32, units: u32) -> Result<Bytes, NoMemory>
    ensures { IfOk result (λ made. made ≡ spec.ok_line files units) }
{
    let files = files.to_string(alloc)?;
    let units = units.to_string(alloc)?;
    let mut made = Vec::from_slice(alloc, b"ok ")?;
    made.extend_from_slice(files.as_bytes())?;
    made.extend_from_slice(b" files, ")?;
    made.extend_from_slice(units.as_bytes())?;
    made.extend_from_slice(b" units\n")?;
    Ok(Bytes::from_vec(made))
}

/// The first byte of a range.
fn start_of(span: Option<Span>) -> Option<Point>
    ensures { result ≡ option_map spec.start_of span }
{
    match span {
        None => None,
        Some(span) => Some(Point {
            file: span.file,
            at: span.range.start,
        }),
    }
}

/// `FILE:LINE:COLUMN`, or `-` without a place.
fn place_text(
    alloc: Global,
    files: &[(FileName, Bytes)],
    point: Option<Point>,
) -> Result<Vec<u8>, NoMemory>
    requires { All IsSmall files.now }
    ensures { IfOk result (λ made. made.items ≡ spec.place_text files.now point) }
{
    match point {
        None => Ok(Vec::from_slice(alloc, b"-")?),
        Some(point) => point_text(alloc, files, point),
    }
}

fn point_text(alloc: Global, files: &[(FileName, Bytes)], point: Point) -> Result<Vec<u8>, NoMemory>
    requires { All IsSmall files.now }
    ensures { IfOk result (λ made. made.items ≡ spec.point_text files.now point) }
{
    match files.get(point.file as usize) {
        None => Ok(Vec::from_slice(alloc, b"-")?),
        Some(file) => {
            let (line, column) = place_of(file.1.bytes(), point.at as usize);
            numbered(alloc, &file.0, line, column)
        }
    }
}

fn place_of(text: &[u8], at: usize) -> (u32, u32)
    requires { length text.now + 2 < 2 ^ 32 }
    ensures { result ≡ places.place_of text.now at }
{
    if at <= text.len() {
        line_and_column(text, at)
    } else {
        line_and_column(text, text.len())
    }
}

fn numbered(alloc: Global, name: &FileName, line: u32, column: u32) -> Result<Vec<u8>, NoMemory>
    ensures { IfOk result (λ made. made.items ≡ name.now ++ codes ":" ++ decimal line ++ codes ":" ++ decimal column) }
{
    let line = line.to_string(alloc)?;
    let column = column.to_string(alloc)?;
    let mut made = Vec::from_slice(alloc, name.bytes())?;
    made.extend_from_slice(b":")?;
    made.extend_from_slice(line.as_bytes())?;
    made.extend_from_slice(b":")?;
    made.extend_from_slice(column.as_bytes())?;
    Ok(made)
}
