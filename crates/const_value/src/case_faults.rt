//! Values in two CASE lists of one SELECT CASE construct (Fortran 90, 8.1.3.1).

ghost use Rattle.std.specs.Prelude.{◌≡◌, ◌++◌, [], map, IfOk, OnOk};
ghost use Rattle.std.specs.List.{cons_option, flat_map};
ghost use Rattle.ftn_tree.specs.declared.unit.Arm.{out-Arm};
ghost use Rattle.ftn_base.specs.declared.fault.FaultKind.TheVariants.{Conflicting};
ghost use Rattle.ftn_tree.specs.Cases as spec;
ghost use Rattle.ftn_tree.specs.DeclarationFaults.{found};
ghost use Rattle.ftn_tree.specs.GlobalNames.{place};
ghost use Rattle.std.specs.Option.{option_map};
ghost use Rattle.ftn_tree.specs.Extents.{layer_at};
ghost use Rattle.const_value.specs.steps.Cases as steps;
ghost use Rattle.const_value.specs.steps.Findings.{earlier, gathered};
ghost use Rattle.const_value.specs.steps.Measuring.{given};
ghost use Rattle.const_value.specs.steps.Told.{first_seen};

use crate::faults::Faults;
use crate::intervals::{Span, first_meeting};
use crate::measuring::whole_in;
use crate::view::View;
use decl_table::forms::form_at;
use ftn_base::{FaultKind, NoMemory};
use ftn_tree::{Arm, Block, CaseRange, Expr, FileTree, Form, Unit};
use std::alloc::Global;

/// How far a number is from the least integer.
fn lifted(z: i32) -> u32
    ensures { result ≡ steps.lifted z }
{
    (i64::from(z) + 2147483648) as u32
}

/// From one number to another.
fn span_if(token: u32, low: Option<i32>, high: Option<i32>) -> Option<Span>
    ensures { steps.AreKept (spec.span_if token low high) (cons_option result []) }
{
    match low {
        Some(low) => match high {
            Some(high) => {
                if high < low {
                    None
                } else {
                    Some(Span {
                        token,
                        low: lifted(low),
                        high: lifted(high),
                    })
                }
            }
            None => None,
        },
        None => None,
    }
}

/// From that number on.
fn span_from(token: u32, low: Option<i32>) -> Option<Span>
    ensures { steps.AreKept (spec.from_low token low) (cons_option result []) }
{
    match low {
        Some(low) => Some(Span {
            token,
            low: lifted(low),
            high: 4294967295,
        }),
        None => None,
    }
}

/// Up to that number.
fn span_to(token: u32, high: Option<i32>) -> Option<Span>
    ensures { steps.AreKept (spec.to_high token high) (cons_option result []) }
{
    match high {
        Some(high) => Some(Span {
            token,
            low: 0,
            high: lifted(high),
        }),
        None => None,
    }
}

/// The range where its ends are integers and it isn't empty. One without a lower end begins at its colon.
fn span_of(alloc: Global, view: &View<'_>, range: &CaseRange) -> Result<Option<Span>, NoMemory>
    ensures { IfOk result (λ span. steps.AreKept (steps.spans_of (given view.now) range.now) (cons_option span [])) }
{
    match range {
        CaseRange::One(expr) => {
            let value = whole_in(alloc, view, expr)?;
            Ok(span_if(expr.first_token(), value, value))
        }
        CaseRange::From(low) => {
            let value = whole_in(alloc, view, low)?;
            Ok(span_from(low.first_token(), value))
        }
        CaseRange::To(high) => {
            let value = whole_in(alloc, view, high)?;
            Ok(span_to(high.first_token().saturating_sub(1), value))
        }
        CaseRange::Between { low, high } => {
            let from = whole_in(alloc, view, low)?;
            let to = whole_in(alloc, view, high)?;
            Ok(span_if(low.first_token(), from, to))
        }
    }
}

/// Adds it where there is one.
fn push_if(span: Option<Span>, spans: &mut Vec<Span>) -> Result<(), NoMemory>
    ensures { OnOk result (spans.new.items ≡ spans.old.items ++ cons_option span []) }
{
    if let Some(span) = span {
        spans.push(span)?;
    }
    Ok(())
}

fn spans_of(alloc: Global, view: &View<'_>, ranges: &[CaseRange]) -> Result<Vec<Span>, NoMemory>
    ensures { IfOk result (λ spans. steps.AreKept (flat_map (steps.spans_of (given view.now)) ranges.now) spans.items) }
{
    let mut spans = Vec::new(alloc);
    for range in ranges {
        let span = span_of(alloc, view, range)?;
        push_if(span, &mut spans)?;
    }
    Ok(spans)
}

fn spans_at(alloc: Global, view: &View<'_>, head: u32) -> Result<Vec<Span>, NoMemory>
    ensures { IfOk result (λ spans. steps.AreKept (steps.spans_at (given view.now) (layer_at view.now.project.now.files.now view.now.file head)) spans.items) }
{
    match form_at(view.project.files, view.file, head) {
        Some(
            Form::Case {
                ranges: Some(ranges),
            },
        ) => spans_of(alloc, view, ranges.as_slice()),
        _ => Ok(Vec::new(alloc)),
    }
}

/// The ranges of each arm.
fn lists_of(alloc: Global, view: &View<'_>, arms: &[Arm]) -> Result<Vec<Vec<Span>>, NoMemory>
    ensures { IfOk result (λ lists. steps.ListsAreKept (map (λ arm. steps.spans_at (given view.now) (layer_at view.now.project.now.files.now view.now.file (out-Arm arm).head)) arms.now) (map (λ list. list.items) lists.items)) }
{
    let mut lists = Vec::new(alloc);
    for arm in arms {
        let spans = spans_at(alloc, view, arm.head)?;
        lists.push(spans)?;
    }
    Ok(lists)
}

fn is_select(files: &[FileTree], file: u32, opening: u32) -> bool
    ensures { result ≡ spec.is_select_at (layer_at files.now file opening) }
{
    matches!(form_at(files, file, opening), Some(Form::Select { .. }))
}

/// Adds that the range at a token meets one of an earlier list.
fn note_meeting(token: Option<u32>, file: u32, faults: &mut Faults)
    ensures { first_seen faults.new ≡ earlier (first_seen faults.old) (option_map (λ at. found Conflicting (place file at)) token) }
{
    if let Some(token) = token {
        faults.note(FaultKind::Conflicting, file, token);
    }
}

/// Adds the faults of a construct, where it is a SELECT CASE.
fn construct_faults(
    alloc: Global,
    view: &View<'_>,
    opening: u32,
    arms: &[Arm],
    faults: &mut Faults,
) -> Result<(), NoMemory>
    ensures { OnOk result (first_seen faults.new ≡ gathered (first_seen faults.old) (steps.construct_told (given view.now) view.now.project.now.files.now view.now.file (record { opening = opening; heads = map (λ arm. (out-Arm arm).head) arms.now }))) }
{
    if !is_select(view.project.files, view.file, opening) {
        return Ok(());
    }
    let lists = lists_of(alloc, view, arms)?;
    let token = first_meeting(alloc, &lists)?;
    note_meeting(token, view.file, faults);
    Ok(())
}

#[cycle(blocks)]
fn blocks_faults(
    alloc: Global,
    view: &View<'_>,
    blocks: &[Block],
    faults: &mut Faults,
) -> Result<(), NoMemory>
    ensures { OnOk result (first_seen faults.new ≡ gathered (first_seen faults.old) (flat_map (steps.construct_told (given view.now) view.now.project.now.files.now view.now.file) (flat_map spec.constructs_in blocks.now))) }
{
    for block in blocks {
        block_faults(alloc, view, block, faults)?;
    }
    Ok(())
}

#[cycle(blocks)]
fn arms_faults(
    alloc: Global,
    view: &View<'_>,
    arms: &[Arm],
    faults: &mut Faults,
) -> Result<(), NoMemory>
    ensures { OnOk result (first_seen faults.new ≡ gathered (first_seen faults.old) (flat_map (steps.construct_told (given view.now) view.now.project.now.files.now view.now.file) (flat_map (λ arm. flat_map spec.constructs_in (out-Arm arm).body) arms.now))) }
{
    for arm in arms {
        blocks_faults(alloc, view, arm.body.as_slice(), faults)?;
    }
    Ok(())
}

#[cycle(blocks)]
fn block_faults(
    alloc: Global,
    view: &View<'_>,
    block: &Block,
    faults: &mut Faults,
) -> Result<(), NoMemory>
    ensures { OnOk result (first_seen faults.new ≡ gathered (first_seen faults.old) (flat_map (steps.construct_told (given view.now) view.now.project.now.files.now view.now.file) (spec.constructs_in block.now))) }
{
    match block {
        Block::Plain(_) => Ok(()),
        Block::Nest { opening, arms, .. } => {
            construct_faults(alloc, view, *opening, arms.as_slice(), faults)?;
            arms_faults(alloc, view, arms.as_slice(), faults)?;
            Ok(())
        }
    }
}

/// Adds the faults of the constructs of a unit and of those inside it.
pub(crate) fn unit_faults(
    alloc: Global,
    view: &View<'_>,
    unit: &Unit,
    faults: &mut Faults,
) -> Result<(), NoMemory>
    ensures { OnOk result (first_seen faults.new ≡ gathered (first_seen faults.old) (flat_map (steps.construct_told (given view.now) view.now.project.now.files.now view.now.file) (spec.constructs_of unit.now))) }
{
    blocks_faults(alloc, view, unit.body.as_slice(), faults)?;
    for inner in unit.inner.as_slice() {
        unit_faults(alloc, view, inner, faults)?;
    }
    Ok(())
}
