//! Which ranges of whole numbers meet one of an earlier list.

ghost use Rattle.std.specs.Prelude.{◌≡◌, ◌++◌, List, [], map, max, IfOk, OnOk};
ghost use Rattle.std.specs.List.{flat_map, list_any};
ghost use Rattle.std.specs.List.Sorted.{IsNonDecreasingBy, IsPermutation};
ghost use Rattle.const_expr.specs.FirstTold.{itself, sooner};
ghost use Rattle.const_value.specs.declared.intervals.Reach.{Reach};
ghost use Rattle.const_value.specs.steps.Intervals as steps;

use ftn_base::NoMemory;
use std::alloc::Global;

/// Whole numbers from one to another, counted from the least integer on, and a token.
#[derive(Clone, Copy)]
pub(crate) struct Span {
    pub token: u32,
    pub low: u32,
    pub high: u32,
}

/// A lower end, with the greatest upper end of all spans up to it in the order of lower ends.
#[derive(Clone, Copy)]
struct Reach {
    low: u32,
    high: u32,
}

/// Adds the ends of some spans.
fn push_ends(list: &[Span], found: &mut Vec<Reach>) -> Result<(), NoMemory>
    ensures { OnOk result (found.new.items ≡ found.old.items ++ map steps.ends_of list.now) }
{
    for span in list {
        found.push(Reach {
            low: span.low,
            high: span.high,
        })?;
    }
    Ok(())
}

/// The ends of all spans, in the order of lower ends.
fn sorted_ends(alloc: Global, lists: &[Vec<Span>]) -> Result<Vec<Reach>, NoMemory>
    ensures all { IfOk result (λ made. IsPermutation (map steps.ends_of (steps.all_of (map (λ list. list.items) lists.now))) made.items) }
    ensures rising { IfOk result (λ made. IsNonDecreasingBy (λ (r : Reach). r.low) made.items) }
{
    let mut sorted = Vec::new(alloc);
    for list in lists {
        push_ends(list, &mut sorted)?;
    }
    sorted.sort_by_key(|reach| reach.low)?;
    Ok(sorted)
}

/// The greater of two numbers.
fn greater(one: u32, other: u32) -> u32
    ensures { result ≡ max one other }
{
    if one < other { other } else { one }
}

/// Each upper end raised to the greatest one up to it.
fn raised(alloc: Global, sorted: &[Reach]) -> Result<Vec<Reach>, NoMemory>
    ensures { IfOk result (λ made. made.items ≡ steps.raised 0 sorted.now) }
{
    let mut made = Vec::new(alloc);
    let mut most = 0;
    for reach in sorted {
        most = greater(most, reach.high);
        made.push(Reach {
            low: reach.low,
            high: most,
        })?;
    }
    Ok(made)
}

/// Whether the span meets one of those whose ends these are.
fn meets_one(sorted: &[Reach], span: &Span) -> bool
    ensures { (ends : List Reach) → IsNonDecreasingBy (λ (r : Reach). r.low) ends → sorted.now ≡ steps.raised 0 ends → result ≡ list_any (steps.meets_ends span.now) ends }
{
    let high = span.high;
    let count = sorted.partition_point(|reach: &Reach| reach.low <= high);
    count > 0 && span.low <= sorted[count - 1].high
}

/// The token of the span, where it meets one of those.
fn token_if(sorted: &[Reach], span: &Span) -> Option<u32>
    ensures { (ends : List Reach) → IsNonDecreasingBy (λ (r : Reach). r.low) ends → sorted.now ≡ steps.raised 0 ends → result ≡ steps.token_if span.now (list_any (steps.meets_ends span.now) ends) }
{
    if meets_one(sorted, span) {
        Some(span.token)
    } else {
        None
    }
}

/// Of these spans the first by token that meets one of those.
fn first_in(sorted: &[Reach], list: &[Span], first: Option<u32>) -> Option<u32>
    ensures { (ends : List Reach) → IsNonDecreasingBy (λ (r : Reach). r.low) ends → sorted.now ≡ steps.raised 0 ends → result ≡ sooner itself first (steps.least (steps.tokens_by ends list.now)) }
{
    let mut first = first;
    for span in list {
        first = lesser(first, token_if(sorted, span));
    }
    first
}

/// Of the spans in the later lists the first by token that meets one in the earlier lists.
fn first_across(
    alloc: Global,
    earlier: &[Vec<Span>],
    later: &[Vec<Span>],
) -> Result<Option<u32>, NoMemory>
    ensures { IfOk result (λ first. first ≡ steps.least (steps.tokens_meeting (steps.all_of (map (λ list. list.items) earlier.now)) (steps.all_of (map (λ list. list.items) later.now)))) }
{
    let sorted = sorted_ends(alloc, earlier)?;
    let ends = raised(alloc, &sorted)?;
    let mut first = None;
    for list in later {
        first = first_in(&ends, list, first);
    }
    Ok(first)
}

fn lesser(one: Option<u32>, other: Option<u32>) -> Option<u32>
    ensures { result ≡ sooner itself one other }
{
    match one {
        Some(a) => match other {
            Some(b) => Some(if b < a { b } else { a }),
            None => Some(a),
        },
        None => other,
    }
}

/// The least token of a span that meets one of an earlier list. The lists are halved: such a span meets one of its own half, or it is in the
/// second half and meets one in the first.
pub(crate) fn first_meeting(alloc: Global, lists: &[Vec<Span>]) -> Result<Option<u32>, NoMemory>
    ensures { IfOk result (λ first. first ≡ steps.least (steps.met [] (map (λ list. list.items) lists.now))) }
{
    if lists.len() < 2 {
        return Ok(None);
    }
    let half = lists.len() / 2;
    let earlier = &lists[..half];
    let later = &lists[half..];
    let across = first_across(alloc, earlier, later)?;
    let within = first_meeting(alloc, earlier)?;
    let behind = first_meeting(alloc, later)?;
    Ok(lesser(across, lesser(within, behind)))
}
