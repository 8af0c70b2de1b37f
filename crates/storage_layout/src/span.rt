//! Objects as spans of units of their classes.

ghost use Rattle.std.specs.Prelude.{◌≡◌, ◌+◌, ◌<◌, ◌≤◌, ℕ, length, IfOk};
ghost use Rattle.std.specs.List.Sorted.{IsNonDecreasingBy};
ghost use Rattle.storage_layout.specs.steps.Spans.{IsSpanOf, AreSpans};

use equiv_class::Classes;
use ftn_base::{NoMemory, Object, Sort};
use std::alloc::Global;

/// The units of its class that an object takes.
#[derive(Clone, Copy)]
pub(crate) struct Span {
    /// The class.
    pub(crate) class: u32,
    /// The sort of the object.
    pub(crate) sort: Sort,
    /// The group that the object belongs to.
    pub(crate) group: u32,
    /// The unit at which it begins.
    pub(crate) start: u32,
    /// The unit at which it ends.
    pub(crate) end: u64,
}

// where an object ends
fn end_of(start: u32, units: u32) -> u64
    ensures { result ≡ start + units }
{
    u64::from(start) + u64::from(units)
}

// the span of an object
fn span_of(objects: &[Object], found: &Classes, group: &[u32], number: usize) -> Span
    requires there { number < length objects.now }
    requires classes { length objects.now ≤ length found.now.class.items }
    requires offsets { length objects.now ≤ length found.now.offset.items }
    requires groups { length objects.now ≤ length group.now }
    ensures { IsSpanOf objects.now found.now.class.items found.now.offset.items group.now number result }
{
    let object = objects[number];
    let start = found.offset[number];
    Span {
        class: found.class[number],
        sort: object.sort,
        group: group[number],
        start,
        end: end_of(start, object.units),
    }
}

// the spans of all objects
fn spans_of(
    alloc: Global,
    objects: &[Object],
    found: &Classes,
    group: &[u32],
) -> Result<Vec<Span>, NoMemory>
    requires classes { length objects.now ≤ length found.now.class.items }
    requires offsets { length objects.now ≤ length found.now.offset.items }
    requires groups { length objects.now ≤ length group.now }
    ensures { IfOk result (λ made. AreSpans objects.now found.now.class.items found.now.offset.items group.now (length objects.now) made.items) }
{
    let mut spans = Vec::new(alloc);
    for number in 0..objects.len() {
        spans.push(span_of(objects, found, group, number))?;
    }
    Ok(spans)
}

/// The spans of the objects, in the order of their first units.
pub(crate) fn spans_in_order(
    alloc: Global,
    objects: &[Object],
    found: &Classes,
    group: &[u32],
) -> Result<Vec<Span>, NoMemory>
    requires classes { length objects.now ≤ length found.now.class.items }
    requires offsets { length objects.now ≤ length found.now.offset.items }
    requires groups { length objects.now ≤ length group.now }
    ensures spans { IfOk result (λ made. AreSpans objects.now found.now.class.items found.now.offset.items group.now (length objects.now) made.items) }
    ensures rising { IfOk result (λ made. IsNonDecreasingBy (λ span. span.start) made.items) }
{
    let mut spans = spans_of(alloc, objects, found, group)?;
    spans.sort_by_key(|span| span.start)?;
    Ok(spans)
}
