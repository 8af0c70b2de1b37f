//! Offsets of objects in their sequences, and sizes of sequences.

ghost use Rattle.std.specs.Prelude.{◌≡◌, ◌+◌, ◌<◌, ◌≤◌, ◌^◌, ℕ, length, All, IfOk, slice_index};
ghost use Rattle.equiv_class.specs.steps.Lists.{IsMeasured, begin_of, lists_of, reach_of};

use crate::sequences::{MIDDLE, Sequences};
use ftn_base::NoMemory;
use std::alloc::Global;

/// How many units after the first one of its sequence each object begins.
pub(crate) fn offsets(alloc: Global, sequences: &Sequences) -> Result<Vec<u32>, NoMemory>
    requires { IsMeasured (lists_of sequences.now) }
    ensures size { IfOk result (λ offset. length offset.items ≡ length sequences.now.label.items) }
    ensures each { IfOk result (λ offset. (object : ℕ) → object < length sequences.now.label.items → slice_index offset.items object + MIDDLE ≡ begin_of (lists_of sequences.now) object) }
{
    let mut offset = Vec::new(alloc);
    for object in 0..sequences.label.len() {
        let label = sequences.label[object] as usize;
        let begin = sequences.place[object] + sequences.below[label];
        offset.push((begin - MIDDLE) as u32)?;
    }
    Ok(offset)
}

/// How many units each of these sequences has.
pub(crate) fn sizes_of(
    alloc: Global,
    sequences: &Sequences,
    order: &[u32],
) -> Result<Vec<u32>, NoMemory>
    requires measured { IsMeasured (lists_of sequences.now) }
    requires known { All (λ label. label < length sequences.now.label.items) order.now }
    ensures size { IfOk result (λ size. length size.items ≡ length order.now) }
    ensures each { IfOk result (λ size. (class : ℕ) → class < length order.now → slice_index size.items class ≡ reach_of (lists_of sequences.now) (slice_index order.now class)) }
{
    let mut size = Vec::new(alloc);
    for label in order {
        let below = sequences.below[*label as usize];
        let above = sequences.above[*label as usize];
        size.push((below + above) as u32)?;
    }
    Ok(size)
}
