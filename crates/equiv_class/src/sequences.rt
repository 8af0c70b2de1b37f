//! Objects in sequences of storage units, while ties are taken in one after another.

ghost use Rattle.std.specs.Prelude.{◌≡◌, ◌≢◌, ◌+◌, ◌<◌, ◌≤◌, ◌^◌, length, IfOk, OnOk, slice_index};
ghost use Rattle.equiv_class.specs.steps.Lists.{IsListed, IsReady, lists_of};
ghost use Rattle.equiv_class.specs.steps.Joins.{Finds, IsAbsorbed, IsMerged, Joins, label_a, label_b};

use crate::moving::{hand_over, relabel, widen};
use ftn_base::{NoMemory, Tie};
use std::alloc::Global;

/// Where an object that no tie has moved begins: far enough from 0 for every place to be a number without a
/// sign.
pub(crate) const MIDDLE: u64 = 1099511627776;

/// Objects in sequences, each of which goes by the number of one of its objects.
#[derive(Drop)]
pub(crate) struct Sequences {
    /// The sequence of each object.
    pub(crate) label: Vec<u32>,
    /// Where each object begins.
    pub(crate) place: Vec<u64>,
    /// The objects of each sequence.
    pub(crate) members: Vec<Vec<u32>>,
    /// How many units of each sequence lie before the middle.
    pub(crate) below: Vec<u64>,
    /// How many units of each sequence lie from the middle on.
    pub(crate) above: Vec<u64>,
}

// the sequence of an object
fn label_of(sequences: &Sequences, object: u32) -> u32
    requires { object < length sequences.now.label.items }
    ensures { result ≡ slice_index sequences.now.label.items object }
{
    sequences.label[object as usize]
}

// where a unit of an object stands
fn place_of(sequences: &Sequences, object: u32, unit: u32) -> u64
    requires known { object < length sequences.now.place.items }
    requires room { slice_index sequences.now.place.items object + unit < 2 ^ 64 }
    ensures { result ≡ slice_index sequences.now.place.items object + unit }
{
    sequences.place[object as usize] + u64::from(unit)
}

// how many units after the first one of its sequence this unit of the object stands
fn offset_in(sequences: &Sequences, object: u32, at: u32) -> u32
    requires listed { IsListed (lists_of sequences.now) }
    requires known { object < length sequences.now.label.items }
    requires low { MIDDLE ≤ slice_index sequences.now.place.items object + slice_index sequences.now.below.items (slice_index sequences.now.label.items object) }
    requires high { slice_index sequences.now.place.items object + at ≤ MIDDLE + slice_index sequences.now.above.items (slice_index sequences.now.label.items object) }
    requires small { slice_index sequences.now.below.items (slice_index sequences.now.label.items object) + slice_index sequences.now.above.items (slice_index sequences.now.label.items object) < 2 ^ 31 }
    ensures { result + MIDDLE ≡ slice_index sequences.now.place.items object + at + slice_index sequences.now.below.items (slice_index sequences.now.label.items object) }
{
    let label = label_of(sequences, object);
    let first = MIDDLE - sequences.below[label as usize];
    (place_of(sequences, object, at) - first) as u32
}

// the offsets of the tie's two units in the sequence of both, where they differ
fn clash(sequences: &Sequences, tie: Tie) -> Option<(u32, u32)>
    requires ready { IsReady (lists_of sequences.now) tie }
    requires label { label_a (lists_of sequences.now) tie ≡ label_b (lists_of sequences.now) tie }
    ensures { Finds (lists_of sequences.now) tie result }
{
    let one = offset_in(sequences, tie.a, tie.at_a);
    let other = offset_in(sequences, tie.b, tie.at_b);
    if one == other {
        None
    } else {
        Some((one, other))
    }
}

// moves the sequence of the tie's second object into that of the first
fn absorb(alloc: Global, sequences: &mut Sequences, tie: Tie) -> Result<(), NoMemory>
    requires ready { IsReady (lists_of sequences.old) tie }
    requires apart { label_b (lists_of sequences.old) tie ≢ label_a (lists_of sequences.old) tie }
    ensures { OnOk result (IsAbsorbed (lists_of sequences.old) tie (lists_of sequences.new)) }
{
    let to = label_of(sequences, tie.a);
    let from = label_of(sequences, tie.b);
    let up = place_of(sequences, tie.a, tie.at_a);
    let down = place_of(sequences, tie.b, tie.at_b);
    let moved = hand_over(alloc, &mut sequences.members, from, to)?;
    relabel(
        &mut sequences.label,
        &mut sequences.place,
        &moved,
        to,
        up,
        down,
    );
    widen(
        &mut sequences.below,
        &mut sequences.above,
        from,
        to,
        up,
        down,
    );
    Ok(())
}

// makes one sequence of those of the tie's two objects, by moving the shorter list of objects
fn merge(alloc: Global, sequences: &mut Sequences, tie: Tie) -> Result<(), NoMemory>
    requires ready { IsReady (lists_of sequences.old) tie }
    requires apart { label_b (lists_of sequences.old) tie ≢ label_a (lists_of sequences.old) tie }
    ensures { OnOk result (IsMerged (lists_of sequences.old) tie (lists_of sequences.new)) }
{
    let first = label_of(sequences, tie.a) as usize;
    let second = label_of(sequences, tie.b) as usize;
    if sequences.members[first].len() < sequences.members[second].len() {
        let tie = Tie {
            a: tie.b,
            at_a: tie.at_b,
            b: tie.a,
            at_b: tie.at_a,
        };
        absorb(alloc, sequences, tie)
    } else {
        absorb(alloc, sequences, tie)
    }
}

/// Takes a tie in, or gives the offsets of its two units where they are two units of one sequence.
pub(crate) fn join(
    alloc: Global,
    sequences: &mut Sequences,
    tie: Tie,
) -> Result<Option<(u32, u32)>, NoMemory>
    requires { IsReady (lists_of sequences.old) tie }
    ensures { IfOk result (λ found. Joins (lists_of sequences.old) tie found (lists_of sequences.new)) }
{
    if label_of(sequences, tie.a) == label_of(sequences, tie.b) {
        return Ok(clash(sequences, tie));
    }
    merge(alloc, sequences, tie)?;
    Ok(None)
}
