//! Sizes and ties, and the classes, offsets and sizes that they make, or the tie that contradicts and its two units.

ghost use Rattle.std.specs.Prelude.{◌≡◌, ◌<◌, ◌^◌, true, sum, All};
ghost use Rattle.ftn_base.specs.Storage.{IsWithin};

use crate::tests::fields::{halves, lists, numbers};
use equiv_class::{TieFault, classes};
use ftn_base::Tie;
use std::alloc::Global;

const TIES: &[u8] =
    b"/~//;0 2/~0 1/0 0/0 2;2 1/0 1 1 0~0 0/0 1/2;1 2/0 0 1 1~0 0/1 0/2;2 5/1 0 0 1~0 0/0 1/6;\
1 1 1 1/3 0 1 0 2 0 0 0~0 1 0 1/0 0 0 0/1 1;3 3 2/0 2 1 0 2 1 0 0 1 0 0 2 0 1 0 1~0 0 0/1 3 0/6;\
3 3/0 2 1 0 1 1 0 0~!1 3 0;3/0 1 0 1 0 2 0 1~!1 2 1;1 2 3/1 1 0 0 2 2 0 0 1 0 2 0 0 0 2 1~!2 1 0;\
2 2 2/0 0 1 1 2 0 1 0 2 1 0 0 2 0 0 0~!3 0 1;1 4 1 4/0 0 1 3 2 0 3 0 2 0 0 0 3 1 1 3~!3 4 3";

fn is_within(sizes: &[u32], tie: Tie) -> bool
    ensures { result ≡ true → IsWithin sizes.now tie }
{
    let (a, b) = (tie.a as usize, tie.b as usize);
    if a >= sizes.len() || b >= sizes.len() {
        return false;
    }
    tie.at_a < sizes[a] && tie.at_b < sizes[b]
}

fn are_within(sizes: &[u32], ties: &[Tie]) -> bool
    ensures { result ≡ true → All (IsWithin sizes.now) ties.now }
{
    for tie in ties {
        if !is_within(sizes, *tie) {
            return false;
        }
    }
    true
}

fn are_small(sizes: &[u32]) -> bool
    ensures { result ≡ true → sum sizes.now < 2 ^ 31 }
{
    let mut total: u64 = 0;
    for size in sizes {
        total += u64::from(*size);
        if total >= 2147483648 {
            return false;
        }
    }
    true
}

/// The ties of these numbers, four for each.
pub fn ties(alloc: Global, numbers: &[u32]) -> Option<Vec<Tie>> {
    let mut ties = Vec::new(alloc);
    for four in numbers.chunks_exact(4) {
        if let [a, at_a, b, at_b] = four {
            let (a, at_a, b, at_b) = (*a, *at_a, *b, *at_b);
            ties.push(Tie { a, at_a, b, at_b }).ok()?;
        }
    }
    Some(ties)
}

/// Whether these sizes and ties are answered by these lists.
fn answers(alloc: Global, sizes: &[u32], ties: &[Tie], wanted: &[u8]) -> Option<bool> {
    if sizes.len() >= 4294967296 || ties.len() >= 4294967296 {
        return None;
    }
    if !are_small(sizes) || !are_within(sizes, ties) {
        return None;
    }
    match (classes(alloc, sizes, ties), wanted) {
        (Err(TieFault::Conflict { tie, one, other }), [b'!', rest @ ..]) => {
            Some(numbers(alloc, rest)?.as_slice() == [tie, one, other].as_slice())
        }
        (Ok(made), _) => {
            let lists = lists(alloc, wanted)?;
            let [class, offset, size] = lists.as_slice() else {
                return None;
            };
            Some(made.class == *class && made.offset == *offset && made.size == *size)
        }
        _ => None,
    }
}

/// Whether the row's sizes and ties are answered as it says.
fn holds(alloc: Global, row: &[u8]) -> Option<bool> {
    let (asked, wanted) = halves(row)?;
    let lists = lists(alloc, asked)?;
    let [sizes, tied] = lists.as_slice() else {
        return None;
    };
    answers(alloc, sizes, &ties(alloc, tied)?, wanted)
}

#[test]
fn ties_are_solved_as_rows_say(rt: HostRuntime) {
    for row in TIES.split(|byte| *byte == b';') {
        assert!(rt; holds(rt.alloc(), row) == Some(true));
    }
}
