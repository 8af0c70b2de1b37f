//! The order of modules.

ghost use Rattle.std.specs.Prelude.{◌≡◌, ◌<◌, true, All};
ghost use Rattle.ftn_base.specs.ModuleUses.{AreKnown};
ghost use Rattle.module_graph.specs.Uses.{used_lists};

use crate::tests::fields::{halves, numbers};
use module_graph::{GraphFault, order};
use std::alloc::Global;

fn is_below(list: &[u32], count: usize) -> bool
    ensures { result ≡ true → All (λ used. used < count) list.now }
{
    for used in list {
        if *used as usize >= count {
            return false;
        }
    }
    true
}

fn are_known(uses: &[Vec<u32>]) -> bool
    ensures { result ≡ true → AreKnown (used_lists uses.now) }
{
    for list in uses {
        if !is_below(list, uses.len()) {
            return false;
        }
    }
    true
}

/// The modules that each module uses, each list ended by a `/`, and their order after an `o`, or a ring after a `c`.
const GRAPHS: &[u8] =
    b"~o;1/2//~o2 1 0;1 2/3/3//~o3 1 2 0;1///~o1 0 2;1/2/3/1/~c1 2 3;/1/~c1;3/2/1/4/3/~c1 2";

/// Whether the row's modules are ordered as it says.
fn is_ordered(alloc: Global, row: &[u8]) -> Option<bool> {
    let (asked, wanted) = halves(row)?;
    let mut uses = Vec::new(alloc);
    for list in asked.split_inclusive(|byte| *byte == b'/') {
        uses.push(numbers(alloc, list.split_last()?.1)?).ok()?;
    }
    if uses.len() >= 4294967296 || !are_known(&uses) {
        return None;
    }
    let (letter, list) = wanted.split_first()?;
    match order(alloc, &uses) {
        Ok(found) => Some(*letter == b'o' && found == numbers(alloc, list)?),
        Err(GraphFault::Cycle(ring)) => Some(*letter == b'c' && ring == numbers(alloc, list)?),
        Err(GraphFault::NoMemory) => None,
    }
}

/// So many modules, of which each uses the next, and the last uses itself, if it is to.
fn chain(alloc: Global, count: u32, is_ring: bool) -> Option<Vec<Vec<u32>>> {
    let mut lists = Vec::new(alloc);
    for next in 1..count {
        lists.push(vec![in alloc; next].ok()?).ok()?;
    }
    let mut last = Vec::new(alloc);
    if is_ring {
        last.push(count.saturating_sub(1)).ok()?;
    }
    lists.push(last).ok()?;
    Some(lists)
}

/// The order of a chain of modules, or the ring at its end.
fn chained(alloc: Global, count: u32, is_ring: bool) -> Option<Vec<u32>> {
    let uses = chain(alloc, count, is_ring)?;
    if uses.len() >= 4294967296 || !are_known(&uses) {
        return None;
    }
    match order(alloc, &uses) {
        Ok(list) if !is_ring => Some(list),
        Err(GraphFault::Cycle(ring)) if is_ring => Some(ring),
        _ => None,
    }
}

fn orders(alloc: Global) -> Option<bool> {
    let few = chained(alloc, 3, false)?;
    let many = chained(alloc, 4096, false)?;
    let ring = chained(alloc, 4096, true)?;
    let ends = many.first().copied() == Some(4095) && many.last().copied() == Some(0);
    Some(ends && few.as_slice() == [2, 1, 0].as_slice() && ring.as_slice() == [4095].as_slice())
}

#[test]
fn modules_are_ordered(rt: HostRuntime) {
    for row in GRAPHS.split(|byte| *byte == b';') {
        assert!(rt; is_ordered(rt.alloc(), row) == Some(true));
    }
    assert!(rt; orders(rt.alloc()) == Some(true));
}
