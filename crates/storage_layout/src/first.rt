//! The first tie or member with which a fault is there.

ghost use Rattle.std.specs.Prelude.{◌≡◌, ◌≤◌, length, IfOk};
ghost use Rattle.ftn_base.specs.Storage.{IsContradicted, tie_links};
ghost use Rattle.ftn_base.specs.StorageMembers.{sizes_of};
ghost use Rattle.storage_layout.specs.steps.Kept.{AreKept, sizes_in};
ghost use Rattle.storage_layout.specs.steps.Held.{IsFirstWith, count_of};

use crate::holding::holds;
use crate::kind::Kind;
use crate::things::Things;
use ftn_base::{NoMemory, Object};
use std::alloc::Global;

// how many links there are of those that the kind counts
fn most(things: &Things, kind: Kind) -> usize
    requires { length things.now.members.items ≤ length things.now.ties.items }
    ensures { result ≡ count_of things.now kind }
{
    match kind {
        Kind::Before | Kind::Twins | Kind::Mixed => things.count(),
        Kind::MixedLists => things.members.len(),
    }
}

/// The first link with which the fault is there and without which it is not, by halving.
pub(crate) fn first(
    alloc: Global,
    things: &Things,
    objects: &[Object],
    kind: Kind,
) -> Result<Option<u32>, NoMemory>
    requires kept { AreKept things.now }
    requires sizes { sizes_in things.now ≡ sizes_of objects.now }
    requires agree { IsContradicted (tie_links things.now.ties.items) → ⊥ }
    ensures { IfOk result (IsFirstWith objects.now things.now kind) }
{
    let mut high = most(things, kind);
    if !holds(alloc, things, objects, kind, high)? {
        return Ok(None);
    }
    let mut low = 0;
    while low + 1 < high {
        let middle = low + (high - low) / 2;
        if holds(alloc, things, objects, kind, middle)? {
            high = middle;
        } else {
            low = middle;
        }
    }
    Ok(Some(low as u32))
}
