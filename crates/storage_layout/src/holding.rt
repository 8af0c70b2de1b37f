//! Whether a fault is there with the first of the links.

ghost use Rattle.std.specs.Prelude.{◌≡◌, ◌≤◌, ◌<◌, ◌^◌, ℕ, [], IfOk, Decides, length, slice_index, take};
ghost use Rattle.ftn_base.specs.Storage.{IsContradicted, tie_links};
ghost use Rattle.ftn_base.specs.StorageMembers.{links, list_links, sizes_of};
ghost use Rattle.ftn_base.specs.StorageFaults.{AreBlocksJoined, AreMixed, IsExtended};
ghost use Rattle.storage_layout.specs.steps.Kept.{AreKept, given_of, sizes_in};
ghost use Rattle.storage_layout.specs.steps.Held.{Holds, count_of};

use crate::extension::extends_before;
use crate::joined_blocks::has_twins;
use crate::joining::joined;
use crate::kind::Kind;
use crate::mixing::mixes;
use crate::things::Things;
use ftn_base::{NoMemory, Object};
use std::alloc::Global;

// whether so many ties extend a block before its first unit
fn is_extended(alloc: Global, things: &Things, count: usize) -> Result<bool, NoMemory>
    requires kept { AreKept things.now }
    requires agree { IsContradicted (tie_links things.now.ties.items) → ⊥ }
    requires count { count ≤ length (given_of things.now) }
    ensures { IfOk result (λ found. Decides found (IsExtended (sizes_in things.now) things.now.members.items (take count (given_of things.now)))) }
{
    let tied = joined(alloc, &things.sizes, things.ties_alone(count))?;
    Ok(extends_before(things.member_ties(), &tied.offset))
}

// whether so many ties join two blocks
fn are_joined(alloc: Global, things: &Things, count: usize) -> Result<bool, NoMemory>
    requires kept { AreKept things.now }
    requires agree { IsContradicted (tie_links things.now.ties.items) → ⊥ }
    requires count { count ≤ length (given_of things.now) }
    ensures { IfOk result (λ found. Decides found (AreBlocksJoined (sizes_in things.now) things.now.members.items (take count (given_of things.now)))) }
{
    let found = joined(alloc, &things.sizes, things.ties_up_to(count))?;
    has_twins(alloc, &found.class[things.objects..], found.size.len())
}

// whether so many ties make a numeric and a character unit one that the lists alone do not
fn are_mixed(
    alloc: Global,
    things: &Things,
    objects: &[Object],
    count: usize,
) -> Result<bool, NoMemory>
    requires kept { AreKept things.now }
    requires sizes { sizes_in things.now ≡ sizes_of objects.now }
    requires agree { IsContradicted (tie_links things.now.ties.items) → ⊥ }
    requires count { count ≤ length (given_of things.now) }
    ensures { IfOk result (λ found. Decides found (AreMixed objects.now (list_links (sizes_in things.now) things.now.members.items) (links (sizes_in things.now) things.now.members.items (take count (given_of things.now))))) }
{
    let found = joined(alloc, &things.sizes, things.ties_up_to(count))?;
    let alone = joined(alloc, &things.sizes, things.member_ties())?;
    mixes(alloc, objects, &found, &alone.class)
}

// the number of each object
fn numbers(alloc: Global, count: usize) -> Result<Vec<u32>, NoMemory>
    requires { count < 2 ^ 32 }
    ensures size { IfOk result (λ list. length list.items ≡ count) }
    ensures each { IfOk result (λ list. (number : ℕ) → number < count → slice_index list.items number ≡ number) }
{
    let mut list = Vec::new(alloc);
    for number in 0..count {
        list.push(number as u32)?;
    }
    Ok(list)
}

// whether the lists of so many members make a numeric and a character unit one
fn are_mixed_alone(
    alloc: Global,
    things: &Things,
    objects: &[Object],
    count: usize,
) -> Result<bool, NoMemory>
    requires kept { AreKept things.now }
    requires sizes { sizes_in things.now ≡ sizes_of objects.now }
    requires agree { IsContradicted (tie_links things.now.ties.items) → ⊥ }
    requires count { count ≤ length things.now.members.items }
    ensures { IfOk result (λ found. Decides found (AreMixed objects.now [] (list_links (sizes_in things.now) (take count things.now.members.items)))) }
{
    let found = joined(alloc, &things.sizes, &things.ties[..count])?;
    let numbers = numbers(alloc, objects.len())?;
    mixes(alloc, objects, &found, &numbers)
}

/// Whether the fault is there with so many links.
pub(crate) fn holds(
    alloc: Global,
    things: &Things,
    objects: &[Object],
    kind: Kind,
    count: usize,
) -> Result<bool, NoMemory>
    requires kept { AreKept things.now }
    requires sizes { sizes_in things.now ≡ sizes_of objects.now }
    requires agree { IsContradicted (tie_links things.now.ties.items) → ⊥ }
    requires count { count ≤ count_of things.now kind }
    ensures { IfOk result (λ found. Decides found (Holds objects.now things.now kind count)) }
{
    match kind {
        Kind::Before => is_extended(alloc, things, count),
        Kind::Twins => are_joined(alloc, things, count),
        Kind::Mixed => are_mixed(alloc, things, objects, count),
        Kind::MixedLists => are_mixed_alone(alloc, things, objects, count),
    }
}
