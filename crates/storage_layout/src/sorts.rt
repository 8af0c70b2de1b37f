//! Numeric and character units that are one.

ghost use Rattle.std.specs.Prelude.{◌≡◌, ◌<◌, ◌^◌, length, None, IfOk, IsOk, IfErr};
ghost use Rattle.ftn_base.specs.Storage.{IsContradicted, tie_links};
ghost use Rattle.ftn_base.specs.StorageMembers.{all_members, sizes_of};
ghost use Rattle.ftn_base.specs.StorageFaults.{IsApart, IsPlace, IsSorted, MemberTold};
ghost use Rattle.storage_layout.specs.Faults.{IsTrueFault};
ghost use Rattle.storage_layout.specs.declared.fault.LayoutFault.TheVariants as fault;
ghost use Rattle.storage_layout.specs.steps.Kept.{AreKept, given_of, sizes_in};

use crate::fault::LayoutFault;
use crate::first::first;
use crate::kind::Kind;
use crate::things::Things;
use ftn_base::{BlockList, NoMemory, Object};
use std::alloc::Global;

// where the member with that number among all members stands: its list, and its position in the list
fn place_of(blocks: &[BlockList], number: u32) -> (u32, u32)
    requires few { length blocks.now < 2 ^ 32 }
    requires there { number < length (all_members blocks.now) }
    ensures { IsPlace blocks.now number result.0 result.1 }
{
    let mut left = number;
    for list in 0..blocks.len() {
        let count = blocks[list].members.len();
        if (left as usize) < count {
            return (list as u32, left);
        }
        left -= count as u32;
    }
    unreachable!()
}

// the first member with which the lists alone make a numeric and a character unit one
fn mixed_member(
    alloc: Global,
    things: &Things,
    objects: &[Object],
    blocks: &[BlockList],
) -> Result<Option<(u32, u32)>, NoMemory>
    requires kept { AreKept things.now }
    requires sizes { sizes_in things.now ≡ sizes_of objects.now }
    requires members { things.now.members.items ≡ all_members blocks.now }
    requires agree { IsContradicted (tie_links things.now.ties.items) → ⊥ }
    requires few { length blocks.now < 2 ^ 32 }
    ensures { IfOk result (MemberTold objects.now blocks.now (given_of things.now)) }
{
    match first(alloc, things, objects, Kind::MixedLists)? {
        Some(number) => Ok(Some(place_of(blocks, number))),
        None => Ok(None),
    }
}

// a fault where there is such a tie or such a member
fn unmixed(tie: Option<u32>, member: Option<(u32, u32)>) -> Result<(), LayoutFault>
    ensures unmixed { IsOk result → (tie ≡ None) × (member ≡ None) }
    ensures mixed { IfErr result (λ found. (found ≡ fault.SortMismatch tie member) × ((tie ≡ None) × (member ≡ None) → ⊥)) }
{
    match tie {
        Some(_) => Err(LayoutFault::SortMismatch { tie, member }),
        None => match member {
            Some(_) => Err(LayoutFault::SortMismatch { tie, member }),
            None => Ok(()),
        },
    }
}

/// Tells the first tie and the first member with which numeric and character units are one.
pub(crate) fn sorts_apart(
    alloc: Global,
    things: &Things,
    objects: &[Object],
    blocks: &[BlockList],
) -> Result<(), LayoutFault>
    requires kept { AreKept things.now }
    requires sizes { sizes_in things.now ≡ sizes_of objects.now }
    requires members { things.now.members.items ≡ all_members blocks.now }
    requires agree { IsContradicted (tie_links things.now.ties.items) → ⊥ }
    requires few { length blocks.now < 2 ^ 32 }
    requires apart { IsApart objects.now blocks.now (given_of things.now) }
    ensures sorted { IsOk result → IsSorted objects.now blocks.now (given_of things.now) }
    ensures fault { IfErr result (IsTrueFault objects.now blocks.now (given_of things.now)) }
{
    let tie = first(alloc, things, objects, Kind::Mixed)?;
    let member = mixed_member(alloc, things, objects, blocks)?;
    unmixed(tie, member)
}
