//! Numbers of common blocks, and how far their lists reach.

ghost use Rattle.std.specs.Prelude.{◌≡◌, ◌+◌, ◌<◌, ◌≤◌, ◌^◌, ℕ, [], length, nat_eq, IfOk, OnOk};
ghost use Rattle.std.specs.List.{position_or_len};
ghost use Rattle.indexmap.specs.IndexSet.{insert_key};
ghost use Rattle.storage_layout.specs.steps.Naming.{AreLonger, IsRaised, end_in};

use ftn_base::{Member, NoMemory};
use indexmap::{IndexMap, IndexSet};
use std::alloc::Global;

/// How many units the lists of a block in a scoping unit take.
pub(crate) type Ends = IndexMap<(u32, u32), u32>;

/// Common blocks that have members, numbered by their first ones.
#[derive(Drop)]
pub(crate) struct Names {
    /// The blocks.
    pub(crate) names: IndexSet<u32>,
    /// How many units the longest lists of one scoping unit take, of each block.
    pub(crate) sizes: Vec<u32>,
    /// How many units the lists of each block in each scoping unit take.
    pub(crate) ends: Ends,
}

// how many units the lists of the member's block in its scoping unit take
fn end_of(ends: &Ends, member: Member) -> u32
    ensures { result ≡ end_in ends.now member.block member.scope }
{
    match ends.get(&(member.block, member.scope)) {
        Some(end) => *end,
        None => 0,
    }
}

// adds the member's units to its lists: where it begins
fn lengthen(ends: &mut Ends, member: Member, units: u32) -> Result<u32, NoMemory>
    requires { end_in ends.old member.block member.scope + units < 2 ^ 32 }
    ensures start { IfOk result (λ start. start ≡ end_in ends.old member.block member.scope) }
    ensures ends { OnOk result (AreLonger ends.old member units ends.new) }
{
    let start = end_of(ends, member);
    ends.insert((member.block, member.scope), start + units)?;
    Ok(start)
}

// makes the number at this place at least so large
fn raise(list: &mut Vec<u32>, place: usize, least: u32) -> Result<(), NoMemory>
    requires { place ≤ length list.old.items }
    ensures { OnOk result (IsRaised list.old.items place least list.new.items) }
{
    if place == list.len() {
        list.push(least)?;
    } else {
        list[place] = list[place].max(least);
    }
    Ok(())
}

impl Names {
    /// No block.
    pub(crate) fn new(alloc: Global) -> Names
        ensures names { result.names.keys ≡ [] }
        ensures sizes { result.sizes.items ≡ [] }
        ensures ends { (number scope : ℕ) → end_in result.ends number scope ≡ 0 }
    {
        Names {
            names: IndexSet::new(alloc),
            sizes: Vec::new(alloc),
            ends: IndexMap::new(alloc),
        }
    }

    /// Adds a member of so many units to the lists of its block in its scoping unit: the number of the block, and
    /// the unit at which the member begins.
    pub(crate) fn add(&mut self, member: Member, units: u32) -> Result<(u32, u32), NoMemory>
        requires room { end_in self.old.ends member.block member.scope + units < 2 ^ 32 }
        requires sized { length self.old.sizes.items ≡ length self.old.names.keys }
        requires few { length self.old.names.keys < 2 ^ 32 }
        ensures number { IfOk result (λ found. found.0 ≡ position_or_len (nat_eq member.block) self.old.names.keys) }
        ensures start { IfOk result (λ found. found.1 ≡ end_in self.old.ends member.block member.scope) }
        ensures names { OnOk result (self.new.names.keys ≡ insert_key nat_eq self.old.names.keys member.block) }
        ensures sizes { IfOk result (λ found. IsRaised self.old.sizes.items found.0 (found.1 + units) self.new.sizes.items) }
        ensures ends { OnOk result (AreLonger self.old.ends member units self.new.ends) }
    {
        let start = lengthen(&mut self.ends, member, units)?;
        let (name, _) = self.names.insert_full(member.block)?;
        raise(&mut self.sizes, name, start + units)?;
        Ok((name as u32, start))
    }
}
