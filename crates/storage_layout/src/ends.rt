//! Where common blocks end in scoping units.

ghost use Rattle.std.specs.Prelude.{◌≡◌, ◌<◌, ◌≤◌, ◌&&◌, ℕ, max, nat_eq, IfOk, OnOk, if◌then◌else◌, length, slice_index};
ghost use Rattle.storage_layout.specs.steps.EndTable.{end_in};
ghost use Rattle.storage_layout.specs.steps.Ends.{IsReady, IsGreatest, last_of};

use crate::things::Things;
use equiv_class::Classes;
use ftn_base::{NoMemory, Tie};
use indexmap::IndexMap;
use std::alloc::Global;

/// Where blocks end in scoping units, with the units by which ties extend them.
#[derive(Drop)]
pub(crate) struct Ends {
    pub(crate) ends: IndexMap<(u32, u32), u64>,
}

impl Ends {
    /// No end.
    pub(crate) fn new(alloc: Global) -> Ends
        ensures { (block scope : ℕ) → end_in result.ends block scope ≡ 0 }
    {
        Ends {
            ends: IndexMap::new(alloc),
        }
    }

    /// Where the block ends in the scoping unit, or 0 where it has no member there.
    pub(crate) fn of(&self, block: u32, scope: u32) -> u64
        ensures { result ≡ end_in self.now.ends block scope }
    {
        match self.ends.get(&(block, scope)) {
            Some(end) => *end,
            None => 0,
        }
    }

    /// With units of the block in the scoping unit up to that end.
    pub(crate) fn extend(&mut self, block: u32, scope: u32, end: u64) -> Result<(), NoMemory>
        ensures { OnOk result ((number place : ℕ) → end_in self.new.ends number place
            ≡ (if nat_eq block number && nat_eq scope place then max (end_in self.old.ends number place) end else end_in self.old.ends number place)) }
    {
        let end = self.of(block, scope).max(end);
        self.ends.insert((block, scope), end)?;
        Ok(())
    }
}

// where the class of a member ends, from the first unit of its block
fn end_by(tie: Tie, tied: &Classes) -> u64
    requires class { tie.b < length tied.now.class.items }
    requires offset { tie.b < length tied.now.offset.items }
    requires size { slice_index tied.now.class.items tie.b < length tied.now.size.items }
    requires within { slice_index tied.now.offset.items tie.b ≤ slice_index tied.now.size.items (slice_index tied.now.class.items tie.b) }
    ensures { result ≡ last_of tied.now.class.items tied.now.offset.items tied.now.size.items tie }
{
    let class = tied.class[tie.b as usize];
    let last = tied.size[class as usize] - tied.offset[tie.b as usize];
    u64::from(tie.at_a) + u64::from(last)
}

/// Where the blocks of the members end in their scoping units.
pub(crate) fn ends_of(alloc: Global, things: &Things, tied: &Classes) -> Result<Ends, NoMemory>
    requires { IsReady things.now.members.items things.now.ties.items tied.now.class.items tied.now.offset.items tied.now.size.items }
    ensures { IfOk result (λ ends. (number scope : ℕ) → IsGreatest things.now.members.items things.now.ties.items tied.now.class.items tied.now.offset.items tied.now.size.items (length things.now.members.items) number scope (end_in ends.ends number scope)) }
{
    let mut ends = Ends::new(alloc);
    for number in 0..things.members.len() {
        let member = things.members[number];
        let end = end_by(things.ties[number], tied);
        ends.extend(member.block, member.scope, end)?;
    }
    Ok(ends)
}
