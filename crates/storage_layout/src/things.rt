//! Objects and common blocks as things of equal right, with the ties between them.

ghost use Rattle.std.specs.Prelude.{◌≡◌, ◌≤◌, ◌+◌, ◌<◌, IfOk, length, take, drop};
ghost use Rattle.ftn_base.specs.StorageMembers.{all_members, sizes_of};
ghost use Rattle.ftn_base.specs.StorageGiven.{AreGiven};
ghost use Rattle.ftn_base.specs.StorageFaults.{AreSmall};
ghost use Rattle.storage_layout.specs.steps.Kept.{AreKept, AreMembers, AreTied, given_of, sizes_in};

use crate::member::members_of_all;
use crate::naming::Names;
use ftn_base::{BlockList, Member, NoMemory, Object, Tie};
use std::alloc::Global;

/// Objects, then common blocks, with the ties between them.
#[derive(Drop)]
pub(crate) struct Things {
    /// How many of the things are objects.
    pub(crate) objects: usize,
    /// How many units each thing takes.
    pub(crate) sizes: Vec<u32>,
    /// The number of each block, from the first thing after the objects on.
    pub(crate) names: Vec<u32>,
    /// The members of the blocks.
    pub(crate) members: Vec<Member>,
    /// For each member a tie of the block's unit with the member's first one; then the ties of EQUIVALENCE.
    pub(crate) ties: Vec<Tie>,
}

// the units of each object
fn units_of(alloc: Global, objects: &[Object]) -> Result<Vec<u32>, NoMemory>
    ensures { IfOk result (λ units. units.items ≡ sizes_of objects.now) }
{
    let mut units = Vec::new(alloc);
    for object in objects {
        units.push(object.units)?;
    }
    Ok(units)
}

// numbers the blocks of the members, and ties each member to its block
fn tie_members(
    alloc: Global,
    sizes: &[u32],
    members: &[Member],
) -> Result<(Names, Vec<Tie>), NoMemory>
    requires { AreMembers sizes.now members.now }
    ensures { IfOk result (λ made. AreTied sizes.now members.now made.0.names.keys made.0.sizes.items made.1.items) }
{
    let mut names = Names::new(alloc);
    let mut ties = Vec::new(alloc);
    for member in members {
        let (name, start) = names.add(*member, sizes[member.object as usize])?;
        ties.push(Tie {
            a: sizes.len() as u32 + name,
            at_a: start,
            b: member.object,
            at_b: 0,
        })?;
    }
    Ok((names, ties))
}

impl Things {
    /// The things of these objects, lists and ties.
    pub(crate) fn new(
        alloc: Global,
        objects: &[Object],
        blocks: &[BlockList],
        given: &[Tie],
    ) -> Result<Things, NoMemory>
        requires given { AreGiven objects.now blocks.now given.now }
        requires small { AreSmall (sizes_of objects.now) }
        ensures kept { IfOk result AreKept }
        ensures sizes { IfOk result (λ things. sizes_in things ≡ sizes_of objects.now) }
        ensures members { IfOk result (λ things. things.members.items ≡ all_members blocks.now) }
        ensures ties { IfOk result (λ things. given_of things ≡ given.now) }
    {
        let members = members_of_all(alloc, blocks)?;
        let mut sizes = units_of(alloc, objects)?;
        let (names, mut ties) = tie_members(alloc, &sizes, &members)?;
        ties.extend_from_slice(given)?;
        sizes.extend_from_slice(&names.sizes)?;
        Ok(Things {
            objects: objects.len(),
            sizes,
            names: Vec::from_slice(alloc, names.names.as_slice())?,
            members,
            ties,
        })
    }

    /// The ties of members alone.
    pub(crate) fn member_ties(&self) -> &[Tie]
        requires { length self.now.members.items ≤ length self.now.ties.items }
        ensures { result.now ≡ take (length self.now.members.items) self.now.ties.items }
    {
        &self.ties[..self.members.len()]
    }

    /// The ties of members, and so many of EQUIVALENCE.
    pub(crate) fn ties_up_to(&self, count: usize) -> &[Tie]
        requires { length self.now.members.items + count ≤ length self.now.ties.items }
        ensures { result.now ≡ take (length self.now.members.items + count) self.now.ties.items }
    {
        &self.ties[..self.members.len() + count]
    }

    /// So many ties of EQUIVALENCE alone.
    pub(crate) fn ties_alone(&self, count: usize) -> &[Tie]
        requires { length self.now.members.items + count ≤ length self.now.ties.items }
        ensures { result.now ≡ take count (given_of self.now) }
    {
        &self.ties[self.members.len()..self.members.len() + count]
    }

    /// How many ties of EQUIVALENCE there are.
    pub(crate) fn count(&self) -> usize
        requires { length self.now.members.items ≤ length self.now.ties.items }
        ensures { result ≡ length (given_of self.now) }
    {
        self.ties.len() - self.members.len()
    }
}
