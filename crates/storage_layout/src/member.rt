//! Members of common blocks.

ghost use Rattle.std.specs.Prelude.{◌≡◌, ◌++◌, IfOk, OnOk};
ghost use Rattle.ftn_base.specs.StorageMembers.{all_members, members_of};

use ftn_base::{BlockList, Member, NoMemory};
use std::alloc::Global;

// adds the members of one list
fn add_list(members: &mut Vec<Member>, list: &BlockList) -> Result<(), NoMemory>
    ensures { OnOk result (members.new.items ≡ members.old.items ++ members_of list.now) }
{
    for object in &list.members {
        members.push(Member {
            block: list.block,
            scope: list.scope,
            object: *object,
        })?;
    }
    Ok(())
}

/// The members of all lists, in the order given.
pub(crate) fn members_of_all(alloc: Global, blocks: &[BlockList]) -> Result<Vec<Member>, NoMemory>
    ensures { IfOk result (λ members. members.items ≡ all_members blocks.now) }
{
    let mut members = Vec::new(alloc);
    for list in blocks {
        add_list(&mut members, list)?;
    }
    Ok(members)
}
