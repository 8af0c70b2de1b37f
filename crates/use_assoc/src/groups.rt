//! USE statements by module.

ghost use Rattle.std.specs.Prelude.{◌≡◌, ◌++◌, ◌∷◌, [], IfOk, OnOk, nat_eq, if◌then◌else◌};
ghost use Rattle.indexmap.specs.IndexMap.{keys};
ghost use Rattle.indexmap.specs.IndexSet.{insert_key};
ghost use Rattle.use_assoc.specs.steps.Groups.{found_lists, AreGroups};

use ftn_base::{NoMemory, UseList};
use indexmap::IndexMap;
use sqlite_items::Items;
use std::alloc::Global;

/// The statements of each module, in their order. Modules stand in the order of their first statements.
pub type Groups<'a> = IndexMap<u32, Items<&'a UseList>>;

fn add<'a>(groups: &mut Groups<'a>, alloc: Global, list: &'a UseList) -> Result<(), NoMemory>
    ensures order { OnOk result (keys groups.new ≡ insert_key nat_eq (keys groups.old) list.now.«module») }
    ensures lists { OnOk result ((number : _) → found_lists groups.new number
        ≡ (if nat_eq list.now.«module» number then found_lists groups.old number ++ list.now ∷ [] else found_lists groups.old number)) }
{
    // An empty group keeps the module's place.
    let mut group = match groups.insert(list.module, Items::new(alloc))? {
        Some(group) => group,
        None => Items::new(alloc),
    };
    group.push(list)?;
    groups.insert(list.module, group)?;
    Ok(())
}

/// Groups statements by their modules.
pub fn grouped<'a>(alloc: Global, lists: &'a [UseList]) -> Result<Groups<'a>, NoMemory>
    ensures { IfOk result (AreGroups lists.now) }
{
    let mut groups = IndexMap::new(alloc);
    for list in lists {
        add(&mut groups, alloc, list)?;
    }
    Ok(groups)
}
