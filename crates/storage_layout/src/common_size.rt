//! Named common blocks that differ in size.

ghost use Rattle.std.specs.Prelude.{◌≡◌, ◌≢◌, ◌<◌, ◌^◌, ℕ, Some, true, nat_eq, length, Decides, IfOk, OnOk, if◌then◌else◌};
ghost use Rattle.std.specs.Option.{unwrap_or};
ghost use Rattle.indexmap.specs.IndexMap.{get};
ghost use Rattle.storage_layout.specs.steps.EndTable.{end_in};
ghost use Rattle.storage_layout.specs.steps.Ends.{IsReady, FindsOdd};

use crate::ends::{Ends, ends_of};
use crate::things::Things;
use equiv_class::Classes;
use ftn_base::{BlockList, NoMemory};
use indexmap::IndexMap;
use std::alloc::Global;

// the first scoping unit of a block, which is this one where there was none before
fn first_scope(firsts: &mut IndexMap<u32, u32>, block: u32, scope: u32) -> Result<u32, NoMemory>
    ensures first { IfOk result (λ first. first ≡ unwrap_or (get nat_eq firsts.old block) scope) }
    ensures noted { OnOk result ((number : ℕ) → get nat_eq firsts.new number
        ≡ (if nat_eq block number then Some (unwrap_or (get nat_eq firsts.old block) scope) else get nat_eq firsts.old number)) }
{
    let first = match firsts.get(&block) {
        Some(first) => *first,
        None => scope,
    };
    firsts.insert(block, first)?;
    Ok(first)
}

// whether the block has a name, and ends elsewhere in the list's scoping unit than in its first one
fn is_odd(list: &BlockList, first: u32, ends: &Ends) -> bool
    ensures { Decides result ((list.now.named ≡ true) × (end_in ends.now.ends list.now.block list.now.scope ≢ end_in ends.now.ends list.now.block first)) }
{
    list.named && ends.of(list.block, list.scope) != ends.of(list.block, first)
}

/// The first list by which a named block ends elsewhere than in its first scoping unit.
pub(crate) fn odd_list(
    alloc: Global,
    things: &Things,
    blocks: &[BlockList],
    tied: &Classes,
) -> Result<Option<u32>, NoMemory>
    requires ready { IsReady things.now.members.items things.now.ties.items tied.now.class.items tied.now.offset.items tied.now.size.items }
    requires few { length blocks.now < 2 ^ 32 }
    ensures { IfOk result (FindsOdd blocks.now things.now.members.items things.now.ties.items tied.now.class.items tied.now.offset.items tied.now.size.items) }
{
    let ends = ends_of(alloc, things, tied)?;
    let mut firsts = IndexMap::new(alloc);
    for number in 0..blocks.len() {
        let list = &blocks[number];
        let first = first_scope(&mut firsts, list.block, list.scope)?;
        if is_odd(list, first, &ends) {
            return Ok(Some(number as u32));
        }
    }
    Ok(None)
}
