//! The search for a cycle.

ghost use Rattle.std.specs.Prelude.{◌≡◌, ◌≢◌, ◌<◌, ◌^◌, ℕ, length, true, false, slice_index, All, IfOk, MatchOption};
ghost use Rattle.ftn_base.specs.ModuleUses.{AreKnown};
ghost use Rattle.ftn_base.specs.ModuleCycles.{IsLeastCycle, IsOnCycle};
ghost use Rattle.module_graph.specs.Uses.{used_lists};
ghost use Rattle.module_graph.specs.steps.Marks.{IsEntry, IsSearch, IsWayBack, to_do};
ghost use Rattle.module_graph.specs.steps.Walks.{modules_of};

use crate::entries::{Entry, list_of};
use crate::groups::group_numbers;
use crate::walk::walk_on;
use ftn_base::NoMemory;
use std::alloc::Global;

// goes on to a module that was not reached before, or back; true where the last of the path uses the first
fn search_on(
    uses: &[Vec<u32>],
    from: u32,
    marks: &mut [bool],
    path: &mut Vec<Entry>,
) -> Result<bool, NoMemory>
    requires known { AreKnown (used_lists uses.now) }
    requires from { from < length uses.now }
    requires entries { All (IsEntry (used_lists uses.now) marks.old) path.old.items }
    requires search { IsSearch (used_lists uses.now) from marks.old (modules_of path.old.items) }
    requires begun { 0 < length path.old.items }
    ensures found { IfOk result (λ found. found ≡ true → IsWayBack (used_lists uses.now) from (modules_of path.new.items)) }
    ensures search { IfOk result (λ found. found ≡ false → IsSearch (used_lists uses.now) from marks.new (modules_of path.new.items)) }
    ensures entries { IfOk result (λ found. found ≡ false → All (IsEntry (used_lists uses.now) marks.new) path.new.items) }
    ensures nearer { IfOk result (λ found. found ≡ false → to_do marks.new path.new.items < to_do marks.old path.old.items) }
{
    let _left = walk_on(uses, marks, path)?;
    if marks[from as usize] {
        let _from = path.pop();
        return Ok(true);
    }
    Ok(false)
}

// the modules of the path
fn modules(alloc: Global, path: &[Entry]) -> Result<Vec<u32>, NoMemory>
    ensures { IfOk result (λ list. list.items ≡ modules_of path.now) }
{
    let list = path.iter().map(|entry| entry.user).collect(alloc)?;
    Ok(list)
}

// a cycle from this module, or nothing where it lies on none
fn way_back(alloc: Global, uses: &[Vec<u32>], from: u32) -> Result<Option<Vec<u32>>, NoMemory>
    requires known { AreKnown (used_lists uses.now) }
    requires from { from < length uses.now }
    ensures { IfOk result (λ found. MatchOption found (IsOnCycle (used_lists uses.now) from → ⊥) (λ list. IsWayBack (used_lists uses.now) from list.items)) }
{
    let mut marks = vec![in alloc; false; uses.len()]?;
    let mut path = vec![in alloc; Entry { user: from, at: 0 }]?;
    'steps: while !path.is_empty() {
        if search_on(uses, from, &mut marks, &mut path)? {
            let ring = modules(alloc, &path)?;
            return Ok(Some(ring));
        }
    }
    Ok(None)
}

// whether one of these modules has this number
fn has_one(list: &[u32], numbers: &[usize], number: usize) -> bool
    requires { All (λ used. used < length numbers.now) list.now }
    ensures { result ≡ false → All (λ used. slice_index numbers.now used ≢ number) list.now }
{
    for used in list {
        if numbers[*used as usize] == number {
            return true;
        }
    }
    false
}

/// A cycle from the least module that lies on any, or nothing where there is none. All modules of a cycle
/// have one number, so that only a module that uses one of its own number can lie on any.
pub(crate) fn least_cycle(alloc: Global, uses: &[Vec<u32>]) -> Result<Option<Vec<u32>>, NoMemory>
    requires few { length uses.now < 2 ^ 32 }
    requires known { AreKnown (used_lists uses.now) }
    ensures { IfOk result (λ found. MatchOption found ((number : ℕ) → IsOnCycle (used_lists uses.now) number → ⊥) (λ list. IsLeastCycle (used_lists uses.now) list.items)) }
{
    let numbers = group_numbers(alloc, uses)?;
    for from in 0..uses.len() as u32 {
        if has_one(list_of(uses, from), &numbers, numbers[from as usize]) {
            if let Some(list) = way_back(alloc, uses, from)? {
                return Ok(Some(list));
            }
        }
    }
    Ok(None)
}
