//! Modules placed one after another, each as soon as all that it uses are there.

ghost use Rattle.std.specs.Prelude.{◌≡◌, ◌<◌, ◌^◌, ◌↔◌, [], ◌∷◌, false, true, length, replicate, All, IfOk, IfSome, IsSome};
ghost use Rattle.std.specs.Ordering.{nat_cmp};
ghost use Rattle.std.specs.declared.cmp.Ordering.TheVariants.{Less};
ghost use Rattle.ftn_base.specs.ModuleUses.{AreKnown};
ghost use Rattle.module_graph.specs.Uses.{used_lists};
ghost use Rattle.module_graph.specs.steps.Marks.{IsStuck};

use crate::entries::{Entry, empty_lists};
use crate::waiting::{mark, settle_all};
use ftn_base::NoMemory;
use std::alloc::Global;
use std::collections::BTreeSet;

/// Modules placed one after another, and marks on those that are placed.
#[derive(Drop)]
pub(crate) struct Placed {
    pub(crate) list: Vec<u32>,
    pub(crate) marks: Vec<bool>,
}

/// Whether each module is placed.
pub(crate) fn is_whole(placed: &Placed) -> bool
    ensures { result ≡ true → All (λ mark. mark ≡ true) placed.now.marks.items }
{
    placed.marks.iter().all(|mark| *mark)
}

// takes the least out of those that are ready
fn take_least(ready: &mut BTreeSet<u32>) -> Option<u32>
    ensures variant { IsSome result ↔ (0 < length ready.old.keys) }
    ensures removal { IfSome result (λ number. ready.old.keys ≡ number ∷ ready.new.keys) }
    ensures above { IfSome result (λ number. All (λ other. nat_cmp number other ≡ Less) ready.new.keys) }
{
    ready.pop_first()
}

// places the least module that is ready, until none is
fn place_ready(
    alloc: Global,
    uses: &[Vec<u32>],
    marks: &mut [bool],
    waiting: &mut [Vec<Entry>],
) -> Result<Vec<u32>, NoMemory>
    requires few { length uses.now < 2 ^ 32 }
    requires known { AreKnown (used_lists uses.now) }
    requires no_marks { marks.old ≡ replicate (length uses.now) false }
    requires places { length waiting.old ≡ length uses.now }
    requires no_waiters { All (λ list. list.items ≡ []) waiting.old }
    ensures { IfOk result (λ list. IsStuck (used_lists uses.now) list.items marks.new) }
{
    let mut ready = BTreeSet::new(alloc);
    settle_all(uses, marks, waiting, &mut ready)?;
    let mut list = Vec::new(alloc);
    'places: while let Some(number) = take_least(&mut ready) {
        mark(alloc, uses, marks, waiting, &mut ready, number)?;
        list.push(number)?;
    }
    Ok(list)
}

/// Places modules, the least ready one first, until none is ready.
pub(crate) fn place_all(alloc: Global, uses: &[Vec<u32>]) -> Result<Placed, NoMemory>
    requires few { length uses.now < 2 ^ 32 }
    requires known { AreKnown (used_lists uses.now) }
    ensures { IfOk result (λ placed. IsStuck (used_lists uses.now) placed.list.items placed.marks.items) }
{
    let mut marks = vec![in alloc; false; uses.len()]?;
    let mut waiting = empty_lists(alloc, uses.len())?;
    let list = place_ready(alloc, uses, &mut marks, &mut waiting)?;
    Ok(Placed { list, marks })
}
