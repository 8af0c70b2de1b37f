//! Modules that wait for one that they use, and modules that are ready.

ghost use Rattle.std.specs.Prelude.{◌≡◌, ◌<◌, ◌⊎◌, ◌^◌, ℕ, [], length, true, All, Contains, OnOk, slice_set};
ghost use Rattle.ftn_base.specs.ModuleUses.{AreKnown, used_by};
ghost use Rattle.module_graph.specs.Uses.{used_lists};
ghost use Rattle.module_graph.specs.steps.Marks.{IsEntry, IsUnmarked};
ghost use Rattle.module_graph.specs.steps.Waiting.{AreCovered, IsCovered, IsSettled, IsSound, IsTaken, waiter_lists, waiters_on};

use crate::entries::{Entry, list_of, next_open};
use ftn_base::NoMemory;
use std::alloc::Global;
use std::collections::BTreeSet;

// adds a number to those that are ready
fn add(ready: &mut BTreeSet<u32>, number: u32) -> Result<(), NoMemory>
    ensures here { OnOk result (Contains ready.new.keys number) }
    ensures kept { OnOk result ((other : ℕ) → Contains ready.old.keys other → Contains ready.new.keys other) }
    ensures only { OnOk result ((other : ℕ) → Contains ready.new.keys other → (other ≡ number) ⊎ Contains ready.old.keys other) }
{
    let _is_new = ready.insert(number)?;
    Ok(())
}

// a module without a mark waits for the next that it uses and that has none, or it is ready
fn settle(
    uses: &[Vec<u32>],
    marks: &[bool],
    waiting: &mut [Vec<Entry>],
    ready: &mut BTreeSet<u32>,
    waiter: Entry,
) -> Result<(), NoMemory>
    requires known { AreKnown (used_lists uses.now) }
    requires sized { length marks.now ≡ length uses.now }
    requires places { length waiting.old ≡ length uses.now }
    requires user { waiter.user < length uses.now }
    requires woken { IsEntry (used_lists uses.now) marks.now waiter }
    requires sound { IsSound (used_lists uses.now) marks.now (waiter_lists waiting.old) ready.old.keys }
    ensures { OnOk result (IsSettled (used_lists uses.now) marks.now (waiter_lists waiting.old) ready.old.keys (waiter_lists waiting.new) ready.new.keys waiter.user) }
{
    if marks[waiter.user as usize] {
        return Ok(());
    }
    let list = list_of(uses, waiter.user);
    match next_open(list, waiter.at, marks) {
        Some(at) => {
            let used = list[at];
            waiting[used as usize].push(Entry {
                user: waiter.user,
                at,
            })?;
            Ok(())
        }
        None => {
            add(ready, waiter.user)?;
            Ok(())
        }
    }
}

/// Lets each module wait or be ready, while none has a mark.
pub(crate) fn settle_all(
    uses: &[Vec<u32>],
    marks: &[bool],
    waiting: &mut [Vec<Entry>],
    ready: &mut BTreeSet<u32>,
) -> Result<(), NoMemory>
    requires few { length uses.now < 2 ^ 32 }
    requires known { AreKnown (used_lists uses.now) }
    requires sized { length marks.now ≡ length uses.now }
    requires places { length waiting.old ≡ length uses.now }
    requires no_marks { (number : ℕ) → IsUnmarked marks.now number }
    requires sound { IsSound (used_lists uses.now) marks.now (waiter_lists waiting.old) ready.old.keys }
    ensures sound { OnOk result (IsSound (used_lists uses.now) marks.now (waiter_lists waiting.new) ready.new.keys) }
    ensures covered { OnOk result (AreCovered (used_lists uses.now) marks.now (waiter_lists waiting.new) ready.new.keys) }
{
    for user in 0..uses.len() as u32 {
        settle(uses, marks, waiting, ready, Entry { user, at: 0 })?;
    }
    Ok(())
}

// lets each of these modules that has no mark wait again or be ready
fn wake(
    uses: &[Vec<u32>],
    marks: &[bool],
    waiting: &mut [Vec<Entry>],
    ready: &mut BTreeSet<u32>,
    woken: &[Entry],
) -> Result<(), NoMemory>
    requires known { AreKnown (used_lists uses.now) }
    requires sized { length marks.now ≡ length uses.now }
    requires places { length waiting.old ≡ length uses.now }
    requires woken { All (IsEntry (used_lists uses.now) marks.now) woken.now }
    requires sound { IsSound (used_lists uses.now) marks.now (waiter_lists waiting.old) ready.old.keys }
    ensures sound { OnOk result (IsSound (used_lists uses.now) marks.now (waiter_lists waiting.new) ready.new.keys) }
    ensures kept { OnOk result ((number : ℕ) → IsCovered marks.now (waiter_lists waiting.old) ready.old.keys number → IsCovered marks.now (waiter_lists waiting.new) ready.new.keys number) }
    ensures here { OnOk result (All (λ waiter. IsUnmarked marks.now waiter.user → IsCovered marks.now (waiter_lists waiting.new) ready.new.keys waiter.user) woken.now) }
{
    for waiter in woken {
        settle(uses, marks, waiting, ready, *waiter)?;
    }
    Ok(())
}

// takes out the list of those that wait for this module
fn take_waiters(alloc: Global, waiting: &mut [Vec<Entry>], number: u32) -> Vec<Entry>
    requires { number < length waiting.old }
    ensures taken { result.items ≡ waiters_on (waiter_lists waiting.old) number }
    ensures left { waiter_lists waiting.new ≡ slice_set (waiter_lists waiting.old) number [] }
{
    std::mem::replace(&mut waiting[number as usize], Vec::new(alloc))
}

/// Marks a module that was ready, and wakes those that wait for it.
pub(crate) fn mark(
    alloc: Global,
    uses: &[Vec<u32>],
    marks: &mut [bool],
    waiting: &mut [Vec<Entry>],
    ready: &mut BTreeSet<u32>,
    number: u32,
) -> Result<(), NoMemory>
    requires known { AreKnown (used_lists uses.now) }
    requires sized { length marks.old ≡ length uses.now }
    requires places { length waiting.old ≡ length uses.now }
    requires taken { IsTaken (used_lists uses.now) marks.old (waiter_lists waiting.old) ready.old.keys number }
    ensures marks { OnOk result (marks.new ≡ slice_set marks.old number true) }
    ensures sound { OnOk result (IsSound (used_lists uses.now) marks.new (waiter_lists waiting.new) ready.new.keys) }
    ensures covered { OnOk result (AreCovered (used_lists uses.now) marks.new (waiter_lists waiting.new) ready.new.keys) }
{
    marks[number as usize] = true;
    let woken = take_waiters(alloc, waiting, number);
    wake(uses, marks, waiting, ready, &woken)?;
    Ok(())
}
