//! Finding the plan file of a change that was stopped.

ghost use Rattle.std.specs.List.{list_any};
ghost use Rattle.std.specs.Ordering.{eq_by_cmp};
ghost use Rattle.std.specs.Prelude.{◌≡◌, ◌≤◌, IfOk, IfSome, IsErrOf, OnOk};
ghost use Rattle.ftn_base.specs.Files.{IsInOrder, by_name};
ghost use Rattle.store_io.specs.Counts.{Rose};
ghost use Rattle.plan_store.specs.Found.{HoldsValid, IsFound};
ghost use Rattle.plan_store.specs.Middle as spec;
ghost use Rattle.plan_store.specs.steps.Puts.{IsFoundIn};

use ftn_base::{FileName, NoMemory};
use plan_file::{Plan, PlanFault, read_plan};
use std::alloc::Global;
use store_io::{ListFault, ReadFault, Store};

/// How many bytes of a plan file are read.
const MOST_PLAN_BYTES: u32 = 20_971_520;

/// What a store has as plan file.
#[derive(Drop)]
pub enum Found {
    /// No plan file.
    Nothing,
    /// A file of more than 20971520 bytes.
    TooLong,
    /// Bytes that are no plan's text, with the offset of the first field that is broken or cut.
    Broken(u32),
    /// A plan.
    Planned(Plan),
}

/// Why it isn't known what a store has as plan file.
#[derive(Clone, Copy)]
pub enum FindFault {
    /// The store failed, and its count of faults rose.
    StoreFailed,
    /// There was no memory for a name or a text.
    NoMemory,
}

/// Whether that name is among these.
pub fn is_listed(names: &[FileName], name: &FileName) -> bool
    ensures { result ≡ list_any (eq_by_cmp by_name name.now) names.now }
{
    names.iter().any(|other| name.cmp(other).is_eq())
}

/// What the store has as plan file. The store is listed first; a plan file that is listed and can't be found counts as none.
pub fn find_plan<S: Store>(
    alloc: Global,
    store: &mut S,
    plan: &FileName,
) -> Result<Found, FindFault>
    requires { plan.now ≡ spec.plan_name }
    ensures found { IfOk result (λ found. IfSome (S.files store.old) (λ files. IsFound files found)) }
    ensures valid { IfOk result HoldsValid }
    ensures order { OnOk result (IfSome (S.files store.old) IsInOrder) }
    ensures same { S.files store.new ≡ S.files store.old }
    ensures later { S.faults store.old ≤ S.faults store.new }
    ensures failed { IsErrOf result FindFault.StoreFailed → Rose (S.faults store.old) (S.faults store.new) }
{
    let names = match store.list() {
        Ok(names) => names,
        Err(ListFault::Failed) => return Err(FindFault::StoreFailed),
        Err(ListFault::NoMemory) => return Err(FindFault::NoMemory),
    };
    if !is_listed(&names, plan) {
        return Ok(Found::Nothing);
    }
    read_found(alloc, store, plan)
}

/// What the plan file has.
fn read_found<S: Store>(alloc: Global, store: &mut S, plan: &FileName) -> Result<Found, FindFault>
    requires { plan.now ≡ spec.plan_name }
    ensures found { IfOk result (λ found. IfSome (S.files store.old) (λ files. IsFound files found)) }
    ensures valid { IfOk result HoldsValid }
    ensures same { S.files store.new ≡ S.files store.old }
    ensures later { S.faults store.old ≤ S.faults store.new }
    ensures failed { IsErrOf result FindFault.StoreFailed → Rose (S.faults store.old) (S.faults store.new) }
{
    match store.read(plan, MOST_PLAN_BYTES) {
        Ok(text) => match found_in(alloc, &text) {
            Ok(found) => Ok(found),
            Err(_) => Err(FindFault::NoMemory),
        },
        Err(ReadFault::Absent) => Ok(Found::Nothing),
        Err(ReadFault::Failed) => Err(FindFault::StoreFailed),
        Err(ReadFault::NoMemory) => Err(FindFault::NoMemory),
    }
}

/// What a plan file has whose first bytes are these, one more than may be read at the most.
fn found_in(alloc: Global, text: &[u8]) -> Result<Found, NoMemory>
    ensures found { IfOk result (IsFoundIn text.now) }
    ensures valid { IfOk result HoldsValid }
{
    if text.len() > MOST_PLAN_BYTES as usize {
        return Ok(Found::TooLong);
    }
    match read_plan(alloc, text) {
        Ok(plan) => Ok(Found::Planned(plan)),
        Err(PlanFault::NotAPlan(at)) => Ok(Found::Broken(at)),
        Err(PlanFault::NoMemory) => Err(NoMemory),
    }
}
