//! Completing a change that was stopped.

ghost use Rattle.std.specs.Prelude.{◌≡◌, ◌≤◌, length};
ghost use Rattle.ftn_base.specs.Limits.{most_files};
ghost use Rattle.plan_store.specs.Found.{HoldsValid};
ghost use Rattle.plan_store.specs.Middle as middle;
ghost use Rattle.plan_store.specs.steps.Puts.{Finishes};
ghost use Rattle.ftn_tool.specs.Recovering.{Recovers};
ghost use Rattle.ftn_tool.specs.Seen.{see};
ghost use Rattle.ftn_tool.specs.steps.Carrying.{CarriesFound, IsFinished, Puts};

use crate::carry::{announce, say, tell};
use crate::lines::{STORE_FAULT, found_line};
use ftn_base::{Bytes, FileName, Status};
use plan_file::plan_texts_stay_apart;
use plan_store::{FindFault, Found, find_plan, finish, plan_name};
use sqlite_items::Items;
use std::alloc::Global;
use store_io::{Sink, Store};

/// Completes a change that was stopped: puts the files of the plan that its plan file has, and takes the plan file away. Without a
/// plan file it changes nothing.
pub fn recover<S: Store, O: Sink>(alloc: Global, store: &mut S, out: &mut O) -> Status
    ensures { Recovers (see (S.files store.old) (S.files store.new) (O.taken out.old) (O.taken out.new) (S.faults store.old) (S.faults store.new) (O.faults out.old) (O.faults out.new) (O.wants out.old) (O.wants out.new)) result }
{
    plan_texts_stay_apart();
    let Ok(plan) = plan_name(alloc) else {
        return Status::NoMemory;
    };
    let found = match find_plan(alloc, store, &plan) {
        Ok(found) => found,
        Err(FindFault::StoreFailed) => return say(out, STORE_FAULT, Status::StoreFault),
        Err(FindFault::NoMemory) => return Status::NoMemory,
    };
    match found_line(alloc, &found) {
        Ok(line) => carry_out_found(store, out, line.bytes(), &plan, found),
        Err(_) => Status::NoMemory,
    }
}

/// Carries out what is found of a plan file, whose line this is.
fn carry_out_found<S: Store, O: Sink>(
    store: &mut S,
    out: &mut O,
    line: &[u8],
    plan: &FileName,
    found: Found,
) -> Status
    requires name { plan.now ≡ middle.plan_name }
    requires valid { HoldsValid found }
    ensures { CarriesFound line.now found (see (S.files store.old) (S.files store.new) (O.taken out.old) (O.taken out.new) (S.faults store.old) (S.faults store.new) (O.faults out.old) (O.faults out.new) (O.wants out.old) (O.wants out.new)) result }
{
    match found {
        Found::Nothing => tell(out, line),
        Found::TooLong => say(out, line, Status::Limit),
        Found::Broken(_) => say(out, line, Status::BadProject),
        Found::Planned(planned) => complete(store, out, line, plan, planned.files),
    }
}

/// Writes the line, puts the files of a plan, and takes the plan file away. All memory is taken before the line is written.
fn complete<S: Store, O: Sink>(
    store: &mut S,
    out: &mut O,
    line: &[u8],
    plan: &FileName,
    files: Items<(FileName, Bytes)>,
) -> Status
    requires name { plan.now ≡ middle.plan_name }
    requires few { length files ≤ most_files }
    ensures { Puts line.now (IsFinished files) (Finishes files) (see (S.files store.old) (S.files store.new) (O.taken out.old) (O.taken out.new) (S.faults store.old) (S.faults store.new) (O.faults out.old) (O.faults out.new) (O.wants out.old) (O.wants out.new)) result }
{
    if store.prepare(files.len() as u32).is_err() {
        return Status::NoMemory;
    }
    if let Err(status) = announce(out, line) {
        return status;
    }
    match finish(store, plan, files) {
        Ok(()) => Status::Done,
        Err(_) => say(out, STORE_FAULT, Status::StoreFault),
    }
}
