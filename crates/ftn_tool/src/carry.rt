//! Carrying out a verdict on the store and the sink.

ghost use Rattle.std.specs.Prelude.{◌≡◌, ◌≤◌, [], ◌∷◌, true, length, IfErr, IfOk, OnErr, OnOk};
ghost use Rattle.ftn_base.specs.Files.{is_source};
ghost use Rattle.ftn_base.specs.Limits.{most_file_bytes};
ghost use Rattle.plan_file.specs.Plans.{IsPlan, plan_text};
ghost use Rattle.plan_store.specs.Middle as middle;
ghost use Rattle.store_io.specs.Counts.{Rose};
ghost use Rattle.store_io.specs.Told.{Takes, TakesFront};
ghost use Rattle.ftn_tool.specs.Seen.{see};
ghost use Rattle.ftn_tool.specs.steps.Carrying.{Announced, Carries, IsFit, IsSinkFault, PutsChange};

use crate::lines::STORE_FAULT;
use crate::verdict::Verdict;
use ftn_base::{Bytes, FileName, NoMemory, Status};
use plan_file::{Plan, write_plan};
use plan_store::{PlanFile, plan_name, put_plan};
use sqlite_items::Items;
use std::alloc::Global;
use store_io::{Sink, SinkFault, Store, write_all};

/// Carries out the verdict, whose line this is: writes the line, and puts the file that has a new text, if there is one.
pub fn carry_out<S: Store, O: Sink>(
    alloc: Global,
    store: &mut S,
    out: &mut O,
    line: &[u8],
    verdict: Verdict,
) -> Status
    requires { IsFit verdict }
    ensures carried { Carries line.now verdict (see (S.files store.old) (S.files store.new) (O.taken out.old) (O.taken out.new) (S.faults store.old) (S.faults store.new) (O.faults out.old) (O.faults out.new) (O.wants out.old) (O.wants out.new)) result }
    ensures later { S.faults store.old ≤ S.faults store.new }
{
    match verdict {
        Verdict::Waiting => say(out, line, Status::Pending),
        Verdict::Past(_) => say(out, line, Status::Limit),
        Verdict::Broken(_) | Verdict::NotBuilt => say(out, line, Status::BadProject),
        Verdict::Refused { .. } => say(out, line, Status::Refused),
        Verdict::Checked { .. } => tell(out, line),
        Verdict::Changed { name, text } => put_file(alloc, store, out, line, name, text),
    }
}

/// Writes the line as far as the sink takes it. The status stays, also where the line is cut.
pub fn say<O: Sink>(out: &mut O, line: &[u8], status: Status) -> Status
    ensures status { result ≡ status }
    ensures front { TakesFront line.now (O.taken out.old) (O.taken out.new) }
    ensures whole { (Rose (O.faults out.old) (O.faults out.new) → ⊥) → (Rose (O.wants out.old) (O.wants out.new) → ⊥) → Takes line.now (O.taken out.old) (O.taken out.new) }
    ensures later { O.faults out.old ≤ O.faults out.new }
    ensures wants_later { O.wants out.old ≤ O.wants out.new }
{
    let _ = write_all(out, line);
    status
}

/// Writes the line with which a command is carried out.
pub fn tell<O: Sink>(out: &mut O, line: &[u8]) -> Status
    ensures { Announced line.now (O.taken out.old) (O.taken out.new) (O.faults out.old) (O.faults out.new) result }
{
    match announce(out, line) {
        Ok(()) => Status::Done,
        Err(status) => status,
    }
}

/// Writes the line that comes before a change.
pub fn announce<O: Sink>(out: &mut O, line: &[u8]) -> Result<(), Status>
    ensures whole { OnOk result (Takes line.now (O.taken out.old) (O.taken out.new)) }
    ensures part { OnErr result (TakesFront line.now (O.taken out.old) (O.taken out.new)) }
    ensures fault { IfErr result (IsSinkFault (O.faults out.old) (O.faults out.new)) }
    ensures later { O.faults out.old ≤ O.faults out.new }
    ensures wants_later { O.wants out.old ≤ O.wants out.new }
{
    match write_all(out, line) {
        Ok(()) => Ok(()),
        Err(SinkFault::Failed) => Err(Status::OutputFault),
        Err(SinkFault::NoMemory) => Err(Status::NoMemory),
    }
}

/// Puts the file that has a new text.
fn put_file<S: Store, O: Sink>(
    alloc: Global,
    store: &mut S,
    out: &mut O,
    line: &[u8],
    name: FileName,
    text: Bytes,
) -> Status
    requires source { is_source name ≡ true }
    requires small { length text ≤ most_file_bytes }
    ensures put { PutsChange line.now ((name, text) ∷ []) (see (S.files store.old) (S.files store.new) (O.taken out.old) (O.taken out.new) (S.faults store.old) (S.faults store.new) (O.faults out.old) (O.faults out.new) (O.wants out.old) (O.wants out.new)) result }
    ensures later { S.faults store.old ≤ S.faults store.new }
{
    match one_file(alloc, name, text) {
        Ok(plan) => put_change(alloc, store, out, line, plan),
        Err(_) => Status::NoMemory,
    }
}

/// The plan of that one file.
fn one_file(alloc: Global, name: FileName, text: Bytes) -> Result<Plan, NoMemory>
    requires source { is_source name ≡ true }
    requires small { length text ≤ most_file_bytes }
    ensures files { IfOk result (λ plan. plan.files ≡ (name, text) ∷ []) }
    ensures valid { IfOk result (λ plan. IsPlan plan.files) }
{
    // its bytes are those of a file name
    let _ = name.bytes();
    let mut files = Items::new(alloc);
    files.push((name, text))?;
    Ok(Plan { files })
}

/// The plan file of a change.
fn plan_file_of(alloc: Global, plan: &Plan) -> Result<PlanFile, NoMemory>
    requires { IsPlan plan.now.files }
    ensures text { IfOk result (λ file. file.text ≡ plan_text plan.now.files) }
    ensures name { IfOk result (λ file. file.name ≡ middle.plan_name) }
    ensures away { IfOk result (λ file. file.away ≡ middle.plan_name) }
{
    let text = Bytes::from_vec(write_plan(alloc, plan)?);
    let name = plan_name(alloc)?;
    let away = plan_name(alloc)?;
    Ok(PlanFile { name, text, away })
}

/// Writes the line, and puts the files of the plan, with its text as plan file until all are put. All memory is taken before the line is written.
fn put_change<S: Store, O: Sink>(
    alloc: Global,
    store: &mut S,
    out: &mut O,
    line: &[u8],
    plan: Plan,
) -> Status
    requires { IsPlan plan.files }
    ensures put { PutsChange line.now plan.files (see (S.files store.old) (S.files store.new) (O.taken out.old) (O.taken out.new) (S.faults store.old) (S.faults store.new) (O.faults out.old) (O.faults out.new) (O.wants out.old) (O.wants out.new)) result }
    ensures later { S.faults store.old ≤ S.faults store.new }
{
    let Ok(file) = plan_file_of(alloc, &plan) else {
        return Status::NoMemory;
    };
    if store.prepare(plan.files.len() as u32 + 1).is_err() {
        return Status::NoMemory;
    }
    if let Err(status) = announce(out, line) {
        return status;
    }
    match put_plan(store, file, plan.files) {
        Ok(()) => Status::Done,
        Err(_) => say(out, STORE_FAULT, Status::StoreFault),
    }
}
