//! Putting the files of a plan.

ghost use Rattle.std.specs.Option.{option_map};
ghost use Rattle.std.specs.Prelude.{◌≡◌, ◌+◌, ◌≤◌, length, IfOk, IsErr, OnErr, OnOk};
ghost use Rattle.store_io.specs.Counts.{Rose};
ghost use Rattle.store_io.specs.Told.{MayRemove, without_file};
ghost use Rattle.plan_store.specs.Middle as spec;
ghost use Rattle.plan_store.specs.Middle.{with_files, with_plan};
ghost use Rattle.plan_store.specs.steps.Puts.{Finishes, PutsFront, PutsPlan, finished};

use ftn_base::{Bytes, FileName, NoMemory};
use sqlite_items::Items;
use std::alloc::Global;
use store_io::{Failed, RemoveFault, Store};

/// The plan file of a change.
#[derive(Drop)]
pub struct PlanFile {
    /// Its name, to put it.
    pub name: FileName,
    /// Its text.
    pub text: Bytes,
    /// Its name, to take it away.
    pub away: FileName,
}

/// The name of the plan file. It fails where there is no memory.
pub fn plan_name(alloc: Global) -> Result<FileName, NoMemory>
    ensures { IfOk result (λ name. name ≡ spec.plan_name) }
{
    FileName::new(alloc, b"ftn.plan").map_err(|_| NoMemory)
}

// puts the files, one after another; each replace has its place
fn put_files<S: Store>(store: &mut S, files: Items<(FileName, Bytes)>) -> Result<(), Failed>
    requires { length files ≤ S.spare store.old }
    ensures put { OnOk result (S.files store.new ≡ option_map (with_files files) (S.files store.old)) }
    ensures part { OnErr result (PutsFront files (S.files store.old) (S.files store.new)) }
    ensures later { S.faults store.old ≤ S.faults store.new }
    ensures failed { IsErr result → Rose (S.faults store.old) (S.faults store.new) }
{
    let mut left = files;
    'files: while !left.is_empty() {
        let (name, text) = left.remove(0);
        store.replace(name, text.into_vec())?;
    }
    Ok(())
}

// takes the file away; where there is none, nothing is to be done
fn take_away<S: Store>(store: &mut S, name: &FileName) -> Result<(), Failed>
    ensures gone { OnOk result (S.files store.new ≡ option_map (without_file name.now) (S.files store.old)) }
    ensures kept { OnErr result (MayRemove name.now (S.files store.old) (S.files store.new)) }
    ensures later { S.faults store.old ≤ S.faults store.new }
    ensures failed { IsErr result → Rose (S.faults store.old) (S.faults store.new) }
{
    match store.remove(name) {
        Ok(()) => Ok(()),
        Err(RemoveFault::Absent) => Ok(()),
        Err(RemoveFault::Failed) => Err(Failed),
    }
}

/// Puts the files of a plan, one after another, and then takes the plan file away. It takes no memory.
pub fn finish<S: Store>(
    store: &mut S,
    plan: &FileName,
    files: Items<(FileName, Bytes)>,
) -> Result<(), Failed>
    requires name { plan.now ≡ spec.plan_name }
    requires room { length files ≤ S.spare store.old }
    ensures done { OnOk result (S.files store.new ≡ option_map (finished files) (S.files store.old)) }
    ensures part { OnErr result (Finishes files (S.files store.old) (S.files store.new)) }
    ensures later { S.faults store.old ≤ S.faults store.new }
    ensures failed { IsErr result → Rose (S.faults store.old) (S.faults store.new) }
{
    put_files(store, files)?;
    take_away(store, plan)
}

/// Puts the plan file, then the files of the plan, one after another, and then takes the plan file away. It takes no memory.
pub fn put_plan<S: Store>(
    store: &mut S,
    plan: PlanFile,
    files: Items<(FileName, Bytes)>,
) -> Result<(), Failed>
    requires name { plan.name ≡ spec.plan_name }
    requires away { plan.away ≡ spec.plan_name }
    requires room { length files + 1 ≤ S.spare store.old }
    ensures done { OnOk result (S.files store.new ≡ option_map (finished files) (option_map (with_plan plan.text) (S.files store.old))) }
    ensures part { OnErr result (PutsPlan plan.text files (S.files store.old) (S.files store.new)) }
    ensures later { S.faults store.old ≤ S.faults store.new }
    ensures failed { IsErr result → Rose (S.faults store.old) (S.faults store.new) }
{
    let PlanFile { name, text, away } = plan;
    store.replace(name, text.into_vec())?;
    finish(store, &away, files)
}
