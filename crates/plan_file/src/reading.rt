//! Plans read from their text.

ghost use Rattle.std.specs.Prelude.{◌≡◌, ◌++◌, [], ◌∷◌, ◌≤◌, length, IfOk, IfErr, IsTrue, List};
ghost use Rattle.ftn_base.specs.Files.{File, IsInOrder};
ghost use Rattle.ftn_base.specs.Limits.{most_project_bytes};
ghost use Rattle.plan_file.specs.Fields as spec;
ghost use Rattle.plan_file.specs.steps.Next as next;
ghost use Rattle.plan_file.specs.Plans.{size_of};

use crate::fault::{PlanFault, Stop};
use crate::fields::{after, count_at, file_at, text_at};
use crate::plan::Plan;
use ftn_base::{Bytes, FileName, MOST_FILE_BYTES, MOST_FILES, MOST_PROJECT_BYTES, NameFault};
use sqlite_items::Items;
use std::alloc::Global;

/// Whether the name comes after the names of files in order.
fn is_later(files: &[(FileName, Bytes)], name: &FileName) -> bool
    requires { IsInOrder files.now }
    ensures { result ≡ next.are_before files.now name.now }
{
    match files.last() {
        None => true,
        Some(last) => last.0 < *name,
    }
}

/// Whether a file of that length and name may come after the files, whose texts have `total` bytes.
fn may_come(files: &[(FileName, Bytes)], total: u32, size: u32, name: &FileName) -> bool
    requires order { IsInOrder files.now }
    requires total { total ≡ size_of files.now }
    requires small { total ≤ most_project_bytes }
    ensures { result ≡ next.may_come files.now size name.now }
{
    name.is_source()
        && is_later(files, name)
        && size <= MOST_FILE_BYTES
        && total + size <= MOST_PROJECT_BYTES
}

/// The file that comes next joins the files, whose texts have `total` bytes. Gives its length, and the bytes after it.
fn next_file<'a>(
    alloc: Global,
    files: &mut Vec<(FileName, Bytes)>,
    total: u32,
    bytes: &'a [u8],
) -> Result<(u32, &'a [u8]), Stop>
    requires order { IsInOrder files.old.items }
    requires total { total ≡ size_of files.old.items }
    requires small { total ≤ most_project_bytes }
    ensures took { IfOk result (λ found. next.Takes files.old.items files.new.items bytes.now found.0 found.1.now) }
    ensures stopped { IfErr result (λ stop. next.Stops stop files.old.items bytes.now) }
{
    let Some((size, name, text)) = file_at(alloc, bytes)? else {
        return Err(Stop::Broken(bytes.len()));
    };
    let name = match FileName::new(alloc, name) {
        Ok(name) => name,
        Err(NameFault::NotAName) => return Err(Stop::Broken(bytes.len())),
        Err(NameFault::NoMemory) => return Err(Stop::NoMemory),
    };
    if !may_come(files, total, size, &name) {
        return Err(Stop::Broken(bytes.len()));
    }
    let Some((text, rest)) = text_at(text, size) else {
        return Err(Stop::Broken(text.len()));
    };
    files.push((name, Bytes::from_slice(alloc, text)?))?;
    Ok((size, rest))
}

/// The files of the plan whose text the bytes are.
fn read_files(alloc: Global, bytes: &[u8]) -> Result<Vec<(FileName, Bytes)>, Stop>
    ensures plan { IfOk result (λ files. spec.IsTextOf files.items bytes.now) }
    ensures stopped { IfErr result (λ stop. next.IsStopped stop bytes.now) }
{
    let Some(rest) = after(bytes, b"ftn-plan 1\n") else {
        return Err(Stop::Broken(bytes.len()));
    };
    let Some((count, mut left)) = count_at(alloc, rest)? else {
        return Err(Stop::Broken(rest.len()));
    };
    if count < 1 || MOST_FILES < count {
        return Err(Stop::Broken(rest.len()));
    }
    let mut files = Vec::new(alloc);
    let mut total = 0;
    'files: for _ in 0..count {
        let (size, after_file) = next_file(alloc, &mut files, total, left)?;
        total += size;
        left = after_file;
    }
    match after(left, b"end\n") {
        None => Err(Stop::Broken(left.len())),
        Some(more) => {
            if more.is_empty() {
                Ok(files)
            } else {
                Err(Stop::Broken(more.len()))
            }
        }
    }
}

/// The plan whose text the bytes are. `NotAPlan` comes exactly where they are the text of no valid plan, with the offset
/// of the first field that is broken or cut.
pub fn read_plan(alloc: Global, bytes: &[u8]) -> Result<Plan, PlanFault>
    ensures plan { IfOk result (λ plan. spec.IsTextOf plan.files bytes.now) }
    ensures only { IfOk result (λ plan. (files : List File) → spec.IsTextOf files bytes.now → files ≡ plan.files) }
    ensures fault { IfErr result (λ fault. spec.IsFault fault bytes.now) }
{
    match read_files(alloc, bytes) {
        Ok(files) => {
            let files = Items::from_vec(files);
            Ok(Plan { files })
        }
        Err(Stop::Broken(left)) => Err(PlanFault::NotAPlan((bytes.len() - left) as u32)),
        Err(Stop::NoMemory) => Err(PlanFault::NoMemory),
    }
}

/// The law that a plan's text in front of a plan's text is the whole of it, so that each text has one plan.
pub fn plan_texts_stay_apart()
    ensures { spec.NoProperFront }
{}
