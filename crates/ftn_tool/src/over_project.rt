//! Commands over the files of a project.

ghost use Rattle.std.specs.Prelude.{◌≡◌, None, true, IfOk};
ghost use Rattle.store_io.specs.Counts.{Rose};
ghost use Rattle.ftn_tree.specs.ProjectLimits.{limit_of};
ghost use Rattle.ftn_tool.specs.Answers.{Answers};
ghost use Rattle.ftn_tool.specs.Seen.{see};
ghost use Rattle.ftn_tool.specs.steps.Carrying.{IsDue, IsFit};
ghost use Rattle.ftn_tool.specs.steps.Fronts.{are_sources};

use crate::carry::{carry_out, say};
use crate::command::ProjectCommand;
use crate::judging::verdict_on;
use crate::lines::{PENDING, STORE_FAULT, limit_line, verdict_line};
use crate::project::{ProjectFault, project_files};
use crate::verdict::Verdict;
use ftn_base::{Bytes, FileName, NoMemory, Status};
use rename_ref::rename_keeps;
use std::alloc::Global;
use store_io::{Sink, Store};
use unit_parse::one_answer_per_text;

/// Carries out a command over the files of a project: reads them, writes the line of its answer and puts what is to be put.
pub fn carry_out_over_project<S: Store, O: Sink>(
    alloc: Global,
    command: &ProjectCommand,
    store: &mut S,
    out: &mut O,
) -> Status
    ensures { Answers command.now (see (S.files store.old) (S.files store.new) (O.taken out.old) (O.taken out.new) (S.faults store.old) (S.faults store.new) (O.faults out.old) (O.faults out.new) (O.wants out.old) (O.wants out.new)) result }
{
    rename_keeps();
    one_answer_per_text();
    let files = match project_files(alloc, store) {
        Ok(files) => files,
        Err(ProjectFault::Waiting) => return say(out, PENDING, Status::Pending),
        Err(ProjectFault::Past(limit)) => return say(out, limit_line(limit), Status::Limit),
        Err(ProjectFault::StoreFailed) => return say(out, STORE_FAULT, Status::StoreFault),
        Err(ProjectFault::NoMemory) => return Status::NoMemory,
    };
    match due(alloc, command, &files) {
        Ok((line, verdict)) => carry_out(alloc, store, out, line.bytes(), verdict),
        Err(_) => Status::NoMemory,
    }
}

/// The verdict that is due, and its line.
fn due(
    alloc: Global,
    command: &ProjectCommand,
    files: &[(FileName, Bytes)],
) -> Result<(Bytes, Verdict), NoMemory>
    requires limit { limit_of files.now ≡ None }
    requires sources { are_sources files.now ≡ true }
    ensures due { IfOk result (λ made. IsDue command.now files.now made.0 made.1) }
    ensures fit { IfOk result (λ made. IsFit made.1) }
{
    let verdict = verdict_on(alloc, command, files)?;
    let line = verdict_line(alloc, files, &verdict)?;
    Ok((line, verdict))
}
