//! What becomes of a command over the files of a project.

ghost use Rattle.std.specs.Option.{option_map};
ghost use Rattle.std.specs.Prelude.{◌≡◌, ◌≤◌, ◌<◌, ◌^◌, ◌∷◌, [], None, length, IfOk};
ghost use Rattle.ftn_base.specs.Limits.{most_files};
ghost use Rattle.ftn_tree.specs.ProjectLimits.{limit_of};
ghost use Rattle.ftn_tool.specs.BuiltFaults.{units_of};
ghost use Rattle.ftn_tool.specs.Commands.{rename_in};
ghost use Rattle.ftn_tool.specs.Verdicts.{Gives, GivesOrder, checked, first_point, verdict_of};

use crate::checking::sound_trees;
use crate::command::{Order, ProjectCommand, Request};
use crate::verdict::{Point, Verdict};
use free_scan::first_form::read_first_form;
use ftn_base::{Bytes, FileName, MOST_FIRST_FORM_BYTES, NoMemory};
use ftn_tree::{FileTree, TableFault};
use rename_ref::{Judgement, Rename, judge};
use std::alloc::Global;

/// The verdict on the command, where these are the project's files and pass no limit.
pub fn verdict_on(
    alloc: Global,
    command: &ProjectCommand,
    files: &[(FileName, Bytes)],
) -> Result<Verdict, NoMemory>
    requires { limit_of files.now ≡ None }
    ensures { IfOk result (Gives command.now files.now) }
{
    let trees = match sound_trees(alloc, files, command.edition()) {
        Ok(trees) => trees,
        Err(TableFault::Project(fault)) => return Ok(Verdict::Broken(fault)),
        Err(TableFault::NoMemory) => return Err(NoMemory),
    };
    match command {
        ProjectCommand::Ask(Request::Check, _) => Ok(checked(files.len(), &trees)),
        ProjectCommand::Apply(order, _) => verdict_on_order(alloc, order, files),
    }
}

/// What `check` finds of a project of so many files, of these trees.
fn checked(files: usize, trees: &[FileTree]) -> Verdict
    requires few { files ≤ most_files }
    requires small { units_of trees.now < 2 ^ 32 }
    ensures { result ≡ checked files (units_of trees.now) }
{
    Verdict::Checked {
        files: files as u32,
        units: count_units(trees),
    }
}

/// How many program units there are in these files.
fn count_units(trees: &[FileTree]) -> u32
    requires { units_of trees.now < 2 ^ 32 }
    ensures { result ≡ units_of trees.now }
{
    let mut count = 0;
    'trees: for tree in trees {
        count += tree.units.len() as u32;
    }
    count
}

/// The verdict on the order over the files of a project without a fault.
fn verdict_on_order(
    alloc: Global,
    order: &Order,
    files: &[(FileName, Bytes)],
) -> Result<Verdict, NoMemory>
    ensures { IfOk result (GivesOrder (rename_in order.now) files.now) }
{
    match order {
        Order::Rename(rename) => verdict_on_rename(alloc, rename, files),
    }
}

/// The verdict on a rename: it is judged over the one file of a project in first form.
fn verdict_on_rename(
    alloc: Global,
    order: &Rename,
    files: &[(FileName, Bytes)],
) -> Result<Verdict, NoMemory>
    ensures { IfOk result (GivesOrder order.now files.now) }
{
    if files.len() != 1 {
        return Ok(Verdict::NotBuilt);
    }
    verdict_on_file(alloc, order, &files[0].0, files[0].1.bytes())
}

/// The verdict on the order over the one file of a project, of this name and text.
fn verdict_on_file(
    alloc: Global,
    order: &Rename,
    name: &FileName,
    text: &[u8],
) -> Result<Verdict, NoMemory>
    ensures { IfOk result (GivesOrder order.now ((name.now, text.now) ∷ [])) }
{
    if text.len() > MOST_FIRST_FORM_BYTES as usize {
        return Ok(Verdict::NotBuilt);
    }
    let Some(form) = read_first_form(alloc, text)? else {
        return Ok(Verdict::NotBuilt);
    };
    let judgement = judge(alloc, order, name, text, form.tokens.as_slice())?;
    judged(alloc, name, judgement)
}

/// The verdict where the order is judged so over the one file of a project, of this name.
fn judged(alloc: Global, name: &FileName, judgement: Judgement) -> Result<Verdict, NoMemory>
    ensures { IfOk result (λ verdict. verdict ≡ verdict_of name.now judgement) }
{
    match judgement {
        Judgement::Refuse { cond, at } => Ok(Verdict::Refused {
            cond,
            at: point_at(at),
        }),
        Judgement::Accept(text) => Ok(Verdict::Changed {
            name: name.copy(alloc)?,
            text,
        }),
    }
}

/// That byte of the first file.
fn point_at(at: Option<u32>) -> Option<Point>
    ensures { result ≡ option_map first_point at }
{
    match at {
        None => None,
        Some(at) => Some(Point { file: 0, at }),
    }
}
