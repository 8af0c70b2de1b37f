//! The trees of a project, or its first fault.

ghost use Rattle.std.specs.List.{All};
ghost use Rattle.std.specs.Prelude.{◌≡◌, ◌≤◌, ◌<◌, ◌^◌, Err, None, Some, length, IfErr, IfOk, IsOk};
ghost use Rattle.ftn_base.specs.Limits.{most_file_bytes, most_files};
ghost use Rattle.ftn_base.specs.declared.fault.Fault.{Fault};
ghost use Rattle.ftn_tree.specs.FileFaults.{IsTreeOf};
ghost use Rattle.ftn_tree.specs.ProjectLimits.{limit_of};
ghost use Rattle.ftn_tree.specs.Projects.{AreTrees};
ghost use Rattle.ftn_tree.specs.declared.table.TableFault.TheVariants as table_fault;
ghost use Rattle.ftn_tool.specs.BuiltFaults.{AreTreesOf, AreSoundTrees, built_fault};
ghost use Rattle.ftn_tool.specs.steps.Found as spec;
ghost use Rattle.ftn_tool.specs.steps.Fronts.{IsSmall};

use const_value::values;
use decl_table::declare;
use free_scan::{ScanFault, scan};
use ftn_base::{Bytes, Edition, Fault, FileName, Range, Span, Steps};
use ftn_tree::{FileTree, TableFault};
use scope_bind::bind;
use std::alloc::Global;
use unit_parse::{ParseFault, parse};

/// The trees of these files, in their order, or the first fault of the project.
pub fn sound_trees(
    alloc: Global,
    files: &[(FileName, Bytes)],
    edition: Edition,
) -> Result<Vec<FileTree>, TableFault>
    requires { limit_of files.now ≡ None }
    ensures trees { IfOk result (λ trees. AreSoundTrees edition files.now trees.items) }
    ensures fault { IfErr result (spec.IsTold edition files.now) }
{
    let trees = read_trees(alloc, files, edition)?;
    take_stages(alloc, &trees)?;
    Ok(trees)
}

/// Takes the stages that come after the reading of files, as far as they are built, one after another: declarations; modules and names; constants
/// and shapes.
fn take_stages(alloc: Global, trees: &[FileTree]) -> Result<(), TableFault>
    requires { AreTrees trees.now }
    ensures sound { IsOk result → built_fault trees.now ≡ None }
    ensures fault { (f : Fault) → result ≡ Err (table_fault.Project f) → built_fault trees.now ≡ Some f }
{
    let tables = declare(alloc, trees)?;
    let bound = bind(alloc, trees, tables)?;
    let _values = values(alloc, trees, &bound)?;
    Ok(())
}

/// The trees of these files, in their order, or the first fault of the first that has none.
fn read_trees(
    alloc: Global,
    files: &[(FileName, Bytes)],
    edition: Edition,
) -> Result<Vec<FileTree>, TableFault>
    requires few { length files.now ≤ most_files }
    requires small { All IsSmall files.now }
    ensures trees { IfOk result (λ trees. AreTreesOf edition files.now trees.items) }
    ensures fault { IfErr result (spec.IsToldUnread edition files.now) }
{
    let mut trees = Vec::new(alloc);
    'files: for file in files {
        match tree_of(alloc, file.1.bytes(), edition) {
            Ok(tree) => trees.push(tree)?,
            Err(fault) => return Err(fault_in(trees.len(), fault)),
        }
    }
    Ok(trees)
}

/// Why the file of that number isn't read.
fn fault_in(file: usize, fault: ParseFault) -> TableFault
    requires { file < 2 ^ 32 }
    ensures { result ≡ spec.told_in file fault }
{
    match fault {
        ParseFault::At { kind, range } => TableFault::Project(Fault {
            kind,
            span: Some(Span {
                file: file as u32,
                range,
            }),
            other: None,
        }),
        ParseFault::NoMemory => TableFault::NoMemory,
    }
}

/// The tree of a text, or its first fault and the bytes of that: those of a statement's first token, or the one at which the text
/// breaks a rule of source form (Fortran 90, 3.3, and the rules of statements and program units).
fn tree_of(alloc: Global, text: &[u8], edition: Edition) -> Result<FileTree, ParseFault>
    requires { length text.now ≤ most_file_bytes }
    ensures tree { IfOk result (IsTreeOf edition text.now) }
    ensures fault { IfErr result (spec.IsUnread edition text.now) }
{
    let mut steps = Steps::new(());
    match scan(alloc, text, edition, &mut steps) {
        Ok(tokens) => parse(alloc, tokens),
        Err(ScanFault::At { kind, at }) => Err(ParseFault::At {
            kind,
            range: Range {
                start: at,
                end: at + 1,
            },
        }),
        Err(ScanFault::NoMemory) => Err(ParseFault::NoMemory),
    }
}
