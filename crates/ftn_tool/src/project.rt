//! The files of a project.

ghost use Rattle.std.specs.List.{filter};
ghost use Rattle.std.specs.Prelude.{◌≡◌, ◌≤◌, ◌++◌, ◌∷◌, [], List, None, true, length, map, IfErr, IfOk, IfSome, IsErrOf, OnOk};
ghost use Rattle.ftn_base.specs.Files.{File, IsInOrder, is_source, project};
ghost use Rattle.ftn_base.specs.Limits.{most_project_bytes};
ghost use Rattle.plan_store.specs.Middle.{HasNoPlan};
ghost use Rattle.store_io.specs.Counts.{Rose};
ghost use Rattle.ftn_tree.specs.ProjectLimits.{limit_of, past_bytes};
ghost use Rattle.ftn_tool.specs.steps.Fronts as spec;

use crate::order::put_in_order;
use ftn_base::{Bytes, FileName, Limit, MOST_FILE_BYTES, MOST_FILES, MOST_PROJECT_BYTES};
use plan_store::{is_listed, plan_name};
use std::alloc::Global;
use store_io::{ListFault, ReadFault, Store};

/// Why a project could not be read.
#[derive(Clone, Copy)]
pub enum ProjectFault {
    /// A plan file waits for recovery.
    Waiting,
    /// The project passes this limit.
    Past(Limit),
    /// The store failed, and its count of faults rose.
    StoreFailed,
    /// There was no memory for a name or a text.
    NoMemory,
}

/// The names and texts of the project files of the store, in byte order of names, each once: a store that doesn't tell
/// its files may list them in any order, and more than once. It fails where a plan file is listed, and then at the first limit
/// that they pass: how many they are is counted before any is read, and each file is measured when it is read,
/// first by itself and then with those before it.
pub fn project_files<S: Store>(
    alloc: Global,
    store: &mut S,
) -> Result<Vec<(FileName, Bytes)>, ProjectFault>
    ensures files { IfOk result (λ found. IfSome (S.files store.old) (λ files. found.items ≡ map spec.front_of (project files))) }
    ensures within { IfOk result (λ found. limit_of found.items ≡ None) }
    ensures sources { IfOk result (λ found. spec.are_sources found.items ≡ true) }
    ensures planless { OnOk result (IfSome (S.files store.old) HasNoPlan) }
    ensures stopped { IfErr result (λ fault. IfSome (S.files store.old) (spec.IsStopped fault)) }
    ensures order { OnOk result (IfSome (S.files store.old) IsInOrder) }
    ensures same { S.files store.new ≡ S.files store.old }
    ensures later { S.faults store.old ≤ S.faults store.new }
    ensures failed { IsErrOf result ProjectFault.StoreFailed → Rose (S.faults store.old) (S.faults store.new) }
{
    let Ok(plan) = plan_name(alloc) else {
        return Err(ProjectFault::NoMemory);
    };
    let mut names = match store.list() {
        Ok(names) => names,
        Err(ListFault::Failed) => return Err(ProjectFault::StoreFailed),
        Err(ListFault::NoMemory) => return Err(ProjectFault::NoMemory),
    };
    if is_listed(&names, &plan) {
        return Err(ProjectFault::Waiting);
    }
    put_in_order(&mut names);
    if count_sources(&names) > MOST_FILES as usize {
        return Err(ProjectFault::Past(Limit::Files));
    }
    read_files(alloc, store, &names)
}

/// How many of these are names of project files.
fn count_sources(names: &[FileName]) -> usize
    ensures { result ≡ length (filter is_source names.now) }
{
    names.iter().filter(|name| name.is_source()).count()
}

/// Those of these files that are project files and are there.
#[tactic(auto, using(crate::proofs::ProjectFiles::sources_more))]
fn read_files<S: Store>(
    alloc: Global,
    store: &mut S,
    names: &[FileName],
) -> Result<Vec<(FileName, Bytes)>, ProjectFault>
    ensures files { IfOk result (λ found. IfSome (S.files store.old) (λ files. found.items ≡ spec.fronts files names.now)) }
    ensures sources { IfOk result (λ found. spec.are_sources found.items ≡ true) }
    ensures few { IfOk result (λ found. length found.items ≤ length (filter is_source names.now)) }
    ensures within { IfOk result (λ found. past_bytes 0 found.items ≡ None) }
    ensures past { IfErr result (λ fault. IfSome (S.files store.old) (λ files. spec.IsPassed (past_bytes 0 (spec.fronts files names.now)) fault)) }
    ensures same { S.files store.new ≡ S.files store.old }
    ensures later { S.faults store.old ≤ S.faults store.new }
    ensures failed { IsErrOf result ProjectFault.StoreFailed → Rose (S.faults store.old) (S.faults store.new) }
{
    let mut files = Vec::new(alloc);
    let mut size = 0;
    'names: for name in names {
        if let Some(text) = source_text(store, name)? {
            size = add_file(alloc, &mut files, size, name, text)?;
        }
    }
    Ok(files)
}

/// Adds a file to those before it, whose texts have so many bytes all together, and gives how many bytes there
/// are with it.
fn add_file(
    alloc: Global,
    files: &mut Vec<(FileName, Bytes)>,
    before: usize,
    name: &FileName,
    text: Bytes,
) -> Result<usize, ProjectFault>
    requires { before ≤ most_project_bytes }
    ensures added { OnOk result (files.new.items ≡ files.old.items ++ (name.now, text) ∷ []) }
    ensures measured { IfOk result (λ size. (rest : List File) → past_bytes before ((name.now, text) ∷ rest) ≡ past_bytes size rest) }
    ensures room { IfOk result (λ size. size ≤ most_project_bytes) }
    ensures past { IfErr result (λ fault. (rest : List File) → spec.IsPassed (past_bytes before ((name.now, text) ∷ rest)) fault) }
    ensures not_failed { IsErrOf result ProjectFault.StoreFailed → ⊥ }
{
    let size = match size_with(before, text.bytes()) {
        Ok(size) => size,
        Err(limit) => return Err(ProjectFault::Past(limit)),
    };
    let name = name.copy(alloc).map_err(|_| ProjectFault::NoMemory)?;
    files
        .push((name, text))
        .map_err(|_| ProjectFault::NoMemory)?;
    Ok(size)
}

/// How many bytes there are with this text, or the limit that it passes.
fn size_with(before: usize, text: &[u8]) -> Result<usize, Limit>
    requires { before ≤ most_project_bytes }
    ensures { result ≡ spec.size_with before text.now }
{
    if text.len() > MOST_FILE_BYTES as usize {
        return Err(Limit::File);
    }
    let size = before + text.len();
    if size > MOST_PROJECT_BYTES as usize {
        return Err(Limit::Project);
    }
    Ok(size)
}

/// The front of the text of that file, or nothing where it is no project file or isn't there.
fn source_text<S: Store>(store: &mut S, name: &FileName) -> Result<Option<Bytes>, ProjectFault>
    ensures found { IfOk result (λ found. IfSome (S.files store.old) (λ files. found ≡ spec.source_front files name.now)) }
    ensures source { IfOk result (λ found. IfSome found (λ text. is_source name.now ≡ true)) }
    ensures not_past { IfErr result spec.IsNoLimit }
    ensures same { S.files store.new ≡ S.files store.old }
    ensures later { S.faults store.old ≤ S.faults store.new }
    ensures failed { IsErrOf result ProjectFault.StoreFailed → Rose (S.faults store.old) (S.faults store.new) }
{
    if !name.is_source() {
        return Ok(None);
    }
    match store.read(name, MOST_FILE_BYTES) {
        Ok(text) => Ok(Some(Bytes::from_vec(text))),
        Err(ReadFault::Absent) => Ok(None),
        Err(ReadFault::Failed) => Err(ProjectFault::StoreFailed),
        Err(ReadFault::NoMemory) => Err(ProjectFault::NoMemory),
    }
}
