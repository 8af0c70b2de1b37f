//! Program units, external procedures and common blocks by name (Fortran 90, 11, 14.1.1).

ghost use Rattle.std.specs.Prelude.{◌≡◌, ◌&&◌, ◌||◌, ◌++◌, is_none, map, Some, IfOk, OnOk, ℕ, List};
ghost use Rattle.std.specs.List.{list_any};
ghost use Rattle.std.specs.Str.{bytes_eq};
ghost use Rattle.ftn_tree.specs.Meanings as meanings;
ghost use Rattle.ftn_tree.specs.Projects.{AreTrees};
ghost use Rattle.ftn_tree.specs.Scopes as scopes;
ghost use Rattle.decl_table.specs.steps.Located.{IsScoping};
ghost use Rattle.decl_table.specs.steps.Seen.{has_come};
ghost use Rattle.scope_bind.specs.steps.Globals as steps;
ghost use Rattle.scope_bind.specs.steps.Index as indexes;

use crate::candidates::{Sort, outer_candidates};
use crate::distinct::push_if;
use crate::index::{Candidate, Index, index};
use decl_table::block_names::{TokenAt, push_names};
use decl_table::forms::name_at;
use decl_table::global_names::program_units;
use decl_table::scoping::{Scoping, kind_of, scope_name, unit_at};
use decl_table::seen::{Seen, is_first};
use ftn_base::NoMemory;
use ftn_tree::{Extent, FileTree, ScopeKind};
use indexmap::IndexSet;
use std::alloc::Global;

/// What the names of a project are that belong to no scoping unit.
#[derive(Drop)]
pub(crate) struct Globals<'a> {
    /// The scoping units of external procedures.
    pub procedures: Index<'a>,
    /// The scoping units of external functions.
    pub functions: Index<'a>,
    /// The scoping units of the modules, by their numbers.
    pub modules: Vec<u32>,
    /// The numbers of modules by name.
    pub module_names: Index<'a>,
    /// The common blocks that have a name.
    pub blocks: Seen<'a>,
}

fn is_module(host: Option<u32>, kind: ScopeKind) -> bool
    ensures { result ≡ (is_none host && meanings.is_module kind) }
{
    host.is_none() && matches!(kind, ScopeKind::Module)
}

/// Adds the scoping unit of that number where it is a module.
fn push_module(
    files: &[FileTree],
    scoping: &Scoping,
    number: u32,
    modules: &mut Vec<u32>,
) -> Result<(), NoMemory>
    requires trees { AreTrees files.now }
    requires known { IsScoping files.now scoping.now }
    requires within { steps.IsNumber files.now number }
    ensures { OnOk result (modules.new.items ≡ modules.old.items ++ steps.module_at files.now number) }
{
    let (unit, body, host) = unit_at(files, scoping, number);
    let kind = kind_of(files, unit, body);
    push_if(is_module(host, kind), number, modules)?;
    Ok(())
}

/// The scoping units of the modules.
fn modules_of(alloc: Global, files: &[FileTree], scoping: &Scoping) -> Result<Vec<u32>, NoMemory>
    requires trees { AreTrees files.now }
    requires known { IsScoping files.now scoping.now }
    ensures { IfOk result (λ modules. map (λ (n : ℕ). Some n) modules.items ≡ map (scopes.scope_number files.now) (meanings.module_numbered files.now)) }
{
    let mut modules = Vec::new(alloc);
    for at in 0..scoping.units.len() {
        push_module(files, scoping, at as u32, &mut modules)?;
    }
    Ok(modules)
}

fn unit_of(files: &[FileTree], scoping: &Scoping, number: u32) -> Extent
    requires known { IsScoping files.now scoping.now }
    requires within { steps.IsNumber files.now number }
    ensures { result ≡ steps.unit_at files.now number }
{
    scoping.units[number as usize]
}

fn module_candidate<'a>(files: &'a [FileTree], scoping: &Scoping, number: u32) -> Candidate<'a>
    requires known { IsScoping files.now scoping.now }
    requires within { steps.IsNumber files.now number }
    ensures { result ≡ steps.module_candidate files.now (steps.unit_at files.now number) }
{
    Candidate {
        under: Some(0),
        name: scope_name(files, unit_of(files, scoping, number)),
    }
}

/// The names of modules.
fn module_candidates<'a>(
    alloc: Global,
    files: &'a [FileTree],
    scoping: &Scoping,
    modules: &[u32],
) -> Result<Vec<Candidate<'a>>, NoMemory>
    requires trees { AreTrees files.now }
    requires known { IsScoping files.now scoping.now }
    requires modules { map (λ (n : ℕ). Some n) modules.now ≡ map (scopes.scope_number files.now) (meanings.module_numbered files.now) }
    ensures { IfOk result (λ made. made.items ≡ map (steps.module_candidate files.now) (meanings.module_numbered files.now)) }
{
    let mut made = Vec::new(alloc);
    for number in modules {
        made.push(module_candidate(files, scoping, *number))?;
    }
    Ok(made)
}

fn put_name<'a>(files: &'a [FileTree], at: &TokenAt, seen: &mut Seen<'a>) -> Result<(), NoMemory>
    ensures { OnOk result ((name : List ℕ) → has_come seen.new name ≡ (bytes_eq (scopes.name_at files.now at.now.file at.now.token) name || has_come seen.old name)) }
{
    is_first(seen, name_at(files, at.file, at.token))?;
    Ok(())
}

/// The names that stand at these tokens.
fn names_at<'a>(
    alloc: Global,
    files: &'a [FileTree],
    tokens: &[TokenAt],
) -> Result<Seen<'a>, NoMemory>
    ensures { IfOk result (λ seen. (name : List ℕ) → has_come seen name ≡ list_any (λ at. bytes_eq (scopes.name_at files.now at.file at.token) name) tokens.now) }
{
    let mut seen: Seen<'a> = IndexSet::new(alloc);
    let mut at = tokens.len();
    while at > 0 {
        at -= 1;
        put_name(files, &tokens[at], &mut seen)?;
    }
    Ok(seen)
}

/// The common blocks that have a name.
fn blocks_of<'a>(
    alloc: Global,
    files: &'a [FileTree],
    scoping: &Scoping,
) -> Result<Seen<'a>, NoMemory>
    requires trees { AreTrees files.now }
    requires known { IsScoping files.now scoping.now }
    ensures { IfOk result (λ seen. (name : List ℕ) → has_come seen name ≡ steps.is_block files.now name) }
{
    let units = program_units(alloc, files, scoping)?;
    let mut tokens = Vec::new(alloc);
    push_names(alloc, files, &units, &mut tokens)?;
    names_at(alloc, files, &tokens)
}

/// The scoping units of the program units of a sort, by name.
fn units_named<'a>(
    alloc: Global,
    files: &'a [FileTree],
    scoping: &Scoping,
    sort: Sort,
) -> Result<Index<'a>, NoMemory>
    requires trees { AreTrees files.now }
    requires known { IsScoping files.now scoping.now }
    ensures { IfOk result (λ found. (name : List ℕ) → indexes.found_in found 0 name ≡ steps.unit_number files.now sort name) }
{
    let all = outer_candidates(alloc, files, scoping, sort)?;
    index(alloc, &all)
}

/// The numbers of modules by name.
fn modules_named<'a>(
    alloc: Global,
    files: &'a [FileTree],
    scoping: &Scoping,
    modules: &[u32],
) -> Result<Index<'a>, NoMemory>
    requires trees { AreTrees files.now }
    requires known { IsScoping files.now scoping.now }
    requires modules { map (λ (n : ℕ). Some n) modules.now ≡ map (scopes.scope_number files.now) (meanings.module_numbered files.now) }
    ensures { IfOk result (λ found. (name : List ℕ) → indexes.found_in found 0 name ≡ meanings.module_number files.now name) }
{
    let all = module_candidates(alloc, files, scoping, modules)?;
    index(alloc, &all)
}

/// What the names of a project are that belong to no scoping unit.
pub(crate) fn find_globals<'a>(
    alloc: Global,
    files: &'a [FileTree],
    scoping: &Scoping,
) -> Result<Globals<'a>, NoMemory>
    requires trees { AreTrees files.now }
    requires known { IsScoping files.now scoping.now }
    ensures { IfOk result (steps.AreGlobals files.now) }
{
    let procedures = units_named(alloc, files, scoping, Sort::Procedure)?;
    let functions = units_named(alloc, files, scoping, Sort::Function)?;
    let modules = modules_of(alloc, files, scoping)?;
    let module_names = modules_named(alloc, files, scoping, &modules)?;
    Ok(Globals {
        procedures,
        functions,
        modules,
        module_names,
        blocks: blocks_of(alloc, files, scoping)?,
    })
}
