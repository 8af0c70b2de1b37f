//! What names are looked up among: program units, procedures inside, and occurrences.

ghost use Rattle.std.specs.Prelude.{◌≡◌, ◌<◌, ◌&&◌, length, map, is_none, if◌then◌else◌, Some, None, IfOk};
ghost use Rattle.ftn_tree.specs.Extents.{scoping as scoping_of};
ghost use Rattle.ftn_tree.specs.Projects.{AreTrees};
ghost use Rattle.decl_table.specs.steps.Located.{IsScoping};
ghost use Rattle.scope_bind.specs.steps.Globals as steps;

use crate::index::Candidate;
use decl_table::scoping::{Scoping, kind_of, scope_name, unit_at};
use ftn_base::NoMemory;
use ftn_tree::{FileTree, Occurrence, ScopeKind};
use std::alloc::Global;

/// What program units are looked for.
#[derive(Clone, Copy)]
pub(crate) enum Sort {
    /// External procedures.
    Procedure,
    /// External functions.
    Function,
}

fn is_wanted(sort: Sort, kind: ScopeKind) -> bool
    ensures { result ≡ steps.wanted_by sort kind }
{
    match sort {
        Sort::Procedure => matches!(kind, ScopeKind::Subroutine | ScopeKind::Function),
        Sort::Function => matches!(kind, ScopeKind::Function),
    }
}

fn counts_as(sort: Sort, kind: ScopeKind, host: Option<u32>) -> bool
    ensures { result ≡ (is_none host && steps.wanted_by sort kind) }
{
    host.is_none() && is_wanted(sort, kind)
}

fn under_if(counts: bool) -> Option<u32>
    ensures { result ≡ (if counts then Some 0 else None) }
{
    if counts { Some(0) } else { None }
}

fn outer_candidate<'a>(
    files: &'a [FileTree],
    scoping: &Scoping,
    sort: Sort,
    number: u32,
) -> Candidate<'a>
    requires trees { AreTrees files.now }
    requires known { IsScoping files.now scoping.now }
    requires within { number < length (scoping_of files.now) }
    ensures { result ≡ steps.outer_candidate files.now sort (steps.unit_at files.now number) }
{
    let (unit, body, host) = unit_at(files, scoping, number);
    let kind = kind_of(files, unit, body);
    Candidate {
        under: under_if(counts_as(sort, kind, host)),
        name: scope_name(files, unit),
    }
}

/// Of each scoping unit whether it is a program unit of that sort.
pub(crate) fn outer_candidates<'a>(
    alloc: Global,
    files: &'a [FileTree],
    scoping: &Scoping,
    sort: Sort,
) -> Result<Vec<Candidate<'a>>, NoMemory>
    requires trees { AreTrees files.now }
    requires known { IsScoping files.now scoping.now }
    ensures { IfOk result (λ made. made.items ≡ map (steps.outer_candidate files.now sort) (scoping_of files.now)) }
{
    let mut made = Vec::new(alloc);
    for at in 0..scoping.units.len() {
        made.push(outer_candidate(files, scoping, sort, at as u32))?;
    }
    Ok(made)
}

fn under_host(body: bool, host: Option<u32>) -> Option<u32>
    ensures { result ≡ (if body then None else host) }
{
    if body { None } else { host }
}

fn inner_candidate<'a>(files: &'a [FileTree], scoping: &Scoping, number: u32) -> Candidate<'a>
    requires known { IsScoping files.now scoping.now }
    requires within { number < length (scoping_of files.now) }
    ensures { result ≡ steps.inner_candidate files.now (steps.unit_at files.now number) }
{
    let (unit, body, host) = unit_at(files, scoping, number);
    Candidate {
        under: under_host(body, host),
        name: scope_name(files, unit),
    }
}

/// Of each scoping unit whether it is a procedure right inside another one.
pub(crate) fn inner_candidates<'a>(
    alloc: Global,
    files: &'a [FileTree],
    scoping: &Scoping,
) -> Result<Vec<Candidate<'a>>, NoMemory>
    requires trees { AreTrees files.now }
    requires known { IsScoping files.now scoping.now }
    ensures { IfOk result (λ made. made.items ≡ map (steps.inner_candidate files.now) (scoping_of files.now)) }
{
    let mut made = Vec::new(alloc);
    for at in 0..scoping.units.len() {
        made.push(inner_candidate(files, scoping, at as u32))?;
    }
    Ok(made)
}

/// Each occurrence in its scoping unit.
pub(crate) fn own_candidates<'a>(
    alloc: Global,
    occurrences: &'a [Occurrence],
) -> Result<Vec<Candidate<'a>>, NoMemory>
    ensures { IfOk result (λ made. made.items ≡ map steps.own_candidate occurrences.now) }
{
    let mut made = Vec::new(alloc);
    for one in occurrences {
        made.push(Candidate {
            under: Some(one.scope),
            name: one.name.bytes(),
        })?;
    }
    Ok(made)
}

/// Each occurrence, wherever it is.
pub(crate) fn name_candidates<'a>(
    alloc: Global,
    occurrences: &'a [Occurrence],
) -> Result<Vec<Candidate<'a>>, NoMemory>
    ensures { IfOk result (λ made. made.items ≡ map steps.name_candidate occurrences.now) }
{
    let mut made = Vec::new(alloc);
    for one in occurrences {
        made.push(Candidate {
            under: Some(0),
            name: one.name.bytes(),
        })?;
    }
    Ok(made)
}
