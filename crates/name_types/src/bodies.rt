//! The external procedures that the interface bodies of each interface block name (Fortran 90, 12.3.2.1).

ghost use Rattle.std.specs.Prelude.{◌≡◌, ◌<◌, ◌&&◌, is_none, length, map, if◌then◌else◌, ℕ, List, None, Some, IfOk, OnOk};
ghost use Rattle.std.specs.List.{filter_map};
ghost use Rattle.ftn_tree.specs.Extents as spec;
ghost use Rattle.ftn_tree.specs.Meanings as meanings;
ghost use Rattle.ftn_tree.specs.Projects.{AreTrees};
ghost use Rattle.decl_table.specs.steps.Located.{IsScoping};
ghost use Rattle.const_value.specs.steps.Lists.{lists_of};
ghost use Rattle.name_types.specs.steps.Generics as steps;
ghost use Rattle.name_types.specs.steps.Index as indexes;

use crate::extents::Extents;
use crate::index::{Candidate, Index, found_in, index};
use decl_table::forms::is_interface;
use decl_table::scoping::{Scoping, kind_of, scope_name, unit_at};
use ftn_base::NoMemory;
use ftn_tree::{Extent, FileTree, ScopeKind};
use std::alloc::Global;

/// Something in an extent: the number of the extent, and its own number, where it has one.
#[derive(Clone, Copy)]
struct Placed {
    around: Option<u32>,
    number: Option<u32>,
}

/// Whether it is an external procedure.
fn is_outside(host: Option<u32>, kind: ScopeKind) -> bool
    ensures { result ≡ (is_none host && meanings.is_procedure kind) }
{
    host.is_none() && matches!(kind, ScopeKind::Subroutine | ScopeKind::Function)
}

fn under_if(counts: bool) -> Option<u32>
    ensures { result ≡ (if counts then Some 0 else None) }
{
    if counts { Some(0) } else { None }
}

fn outside_candidate<'a>(files: &'a [FileTree], scoping: &Scoping, number: u32) -> Candidate<'a>
    requires trees { AreTrees files.now }
    requires known { IsScoping files.now scoping.now }
    requires within { number < length (spec.scoping files.now) }
    ensures { result ≡ steps.outside_candidate files.now (steps.unit_at files.now number) }
{
    let (unit, body, host) = unit_at(files, scoping, number);
    let kind = kind_of(files, unit, body);
    Candidate {
        under: under_if(is_outside(host, kind)),
        name: scope_name(files, unit),
    }
}

/// Of each scoping unit whether it is an external procedure.
fn outside_candidates<'a>(
    alloc: Global,
    files: &'a [FileTree],
    scoping: &Scoping,
) -> Result<Vec<Candidate<'a>>, NoMemory>
    requires trees { AreTrees files.now }
    requires known { IsScoping files.now scoping.now }
    ensures { IfOk result (λ made. made.items ≡ map (steps.outside_candidate files.now) (spec.scoping files.now)) }
{
    let mut made = Vec::new(alloc);
    for at in 0..scoping.units.len() {
        made.push(outside_candidate(files, scoping, at as u32))?;
    }
    Ok(made)
}

/// The scoping units of external procedures, by name.
pub fn outside_index<'a>(
    alloc: Global,
    files: &'a [FileTree],
    scoping: &Scoping,
) -> Result<Index<'a>, NoMemory>
    requires trees { AreTrees files.now }
    requires known { IsScoping files.now scoping.now }
    ensures { IfOk result (λ found. (name : List ℕ) → indexes.found_in found 0 name ≡ steps.outside_number files.now name) }
{
    let all = outside_candidates(alloc, files, scoping)?;
    index(alloc, &all)
}

/// The external procedure that has the name of an extent, where that is no interface block.
fn outside_of(files: &[FileTree], outside: &Index<'_>, extent: Extent) -> Option<u32>
    requires { (name : List ℕ) → indexes.found_in outside.now 0 name ≡ steps.outside_number files.now name }
    ensures { result ≡ steps.outside_of files.now extent }
{
    if is_interface(files, extent) {
        None
    } else {
        found_in(outside, 0, scope_name(files, extent))
    }
}

/// Of each extent where it is, and the external procedure of its name.
fn placed_among(
    alloc: Global,
    files: &[FileTree],
    outside: &Index<'_>,
    extents: &Extents,
) -> Result<Vec<Placed>, NoMemory>
    requires outside { (name : List ℕ) → indexes.found_in outside.now 0 name ≡ steps.outside_number files.now name }
    requires all { extents.now.all.items ≡ spec.extents files.now }
    requires around { extents.now.around.items ≡ map (steps.around_number files.now) (spec.extents files.now) }
    ensures { IfOk result (λ made. made.items ≡ map (steps.placed_of files.now) (spec.extents files.now)) }
{
    let mut made = Vec::new(alloc);
    let mut at = 0;
    for extent in &extents.all {
        made.push(Placed {
            around: extents.around[at],
            number: outside_of(files, outside, *extent),
        })?;
        at += 1;
    }
    Ok(made)
}

fn empty_lists(alloc: Global, count: usize) -> Result<Vec<Vec<u32>>, NoMemory>
    ensures { IfOk result (λ lists. lists_of lists.items ≡ steps.none_of count) }
{
    let mut lists = Vec::new(alloc);
    for _number in 0..count {
        lists.push(Vec::new(alloc))?;
    }
    Ok(lists)
}

fn push_at(lists: &mut [Vec<u32>], at: usize, number: u32) -> Result<(), NoMemory>
    requires { at < length lists.old }
    ensures { OnOk result (lists_of lists.new ≡ steps.pushed_at (lists_of lists.old) at number) }
{
    lists[at].push(number)?;
    Ok(())
}

/// Puts a number on the list of what is around it.
fn push_placed(lists: &mut [Vec<u32>], one: Placed) -> Result<(), NoMemory>
    ensures { OnOk result (lists_of lists.new ≡ steps.with_placed (lists_of lists.old) one) }
{
    let Some(around) = one.around else {
        return Ok(());
    };
    let Some(number) = one.number else {
        return Ok(());
    };
    let at = around as usize;
    if at < lists.len() {
        push_at(lists, at, number)?;
    }
    Ok(())
}

/// For each of so many numbers what is in it.
fn lists_by(alloc: Global, count: usize, placed: &[Placed]) -> Result<Vec<Vec<u32>>, NoMemory>
    ensures sized { IfOk result (λ lists. length (lists_of lists.items) ≡ count) }
    ensures each { IfOk result (λ lists. (at : ℕ) → at < count → steps.list_at (lists_of lists.items) at ≡ filter_map (steps.in_place at) placed.now) }
{
    let mut lists = empty_lists(alloc, count)?;
    for one in placed {
        push_placed(&mut lists, *one)?;
    }
    Ok(lists)
}

/// Of each extent the external procedures that have the names of what is right in it.
pub fn bodies_of(
    alloc: Global,
    files: &[FileTree],
    scoping: &Scoping,
    extents: &Extents,
) -> Result<Vec<Vec<u32>>, NoMemory>
    requires trees { AreTrees files.now }
    requires known { IsScoping files.now scoping.now }
    requires all { extents.now.all.items ≡ spec.extents files.now }
    requires around { extents.now.around.items ≡ map (steps.around_number files.now) (spec.extents files.now) }
    ensures { IfOk result (λ lists. steps.AreBodies files.now (lists_of lists.items)) }
{
    let outside = outside_index(alloc, files, scoping)?;
    let placed = placed_among(alloc, files, &outside, extents)?;
    lists_by(alloc, extents.all.len(), &placed)
}
