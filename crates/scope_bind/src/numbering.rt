//! What provisional numbers of entities are found by: first come the scoping units; then the names of scoping units, the common blocks and
//! the intrinsic functions, each by the first occurrence of the name.

ghost use Rattle.std.specs.Prelude.{◌≡◌, map, IfOk, ℕ, List};
ghost use Rattle.ftn_tree.specs.DeclaredEntities.{tables_of, occurrences_of};
ghost use Rattle.ftn_tree.specs.Extents.{scoping as scoping_of};
ghost use Rattle.ftn_tree.specs.Projects.{AreTrees};
ghost use Rattle.decl_table.specs.steps.Located.{IsScoping};
ghost use Rattle.scope_bind.specs.steps.Globals.{inner_candidate};
ghost use Rattle.scope_bind.specs.steps.Index.{found_in, first_at};
ghost use Rattle.scope_bind.specs.steps.Numbering as steps;

use crate::candidates::{inner_candidates, name_candidates, own_candidates};
use crate::index::{Index, index};
use decl_table::scoping::Scoping;
use ftn_base::NoMemory;
use ftn_tree::{FileTree, Occurrence, Tables};
use std::alloc::Global;

/// What provisional numbers are found by.
#[derive(Drop)]
pub(crate) struct Numbering<'a> {
    /// The first occurrence of a name in a scoping unit.
    pub own: Index<'a>,
    /// The first occurrence of a name.
    pub names: Index<'a>,
    /// The procedures right inside scoping units.
    pub inner: Index<'a>,
    /// How many scoping units there are.
    pub units: u32,
    /// How many occurrences there are.
    pub occurrences: u32,
}

/// The first occurrences of names in scoping units.
fn own_index<'a>(
    alloc: Global,
    files: &[FileTree],
    occurrences: &'a [Occurrence],
) -> Result<Index<'a>, NoMemory>
    requires trees { AreTrees files.now }
    requires occurrences { occurrences.now ≡ occurrences_of files.now }
    ensures { IfOk result (λ found. (scope : ℕ) (name : List ℕ) → found_in found scope name ≡ steps.own_occurrence files.now scope name) }
{
    let all = own_candidates(alloc, occurrences)?;
    index(alloc, &all)
}

/// The first occurrences of names.
fn name_index<'a>(
    alloc: Global,
    files: &[FileTree],
    occurrences: &'a [Occurrence],
) -> Result<Index<'a>, NoMemory>
    requires trees { AreTrees files.now }
    requires occurrences { occurrences.now ≡ occurrences_of files.now }
    ensures { IfOk result (λ found. (name : List ℕ) → found_in found 0 name ≡ steps.name_occurrence files.now name) }
{
    let all = name_candidates(alloc, occurrences)?;
    index(alloc, &all)
}

/// The procedures right inside scoping units.
fn inner_index<'a>(
    alloc: Global,
    files: &'a [FileTree],
    scoping: &Scoping,
) -> Result<Index<'a>, NoMemory>
    requires trees { AreTrees files.now }
    requires known { IsScoping files.now scoping.now }
    ensures { IfOk result (λ found. (scope : ℕ) (name : List ℕ) → found_in found scope name ≡ first_at scope name (map (inner_candidate files.now) (scoping_of files.now))) }
{
    let all = inner_candidates(alloc, files, scoping)?;
    index(alloc, &all)
}

/// What the provisional numbers of a project are found by.
pub(crate) fn number_names<'a>(
    alloc: Global,
    files: &'a [FileTree],
    scoping: &Scoping,
    tables: &'a Tables,
) -> Result<Numbering<'a>, NoMemory>
    requires trees { AreTrees files.now }
    requires known { IsScoping files.now scoping.now }
    requires tables { tables.now ≡ tables_of files.now }
    ensures { IfOk result (steps.IsNumbering files.now) }
{
    let occurrences = tables.occurrences.as_slice();
    Ok(Numbering {
        own: own_index(alloc, files, occurrences)?,
        names: name_index(alloc, files, occurrences)?,
        inner: inner_index(alloc, files, scoping)?,
        units: scoping.units.len() as u32,
        occurrences: occurrences.len() as u32,
    })
}
