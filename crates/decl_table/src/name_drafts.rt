//! The names that the scoping units of a project declare.

ghost use Rattle.std.specs.Prelude.{◌≡◌, ◌++◌, map, OnOk};
ghost use Rattle.std.specs.List.{flat_map};
ghost use Rattle.ftn_tree.specs.DeclaredEntities.{drafts_in, own_mentions};
ghost use Rattle.ftn_tree.specs.Extents.{scoping as scoping_of};
ghost use Rattle.ftn_tree.specs.Projects.{AreTrees};
ghost use Rattle.ftn_tree.specs.Sayings.{sayings};
ghost use Rattle.decl_table.specs.steps.Located.{IsScoping};
ghost use Rattle.decl_table.specs.steps.Drafts.{drafted_of};

use crate::declared_names::push_declared;
use crate::draft::Draft;
use crate::saying::Saying;
use crate::scoping::Scoping;
use ftn_base::NoMemory;
use ftn_tree::{FileTree, Mention};
use std::alloc::Global;

/// Adds what the names of each scoping unit declare, where for each that is said in it, and those names occur in its own statements.
pub fn push_names<'a>(
    alloc: Global,
    files: &'a [FileTree],
    scoping: &Scoping,
    said: &[Vec<Saying<'a>>],
    own: &[Vec<Mention>],
    found: &mut Vec<Draft>,
) -> Result<(), NoMemory>
    requires trees { AreTrees files.now }
    requires scoping { IsScoping files.now scoping.now }
    requires said { map (λ one. one.items) said.now ≡ map (sayings files.now) (scoping_of files.now) }
    requires own { map (λ one. one.items) own.now ≡ map (own_mentions files.now) (scoping_of files.now) }
    ensures { OnOk result (map (drafted_of files.now) found.new.items ≡ map (drafted_of files.now) found.old.items
        ++ flat_map (drafts_in files.now) (scoping_of files.now)) }
{
    let mut number = 0;
    for unit in &scoping.units {
        let at = number as usize;
        push_declared(alloc, files, *unit, number, &said[at], &own[at], found)?;
        number += 1;
    }
    Ok(())
}
