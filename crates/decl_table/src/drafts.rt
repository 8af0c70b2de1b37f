//! All entities of a project in their order.

ghost use Rattle.std.specs.Prelude.{◌≡◌, map, IfOk};
ghost use Rattle.ftn_tree.specs.DeclaredEntities as spec;
ghost use Rattle.ftn_tree.specs.Extents.{scoping as scoping_of};
ghost use Rattle.ftn_tree.specs.Projects.{AreTrees};
ghost use Rattle.ftn_tree.specs.Sayings.{sayings};
ghost use Rattle.decl_table.specs.steps.Located.{IsScoping};
ghost use Rattle.decl_table.specs.steps.Drafts.{drafted_of};

use crate::blocks::{push_blank, push_blocks};
use crate::draft::Draft;
use crate::draft_order::in_order;
use crate::global_names::program_units;
use crate::name_drafts::push_names;
use crate::saying::Saying;
use crate::scoping::Scoping;
use crate::unit_drafts::push_units;
use ftn_base::NoMemory;
use ftn_tree::{FileTree, Mention};
use std::alloc::Global;

/// The entities that a project declares: units and procedures, what names of scoping units declare, common blocks, and blank common.
/// `said` and `own` are of each scoping unit, in their order, all that is said in it, and the names that occur in its own statements.
pub fn all_drafts<'a>(
    alloc: Global,
    files: &'a [FileTree],
    scoping: &Scoping,
    said: &[Vec<Saying<'a>>],
    own: &[Vec<Mention>],
) -> Result<Vec<Draft>, NoMemory>
    requires trees { AreTrees files.now }
    requires scoping { IsScoping files.now scoping.now }
    requires said { map (λ one. one.items) said.now ≡ map (sayings files.now) (scoping_of files.now) }
    requires own { map (λ one. one.items) own.now ≡ map (spec.own_mentions files.now) (scoping_of files.now) }
    ensures { IfOk result (λ made. map (drafted_of files.now) made.items ≡ spec.drafts files.now) }
{
    let mut found = Vec::new(alloc);
    push_units(files, scoping, said, &mut found)?;
    push_names(alloc, files, scoping, said, own, &mut found)?;
    let units = program_units(alloc, files, scoping)?;
    push_blocks(alloc, files, &units, &mut found)?;
    push_blank(files, &units, &mut found)?;
    Ok(found)
}

/// The entities that a project declares, by file and first token, blank common last. For each scoping unit, in their order, all that is
/// said in it, and the names that occur in its own statements.
pub fn drafts<'a>(
    alloc: Global,
    files: &'a [FileTree],
    scoping: &Scoping,
    said: &[Vec<Saying<'a>>],
    own: &[Vec<Mention>],
) -> Result<Vec<Draft>, NoMemory>
    requires trees { AreTrees files.now }
    requires scoping { IsScoping files.now scoping.now }
    requires said { map (λ one. one.items) said.now ≡ map (sayings files.now) (scoping_of files.now) }
    requires own { map (λ one. one.items) own.now ≡ map (spec.own_mentions files.now) (scoping_of files.now) }
    ensures { IfOk result (λ made. map (drafted_of files.now) made.items ≡ spec.in_order (spec.drafts files.now)) }
{
    let found = all_drafts(alloc, files, scoping, said, own)?;
    in_order(alloc, &found)
}
