//! The declared entities of a project.

ghost use Rattle.std.specs.Prelude.{◌≡◌, map, IfOk};
ghost use Rattle.std.specs.Option.{option_map};
ghost use Rattle.ftn_tree.specs.DeclaredEntities as spec;
ghost use Rattle.ftn_tree.specs.Extents.{scoping as scoping_of};
ghost use Rattle.ftn_tree.specs.Projects.{AreTrees};
ghost use Rattle.ftn_tree.specs.Sayings.{sayings};
ghost use Rattle.ftn_tree.specs.Scopes.{name_at};
ghost use Rattle.decl_table.specs.steps.Located.{IsScoping};
ghost use Rattle.decl_table.specs.steps.Drafts.{drafted_of};
ghost use Rattle.decl_table.specs.steps.Spelled.{Each, IsMaybe, IsNamed, IsSpelled};

use crate::draft::Draft;
use crate::drafts::drafts;
use crate::forms::{name_at, span_of};
use crate::said_lists::{own_lists, said_lists, saying_lists};
use crate::saying::Saying;
use crate::scoping::Scoping;
use crate::spelled::name_of;
use ftn_base::{Name, NoMemory};
use ftn_tree::{Entity, FileTree, Mention};
use sqlite_items::Items;
use std::alloc::Global;

/// The name of a token of a file, where there is one.
fn name_there(
    alloc: Global,
    files: &[FileTree],
    file: u32,
    token: Option<u32>,
) -> Result<Option<Name>, NoMemory>
    requires { IsMaybe IsSpelled (option_map (name_at files.now file) token) }
    ensures { IfOk result (λ name. name ≡ option_map (name_at files.now file) token) }
{
    match token {
        None => Ok(None),
        Some(token) => Ok(Some(name_of(alloc, name_at(files, file, token))?)),
    }
}

fn entity_of(alloc: Global, files: &[FileTree], draft: &Draft) -> Result<Entity, NoMemory>
    requires { IsNamed (drafted_of files.now draft.now) }
    ensures { IfOk result (λ made. made ≡ (drafted_of files.now draft.now).entity) }
{
    Ok(Entity {
        name: name_there(alloc, files, draft.file, draft.name)?,
        home: draft.home,
        kind: draft.kind,
        first: span_of(files, draft.file, draft.token),
        implicit: draft.implicit,
        opens: draft.opens,
    })
}

pub fn entities_from(
    alloc: Global,
    files: &[FileTree],
    drafts: &[Draft],
) -> Result<Items<Entity>, NoMemory>
    requires { Each IsNamed (map (drafted_of files.now) drafts.now) }
    ensures { IfOk result (λ found. found ≡ map (λ d. d.entity) (map (drafted_of files.now) drafts.now)) }
{
    let mut found = Items::new(alloc);
    for draft in drafts {
        found.push(entity_of(alloc, files, draft)?)?;
    }
    Ok(found)
}

/// The entities that a project declares, by file and first token, blank common last. For each scoping unit, in their order, all that is
/// said in it, and the names that occur in its own statements.
fn entities<'a>(
    alloc: Global,
    files: &'a [FileTree],
    scoping: &Scoping,
    said: &[Vec<Saying<'a>>],
    own: &[Vec<Mention>],
) -> Result<Items<Entity>, NoMemory>
    requires trees { AreTrees files.now }
    requires scoping { IsScoping files.now scoping.now }
    requires said { map (λ one. one.items) said.now ≡ map (sayings files.now) (scoping_of files.now) }
    requires own { map (λ one. one.items) own.now ≡ map (spec.own_mentions files.now) (scoping_of files.now) }
    ensures { IfOk result (λ found. found ≡ spec.entities_of files.now) }
{
    let drafts = drafts(alloc, files, scoping, said, own)?;
    entities_from(alloc, files, &drafts)
}

/// The declared entities of a project: program units, procedures, names that specifications declare and common blocks, by file and first
/// token, blank common last. Names that only their first letter declares, and intrinsic functions, are not among them.
pub fn entity_table(
    alloc: Global,
    files: &[FileTree],
    scoping: &Scoping,
) -> Result<Items<Entity>, NoMemory>
    requires trees { AreTrees files.now }
    requires known { IsScoping files.now scoping.now }
    ensures { IfOk result (λ found. found ≡ spec.entities_of files.now) }
{
    let mentions = said_lists(alloc, files, scoping)?;
    let said = saying_lists(alloc, files, scoping, &mentions)?;
    let own = own_lists(alloc, files, scoping)?;
    entities(alloc, files, scoping, &said, &own)
}
