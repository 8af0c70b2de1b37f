//! The names that a scoping unit declares.

ghost use Rattle.std.specs.Prelude.{◌≡◌, ◌++◌, [], OnOk};
ghost use Rattle.std.specs.List.{cons_option};
ghost use Rattle.ftn_tree.specs.DeclaredEntities as spec;
ghost use Rattle.ftn_tree.specs.Extents.{layer_at};
ghost use Rattle.decl_table.specs.steps.DeclaredNames as steps;
ghost use Rattle.decl_table.specs.steps.Heard.{heard_in};
ghost use Rattle.decl_table.specs.steps.Noted.{noted_in};

use crate::draft::Draft;
use crate::forms::form_at;
use crate::heard::{Heard, Sayings, hear, heard_of};
use crate::noted::{Noted, Occurring, note, noted_of};
use crate::saying::Saying;
use crate::seen::{Seen, is_first};
use ftn_base::NoMemory;
use ftn_tree::{EntityKind, Extent, FileTree, Form, Mention};
use indexmap::IndexSet;
use std::alloc::Global;

/// A scoping unit whose names are declared.
#[derive(Clone, Copy)]
pub struct Owner {
    /// The number of its file.
    pub file: u32,
    /// Its number.
    pub number: u32,
    /// Whether RESULT stands in its opening (Fortran 90, 12.5.2.2).
    pub has_result: bool,
}

/// Whether RESULT stands in its opening.
pub fn has_result(files: &[FileTree], unit: Extent) -> bool
    ensures { result ≡ spec.has_result_at (layer_at files.now unit.file unit.opening) }
{
    match form_at(files, unit.file, unit.opening) {
        Some(Form::Function { result, .. }) => result.is_some(),
        _ => false,
    }
}

pub fn has_type(kind: EntityKind) -> bool
    ensures { result ≡ spec.has_type kind }
{
    matches!(
        kind,
        EntityKind::Variable | EntityKind::Constant | EntityKind::Dummy | EntityKind::Answer
    )
}

/// The first token of a name: generic names and construct names begin where they are opened.
pub fn own_place(kind: EntityKind, first: u32, heard: &Heard) -> u32
    ensures { result ≡ steps.place_heard kind first heard.now }
{
    match kind {
        EntityKind::Generic => heard.generic.unwrap_or(first),
        EntityKind::Construct => heard.label.unwrap_or(first),
        _ => first,
    }
}

/// What the name of that token declares.
fn draft_name(owner: Owner, token: u32, noted: &Noted, heard: &Heard) -> Option<Draft>
    ensures { result ≡ steps.draft_heard owner token noted.now heard.now }
{
    let kind = heard.kind(owner.has_result, noted.referenced)?;
    Some(Draft {
        file: owner.file,
        token: own_place(kind, noted.first, heard),
        last: false,
        name: Some(token),
        home: Some(owner.number),
        kind,
        implicit: has_type(kind) && !heard.typed,
        opens: None,
    })
}

/// Adds it where there is one.
fn push_if(draft: Option<Draft>, found: &mut Vec<Draft>) -> Result<(), NoMemory>
    ensures { OnOk result (found.new.items ≡ found.old.items ++ cons_option draft []) }
{
    if let Some(draft) = draft {
        found.push(draft)?;
    }
    Ok(())
}

/// Adds what each name of these sayings declares, where it is said first.
fn push_names<'a>(
    alloc: Global,
    owner: Owner,
    said: &[Saying<'a>],
    heard: &Sayings<'a>,
    noted: &Occurring<'a>,
    found: &mut Vec<Draft>,
) -> Result<(), NoMemory>
    ensures { OnOk result (found.new.items ≡ found.old.items ++ steps.drafts_by owner (noted_in noted.now) (heard_in heard.now) [] said.now) }
{
    let mut seen: Seen<'a> = IndexSet::new(alloc);
    for s in said {
        if is_first(&mut seen, s.name)? {
            let noted = noted_of(noted, s.name);
            let heard = heard_of(heard, s.name);
            push_if(draft_name(owner, s.said.token, &noted, &heard), found)?;
        }
    }
    Ok(())
}

/// Adds what the names of a scoping unit declare, in the order in which they are said.
pub fn push_declared<'a>(
    alloc: Global,
    files: &'a [FileTree],
    unit: Extent,
    number: u32,
    said: &[Saying<'a>],
    own: &[Mention],
    found: &mut Vec<Draft>,
) -> Result<(), NoMemory>
    ensures { OnOk result (found.new.items ≡ found.old.items ++ steps.drafts_of files.now unit number said.now own.now) }
{
    let owner = Owner {
        file: unit.file,
        number,
        has_result: has_result(files, unit),
    };
    let heard = hear(alloc, said)?;
    let noted = note(alloc, files, unit.file, own)?;
    push_names(alloc, owner, said, &heard, &noted, found)
}
