//! Program units and procedures (Fortran 90, 2.2, 11, 12).

ghost use Rattle.std.specs.Prelude.{◌≡◌, ◌++◌, map, not, OnOk};
ghost use Rattle.std.specs.List.{filter, list_any};
ghost use Rattle.ftn_tree.specs.DeclaredEntities as spec;
ghost use Rattle.ftn_tree.specs.Extents.{is_body, layer_at, scoping as scoping_of};
ghost use Rattle.ftn_tree.specs.Projects.{AreTrees};
ghost use Rattle.ftn_tree.specs.Sayings.{same_name, sayings, typed};
ghost use Rattle.decl_table.specs.steps.Located.{IsScoping};
ghost use Rattle.decl_table.specs.steps.Drafts.{drafted_of};
ghost use Rattle.decl_table.specs.steps.UnitDrafts as steps;

use crate::draft::Draft;
use crate::forms::{first_token_at, form_at, name_at, name_token};
use crate::saying::Saying;
use crate::scoping::Scoping;
use ftn_base::NoMemory;
use ftn_tree::{EntityKind, Extent, FileTree, Form, Role};

/// Whether a type is written for the name.
fn is_typed(said: &[Saying<'_>], name: &[u8]) -> bool
    ensures { result ≡ list_any typed (filter (same_name name.now) said.now) }
{
    for s in said {
        if s.name == name && s.said.says(Role::Typed) {
            return true;
        }
    }
    false
}

fn unit_kind(files: &[FileTree], unit: Extent) -> EntityKind
    ensures { result ≡ spec.unit_kind_at (layer_at files.now unit.file unit.opening) }
{
    match form_at(files, unit.file, unit.opening) {
        Some(Form::Program { .. }) => EntityKind::Program,
        Some(Form::Module { .. }) => EntityKind::Module,
        Some(Form::BlockData { .. }) => EntityKind::BlockData,
        Some(Form::Function { .. }) => EntityKind::Function,
        _ => EntityKind::Subroutine,
    }
}

/// Whether it is a function without RESULT and without a type, which comes from its first letter (5.3, 12.5.2.2).
fn is_untyped(files: &[FileTree], unit: Extent, said: &[Saying<'_>]) -> bool
    requires { said.now ≡ sayings files.now unit }
    ensures { result ≡ spec.is_untyped_at files.now unit (layer_at files.now unit.file unit.opening) }
{
    match form_at(files, unit.file, unit.opening) {
        Some(Form::Function { name, result, .. }) => {
            result.is_none() && !is_typed(said, name_at(files, unit.file, *name))
        }
        _ => false,
    }
}

/// A program unit or a procedure, in which that is said.
fn draft_unit(
    files: &[FileTree],
    unit: Extent,
    number: u32,
    host: Option<u32>,
    said: &[Saying<'_>],
) -> Draft
    requires { said.now ≡ sayings files.now unit }
    ensures { result ≡ steps.draft_by files.now unit number host }
{
    let name = name_token(files, unit);
    Draft {
        file: unit.file,
        token: name.unwrap_or(first_token_at(files, unit.file, unit.opening)),
        last: false,
        name,
        home: host,
        kind: unit_kind(files, unit),
        implicit: is_untyped(files, unit, said),
        opens: Some(number),
    }
}

/// Adds the program units and procedures of a project.
pub fn push_units(
    files: &[FileTree],
    scoping: &Scoping,
    said: &[Vec<Saying<'_>>],
    found: &mut Vec<Draft>,
) -> Result<(), NoMemory>
    requires trees { AreTrees files.now }
    requires scoping { IsScoping files.now scoping.now }
    requires said { map (λ one. one.items) said.now ≡ map (sayings files.now) (scoping_of files.now) }
    ensures { OnOk result (map (drafted_of files.now) found.new.items ≡ map (drafted_of files.now) found.old.items
        ++ map (spec.draft_unit files.now) (filter (λ e. not (is_body files.now e)) (scoping_of files.now))) }
{
    let mut number = 0;
    for unit in &scoping.units {
        let at = number as usize;
        if !scoping.bodies[at] {
            found.push(draft_unit(files, *unit, number, scoping.hosts[at], &said[at]))?;
        }
        number += 1;
    }
    Ok(())
}
