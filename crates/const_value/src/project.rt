//! What is gathered of a project.

ghost use Rattle.std.specs.Prelude.{◌≡◌, ◌<◌, length, None, IfOk};
ghost use Rattle.std.specs.Option.{option_copied, option_map};
ghost use Rattle.ftn_tree.specs.Bindings.{bound_of};
ghost use Rattle.ftn_tree.specs.KeyKinds as kinds;
ghost use Rattle.ftn_tree.specs.NameFaults.{name_fault};
ghost use Rattle.ftn_tree.specs.Projects.{AreTrees};
ghost use Rattle.const_expr.specs.Namings.{entity_in};
ghost use Rattle.const_value.specs.steps.Gathered.{IsGathered};
ghost use Rattle.const_value.specs.steps.Projects as steps;

use crate::data::written_for;
use crate::links::{Links, links_of};
use crate::name_numbers::{Owned, names_of};
use crate::tables::{TokenRow, token_rows};
use crate::written::{Typing, Written};
use decl_table::said_lists::{said_lists, saying_lists};
use decl_table::scoping::scoping_units;
use ftn_base::{Letter, NoMemory};
use ftn_tree::{Bound, Entity, EntityKind, FileTree, Mention, TypeSpec};
use std::alloc::Global;

/// A project with what its statements declare of names, and what its names denote. The names of its scoping units are numbered.
#[derive(Drop)]
pub struct Project<'a> {
    /// The trees of the files.
    pub files: &'a [FileTree],
    /// Its tables, and what each name denotes.
    pub bound: &'a Bound,
    /// For each file the entities at its tokens.
    pub rows: Vec<TokenRow>,
    /// The names of its scoping units.
    pub names: Vec<Owned>,
    /// For each name what is written for it.
    pub written: Vec<Written<'a>>,
    /// Which names are those of which entities.
    pub links: Links,
}

/// A type without its length (Fortran 90, 4.3).
#[derive(Clone, Copy, PartialEq, Eq)]
pub enum Sort {
    /// Integer.
    Whole,
    /// Logical.
    Truth,
    /// Character.
    Text,
}

/// The type that is written, without its length.
pub fn written_sort(ty: &TypeSpec) -> Sort
    ensures { steps.sort_seen result ≡ kinds.written_sort ty.now }
{
    match ty {
        TypeSpec::Integer => Sort::Whole,
        TypeSpec::Logical => Sort::Truth,
        TypeSpec::Character(_) => Sort::Text,
    }
}

fn letter_sort(letter: Letter) -> Option<Sort>
    ensures { option_map steps.sort_seen result ≡ kinds.letter_sort letter }
{
    match letter {
        Letter::Known(ty) => Some(match ty {
            ftn_base::Ty::Integer => Sort::Whole,
            ftn_base::Ty::Logical => Sort::Truth,
            ftn_base::Ty::Character(_) => Sort::Text,
        }),
        _ => None,
    }
}

impl<'a> Project<'a> {
    /// Gathers what the statements of a project declare.
    pub fn gather(
        alloc: Global,
        files: &'a [FileTree],
        bound: &'a Bound,
    ) -> Result<Project<'a>, NoMemory>
        requires trees { AreTrees files.now }
        requires bound { bound.now ≡ bound_of files.now }
        requires names { name_fault files.now ≡ None }
        ensures { IfOk result (IsGathered files.now) }
    {
        let scoping = scoping_units(alloc, files)?;
        let said: Vec<Vec<Mention>> = said_lists(alloc, files, &scoping)?;
        let sayings = saying_lists(alloc, files, &scoping, &said)?;
        let names = names_of(alloc, bound.tables.scopes.as_slice(), &sayings)?;
        let written = written_for(alloc, files, &scoping, &names)?;
        let links = links_of(alloc, &names, bound.tables.entities.as_slice())?;
        let rows = token_rows(alloc, files, bound.denotes.as_slice())?;
        Ok(Project {
            files,
            bound,
            rows,
            names: names.all,
            written,
            links,
        })
    }

    /// For each token of a file the entity that it denotes, where it is a name.
    pub fn row(&self, file: u32) -> &[Option<u32>]
        ensures { result.now ≡ steps.row_in self.now.rows.items file }
    {
        match self.rows.get(file as usize) {
            Some(row) => row.row(),
            None => &[],
        }
    }

    /// The entity that the name at a token of a file denotes.
    pub fn entity_at(&self, file: u32, token: u32) -> Option<u32>
        ensures { result ≡ entity_in (steps.row_in self.now.rows.items file) token }
    {
        match self.row(file).get(token as usize) {
            Some(entity) => *entity,
            None => None,
        }
    }

    /// The entity of that number.
    pub fn entity(&self, number: usize) -> Option<&Entity>
        ensures { option_copied result ≡ steps.entity_in self.now.bound.now number }
    {
        self.bound.tables.entities.get(number)
    }

    /// The number of the name under which is declared what an entity holds.
    pub fn name_of(&self, entity: usize) -> Option<usize>
        ensures { result ≡ steps.name_of self.now.links entity }
    {
        match self.links.name_of.get(entity) {
            Some(name) => *name,
            None => None,
        }
    }

    /// What the entity of a name's own scoping unit is.
    pub fn kind_of(&self, name: usize) -> Option<EntityKind>
        requires { name < length self.now.links.entity_of.items }
        ensures { result ≡ steps.kind_of self.now.bound.now self.now.links name }
    {
        match self.links.entity_of[name] {
            Some(entity) => Some(self.entity(entity)?.kind),
            None => None,
        }
    }

    /// The type that a name has by its first letter in its scoping unit (5.3).
    pub fn letter_of(&self, name: usize) -> Letter
        requires { name < length self.now.names.items }
        ensures { result ≡ steps.letter_of self.now.bound.now self.now.names.items name }
    {
        let owned = &self.names[name];
        let at = usize::from(owned.letter.saturating_sub(b'a'));
        match self.bound.tables.scopes.get(owned.scope) {
            Some(scope) => match scope.letters.get(at) {
                Some(letter) => *letter,
                None => Letter::Nothing,
            },
            None => Letter::Nothing,
        }
    }

    /// The type of a name without its length: the one that is written, else that of its first letter.
    pub fn sort_of(&self, name: usize) -> Option<Sort>
        requires names { name < length self.now.names.items }
        requires written { name < length self.now.written.items }
        ensures { option_map steps.sort_seen result ≡ steps.sort_of self.now.bound.now self.now.names.items self.now.written.items name }
    {
        match self.written[name].typing {
            Some(Typing { ty, .. }) => Some(written_sort(ty)),
            None => letter_sort(self.letter_of(name)),
        }
    }

    /// The number of dimensions (2.4.5).
    pub fn rank_of(&self, name: usize) -> usize
        requires { name < length self.now.written.items }
        ensures { result ≡ steps.rank_of self.now.written.items name }
    {
        self.written[name].pairs().len()
    }
}
