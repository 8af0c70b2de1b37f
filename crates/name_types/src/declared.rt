//! What is declared under the names of scoping units (Fortran 90, 2.4.5, 5.1, 5.3).

ghost use Rattle.std.specs.Prelude.{◌≡◌, map, IfOk};
ghost use Rattle.std.specs.Option.{option_map};
ghost use Rattle.ftn_tree.specs.Extents.{scoping as scoping_of};
ghost use Rattle.ftn_tree.specs.KeyKinds as kinds;
ghost use Rattle.ftn_tree.specs.Projects.{AreTrees};
ghost use Rattle.const_value.specs.steps.Gathered.{IsGathered};
ghost use Rattle.const_value.specs.steps.Projects.{sort_seen};
ghost use Rattle.decl_table.specs.steps.Located.{IsScoping};
ghost use Rattle.decl_table.specs.steps.SaidLists.{all_said};
ghost use Rattle.name_types.specs.steps.Declaring as steps;
ghost use Rattle.name_types.specs.steps.Kinds.{kind_seen};

use crate::kinds::Kind;
use const_value::name_numbers::{Numbers, names_of, number_in};
use const_value::project::{Project, Sort};
use decl_table::said_lists::saying_lists;
use decl_table::scoping::Scoping;
use ftn_base::{Letter, NoMemory, Ty};
use ftn_tree::{FileTree, Mention};
use std::alloc::Global;

/// A project, and of each of its scoping units the numbers of the names of which something is said there.
#[derive(Drop)]
pub struct Declared<'a> {
    pub project: &'a Project<'a>,
    pub numbers: Vec<Numbers<'a>>,
}

fn letter_sort(letter: Letter) -> Option<Sort>
    ensures { option_map sort_seen result ≡ kinds.letter_sort letter }
{
    match letter {
        Letter::Known(ty) => Some(match ty {
            Ty::Integer => Sort::Whole,
            Ty::Logical => Sort::Truth,
            Ty::Character(_) => Sort::Text,
        }),
        _ => None,
    }
}

fn first_byte(name: &[u8]) -> u8
    ensures { result ≡ steps.letter_of name.now }
{
    match name.first() {
        Some(byte) => *byte,
        None => 0,
    }
}

impl<'a> Declared<'a> {
    /// Numbers the names of a project.
    pub fn of(
        alloc: Global,
        files: &'a [FileTree],
        project: &'a Project<'a>,
        scoping: &Scoping,
        said: &'a [Vec<Mention>],
    ) -> Result<Declared<'a>, NoMemory>
        requires trees { AreTrees files.now }
        requires gathered { IsGathered files.now project.now }
        requires known { IsScoping files.now scoping.now }
        requires said { map (λ one. one.items) said.now ≡ map (all_said files.now) (scoping_of files.now) }
        ensures { IfOk result (steps.AreDeclared files.now) }
    {
        let sayings = saying_lists(alloc, files, scoping, said)?;
        let names = names_of(alloc, project.bound.tables.scopes.as_slice(), &sayings)?;
        Ok(Declared {
            project,
            numbers: names.numbers,
        })
    }

    /// The number of a name of a scoping unit.
    fn number(&self, scope: usize, name: &[u8]) -> Option<usize>
        ensures { result ≡ steps.number_by self.now scope name.now }
    {
        match self.numbers.get(scope) {
            Some(numbers) => number_in(numbers, name),
            None => None,
        }
    }

    /// The type that a name has by its first letter in a scoping unit (5.3).
    fn letter(&self, scope: usize, name: &[u8]) -> Letter
        ensures { result ≡ steps.letter_by self.now.project.now.bound.now scope name.now }
    {
        let at = usize::from(first_byte(name).saturating_sub(b'a'));
        match self.project.bound.tables.scopes.get(scope) {
            Some(scope) => match scope.letters.get(at) {
                Some(letter) => *letter,
                None => Letter::Nothing,
            },
            None => Letter::Nothing,
        }
    }

    fn sort_numbered(&self, number: usize) -> Option<Sort>
        ensures { option_map sort_seen result ≡ steps.sort_numbered self.now.project.now number }
    {
        if number < self.project.names.len() && number < self.project.written.len() {
            self.project.sort_of(number)
        } else {
            None
        }
    }

    fn rank_numbered(&self, number: usize) -> usize
        ensures { result ≡ steps.rank_numbered self.now.project.now number }
    {
        if number < self.project.written.len() {
            self.project.rank_of(number)
        } else {
            0
        }
    }

    /// The type of what is declared under a name in a scoping unit: the one that is written, else that of its first letter.
    pub fn sort(&self, scope: usize, name: &[u8]) -> Option<Sort>
        ensures { option_map sort_seen result ≡ steps.sort_by self.now scope name.now }
    {
        match self.number(scope, name) {
            Some(number) => self.sort_numbered(number),
            None => letter_sort(self.letter(scope, name)),
        }
    }

    /// Its number of dimensions.
    pub fn rank(&self, scope: usize, name: &[u8]) -> usize
        ensures { result ≡ steps.rank_by self.now scope name.now }
    {
        match self.number(scope, name) {
            Some(number) => self.rank_numbered(number),
            None => 0,
        }
    }

    /// Both, where it has a type.
    pub fn kind(&self, scope: usize, name: &[u8]) -> Option<Kind>
        ensures { option_map kind_seen result ≡ steps.kind_by self.now scope name.now }
    {
        match self.sort(scope, name) {
            Some(sort) => Some(Kind {
                sort,
                rank: self.rank(scope, name),
            }),
            None => None,
        }
    }

    /// Whether it has INTENT(IN) (5.1.2.3).
    pub fn is_given(&self, scope: usize, name: &[u8]) -> bool
        ensures { result ≡ steps.is_given_by self.now scope name.now }
    {
        match self.number(scope, name) {
            Some(number) => match self.project.names.get(number) {
                Some(owned) => owned.said.given,
                None => false,
            },
            None => false,
        }
    }

    /// Whether what is passed to it is defined (5.1.2.3).
    pub fn is_out(&self, scope: usize, name: &[u8]) -> bool
        ensures { result ≡ steps.is_out_by self.now scope name.now }
    {
        match self.number(scope, name) {
            Some(number) => match self.project.names.get(number) {
                Some(owned) => !owned.said.given && owned.said.defined,
                None => false,
            },
            None => false,
        }
    }
}
