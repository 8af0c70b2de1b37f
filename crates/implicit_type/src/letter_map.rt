//! The implicit type of each letter in a scoping unit (Fortran 90, 5.3).

ghost use Rattle.std.specs.Prelude.{◌≡◌, ◌≤◌, ◌-◌, IfOk, is_some, map, true};
ghost use Rattle.ftn_base.specs.ImplicitLetters as spec;

use crate::rows::{any_given, entry_given, first_given, number_of, put, types_of};
use ftn_base::{Letter, NoMemory, Twice, Ty};
use std::alloc::Global;
use std::marker::Model;

/// The implicit type of each letter, and whether a range of the scoping unit gave it.
/// Contracts see the list of these pairs, one for each letter from A to Z.
#[derive(Drop)]
pub struct LetterMap {
    entries: [(Letter, bool); 26],
}

impl Model for LetterMap {
    ghost use Rattle.ftn_base.specs.ImplicitLetters.{Entry};
    ghost use Rattle.std.specs.Prelude.{List};

    ghost Value = { List Entry };

    ghost view = { λ a. a.entries };
}

impl LetterMap {
    /// The map of a scoping unit without a host and without IMPLICIT: I to N are integer, all others real.
    #[tactic(auto, unfolding(ftn_base::specs::ImplicitLetters::alphabet))]
    pub fn standard() -> LetterMap
        ensures { result ≡ spec.standard }
    {
        let mut entries = [(Letter::Real, false); 26];
        put(
            &mut entries,
            b'i',
            b'n',
            (Letter::Known(Ty::Integer), false),
        );
        LetterMap { entries }
    }

    /// The map of a scoping unit with IMPLICIT NONE: no letter has a type.
    #[tactic(auto, unfolding(ftn_base::specs::ImplicitLetters::alphabet))]
    pub fn none() -> LetterMap
        ensures { result ≡ spec.none }
    {
        LetterMap {
            entries: [(Letter::Nothing, false); 26],
        }
    }

    /// The map that a scoping unit within this one begins with: the same letters, none given.
    pub fn inner(&self) -> LetterMap
        ensures { result ≡ spec.inner self.now }
    {
        let mut entries = [(Letter::Nothing, false); 26];
        for number in 0..26 {
            entries[number] = (self.entries[number].0, false);
        }
        LetterMap { entries }
    }

    /// This map after a range of an IMPLICIT statement, from one letter to another, all in lower case.
    /// Where a letter of the range was given before, the first such letter. It takes no memory.
    pub fn with_range(self, from: u8, to: u8, letter: Letter) -> Result<LetterMap, Twice>
        requires first { 97 ≤ from }
        requires ordered { from ≤ to }
        requires last { to ≤ 122 }
        ensures { result ≡ spec.with_range from to letter self }
    {
        let LetterMap { mut entries } = self;
        if let Some(twice) = first_given(&entries, from, to) {
            return Err(Twice(twice));
        }
        put(&mut entries, from, to, (letter, true));
        Ok(LetterMap { entries })
    }

    /// This map where a range gives these letters that type, whether or not one of them was given before. Letters are told by their
    /// codes in lower case.
    pub fn given(&self, from: u8, to: u8, letter: Letter) -> LetterMap
        ensures { result ≡ spec.with_entry from to (letter, true) self.now }
    {
        let mut entries = [(Letter::Nothing, false); 26];
        for number in 0..26 {
            entries[number] = entry_given(&self.entries, number, from, to, letter);
        }
        LetterMap { entries }
    }

    /// Whether a range of the scoping unit gave one of the letters from one to another, by their codes in lower case.
    pub fn was_given(&self, from: u8, to: u8) -> bool
        ensures { result ≡ is_some (spec.first_given from to self.now) }
    {
        any_given(&self.entries, from, to)
    }

    /// The implicit types of the letters from A to Z.
    pub fn types(&self, alloc: Global) -> Result<Vec<Letter>, NoMemory>
        ensures { IfOk result (λ types. types.items ≡ map (λ entry. entry.0) self.now) }
    {
        types_of(alloc, &self.entries)
    }

    /// The implicit type of a name that begins with this letter, in lower case.
    pub fn type_of(&self, first: u8) -> Letter
        requires low { 97 ≤ first }
        requires high { first ≤ 122 }
        ensures { result ≡ spec.type_of first self.now }
    {
        self.entries[number_of(first)].0
    }
}
