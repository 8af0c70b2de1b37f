//! The rows of a letter map.

ghost use Rattle.std.specs.Prelude.{◌≡◌, ◌≤◌, ◌<◌, ◌-◌, ◌+◌, length, is_some, map, true, if◌then◌else◌, IfOk};
ghost use Rattle.ftn_base.specs.ImplicitLetters as spec;
ghost use Rattle.ftn_base.specs.Letters.{is_within};

use ftn_base::{Letter, NoMemory};
use std::alloc::Global;

/// The number of a letter in lower case, from 0.
pub fn number_of(letter: u8) -> usize
    requires low { 97 ≤ letter }
    requires high { letter ≤ 122 }
    ensures { result ≡ letter - 97 }
{
    (letter - b'a') as usize
}

/// Gives this entry to the letters from one to another.
#[tactic(auto, using(crate::proofs::MapLemmas::put_none))]
pub fn put(entries: &mut [(Letter, bool); 26], from: u8, to: u8, entry: (Letter, bool))
    requires first { 97 ≤ from }
    requires ordered { from ≤ to }
    requires last { to ≤ 122 }
    ensures { entries.new ≡ spec.with_entry from to entry entries.old }
{
    for letter in from..to + 1 {
        entries[number_of(letter)] = entry;
    }
}

/// The first letter from one to another that was given.
pub fn first_given(entries: &[(Letter, bool); 26], from: u8, to: u8) -> Option<u8>
    requires first { 97 ≤ from }
    requires ordered { from ≤ to }
    requires last { to ≤ 122 }
    ensures { result ≡ spec.first_given from to entries.now }
{
    (from..to + 1).find(|letter| entries[number_of(*letter)].1)
}

/// The entry of the letter of that number after a range.
pub fn entry_given(
    entries: &[(Letter, bool); 26],
    number: usize,
    from: u8,
    to: u8,
    letter: Letter,
) -> (Letter, bool)
    requires { number < 26 }
    ensures { result ≡ (if is_within from to (97 + number) then (letter, true) else spec.entry_of (97 + number) entries.now) }
{
    let code = b'a' + number as u8;
    if from <= code && code <= to {
        (letter, true)
    } else {
        entries[number]
    }
}

/// The types of these entries.
pub fn types_of(alloc: Global, entries: &[(Letter, bool)]) -> Result<Vec<Letter>, NoMemory>
    ensures { IfOk result (λ types. types.items ≡ map (λ entry. entry.0) entries.now) }
{
    let mut types = Vec::new(alloc);
    for entry in entries {
        types.push(entry.0)?;
    }
    Ok(types)
}

fn is_given(entries: &[(Letter, bool)], letter: usize) -> bool
    ensures { result ≡ spec.is_given entries.now letter }
{
    match entries.get(letter.saturating_sub(97)) {
        Some(entry) => entry.1,
        None => false,
    }
}

/// Whether one of the letters from one to another was given.
pub fn any_given(entries: &[(Letter, bool)], from: u8, to: u8) -> bool
    ensures { result ≡ is_some (spec.first_given from to entries.now) }
{
    let first = from as usize;
    for letter in first..to as usize + 1 {
        if is_given(entries, letter) {
            return true;
        }
    }
    false
}
