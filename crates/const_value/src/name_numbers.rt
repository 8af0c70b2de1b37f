//! The names of the scoping units of a project, numbered from 0, each with what is said of it.

ghost use Rattle.std.specs.Prelude.{◌≡◌, ◌<◌, ◌++◌, ◌∷◌, ℕ, List, [], length, map, if◌then◌else◌, Some, IfOk, OnOk};
ghost use Rattle.std.specs.Option.{unwrap_or};
ghost use Rattle.std.specs.Str.{bytes_eq};
ghost use Rattle.ftn_tree.specs.DeclarationFaults.{is_block_data};
ghost use Rattle.ftn_tree.specs.DeclaredEntities.{names_after};
ghost use Rattle.const_value.specs.steps.Names as steps;

use crate::said::Said;
use decl_table::saying::Saying;
use ftn_base::NoMemory;
use ftn_tree::{Scope, ScopeKind};
use indexmap::IndexMap;
use std::alloc::Global;

/// The numbers of the names of one scoping unit.
pub type Numbers<'a> = IndexMap<&'a [u8], usize>;

/// A name of a scoping unit.
#[derive(Clone, Copy)]
pub struct Owned {
    /// The number of the scoping unit.
    pub scope: usize,
    /// The number of its file.
    pub file: u32,
    /// The first byte of the name.
    pub letter: u8,
    /// What is said of it.
    pub said: Said,
}

/// The names of all scoping units.
#[derive(Drop)]
pub struct Names<'a> {
    /// Of each scoping unit the numbers of its names.
    pub numbers: Vec<Numbers<'a>>,
    /// The names.
    pub all: Vec<Owned>,
}

fn first_byte(name: &[u8]) -> u8
    ensures { result ≡ steps.letter_of name.now }
{
    match name.first() {
        Some(byte) => *byte,
        None => 0,
    }
}

/// The number of the name, where there is one.
pub fn number_in(numbers: &Numbers<'_>, name: &[u8]) -> Option<usize>
    ensures { result ≡ steps.number_in numbers.now name.now }
{
    numbers.get(name).copied()
}

fn put<'a>(numbers: &mut Numbers<'a>, name: &'a [u8], number: usize) -> Result<(), NoMemory>
    ensures { OnOk result ((other : List ℕ) → steps.number_in numbers.new other ≡ (if bytes_eq name.now other then Some number else steps.number_in numbers.old other)) }
{
    numbers.insert(name, number)?;
    Ok(())
}

/// The number of the name, which is added where it isn't there.
fn number_of<'a>(
    scope: usize,
    file: u32,
    name: &'a [u8],
    numbers: &mut Numbers<'a>,
    all: &mut Vec<Owned>,
) -> Result<usize, NoMemory>
    ensures number { IfOk result (λ number. number ≡ unwrap_or (steps.number_in numbers.old name.now) (length all.old.items)) }
    ensures numbers { IfOk result (λ number. (other : List ℕ) → steps.number_in numbers.new other ≡ (if bytes_eq name.now other then Some number else steps.number_in numbers.old other)) }
    ensures all { OnOk result (all.new.items ≡ all.old.items ++ steps.if_new (steps.number_in numbers.old name.now) (steps.unsaid scope file name.now)) }
{
    if let Some(number) = number_in(numbers, name) {
        return Ok(number);
    }
    let number = all.len();
    put(numbers, name, number)?;
    all.push(Owned {
        scope,
        file,
        letter: first_byte(name),
        said: Said::nothing(),
    })?;
    Ok(number)
}

/// Adds a saying to what is said of the name with that number.
fn say(in_block_data: bool, s: &Saying<'_>, number: usize, all: &mut [Owned])
    requires { number < length all.old }
    ensures { all.new ≡ steps.said_at in_block_data s.now number all.old }
{
    all[number].said = all[number].said.with(in_block_data, s);
}

fn is_block_data(kind: ScopeKind) -> bool
    ensures { result ≡ is_block_data kind }
{
    matches!(kind, ScopeKind::BlockData)
}

/// Adds the names of a scoping unit.
fn push_names<'a>(
    alloc: Global,
    scope: usize,
    entry: &Scope,
    said: &[Saying<'a>],
    all: &mut Vec<Owned>,
) -> Result<Numbers<'a>, NoMemory>
    ensures numbers { IfOk result (λ numbers. (name : List ℕ) → steps.number_in numbers name ≡ steps.number_from (length all.old.items) name (names_after [] said.now)) }
    ensures all { OnOk result (all.new.items ≡ all.old.items ++ steps.owned_in scope entry.now.unit.file (is_block_data entry.now.kind) said.now) }
{
    let mut numbers: Numbers<'a> = IndexMap::new(alloc);
    let in_block_data = is_block_data(entry.kind);
    for s in said {
        let number = number_of(scope, entry.unit.file, s.name, &mut numbers, all)?;
        say(in_block_data, s, number, all);
    }
    Ok(numbers)
}

/// The names of all scoping units, each with what is said of it there.
pub fn names_of<'a>(
    alloc: Global,
    scopes: &[Scope],
    said: &[Vec<Saying<'a>>],
) -> Result<Names<'a>, NoMemory>
    requires { length said.now ≡ length scopes.now }
    ensures units { IfOk result (λ names. length names.numbers.items ≡ length scopes.now) }
    ensures numbers { IfOk result (λ names. (scope : ℕ) (name : List ℕ) → steps.number_at names.numbers.items scope name ≡ steps.number_of (map (λ one. one.items) said.now) scope name) }
    ensures all { IfOk result (λ names. names.all.items ≡ steps.owned_from 0 scopes.now (map (λ one. one.items) said.now)) }
{
    let mut numbers = Vec::new(alloc);
    let mut all = Vec::new(alloc);
    let mut scope = 0;
    for entry in scopes {
        numbers.push(push_names(alloc, scope, entry, &said[scope], &mut all)?)?;
        scope += 1;
    }
    Ok(Names { numbers, all })
}
