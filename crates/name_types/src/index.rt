//! Numbers of things by a number and a name.

ghost use Rattle.std.specs.Prelude.{◌≡◌, ◌<◌, ◌^◌, ◌&&◌, nat_eq, if◌then◌else◌, length, Some, OnOk, IfOk, ℕ, List};
ghost use Rattle.std.specs.Str.{bytes_eq};
ghost use Rattle.name_types.specs.steps.Index as steps;

use ftn_base::NoMemory;
use indexmap::IndexMap;
use std::alloc::Global;
use std::marker::Model;

/// A name, and the number under which it counts, where it does.
#[derive(Drop)]
pub struct Candidate<'a> {
    pub under: Option<u32>,
    pub name: &'a [u8],
}

impl<'a> Model for Candidate<'a> {
    ghost use Rattle.std.specs.Coded.{codes};
    ghost use Rattle.name_types.specs.steps.Index.{Candidate};

    ghost Value = { Candidate };

    ghost view = { λ c. record { under = c.under; name = c.name.now } };
}

/// The numbers of the first candidates, by number and name.
pub type Index<'a> = IndexMap<(u32, &'a [u8]), u32>;

/// The number of the first that counts so.
pub fn found_in(index: &Index<'_>, under: u32, name: &[u8]) -> Option<u32>
    ensures { result ≡ steps.found_in index.now under name.now }
{
    index.get(&(under, name)).copied()
}

fn put<'a>(index: &mut Index<'a>, under: u32, name: &'a [u8], number: u32) -> Result<(), NoMemory>
    ensures { OnOk result ((u : ℕ) (other : _) → steps.found_in index.new u other
        ≡ (if nat_eq under u && bytes_eq name.now other then Some number else steps.found_in index.old u other)) }
{
    index.insert((under, name), number)?;
    Ok(())
}

fn put_candidate<'a>(
    index: &mut Index<'a>,
    one: &Candidate<'a>,
    number: u32,
) -> Result<(), NoMemory>
    ensures { OnOk result ((u : ℕ) (other : _) → steps.found_in index.new u other
        ≡ (if steps.is_at u other one.now then Some number else steps.found_in index.old u other)) }
{
    match one.under {
        Some(under) => put(index, under, one.name, number),
        None => Ok(()),
    }
}

/// The numbers of the first of these.
pub fn index<'a>(alloc: Global, all: &[Candidate<'a>]) -> Result<Index<'a>, NoMemory>
    requires few { length all.now < 2 ^ 32 }
    ensures { IfOk result (λ index. (under : ℕ) (name : List ℕ) → steps.found_in index under name ≡ steps.first_at under name all.now) }
{
    let mut index: Index<'a> = IndexMap::new(alloc);
    let mut at = all.len();
    while at > 0 {
        at -= 1;
        put_candidate(&mut index, &all[at], at as u32)?;
    }
    Ok(index)
}
