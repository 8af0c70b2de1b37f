//! What modules give each other.

ghost use Rattle.std.specs.Prelude.{◌≡◌, ◌<◌, ◌&&◌, length, nat_lt};
ghost use Rattle.std.specs.List.{list_all};

use ftn_base::{Edition, EntityId, Name, NoMemory};
use sqlite_items::Items;
use std::alloc::Global;
use use_assoc::{
    Access, Accessible, Exports, UseFault, UseItem, UseList, accessible, association, exports,
};

fn name(alloc: Global, bytes: &[u8]) -> Option<Name> {
    Name::new(alloc, bytes, Edition::F90).ok()
}

/// Names of one letter, and the numbers of their entities, from the given one on.
fn pairs(alloc: Global, letters: &[u8], from: u32) -> Option<Vec<(Name, EntityId)>> {
    let mut made = Vec::new(alloc);
    let mut number = from;
    for letter in letters {
        made.push((name(alloc, &[*letter])?, EntityId(number)))
            .ok()?;
        number = number.saturating_add(1);
    }
    Some(made)
}

/// Whether these are the pairs of the letters and the numbers.
fn are(pairs: &[(Name, EntityId)], letters: &[u8], numbers: &[u32]) -> bool {
    let same = pairs.iter().zip(letters.iter().zip(numbers)).all(|(pair, (letter, number))| {
        pair.0.bytes() == [*letter].as_slice() && pair.1.0 == *number
    });
    pairs.len() == letters.len() && letters.len() == numbers.len() && same
}

fn used(alloc: Global, module: u32, only: bool, local: &[u8], source: &[u8]) -> Option<UseList> {
    let mut items = Vec::new(alloc);
    items
        .push(UseItem {
            local: name(alloc, local)?,
            source: name(alloc, source)?,
        })
        .ok()?;
    let items = Items::from_vec(items);
    Some(UseList {
        module,
        only,
        items,
    })
}

fn fits(count: usize, lists: &[UseList]) -> bool
    ensures { result ≡ list_all (λ list. nat_lt list.«module» count && nat_lt (length list.items) 4294967296) lists.now }
{
    lists.iter().all(|list| (list.module as usize) < count && list.items.len() < 4294967296)
}

/// What the statements give, or `NoMemory` where they are none to ask for.
#[tactic(auto, using(crate::proofs::Rows::modules_fit, crate::proofs::Rows::items_fit))]
fn given(
    alloc: Global,
    modules: &[Vec<(Name, EntityId)>],
    lists: &[UseList],
) -> Result<Vec<(Name, EntityId)>, UseFault> {
    if lists.len() >= 4294967296 || !fits(modules.len(), lists) {
        return Err(UseFault::NoMemory);
    }
    accessible(alloc, modules, lists)
}

/// What the statements give by indexes of what modules export, or `NoMemory` where they are none to ask for.
#[tactic(auto, using(crate::proofs::Rows::modules_fit, crate::proofs::Rows::items_fit))]
fn associated(
    alloc: Global,
    modules: &[Exports],
    lists: &[UseList],
) -> Result<Accessible, NoMemory> {
    if lists.len() >= 4294967296 || !fits(modules.len(), lists) {
        return Err(NoMemory);
    }
    association(alloc, modules, lists)
}

/// Indexes of these pairs.
fn indexes(alloc: Global, modules: Vec<Vec<(Name, EntityId)>>) -> Option<Vec<Exports>> {
    let mut made = Vec::new(alloc);
    for pairs in modules {
        made.push(Exports::new(alloc, pairs).ok()?).ok()?;
    }
    Some(made)
}

/// A rename of one module's name and one name of another; and a name that isn't exported, which with indexes stands beside the pairs.
fn uses(alloc: Global) -> Option<bool> {
    let mut modules = Vec::new(alloc);
    modules.push(pairs(alloc, b"abc", 1)?).ok()?;
    modules.push(pairs(alloc, b"cd", 3)?).ok()?;
    let mut lists = Vec::new(alloc);
    lists.push(used(alloc, 0, false, b"x", b"a")?).ok()?;
    lists.push(used(alloc, 1, true, b"y", b"d")?).ok()?;
    let found = given(alloc, &modules, &lists).ok()?;
    lists.push(used(alloc, 1, true, b"y", b"z")?).ok()?;
    let lost = given(alloc, &modules, &lists);
    let told = matches!(lost, Err(UseFault::NotPublic { list: 2, item: 0 }));
    let all = associated(alloc, &indexes(alloc, modules)?, &lists).ok()?;
    let beside = all.not_public == Some((2, 0)) && are(&all.pairs, b"xbcy", &[1, 2, 3, 4]);
    Some(told && beside && are(&found, b"xbcy", &[1, 2, 3, 4]))
}

/// A name that a module exports twice, and one that it doesn't.
fn asked(alloc: Global) -> Option<bool> {
    let exports = Exports::new(alloc, pairs(alloc, b"aba", 1)?).ok()?;
    let two = exports.entities(&name(alloc, b"A")?);
    let none = exports.entities(&name(alloc, b"c")?);
    let [one, other] = two else {
        return None;
    };
    let found = one.0 == 1 && other.0 == 3 && none.is_empty();
    Some(found && are(exports.pairs(), b"aba", &[1, 2, 3]))
}

/// The name of that number.
fn numbered(alloc: Global, number: u32) -> Option<Name> {
    let digits = number.to_string(alloc).ok()?;
    let mut bytes = Vec::from_slice(alloc, b"n").ok()?;
    bytes.extend_from_slice(digits.as_bytes()).ok()?;
    name(alloc, &bytes)
}

/// The index of a module of so many names.
fn large(alloc: Global, count: u32) -> Option<Vec<Exports>> {
    let mut pairs = Vec::new(alloc);
    for number in 0..count {
        pairs
            .push((numbered(alloc, number)?, EntityId(number)))
            .ok()?;
    }
    let mut made = Vec::new(alloc);
    made.push(Exports::new(alloc, pairs).ok()?).ok()?;
    Some(made)
}

/// Whether a scoping unit that takes the one name of that number gets it.
fn takes(alloc: Global, modules: &[Exports], number: u32) -> Option<bool> {
    let source = numbered(alloc, number)?;
    let mut lists = Vec::new(alloc);
    lists
        .push(used(alloc, 0, true, b"x", source.bytes())?)
        .ok()?;
    let found = associated(alloc, modules, &lists).ok()?;
    Some(found.not_public.is_none() && are(&found.pairs, b"x", &[number]))
}

/// Each of 2000 scoping units takes a name of a module that has 100,000, whose index is made once.
fn units_take_names(alloc: Global) -> Option<bool> {
    let modules = large(alloc, 100000)?;
    for unit in 0..2000_u32 {
        if !takes(alloc, &modules, unit.saturating_mul(49))? {
            return Some(false);
        }
    }
    Some(true)
}

fn exported(alloc: Global) -> Option<bool> {
    let mut private = Vec::new(alloc);
    private.push(name(alloc, b"c")?).ok()?;
    let access = Access {
        default_public: true,
        public: Items::new(alloc),
        private: Items::from_vec(private),
    };
    let own = pairs(alloc, b"ab", 1)?;
    let used = pairs(alloc, b"cd", 3)?;
    let found = exports(alloc, &own, &used, &access).ok()?;
    Some(are(&found, b"abd", &[1, 2, 4]))
}

#[test]
fn modules_are_used(rt: HostRuntime) {
    assert!(rt; uses(rt.alloc()) == Some(true));
    assert!(rt; exported(rt.alloc()) == Some(true));
    assert!(rt; asked(rt.alloc()) == Some(true));
    assert!(rt; units_take_names(rt.alloc()) == Some(true));
}
