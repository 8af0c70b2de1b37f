//! What the USE statements of a scoping unit make accessible (Fortran 90, 11.3.2), by indexes of what modules export.

ghost use Rattle.std.specs.Prelude.{◌≡◌, ◌<◌, ◌^◌, IfOk, OnOk, length};
ghost use Rattle.std.specs.List.{All, flat_map};
ghost use Rattle.indexmap.specs.IndexMap.{keys};
ghost use Rattle.indexmap.specs.IndexSet.{insert_all};
ghost use Rattle.ftn_base.specs.Accessible as spec;
ghost use Rattle.use_assoc.specs.steps.Groups.{found_lists};

use crate::given::Given;
use crate::groups::{Groups, grouped};
use crate::offering::{Exports, exports_at};
use crate::uses::{add_module, bad_item};
use ftn_base::{EntityId, Name, NoMemory, UseList};
use std::alloc::Global;

/// What USE statements make accessible, and the first of their items that its module doesn't export.
#[derive(Drop)]
pub struct Accessible {
    /// The pairs of a local name and an entity. An item that isn't exported gives none.
    pub pairs: Vec<(Name, EntityId)>,
    /// The numbers of the first list with an item whose source its module doesn't export, and in it of the first such item.
    pub not_public: Option<(u32, u32)>,
}

fn first_not_public(exports: &[Exports], lists: &[UseList]) -> Option<(u32, u32)>
    requires modules { All (λ list. list.«module» < length exports.now) lists.now }
    requires few { length lists.now < 2 ^ 32 }
    requires few_items { All (λ list. length list.items < 2 ^ 32) lists.now }
    ensures { result ≡ spec.first_not_public exports.now lists.now }
{
    let mut at = 0;
    for list in lists {
        let of_module = exports_at(exports, list.module);
        if let Some(item) = bad_item(of_module.table(), list.items.as_slice()) {
            return Some((at, item as u32));
        }
        at += 1;
    }
    None
}

fn add_modules(
    given: &mut Given,
    alloc: Global,
    exports: &[Exports],
    groups: &Groups,
) -> Result<(), NoMemory>
    requires modules { All (λ number. number < length exports.now) (keys groups.now) }
    ensures { OnOk result (given.new ≡ insert_all spec.is_same_pair given.old
        (flat_map (λ number. spec.given_by (spec.exports_of exports.now number) (found_lists groups.now number)) (keys groups.now))) }
{
    for (number, lists) in groups.iter() {
        let of_module = exports_at(exports, *number);
        add_module(
            given,
            alloc,
            of_module.table(),
            of_module.pairs(),
            lists.as_slice(),
        )?;
    }
    Ok(())
}

/// What the USE statements make accessible, where `exports` has what each module exports, by the modules' numbers. An item that isn't
/// exported gives none.
pub fn pairs_of(
    alloc: Global,
    exports: &[Exports],
    lists: &[UseList],
) -> Result<Vec<(Name, EntityId)>, NoMemory>
    requires { All (λ list. list.«module» < length exports.now) lists.now }
    ensures { IfOk result (λ pairs. pairs.items ≡ spec.accessible_of exports.now lists.now) }
{
    let groups = grouped(alloc, lists)?;
    let mut given = Given::new(alloc);
    add_modules(&mut given, alloc, exports, &groups)?;
    given.pairs(alloc)
}

/// What the USE statements make accessible, where `exports` has what each module exports, by the modules' numbers. The pairs are those
/// of `accessible`; here they are given also where an item isn't exported, and the first such item stands beside them.
pub fn association(
    alloc: Global,
    exports: &[Exports],
    lists: &[UseList],
) -> Result<Accessible, NoMemory>
    requires modules { All (λ list. list.«module» < length exports.now) lists.now }
    requires few { length lists.now < 2 ^ 32 }
    requires few_items { All (λ list. length list.items < 2 ^ 32) lists.now }
    ensures pairs { IfOk result (λ found. found.pairs.items ≡ spec.accessible_of exports.now lists.now) }
    ensures first { IfOk result (λ found. found.not_public ≡ spec.first_not_public exports.now lists.now) }
{
    let pairs = pairs_of(alloc, exports, lists)?;
    Ok(Accessible {
        pairs,
        not_public: first_not_public(exports, lists),
    })
}
