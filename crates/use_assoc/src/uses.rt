//! What the USE statements of a scoping unit make accessible (Fortran 90, 11.3.2).

ghost use Rattle.std.specs.Prelude.{◌≡◌, ◌<◌, ◌^◌, ◌&&◌, ◌++◌, [], IfOk, IfErr, IfSome, OnOk, length, map, not, nat_eq, None, Some, if◌then◌else◌};
ghost use Rattle.std.specs.List.{All, filter, flat_map, list_any};
ghost use Rattle.std.specs.Str.{bytes_eq};
ghost use Rattle.std.specs.Option.{option_map};
ghost use Rattle.indexmap.specs.IndexMap.{keys};
ghost use Rattle.indexmap.specs.IndexSet.{insert_all};
ghost use Rattle.ftn_base.specs.Exports.{is_among};
ghost use Rattle.ftn_base.specs.Accessible as spec;
ghost use Rattle.use_assoc.specs.Faults.{IsFault};
ghost use Rattle.use_assoc.specs.steps.Groups.{lists_in, found_lists};
ghost use Rattle.use_assoc.specs.steps.Table.{found_in, AreTables};

use crate::fault::UseFault;
use crate::given::Given;
use crate::groups::{Groups, grouped};
use crate::name_set::NameSet;
use crate::table::{Table, Tables, exports_of};
use ftn_base::{EntityId, Name, NoMemory, UseItem, UseList};
use std::alloc::Global;

fn add_item(given: &mut Given, alloc: Global, table: &Table, item: &UseItem) -> Result<(), NoMemory>
    ensures { OnOk result (given.new ≡ insert_all spec.is_same_pair given.old (spec.gives (found_in table.now.by_name) item.now)) }
{
    for entity in table.find(&item.source) {
        given.add(alloc, &item.local, *entity)?;
    }
    Ok(())
}

fn add_items(
    given: &mut Given,
    alloc: Global,
    table: &Table,
    items: &[UseItem],
) -> Result<(), NoMemory>
    ensures { OnOk result (given.new ≡ insert_all spec.is_same_pair given.old (flat_map (spec.gives (found_in table.now.by_name)) items.now)) }
{
    for item in items {
        add_item(given, alloc, table, item)?;
    }
    Ok(())
}

fn add_lists(
    given: &mut Given,
    alloc: Global,
    table: &Table,
    lists: &[&UseList],
) -> Result<(), NoMemory>
    ensures { OnOk result (given.new
        ≡ insert_all spec.is_same_pair given.old (flat_map (spec.gives (found_in table.now.by_name)) (spec.items_in (lists_in lists.now)))) }
{
    for list in lists {
        add_items(given, alloc, table, list.items.as_slice())?;
    }
    Ok(())
}

fn add_others(
    given: &mut Given,
    alloc: Global,
    sources: &NameSet,
    pairs: &[(Name, EntityId)],
) -> Result<(), NoMemory>
    ensures { OnOk result (given.new ≡ insert_all spec.is_same_pair given.old (spec.others (is_among sources.now) pairs.now)) }
{
    for pair in pairs {
        if !sources.has(&pair.0) {
            given.add(alloc, &pair.0, pair.1)?;
        }
    }
    Ok(())
}

fn add_sources(set: &mut NameSet, alloc: Global, items: &[UseItem]) -> Result<(), NoMemory>
    ensures { OnOk result (set.new ≡ insert_all bytes_eq set.old (spec.sources_of items.now)) }
{
    for item in items {
        set.add(alloc, &item.source)?;
    }
    Ok(())
}

fn sources(alloc: Global, lists: &[&UseList]) -> Result<NameSet, NoMemory>
    ensures { IfOk result (λ set. is_among set ≡ is_among (spec.sources_of (spec.items_in (lists_in lists.now)))) }
{
    let mut set = NameSet::new(alloc);
    for list in lists {
        add_sources(&mut set, alloc, list.items.as_slice())?;
    }
    Ok(set)
}

fn takes_all(lists: &[&UseList]) -> bool
    ensures { result ≡ list_any (λ list. not list.now.only) lists.now }
{
    lists.iter().any(|list| !list.only)
}

/// Adds what the statements for one module give, by the table of what it exports and by the pairs themselves.
pub(crate) fn add_module(
    given: &mut Given,
    alloc: Global,
    table: &Table,
    pairs: &[(Name, EntityId)],
    lists: &[&UseList],
) -> Result<(), NoMemory>
    requires { found_in table.now.by_name ≡ spec.entities_of pairs.now }
    ensures { OnOk result (given.new ≡ insert_all spec.is_same_pair given.old (spec.given_by pairs.now (lists_in lists.now))) }
{
    add_lists(given, alloc, table, lists)?;
    if takes_all(lists) {
        let sources = sources(alloc, lists)?;
        add_others(given, alloc, &sources, pairs)?;
    }
    Ok(())
}

fn is_missing(table: &Table, name: &Name) -> bool
    ensures { result ≡ spec.is_nothing (found_in table.now.by_name name.now) }
{
    match table.find(name) {
        [] => true,
        [_, ..] => false,
    }
}

/// The number of the first item whose source the table doesn't have.
pub(crate) fn bad_item(table: &Table, items: &[UseItem]) -> Option<usize>
    ensures within { IfSome result (λ item. item < length items.now) }
    ensures first { result ≡ spec.bad_item (found_in table.now.by_name) items.now }
{
    items
        .iter()
        .position(|item| is_missing(table, &item.source))
}

fn first_not_public(
    tables: &mut Tables,
    alloc: Global,
    exports: &[Vec<(Name, EntityId)>],
    lists: &[UseList],
) -> Result<Option<(u32, u32)>, NoMemory>
    requires modules { All (λ list. list.«module» < length exports.now) lists.now }
    requires few { length lists.now < 2 ^ 32 }
    requires few_items { All (λ list. length list.items < 2 ^ 32) lists.now }
    requires tables { AreTables (map (λ pairs. pairs.items) exports.now) tables.old.by_module }
    ensures first { IfOk result (λ first. first ≡ spec.first_not_public (map (λ pairs. pairs.items) exports.now) lists.now) }
    ensures tables { OnOk result (AreTables (map (λ pairs. pairs.items) exports.now) tables.new.by_module) }
{
    let mut at = 0;
    for list in lists {
        tables.prepare(alloc, exports, list.module)?;
        if let Some(item) = bad_item(tables.of(list.module), list.items.as_slice()) {
            return Ok(Some((at, item as u32)));
        }
        at += 1;
    }
    Ok(None)
}

fn add_modules(
    given: &mut Given,
    tables: &mut Tables,
    alloc: Global,
    exports: &[Vec<(Name, EntityId)>],
    groups: &Groups,
) -> Result<(), NoMemory>
    requires modules { All (λ number. number < length exports.now) (keys groups.now) }
    requires tables { AreTables (map (λ pairs. pairs.items) exports.now) tables.old.by_module }
    ensures { OnOk result (given.new ≡ insert_all spec.is_same_pair given.old
        (flat_map (λ number. spec.given_by (spec.exports_of (map (λ pairs. pairs.items) exports.now) number) (found_lists groups.now number)) (keys groups.now))) }
{
    for (number, lists) in groups.iter() {
        tables.prepare(alloc, exports, *number)?;
        add_module(
            given,
            alloc,
            tables.of(*number),
            exports_of(exports, *number),
            lists.as_slice(),
        )?;
    }
    Ok(())
}

fn all_given(
    tables: &mut Tables,
    alloc: Global,
    exports: &[Vec<(Name, EntityId)>],
    lists: &[UseList],
) -> Result<Vec<(Name, EntityId)>, NoMemory>
    requires modules { All (λ list. list.«module» < length exports.now) lists.now }
    requires tables { AreTables (map (λ pairs. pairs.items) exports.now) tables.old.by_module }
    ensures { IfOk result (λ pairs. pairs.items ≡ spec.accessible_of (map (λ pairs. pairs.items) exports.now) lists.now) }
{
    let groups = grouped(alloc, lists)?;
    let mut given = Given::new(alloc);
    add_modules(&mut given, tables, alloc, exports, &groups)?;
    given.pairs(alloc)
}

/// The pairs of a local name and an entity that the USE statements give, where `exports` has what each module exports. All statements
/// for one module count together: first what their items give, and then, if one of them lacks ONLY, the names that are no item's source.
/// Modules stand in the order of their first statements, and each pair stands once, at its first place.
pub fn accessible(
    alloc: Global,
    exports: &[Vec<(Name, EntityId)>],
    lists: &[UseList],
) -> Result<Vec<(Name, EntityId)>, UseFault>
    requires modules { All (λ list. list.«module» < length exports.now) lists.now }
    requires few { length lists.now < 2 ^ 32 }
    requires few_items { All (λ list. length list.items < 2 ^ 32) lists.now }
    ensures public { IfOk result (λ _. spec.first_not_public (map (λ pairs. pairs.items) exports.now) lists.now ≡ None) }
    ensures pairs { IfOk result (λ pairs. pairs.items ≡ spec.accessible_of (map (λ pairs. pairs.items) exports.now) lists.now) }
    ensures fault { IfErr result (λ fault. IsFault fault (spec.first_not_public (map (λ pairs. pairs.items) exports.now) lists.now)) }
{
    let mut tables = Tables::new(alloc);
    if let Some((list, item)) = first_not_public(&mut tables, alloc, exports, lists)? {
        return Err(UseFault::NotPublic { list, item });
    }
    Ok(all_given(&mut tables, alloc, exports, lists)?)
}
