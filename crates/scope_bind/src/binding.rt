//! The tables of a project with what each name denotes.

ghost use Rattle.std.specs.Prelude.{◌≡◌, Err, None, Some, map, IfOk, IsOk};
ghost use Rattle.std.specs.Option.{option_map, option_or};
ghost use Rattle.ftn_base.specs.declared.fault.Fault.{Fault};
ghost use Rattle.ftn_tree.specs.Bindings as spec;
ghost use Rattle.ftn_tree.specs.DeclarationFaults.{first_finding, fault_of as told};
ghost use Rattle.ftn_tree.specs.DeclaredEntities.{tables_of, own_mentions};
ghost use Rattle.ftn_tree.specs.Extents.{scoping as scoping_of};
ghost use Rattle.ftn_tree.specs.NameFaults as faults;
ghost use Rattle.ftn_tree.specs.Projects.{AreTrees};
ghost use Rattle.ftn_tree.specs.Sayings.{sayings};
ghost use Rattle.ftn_tree.specs.declared.table.TableFault.TheVariants as table_fault;
ghost use Rattle.decl_table.specs.steps.Located.{IsScoping};
ghost use Rattle.scope_bind.specs.steps.Binding as steps;
ghost use Rattle.scope_bind.specs.steps.Known.{IsKnown};
ghost use Rattle.scope_bind.specs.steps.Meaning.{used_everywhere};
ghost use Rattle.scope_bind.specs.steps.Uses.{AreLists};
ghost use Rattle.scope_bind.specs.steps.Exporting.{exported_everywhere};
ghost use Rattle.ftn_base.specs.ModuleOrders.{IsOrder};
ghost use Rattle.scope_bind.specs.steps.Occurrences.{all_denoted as denoted_of};

use crate::entities::{all_entities, final_numbers};
use crate::exporting::{all_accessible, modules_exports};
use crate::finding::{Kinds, earlier};
use crate::globals::find_globals;
use crate::item_faults::first_not_public;
use crate::known::{Known, all_names};
use crate::meaning::Meaning;
use crate::name_faults::{first_of_names, first_of_references};
use crate::numbering::number_names;
use crate::occurrences::{Denoted, Made, all_denoted};
use crate::use_faults::modules_in_order;
use crate::uses::all_lists;
use decl_table::faults::fault_of;
use decl_table::finding::Finding;
use decl_table::said_lists::{own_lists, said_lists, saying_lists};
use decl_table::saying::Saying;
use decl_table::scoping::{Scoping, scoping_units};
use ftn_base::{EntityId, Name, NoMemory, UseList};
use ftn_tree::{Bound, Entity, FileTree, Mention, TableFault, Tables};
use sqlite_items::Items;
use std::alloc::Global;
use use_assoc::Exports;

/// What is found of a project: its entities, what its occurrences denote, and what USE makes accessible, by the numbers of entities.
#[derive(Drop)]
struct Found {
    entities: Items<Entity>,
    denotes: Items<EntityId>,
    accessible: Items<Items<(Name, EntityId)>>,
}

fn or_fault(files: &[FileTree], found: Option<Finding>) -> Result<(), TableFault>
    ensures none { IsOk result → found ≡ None }
    ensures fault { (f : Fault) → result ≡ Err (table_fault.Project f) → option_map (told files.now) found ≡ Some f }
{
    match fault_of(files, found) {
        Some(fault) => Err(TableFault::Project(fault)),
        None => Ok(()),
    }
}

fn number_of(numbers: &[u32], meaning: Meaning) -> EntityId
    ensures { result ≡ steps.final_of numbers.now meaning }
{
    match meaning {
        Meaning::One(entity) => match numbers.get(entity.0 as usize) {
            Some(number) => EntityId(*number),
            None => EntityId(0),
        },
        _ => EntityId(0),
    }
}

fn denoted_numbers(
    alloc: Global,
    numbers: &[u32],
    denoted: &[Denoted],
) -> Result<Items<EntityId>, NoMemory>
    ensures { IfOk result (λ found. found ≡ map (λ d. steps.final_of numbers.now d.meaning) denoted.now) }
{
    let mut found = Items::new(alloc);
    for one in denoted {
        found.push(number_of(numbers, one.meaning))?;
    }
    Ok(found)
}

fn renumbered(
    alloc: Global,
    numbers: &[u32],
    pairs: &[(Name, EntityId)],
) -> Result<Items<(Name, EntityId)>, NoMemory>
    ensures { IfOk result (λ found. found ≡ map (steps.final_pair numbers.now) pairs.now) }
{
    let mut found = Items::new(alloc);
    for pair in pairs {
        let name = pair.0.copy(alloc)?;
        let number = number_of(numbers, Meaning::One(pair.1));
        found.push((name, number))?;
    }
    Ok(found)
}

fn accessible(
    alloc: Global,
    numbers: &[u32],
    used: &[Exports],
) -> Result<Items<Items<(Name, EntityId)>>, NoMemory>
    ensures { IfOk result (λ found. found ≡ map (map (steps.final_pair numbers.now)) used.now) }
{
    let mut found = Items::new(alloc);
    for one in used {
        let pairs = renumbered(alloc, numbers, one.pairs())?;
        found.push(pairs)?;
    }
    Ok(found)
}

/// The entities and their numbers, where there is no fault.
fn number_all(
    alloc: Global,
    known: &Known<'_, '_>,
    used: &[Exports],
    denoted: &[Denoted],
) -> Result<Found, NoMemory>
    requires known { IsKnown known.now }
    requires used { used.now ≡ used_everywhere known.now.files.now }
    requires denoted { denoted.now ≡ denoted_of known.now.files.now }
    ensures { IfOk result (steps.IsFound known.now.files.now) }
{
    let entities = all_entities(alloc, known, used, denoted)?;
    let numbers = final_numbers(alloc, known, entities.as_slice())?;
    Ok(Found {
        entities,
        denotes: denoted_numbers(alloc, &numbers, denoted)?,
        accessible: accessible(alloc, &numbers, used)?,
    })
}

/// What modules export, where USE names nothing that is not public.
fn made_public(
    alloc: Global,
    known: &Known<'_, '_>,
    lists: &[Vec<UseList>],
    order: &[u32],
) -> Result<Vec<Exports>, TableFault>
    requires known { IsKnown known.now }
    requires lists { AreLists known.now.files.now lists.now }
    requires order { IsOrder (faults.module_uses known.now.files.now) order.now }
    ensures made { IfOk result (λ made. made.items ≡ exported_everywhere known.now.files.now) }
    ensures none { IsOk result → first_finding faults.use_rank (faults.not_public_findings known.now.files.now) ≡ None }
    ensures fault { (f : Fault) → result ≡ Err (table_fault.Project f)
        → option_map (told known.now.files.now) (first_finding faults.use_rank (faults.not_public_findings known.now.files.now)) ≡ Some f }
{
    let exported = modules_exports(alloc, known, lists, order)?;
    let hidden = first_not_public(alloc, known, &exported)?;
    or_fault(known.files, hidden)?;
    Ok(exported)
}

/// What names denote, where they have no fault.
fn names_denoted<'m>(
    alloc: Global,
    known: &Known<'_, '_>,
    used: &'m [Exports],
    exported: &'m [Exports],
) -> Result<Vec<Denoted>, TableFault>
    requires known { IsKnown known.now }
    requires used { used.now ≡ used_everywhere known.now.files.now }
    requires exported { exported.now ≡ exported_everywhere known.now.files.now }
    ensures made { IfOk result (λ found. found.items ≡ denoted_of known.now.files.now) }
    ensures none { IsOk result → first_finding faults.name_rank (faults.binding_findings known.now.files.now) ≡ None }
    ensures fault { (f : Fault) → result ≡ Err (table_fault.Project f)
        → option_map (told known.now.files.now) (first_finding faults.name_rank (faults.binding_findings known.now.files.now)) ≡ Some f }
{
    let denoted = all_denoted(alloc, known, Made { used, exported })?;
    let references = first_of_references(known, &denoted);
    let names = first_of_names(alloc, known, used)?;
    let first = earlier(Kinds::Names, references, names);
    or_fault(known.files, first)?;
    Ok(denoted)
}

#[tactic(auto, using(crate::proofs::FirstFaults::use_told, crate::proofs::FirstFaults::public_told, crate::proofs::FirstFaults::binding_told, crate::proofs::FirstFaults::none_told))]
fn find_all(alloc: Global, known: &Known<'_, '_>) -> Result<Found, TableFault>
    requires known { IsKnown known.now }
    ensures found { IfOk result (steps.IsFound known.now.files.now) }
    ensures none { IsOk result → faults.first_of_names known.now.files.now ≡ None }
    ensures fault { (f : Fault) → result ≡ Err (table_fault.Project f) → faults.name_fault known.now.files.now ≡ Some f }
{
    let order = modules_in_order(alloc, known)?;
    let lists = all_lists(alloc, known)?;
    let exported = made_public(alloc, known, &lists, &order)?;
    let used = all_accessible(alloc, known, &lists, &exported)?;
    let denoted = names_denoted(alloc, known, &used, &exported)?;
    let found = number_all(alloc, known, &used, &denoted)?;
    Ok(found)
}

fn find_with<'a>(
    alloc: Global,
    files: &'a [FileTree],
    tables: &'a Tables,
    scoping: &Scoping,
    said: &[Vec<Saying<'a>>],
    own: &[Vec<Mention>],
) -> Result<Found, TableFault>
    requires trees { AreTrees files.now }
    requires tables { tables.now ≡ tables_of files.now }
    requires scoping { IsScoping files.now scoping.now }
    requires said { map (λ one. one.items) said.now ≡ map (sayings files.now) (scoping_of files.now) }
    requires own { map (λ one. one.items) own.now ≡ map (own_mentions files.now) (scoping_of files.now) }
    ensures found { IfOk result (steps.IsFound files.now) }
    ensures none { IsOk result → faults.first_of_names files.now ≡ None }
    ensures fault { (f : Fault) → result ≡ Err (table_fault.Project f) → faults.name_fault files.now ≡ Some f }
{
    let names = all_names(alloc, files, scoping, said, own)?;
    let globals = find_globals(alloc, files, scoping)?;
    let numbering = number_names(alloc, files, scoping, tables)?;
    let known = Known {
        files,
        tables,
        scoping,
        said,
        own,
        names: &names,
        globals: &globals,
        numbering: &numbering,
    };
    find_all(alloc, &known)
}

fn find_in(alloc: Global, files: &[FileTree], tables: &Tables) -> Result<Found, TableFault>
    requires trees { AreTrees files.now }
    requires tables { tables.now ≡ tables_of files.now }
    ensures found { IfOk result (steps.IsFound files.now) }
    ensures none { IsOk result → faults.first_of_names files.now ≡ None }
    ensures fault { (f : Fault) → result ≡ Err (table_fault.Project f) → faults.name_fault files.now ≡ Some f }
{
    let scoping = scoping_units(alloc, files)?;
    let mentions = said_lists(alloc, files, &scoping)?;
    let said = saying_lists(alloc, files, &scoping, &mentions)?;
    let own = own_lists(alloc, files, &scoping)?;
    find_with(alloc, files, tables, &scoping, &said, &own)
}

fn bound_with(tables: Tables, found: Found) -> Bound
    ensures { result ≡ steps.bound_with tables found }
{
    let Found {
        entities,
        denotes,
        accessible,
    } = found;
    let Tables {
        scopes,
        entities: _,
        occurrences,
    } = tables;
    Bound {
        tables: Tables {
            scopes,
            entities,
            occurrences,
        },
        denotes,
        accessible,
    }
}

/// What each name of a project denotes, with all its entities and what USE makes accessible, or the first fault of its modules and names
/// (Fortran 90, 5.3, 11.3.2, 12.3.2, 14.1.2), for the trees of its files in their order and its tables. It fails too where memory is
/// refused.
pub fn bind(alloc: Global, files: &[FileTree], tables: Tables) -> Result<Bound, TableFault>
    requires trees { AreTrees files.now }
    requires tables { tables ≡ tables_of files.now }
    ensures bound { IfOk result (λ bound. bound ≡ spec.bound_of files.now) }
    ensures sound { IsOk result → faults.name_fault files.now ≡ None }
    ensures fault { (f : Fault) → result ≡ Err (table_fault.Project f) → faults.name_fault files.now ≡ Some f }
{
    let found = find_in(alloc, files, &tables)?;
    Ok(bound_with(tables, found))
}
