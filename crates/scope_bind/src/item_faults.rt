//! Items of USE that the module doesn't make public (Fortran 90, 5.2.3, 11.3.2).

ghost use Rattle.std.specs.Prelude.{◌≡◌, IfOk};
ghost use Rattle.std.specs.List.{flat_map};
ghost use Rattle.ftn_tree.specs.DeclarationFaults.{first_finding};
ghost use Rattle.ftn_tree.specs.NameFaults as spec;
ghost use Rattle.ftn_tree.specs.Scopes.{all_statements};
ghost use Rattle.scope_bind.specs.steps.Exporting.{exported_everywhere};
ghost use Rattle.scope_bind.specs.steps.Globals.{unit_at, IsNumber};
ghost use Rattle.scope_bind.specs.steps.ItemFaults as steps;
ghost use Rattle.scope_bind.specs.steps.Items.{AreItems};
ghost use Rattle.scope_bind.specs.steps.Known.{IsKnown};

use crate::finding::{Kinds, earlier, found};
use crate::items::{UseItems, item_entities, use_items};
use crate::known::Known;
use decl_table::finding::Finding;
use decl_table::sayings::push_statement;
use ftn_base::{FaultKind, NoMemory};
use ftn_tree::{Extent, Mention, Role};
use std::alloc::Global;
use use_assoc::Exports;

/// What is wrong with a mention: it is the source of an item, and the module exports nothing by it.
fn item_finding(
    alloc: Global,
    known: &Known<'_, '_>,
    exported: &[Exports],
    items: &UseItems,
    file: u32,
    statement: u32,
    mention: &Mention,
) -> Result<Option<Finding>, NoMemory>
    requires known { IsKnown known.now }
    requires exported { exported.now ≡ exported_everywhere known.now.files.now }
    requires items { AreItems known.now.files.now file statement items.now }
    ensures { IfOk result (λ found. found ≡ first_finding spec.use_rank (steps.item_findings known.now.files.now file statement mention.now)) }
{
    if !mention.role.is(Role::Source) {
        return Ok(None);
    }
    let token = mention.token;
    let entities = item_entities(alloc, known, exported, items, file, statement, token)?;
    if entities.is_empty() {
        Ok(Some(found(FaultKind::NotPublic, file, token)))
    } else {
        Ok(None)
    }
}

/// The first of a statement.
fn first_in_statement(
    alloc: Global,
    known: &Known<'_, '_>,
    exported: &[Exports],
    file: u32,
    statement: u32,
) -> Result<Option<Finding>, NoMemory>
    requires known { IsKnown known.now }
    requires exported { exported.now ≡ exported_everywhere known.now.files.now }
    ensures { IfOk result (λ found. found ≡ first_finding spec.use_rank (spec.not_public_at known.now.files.now file statement)) }
{
    let items = use_items(alloc, known, file, statement)?;
    let mut mentions = Vec::new(alloc);
    push_statement(alloc, known.files, file, statement, &mut mentions)?;
    let mut first = None;
    for mention in &mentions {
        let next = item_finding(alloc, known, exported, &items, file, statement, mention)?;
        first = earlier(Kinds::Uses, first, next);
    }
    Ok(first)
}

/// The first of a program unit.
fn first_in_unit(
    alloc: Global,
    known: &Known<'_, '_>,
    exported: &[Exports],
    unit: Extent,
) -> Result<Option<Finding>, NoMemory>
    requires known { IsKnown known.now }
    requires exported { exported.now ≡ exported_everywhere known.now.files.now }
    ensures { IfOk result (λ found. found ≡ first_finding spec.use_rank (flat_map (spec.not_public_at known.now.files.now unit.file) (all_statements unit))) }
{
    let mut first = None;
    let opening = unit.opening as usize;
    for at in opening..unit.ending as usize + 1 {
        let next = first_in_statement(alloc, known, exported, unit.file, at as u32)?;
        first = earlier(Kinds::Uses, first, next);
    }
    Ok(first)
}

/// The first in the scoping unit of that number, where it is a program unit.
fn first_at(
    alloc: Global,
    known: &Known<'_, '_>,
    exported: &[Exports],
    scope: u32,
) -> Result<Option<Finding>, NoMemory>
    requires known { IsKnown known.now }
    requires within { IsNumber known.now.files.now scope }
    requires exported { exported.now ≡ exported_everywhere known.now.files.now }
    ensures { IfOk result (λ found. found ≡ first_finding spec.use_rank (steps.outer_items known.now.files.now scope)) }
{
    if known.host(scope).is_some() {
        return Ok(None);
    }
    first_in_unit(alloc, known, exported, known.unit(scope))
}

/// The first item of USE that its module doesn't make public.
pub(crate) fn first_not_public(
    alloc: Global,
    known: &Known<'_, '_>,
    exported: &[Exports],
) -> Result<Option<Finding>, NoMemory>
    requires known { IsKnown known.now }
    requires exported { exported.now ≡ exported_everywhere known.now.files.now }
    ensures { IfOk result (λ found. found ≡ first_finding spec.use_rank (spec.not_public_findings known.now.files.now)) }
{
    let mut first = None;
    for at in 0..known.scoping.units.len() {
        let next = first_at(alloc, known, exported, at as u32)?;
        first = earlier(Kinds::Uses, first, next);
    }
    Ok(first)
}
