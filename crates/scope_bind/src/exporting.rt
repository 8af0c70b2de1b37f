//! What modules export, and what USE makes accessible (Fortran 90, 5.2.3, 11.3.2).

ghost use Rattle.std.specs.Prelude.{◌≡◌, ◌<◌, length, map, [], slice_get, Some, IfOk, OnOk};
ghost use Rattle.std.specs.List.{All};
ghost use Rattle.ftn_base.specs.Accessible.{accessible_of, exports_of};
ghost use Rattle.ftn_base.specs.ModuleOrders.{IsOrder};
ghost use Rattle.ftn_tree.specs.Meanings as spec;
ghost use Rattle.ftn_tree.specs.NameFaults as faults;
ghost use Rattle.scope_bind.specs.steps.Exporting as steps;
ghost use Rattle.scope_bind.specs.steps.Globals.{unit_at, IsNumber};
ghost use Rattle.scope_bind.specs.steps.Known.{IsKnown};
ghost use Rattle.scope_bind.specs.steps.Meaning.{all_numbered, used_everywhere};
ghost use Rattle.scope_bind.specs.steps.Uses.{AreLists};

use crate::known::Known;
use crate::owned::own_pairs;
use crate::uses::is_private;
use decl_table::saying::Saying;
use decl_table::spelled::name_of;
use ftn_base::{Access, EntityId, Name, NoMemory, UseList};
use ftn_tree::Role;
use sqlite_items::Items;
use std::alloc::Global;
use use_assoc::{Exports, exports, pairs_of};

/// The names of which that is said.
#[tactic(auto, using(crate::proofs::UnitReads::within_lists, crate::proofs::UnitReads::lists_read))]
fn names_said(
    alloc: Global,
    known: &Known<'_, '_>,
    scope: u32,
    role: Role,
) -> Result<Items<Name>, NoMemory>
    requires known { IsKnown known.now }
    requires within { IsNumber known.now.files.now scope }
    ensures { IfOk result (λ names. names ≡ steps.names_by role known.now.files.now (unit_at known.now.files.now scope)) }
{
    let said: &[Saying<'_>] = &known.said[scope as usize];
    let mut names = Items::new(alloc);
    for s in said {
        if s.said.says(role) {
            names.push(name_of(alloc, s.name)?)?;
        }
    }
    Ok(names)
}

/// PUBLIC and PRIVATE in a module.
fn access_of(alloc: Global, known: &Known<'_, '_>, scope: u32) -> Result<Access, NoMemory>
    requires known { IsKnown known.now }
    requires within { IsNumber known.now.files.now scope }
    ensures { IfOk result (λ access. access ≡ spec.access_of known.now.files.now (unit_at known.now.files.now scope)) }
{
    let private = is_private(alloc, known, scope)?;
    Ok(Access {
        default_public: !private,
        public: names_said(alloc, known, scope, Role::Public)?,
        private: names_said(alloc, known, scope, Role::Private)?,
    })
}

/// For each of so many nothing.
pub(crate) fn none_of(alloc: Global, count: usize) -> Result<Vec<Exports>, NoMemory>
    ensures { IfOk result (λ none. none.items ≡ steps.none_of count) }
{
    let mut none = Vec::new(alloc);
    for _at in 0..count {
        none.push(Exports::new(alloc, Vec::new(alloc))?)?;
    }
    Ok(none)
}

/// What USE makes accessible by these lists, with an index.
fn accessible_by(
    alloc: Global,
    exported: &[Exports],
    lists: &[UseList],
) -> Result<Exports, NoMemory>
    requires { All (λ list. list.«module» < length exported.now) lists.now }
    ensures { IfOk result (λ made. made ≡ accessible_of exported.now lists.now) }
{
    let pairs = pairs_of(alloc, exported, lists)?;
    Exports::new(alloc, pairs)
}

/// What the module exports that is that scoping unit, where the others that it uses are known.
fn module_exports(
    alloc: Global,
    known: &Known<'_, '_>,
    scope: u32,
    exported: &[Exports],
    lists: &[UseList],
) -> Result<Exports, NoMemory>
    requires known { IsKnown known.now }
    requires within { IsNumber known.now.files.now scope }
    requires lists { lists.now ≡ spec.use_lists known.now.files.now (unit_at known.now.files.now scope) }
    requires modules { All (λ list. list.«module» < length exported.now) lists.now }
    ensures { IfOk result (λ made. (pairs : _) → accessible_of exported.now lists.now ≡ all_numbered known.now.files.now (spec.accessible_from known.now.files.now pairs (unit_at known.now.files.now scope))
        → made ≡ all_numbered known.now.files.now (spec.exports_from known.now.files.now pairs (unit_at known.now.files.now scope))) }
{
    let used = accessible_by(alloc, exported, lists)?;
    let own = own_pairs(alloc, known, &used, scope)?;
    let access = access_of(alloc, known, scope)?;
    let pairs = exports(alloc, &own, used.pairs(), &access)?;
    Exports::new(alloc, pairs)
}

/// What each module exports, the modules in that order.
#[tactic(auto, using(crate::proofs::UnitReads::within_lists))]
pub(crate) fn modules_exports(
    alloc: Global,
    known: &Known<'_, '_>,
    lists: &[Vec<UseList>],
    order: &[u32],
) -> Result<Vec<Exports>, NoMemory>
    requires known { IsKnown known.now }
    requires lists { AreLists known.now.files.now lists.now }
    requires order { IsOrder (faults.module_uses known.now.files.now) order.now }
    ensures { IfOk result (λ made. made.items ≡ steps.exported_everywhere known.now.files.now) }
{
    let mut exported = none_of(alloc, known.globals.modules.len())?;
    for number in order {
        let scope = known.globals.modules[*number as usize];
        let made = module_exports(alloc, known, scope, &exported, &lists[scope as usize])?;
        exported[*number as usize] = made;
    }
    Ok(exported)
}

/// What USE makes accessible in each scoping unit.
pub(crate) fn all_accessible(
    alloc: Global,
    known: &Known<'_, '_>,
    lists: &[Vec<UseList>],
    exported: &[Exports],
) -> Result<Vec<Exports>, NoMemory>
    requires known { IsKnown known.now }
    requires lists { AreLists known.now.files.now lists.now }
    requires exported { exported.now ≡ steps.exported_everywhere known.now.files.now }
    ensures { IfOk result (λ made. made.items ≡ used_everywhere known.now.files.now) }
{
    let mut made = Vec::new(alloc);
    for list in lists {
        made.push(accessible_by(alloc, exported, list)?)?;
    }
    Ok(made)
}
