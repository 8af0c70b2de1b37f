//! The first fault of USE statements: of no module, or on a cycle (Fortran 90, 11.3.2).

ghost use Rattle.std.specs.Prelude.{◌≡◌, Err, None, Some, IsOk, IsSome, IfOk};
ghost use Rattle.std.specs.List.{flat_map};
ghost use Rattle.std.specs.Option.{option_map};
ghost use Rattle.ftn_base.specs.declared.fault.Fault.{Fault};
ghost use Rattle.ftn_tree.specs.DeclarationFaults.{first_finding, fault_of as told};
ghost use Rattle.ftn_tree.specs.GlobalNames.{program_units};
ghost use Rattle.ftn_tree.specs.NameFaults as spec;
ghost use Rattle.ftn_tree.specs.declared.table.TableFault.TheVariants as table_fault;
ghost use Rattle.scope_bind.specs.steps.Cycles as cycles;
ghost use Rattle.scope_bind.specs.steps.Globals.{unit_at, IsNumber};
ghost use Rattle.scope_bind.specs.steps.Known.{IsKnown};
ghost use Rattle.scope_bind.specs.steps.UseFaults as steps;

use crate::cycles::{Ordered, leading_to, order_modules};
use crate::finding::{Kinds, earlier, found};
use crate::known::Known;
use crate::uses::{module_token, module_uses};
use decl_table::faults::fault_of;
use decl_table::finding::Finding;
use decl_table::forms::{first_token_at, name_at};
use ftn_base::{FaultKind, NoMemory};
use ftn_tree::{Extent, TableFault};
use std::alloc::Global;

fn is_marked(marks: &[bool], used: u32) -> bool
    ensures { result ≡ steps.is_marked marks.now (Some used) }
{
    match marks.get(used as usize) {
        Some(marked) => *marked,
        None => false,
    }
}

/// What is wrong with a statement of a program unit: a USE of no module, or of a module that is marked.
#[tactic(auto, using(crate::proofs::UseTurns::no_use, crate::proofs::UseTurns::no_module, crate::proofs::UseTurns::on_cycle_told, crate::proofs::UseTurns::nothing_told))]
fn use_finding(
    known: &Known<'_, '_>,
    unit: Extent,
    statement: u32,
    marks: &[bool],
) -> Option<Finding>
    requires known { IsKnown known.now }
    ensures { result ≡ first_finding spec.use_rank (steps.use_at known.now.files.now unit marks.now statement) }
{
    match module_token(known, unit.file, statement) {
        None => None,
        Some(token) => match known.module_number(name_at(known.files, unit.file, token)) {
            None => Some(found(FaultKind::Unknown, unit.file, token)),
            Some(used) => {
                if is_marked(marks, used) {
                    let first = first_token_at(known.files, unit.file, statement);
                    Some(found(FaultKind::Cycle, unit.file, first))
                } else {
                    None
                }
            }
        },
    }
}

/// The first that is wrong in a program unit.
fn first_in_unit(known: &Known<'_, '_>, unit: Extent, marks: &[bool]) -> Option<Finding>
    requires known { IsKnown known.now }
    ensures { result ≡ first_finding spec.use_rank (flat_map (steps.use_by known.now.files.now unit marks.now) (spec.use_statements known.now.files.now unit)) }
{
    let mut first = None;
    let opening = unit.opening as usize;
    for at in opening..unit.ending as usize + 1 {
        let next = use_finding(known, unit, at as u32, marks);
        first = earlier(Kinds::Uses, first, next);
    }
    first
}

/// The marks that count in the scoping unit of that number: all where it is the module on a cycle.
fn marks_in(on_cycle: Option<u32>, scope: u32, marks: &[bool]) -> &[bool]
    ensures { result.now ≡ steps.marks_in scope on_cycle marks.now }
{
    match on_cycle {
        None => &[],
        Some(cyclic) => { if cyclic == scope { marks } else { &[] } }
    }
}

/// The first in the scoping unit of that number, where it is a program unit; the marks count where it is the module on a cycle.
#[tactic(auto, using(crate::proofs::UseTurns::inner_told, crate::proofs::UseTurns::outer_told))]
fn first_at(
    known: &Known<'_, '_>,
    scope: u32,
    on_cycle: Option<u32>,
    marks: &[bool],
) -> Option<Finding>
    requires known { IsKnown known.now }
    requires within { IsNumber known.now.files.now scope }
    requires cycle { steps.IsModuleScope known.now.files.now on_cycle }
    ensures { result ≡ first_finding spec.use_rank (steps.outer_uses known.now.files.now on_cycle marks.now scope) }
{
    if known.host(scope).is_some() {
        return None;
    }
    first_in_unit(known, known.unit(scope), marks_in(on_cycle, scope, marks))
}

/// The first of all, where the module of that scoping unit is the least on a cycle.
fn first_of_uses(known: &Known<'_, '_>, on_cycle: Option<u32>, marks: &[bool]) -> Option<Finding>
    requires known { IsKnown known.now }
    requires cycle { steps.IsModuleScope known.now.files.now on_cycle }
    ensures { result ≡ first_finding spec.use_rank (flat_map (steps.uses_by known.now.files.now on_cycle marks.now) (program_units known.now.files.now)) }
{
    let mut first = None;
    for at in 0..known.scoping.units.len() {
        let next = first_at(known, at as u32, on_cycle, marks);
        first = earlier(Kinds::Uses, first, next);
    }
    first
}

/// The first of all, where that module is the least on a cycle.
fn first_on_cycle(
    alloc: Global,
    known: &Known<'_, '_>,
    uses: &[Vec<u32>],
    least: u32,
) -> Result<Option<Finding>, NoMemory>
    requires known { IsKnown known.now }
    requires uses { steps.AreUsed known.now.files.now uses.now }
    requires least { cycles.IsLeastOn (spec.module_uses known.now.files.now) least }
    ensures first { IfOk result (λ found. found ≡ first_finding spec.use_rank (spec.use_findings known.now.files.now)) }
    ensures some { IfOk result (λ found. IsSome found) }
{
    let marks = leading_to(alloc, uses, least)?;
    let scope = known.globals.modules[least as usize];
    Ok(first_of_uses(known, Some(scope), &marks))
}

/// The modules in order, or the first fault of USE statements.
pub(crate) fn modules_in_order(alloc: Global, known: &Known<'_, '_>) -> Result<Vec<u32>, TableFault>
    requires known { IsKnown known.now }
    ensures order { IfOk result (λ list. cycles.IsSound (spec.module_uses known.now.files.now) list.items) }
    ensures none { IsOk result → first_finding spec.use_rank (spec.use_findings known.now.files.now) ≡ None }
    ensures fault { (f : Fault) → result ≡ Err (table_fault.Project f)
        → option_map (told known.now.files.now) (first_finding spec.use_rank (spec.use_findings known.now.files.now)) ≡ Some f }
{
    let uses = module_uses(alloc, known)?;
    match order_modules(alloc, &uses)? {
        Ordered::Order(list) => match fault_of(known.files, first_of_uses(known, None, &[])) {
            Some(fault) => Err(TableFault::Project(fault)),
            None => Ok(list),
        },
        Ordered::Cycle(least) => {
            let first = first_on_cycle(alloc, known, &uses, least)?;
            match fault_of(known.files, first) {
                Some(fault) => Err(TableFault::Project(fault)),
                None => unreachable!(),
            }
        }
    }
}
