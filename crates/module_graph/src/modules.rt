//! The order of modules.

ghost use Rattle.std.specs.Prelude.{◌<◌, ◌^◌, ℕ, length, IfErr, IfOk, IsOk};
ghost use Rattle.ftn_base.specs.ModuleUses.{AreKnown};
ghost use Rattle.ftn_base.specs.ModuleOrders.{IsOrder};
ghost use Rattle.ftn_base.specs.ModuleCycles.{IsOnCycle};
ghost use Rattle.module_graph.specs.Uses.{used_lists};
ghost use Rattle.module_graph.specs.Faults.{IsTrueFault};

use crate::fault::GraphFault;
use crate::placing::{is_whole, place_all};
use crate::search::least_cycle;
use std::alloc::Global;

/// The modules in order: each after those that it uses, the least ready one first. `uses[m]` lists the modules
/// that module `m` uses. There is an order exactly where no module depends on itself (11.3.2).
pub fn order(alloc: Global, uses: &[Vec<u32>]) -> Result<Vec<u32>, GraphFault>
    requires few { length uses.now < 2 ^ 32 }
    requires known { AreKnown (used_lists uses.now) }
    ensures order { IfOk result (λ list. IsOrder (used_lists uses.now) list.items) }
    ensures no_cycle { IsOk result → (number : ℕ) → IsOnCycle (used_lists uses.now) number → ⊥ }
    ensures cycle { IfErr result (IsTrueFault (used_lists uses.now)) }
{
    let placed = place_all(alloc, uses)?;
    if is_whole(&placed) {
        return Ok(placed.list);
    }
    match least_cycle(alloc, uses)? {
        Some(cycle) => Err(GraphFault::Cycle(cycle)),
        None => Ok(placed.list),
    }
}
