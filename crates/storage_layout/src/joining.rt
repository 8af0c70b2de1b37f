//! Classes of things by links that do not contradict each other.

ghost use Rattle.std.specs.Prelude.{IfOk};
ghost use Rattle.ftn_base.specs.Storage.{IsContradicted, tie_links};
ghost use Rattle.equiv_class.specs.Sound.{IsSound};
ghost use Rattle.storage_layout.specs.steps.Kept.{AreLinkable};

use equiv_class::{Classes, TieFault, classes};
use ftn_base::{NoMemory, Tie};
use std::alloc::Global;

/// The classes of things that these ties join.
pub(crate) fn joined(alloc: Global, sizes: &[u32], ties: &[Tie]) -> Result<Classes, NoMemory>
    requires linkable { AreLinkable sizes.now ties.now }
    requires agree { IsContradicted (tie_links ties.now) → ⊥ }
    ensures { IfOk result (λ found. IsSound sizes.now (tie_links ties.now) found.class.items found.offset.items found.size.items) }
{
    match classes(alloc, sizes, ties) {
        Ok(found) => Ok(found),
        Err(TieFault::Conflict { .. }) => unreachable!(),
        Err(TieFault::NoMemory) => Err(NoMemory),
    }
}
