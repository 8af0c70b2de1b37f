//! Classes of tied objects.

ghost use Rattle.std.specs.Prelude.{◌<◌, ◌^◌, length, sum, All, IfErr, IfOk, IsOk};
ghost use Rattle.ftn_base.specs.Storage.{IsContradicted, tie_links};
ghost use Rattle.ftn_base.specs.Storage.{IsWithin};
ghost use Rattle.equiv_class.specs.Sound.{IsSound};
ghost use Rattle.equiv_class.specs.Conflicts.{IsTrueFault};
ghost use Rattle.equiv_class.specs.steps.Lists.{lists_of};
ghost use Rattle.equiv_class.specs.steps.Joining.{IsJoined};

use crate::answer::Classes;
use crate::fault::TieFault;
use crate::measuring::{offsets, sizes_of};
use crate::numbering::number;
use crate::sequences::{Sequences, join};
use crate::start::alone;
use ftn_base::Tie;
use std::alloc::Global;

// takes the ties in, up to the first one that contradicts those before it
fn join_all(alloc: Global, sizes: &[u32], ties: &[Tie]) -> Result<Sequences, TieFault>
    requires few { length sizes.now < 2 ^ 32 }
    requires few_ties { length ties.now < 2 ^ 32 }
    requires within { All (IsWithin sizes.now) ties.now }
    requires small { sum sizes.now < 2 ^ 31 }
    ensures joined { IfOk result (λ sequences. IsJoined sizes.now ties.now (lists_of sequences)) }
    ensures conflict { IfErr result (IsTrueFault ties.now) }
{
    let mut sequences = alone(alloc, sizes)?;
    for tie in 0..ties.len() {
        if let Some((one, other)) = join(alloc, &mut sequences, ties[tie])? {
            return Err(TieFault::Conflict {
                tie: tie as u32,
                one,
                other,
            });
        }
    }
    Ok(sequences)
}

/// The classes of objects that take `sizes` storage units each, where each tie makes two units one (5.5.1): objects
/// have one class exactly where a walk over ties joins them, and their offsets differ by its displacement
/// (14.6.3.2). A class begins with the first unit of any of its objects and ends with the last.
///
/// Each tie names units, from 0, of objects that are there, and all objects together have fewer than 2^31 units.
/// `Conflict` comes exactly where the ties contradict each other.
pub fn classes(alloc: Global, sizes: &[u32], ties: &[Tie]) -> Result<Classes, TieFault>
    requires few { length sizes.now < 2 ^ 32 }
    requires few_ties { length ties.now < 2 ^ 32 }
    requires within { All (IsWithin sizes.now) ties.now }
    requires small { sum sizes.now < 2 ^ 31 }
    ensures sound { IfOk result (λ made. IsSound sizes.now (tie_links ties.now) made.class.items made.offset.items made.size.items) }
    ensures consistent { IsOk result → IsContradicted (tie_links ties.now) → ⊥ }
    ensures conflict { IfErr result (IsTrueFault ties.now) }
{
    let sequences = join_all(alloc, sizes, ties)?;
    let numbered = number(alloc, &sequences.label)?;
    let offset = offsets(alloc, &sequences)?;
    let size = sizes_of(alloc, &sequences, &numbered.order)?;
    Ok(Classes {
        class: numbered.class,
        offset,
        size,
    })
}
