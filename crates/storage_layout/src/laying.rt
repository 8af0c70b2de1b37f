//! The layout.

ghost use Rattle.std.specs.Prelude.{◌≡◌, ◌+◌, ◌<◌, ◌≤◌, ◌^◌, length, All, IfOk, IsOk, IfErr};
ghost use Rattle.ftn_base.specs.Storage.{IsContradicted, tie_links};
ghost use Rattle.ftn_base.specs.StorageMembers.{all_members, links, sizes_of};
ghost use Rattle.ftn_base.specs.StorageGiven.{AreGiven};
ghost use Rattle.ftn_base.specs.StorageLayout.{IsSound};
ghost use Rattle.ftn_base.specs.StorageFaults.{IsEven};
ghost use Rattle.ftn_base.specs.StorageFaults.{AreSmall};
ghost use Rattle.equiv_class.specs.Sound as classes;
ghost use Rattle.storage_layout.specs.Faults.{IsTrueFault};
ghost use Rattle.storage_layout.specs.steps.Numbered.{AreBlocksOf};
ghost use Rattle.storage_layout.specs.steps.Kept.{AreKept, IsTieFault, given_of, sizes_in};

use crate::answer::Layout;
use crate::common_size::odd_list;
use crate::fault::LayoutFault;
use crate::first::first;
use crate::joining::joined;
use crate::kind::Kind;
use crate::limits::too_large;
use crate::sorts::sorts_apart;
use crate::things::Things;
use equiv_class::{Classes, TieFault, classes};
use ftn_base::{BlockList, NoMemory, Object, Tie};
use std::alloc::Global;

// the classes of all things, or the first tie that contradicts those before it
fn all_joined(alloc: Global, things: &Things) -> Result<Classes, LayoutFault>
    requires { AreKept things.now }
    ensures sound { IfOk result (λ found. classes.IsSound things.now.sizes.items (tie_links things.now.ties.items) found.class.items found.offset.items found.size.items) }
    ensures agree { IsOk result → IsContradicted (tie_links things.now.ties.items) → ⊥ }
    ensures fault { IfErr result (IsTieFault things.now) }
{
    match classes(alloc, &things.sizes, &things.ties) {
        Ok(found) => Ok(found),
        Err(TieFault::Conflict { tie, .. }) => {
            Err(LayoutFault::Conflict(tie - things.members.len() as u32))
        }
        Err(TieFault::NoMemory) => Err(LayoutFault::NoMemory),
    }
}

// the faults of blocks whose links do not contradict each other, in turn
fn tested(
    alloc: Global,
    things: &Things,
    objects: &[Object],
    blocks: &[BlockList],
) -> Result<(), LayoutFault>
    requires kept { AreKept things.now }
    requires sizes { sizes_in things.now ≡ sizes_of objects.now }
    requires members { things.now.members.items ≡ all_members blocks.now }
    requires agree { IsContradicted (tie_links things.now.ties.items) → ⊥ }
    requires given { AreGiven objects.now blocks.now (given_of things.now) }
    requires small { AreSmall (sizes_of objects.now) }
    ensures even { IsOk result → IsEven objects.now blocks.now (given_of things.now) }
    ensures fault { IfErr result (IsTrueFault objects.now blocks.now (given_of things.now)) }
{
    if let Some(tie) = first(alloc, things, objects, Kind::Before)? {
        return Err(LayoutFault::BeforeStart(tie));
    }
    if let Some(tie) = first(alloc, things, objects, Kind::Twins)? {
        return Err(LayoutFault::TwoBlocks(tie));
    }
    sorts_apart(alloc, things, objects, blocks)?;
    let tied = joined(alloc, &things.sizes, things.ties_alone(things.count()))?;
    match odd_list(alloc, things, blocks, &tied)? {
        Some(list) => Err(LayoutFault::CommonSize(list)),
        None => Ok(()),
    }
}

// the block of each area
fn blocks_of(alloc: Global, things: &Things, found: &Classes) -> Result<Vec<Option<u32>>, NoMemory>
    requires sized { things.now.objects + length things.now.names.items ≤ length found.now.class.items }
    requires known { All (λ area. area < length found.now.size.items) found.now.class.items }
    ensures { IfOk result (λ block. AreBlocksOf things.now.objects things.now.names.items found.now.class.items found.now.size.items block.items) }
{
    let mut block = vec![in alloc; None; found.size.len()]?;
    for number in 0..things.names.len() {
        let area = found.class[things.objects + number];
        block[area as usize] = Some(things.names[number]);
    }
    Ok(block)
}

/// Where objects lie in the storage sequences that lists of common blocks and ties of EQUIVALENCE make: objects have
/// one area exactly where a walk over these links joins them, and their offsets differ by its displacement (14.6.3).
/// The area of a common block begins with the block's first unit, any other one with the first unit of its objects.
/// Lists of one block in one scoping unit go on from each other (5.5.2.1).
///
/// Each object takes a unit. A member stands once, in a list of its own scoping unit; a tie names units of objects of
/// one scoping unit; and the lists of a block all have a name or all have none. Where more than one fault is there,
/// the one that stands first in `LayoutFault` is told.
pub fn layout(
    alloc: Global,
    objects: &[Object],
    blocks: &[BlockList],
    ties: &[Tie],
) -> Result<Layout, LayoutFault>
    requires { AreGiven objects.now blocks.now ties.now }
    ensures sound { IfOk result (λ made. IsSound (sizes_of objects.now) (links (sizes_of objects.now) (all_members blocks.now) ties.now) made.area.items made.offset.items made.size.items made.block.items) }
    ensures even { IsOk result → IsEven objects.now blocks.now ties.now }
    ensures fault { IfErr result (IsTrueFault objects.now blocks.now ties.now) }
{
    if let Some(object) = too_large(objects) {
        return Err(LayoutFault::TooLarge(object));
    }
    let things = Things::new(alloc, objects, blocks, ties)?;
    let found = all_joined(alloc, &things)?;
    tested(alloc, &things, objects, blocks)?;
    let block = blocks_of(alloc, &things, &found)?;
    let Classes {
        class: mut area,
        mut offset,
        size,
    } = found;
    area.truncate(objects.len());
    offset.truncate(objects.len());
    Ok(Layout {
        area,
        offset,
        size,
        block,
    })
}
