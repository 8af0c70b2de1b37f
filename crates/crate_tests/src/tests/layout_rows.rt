//! Objects, ties and lists of common blocks, and the areas, offsets, sizes and blocks of their layout, or why there is none.

use crate::tests::fields::{halves, lists, numbers};
use crate::tests::layout_given::are_given;
use crate::tests::tie_rows::ties;
use ftn_base::{BlockList, Object, Sort, Tie};
use std::alloc::Global;
use storage_layout::{Layout, LayoutFault, layout};

/// Of each row the objects (units, 1 for characters, scoping unit), the ties, and each list (block, scoping unit, members). Block 20 is
/// blank common. What is wanted: areas, offsets, sizes, and one more than each area's block or 0; or after a `!` the fault in numbers.
const LAYOUTS: &[u8] = b"/~///;3 0 0 2 0 0 1 0 0/0 1 1 0/7 0 2~0 0 1/0 1 0/3 1/0 8;\
2 0 0 3 0 0/0 0 1 2~0 0/2 0/4/0;2 1 0 3 0 1/~0 1/0 0/2 3/0 0;\
3 0 0 4 0 1//20 0 0/20 1 1~0 0/0 0/4/21;2 0 0 3 0 0//7 0 0/7 0 1~0 0/0 2/5/8;\
2 0 0 4 0 0/0 1 1 0/7 0 0~0 0/0 1/5/8;1048576 0 0/~0/0/1048576/0;\
1 0 0 1048577 0 0/~!1 1 0 0;4294967295 0 0/~!1 0 0 0;\
3 0 0 3 0 0/0 2 1 0 1 1 0 0~!2 1 0 0;1 0 0 1 0 0/0 0 1 0/7 0 0 1~!2 0 0 0;\
1 0 0 3 0 0/0 0 1 1/7 0 0~!3 0 0 0;1 0 0 1 0 0/0 0 1 0/7 0 0/8 0 1~!4 0 0 0;\
1 0 0 1 1 0/0 0 1 0~!5 1 0 0;1 0 0 1 0 0 2 1 1//7 0 0 1/7 1 2~!5 0 2 0;\
1 0 0 1 1 0 1 1 1/1 0 1 0 0 0 1 0/7 0 0/7 1 2~!5 2 2 0;3 0 0 4 0 1//7 0 0/7 1 1~!6 1 0 0;\
3 0 0 2 0 1 1 0 1 1 0 1//7 0 0/7 1 1/7 1 2 3~!6 1 0 0;1 0 1//7 0/7 1 0~!6 1 0 0;\
1048576 0 0 1048576 0 0 1048576 0 0 1048576 0 0 1048576 0 0 1048576 0 0 1048576 0 0 1048576 0 0 \
1048576 0 0 1048576 0 0 1048576 0 0 1048576 0 0 1048576 0 0 1048576 0 0 1048576 0 0 1048576 0 0 1 0 0/~!1 16 0 0";

fn objects(alloc: Global, numbers: &[u32]) -> Option<Vec<Object>> {
    let mut objects = Vec::new(alloc);
    for three in numbers.chunks_exact(3) {
        if let [units, characters, scope] = three {
            let sort = if *characters == 1 {
                Sort::Character
            } else {
                Sort::Numeric
            };
            let (units, scope) = (*units, *scope);
            objects.push(Object { units, sort, scope }).ok()?;
        }
    }
    Some(objects)
}

fn block_list(alloc: Global, numbers: &[u32]) -> Option<BlockList> {
    let [block, scope, members @ ..] = numbers else {
        return None;
    };
    Some(BlockList {
        block: *block,
        named: *block != 20,
        scope: *scope,
        members: Vec::from_slice(alloc, members).ok()?,
    })
}

fn block_lists(alloc: Global, lists: &[Vec<u32>]) -> Option<Vec<BlockList>> {
    let mut blocks = Vec::new(alloc);
    for list in lists {
        blocks.push(block_list(alloc, list)?).ok()?;
    }
    Some(blocks)
}

/// The layout, or `NoMemory` where there is none to ask for.
fn given_layout(
    alloc: Global,
    objects: &[Object],
    blocks: &[BlockList],
    ties: &[Tie],
) -> Result<Layout, LayoutFault> {
    if !are_given(alloc, objects, blocks, ties)? {
        return Err(LayoutFault::NoMemory);
    }
    layout(alloc, objects, blocks, ties)
}

fn laid(alloc: Global, asked: &[u8]) -> Option<Result<Layout, LayoutFault>> {
    let lists = lists(alloc, asked)?;
    let [made, tied, blocks @ ..] = lists.as_slice() else {
        return None;
    };
    let objects = objects(alloc, made)?;
    let ties = ties(alloc, tied)?;
    let blocks = block_lists(alloc, blocks)?;
    Some(given_layout(alloc, &objects, &blocks, &ties))
}

/// One more than the number, or 0 where there is none.
fn next(number: Option<u32>) -> u32 {
    match number {
        Some(number) => number.saturating_add(1),
        None => 0,
    }
}

/// A fault in numbers: which one, its object, tie or list; of a mismatch one more than the tie and the list, and the position.
fn fault_numbers(fault: LayoutFault) -> [u32; 4] {
    match fault {
        LayoutFault::NoMemory => [0, 0, 0, 0],
        LayoutFault::TooLarge(object) => [1, object, 0, 0],
        LayoutFault::Conflict(tie) => [2, tie, 0, 0],
        LayoutFault::BeforeStart(tie) => [3, tie, 0, 0],
        LayoutFault::TwoBlocks(tie) => [4, tie, 0, 0],
        LayoutFault::SortMismatch { tie, member: None } => [5, next(tie), 0, 0],
        LayoutFault::SortMismatch {
            tie,
            member: Some((list, at)),
        } => [5, next(tie), next(Some(list)), at],
        LayoutFault::CommonSize(list) => [6, list, 0, 0],
    }
}

fn are_blocks(blocks: &[Option<u32>], wanted: &[u32]) -> bool {
    let same = blocks
        .iter()
        .zip(wanted)
        .all(|(block, number)| next(*block) == *number);
    blocks.len() == wanted.len() && same
}

fn is_layout(alloc: Global, made: &Layout, wanted: &[u8]) -> Option<bool> {
    let lists = lists(alloc, wanted)?;
    let [area, offset, size, block] = lists.as_slice() else {
        return None;
    };
    let same = made.area == *area && made.offset == *offset && made.size == *size;
    Some(same && are_blocks(&made.block, block))
}

fn is_fault(alloc: Global, fault: LayoutFault, wanted: &[u8]) -> Option<bool> {
    let [b'!', rest @ ..] = wanted else {
        return None;
    };
    Some(numbers(alloc, rest)?.as_slice() == fault_numbers(fault).as_slice())
}

/// Whether the row's objects are laid out or refused as it says.
fn holds(alloc: Global, row: &[u8]) -> Option<bool> {
    let (asked, wanted) = halves(row)?;
    match laid(alloc, asked)? {
        Ok(made) => is_layout(alloc, &made, wanted),
        Err(fault) => is_fault(alloc, fault, wanted),
    }
}

#[test]
fn objects_are_laid_out_as_rows_say(rt: HostRuntime) {
    for row in LAYOUTS.split(|byte| *byte == b';') {
        assert!(rt; holds(rt.alloc(), row) == Some(true));
    }
}
