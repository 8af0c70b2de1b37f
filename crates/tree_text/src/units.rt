//! Program units and constructs: how statements nest, each told by the place of its first token.

use crate::line::{join, place_of, put, put_place};
use ftn_base::NoMemory;
use ftn_tree::{Arm, Block, FileTree, Unit};
use std::alloc::Global;

/// Begins a line, so many steps to the right.
fn put_indent(out: &mut Vec<u8>, depth: usize) -> Result<(), NoMemory> {
    for _step in 0..depth {
        join(out, b"  ")?;
    }
    Ok(())
}

/// Adds the place of the statement of that number.
fn put_statement(
    alloc: Global,
    out: &mut Vec<u8>,
    tree: &FileTree,
    number: u32,
) -> Result<(), NoMemory> {
    match tree.statements.get(number as usize) {
        Some(statement) => put_place(alloc, out, place_of(&tree.tokens, statement.tokens.start)),
        None => put(out, b"?"),
    }
}

/// Adds a line of a word and the place of a statement.
fn put_line(
    alloc: Global,
    out: &mut Vec<u8>,
    tree: &FileTree,
    word: &[u8],
    number: u32,
) -> Result<(), NoMemory> {
    join(out, word)?;
    put_statement(alloc, out, tree, number)?;
    join(out, b"\n")
}

/// Adds a line of a word and the places of an opening and its ending.
fn put_span(
    alloc: Global,
    out: &mut Vec<u8>,
    tree: &FileTree,
    word: &[u8],
    span: (u32, u32),
) -> Result<(), NoMemory> {
    join(out, word)?;
    put_statement(alloc, out, tree, span.0)?;
    put(out, b"to")?;
    put_statement(alloc, out, tree, span.1)?;
    join(out, b"\n")
}

#[cycle(block)]
fn put_blocks(
    alloc: Global,
    out: &mut Vec<u8>,
    tree: &FileTree,
    blocks: &[Block],
    depth: usize,
) -> Result<(), NoMemory> {
    for block in blocks {
        put_indent(out, depth)?;
        match block {
            Block::Plain(number) => put_line(alloc, out, tree, b"statement", *number)?,
            Block::Nest {
                opening,
                arms,
                ending,
            } => {
                put_span(alloc, out, tree, b"construct", (*opening, *ending))?;
                put_arms(alloc, out, tree, arms.as_slice(), depth.saturating_add(1))?;
            }
        }
    }
    Ok(())
}

#[cycle(block)]
fn put_arms(
    alloc: Global,
    out: &mut Vec<u8>,
    tree: &FileTree,
    arms: &[Arm],
    depth: usize,
) -> Result<(), NoMemory> {
    for arm in arms {
        put_indent(out, depth)?;
        put_line(alloc, out, tree, b"arm", arm.head)?;
        put_blocks(
            alloc,
            out,
            tree,
            arm.body.as_slice(),
            depth.saturating_add(1),
        )?;
    }
    Ok(())
}

/// Adds units, each with its own statements and constructs, and then the units inside it.
#[cycle(unit)]
pub fn put_units(
    alloc: Global,
    out: &mut Vec<u8>,
    tree: &FileTree,
    units: &[Unit],
    depth: usize,
) -> Result<(), NoMemory> {
    let inside = depth.saturating_add(1);
    for unit in units {
        put_indent(out, depth)?;
        put_span(alloc, out, tree, b"unit", (unit.opening, unit.ending))?;
        put_blocks(alloc, out, tree, unit.body.as_slice(), inside)?;
        put_units(alloc, out, tree, unit.inner.as_slice(), inside)?;
    }
    Ok(())
}
