//! Rows, carried out.

ghost use Rattle.std.specs.Prelude.{◌≡◌, IfOk};

use crate::comparing::{compare_files, compare_numbers, compare_texts};
use crate::fault::RowFault;
use crate::row::Row;
use ftn_base::{Bytes, FileName, NoMemory};
use ftn_tool::tool;
use std::alloc::Global;
use store_io::{MemSource, MemStore};

/// What the source has, which no command of today reads.
const INPUT: &[u8] = b"1 2\n";

/// How what came of the row differs from what it wants: nothing, where it doesn't.
pub fn differences(alloc: Global, row: &mut Row) -> Result<Vec<u8>, RowFault> {
    let fails = Vec::from_slice(alloc, &row.fails)?;
    let mut store = MemStore::failing(copies(alloc, row.before.files())?, fails, row.from);
    let mut told = Vec::new(alloc);
    carry_out(alloc, &mut told, row, &mut store)?;
    compare_files(alloc, &mut told, store.files(), row.after.files())?;
    Ok(told)
}

/// Carries the command out, and adds how its answer, its output and the source differ.
fn carry_out(
    alloc: Global,
    told: &mut Vec<u8>,
    row: &mut Row,
    store: &mut MemStore,
) -> Result<(), RowFault> {
    let status = row.status.ok_or(RowFault::BadLine)?;
    let mut input = MemSource::new(Vec::from_slice(alloc, INPUT)?, Vec::new(alloc));
    let answer = tool(alloc, &row.words, store, &mut input, &mut row.sink);
    let code = answer.code() as usize;
    compare_numbers(alloc, told, "status", code, status as usize)?;
    compare_texts(alloc, told, "output", row.sink.bytes(), &row.output)?;
    compare_texts(alloc, told, "input", input.left(), INPUT)
}

/// Equal files in memory of their own.
fn copies(alloc: Global, files: &[(FileName, Bytes)]) -> Result<Vec<(FileName, Bytes)>, NoMemory>
    ensures { IfOk result (λ made. made.items ≡ files.now) }
{
    let mut made = Vec::new(alloc);
    for file in files {
        made.push((file.0.copy(alloc)?, file.1.copy(alloc)?))?;
    }
    Ok(made)
}
