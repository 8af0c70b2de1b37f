//! What statements do.

ghost use Rattle.std.specs.Prelude.{◌≡◌, IfOk};
ghost use Rattle.rename_ref.specs.Meaning as meaning;
ghost use Rattle.rename_ref.specs.steps.MeaningSteps.{Halts};

use crate::first_meaning::expression::{step, value};
use crate::first_meaning::halt::Halt;
use crate::first_meaning::memory::Memory;
use free_scan::first_form::{Statement, Sum};
use ftn_base::NoMemory;
use std::alloc::Global;

/// Begins the statement. Gives the record that it writes and the steps that are left.
pub(crate) fn begin(
    alloc: Global,
    memory: &mut Memory,
    statement: &Statement,
    steps: u64,
) -> Result<(Vec<u8>, u64), Halt>
    ensures { Halts (λ left. (memory.new, left.0.items, left.1)) result (meaning.begun memory.old statement.now steps) }
{
    let steps = step(steps)?;
    execute(alloc, memory, statement, steps)
}

fn execute(
    alloc: Global,
    memory: &mut Memory,
    statement: &Statement,
    steps: u64,
) -> Result<(Vec<u8>, u64), Halt>
    ensures { Halts (λ left. (memory.new, left.0.items, left.1)) result (meaning.executed memory.old statement.now steps) }
{
    match statement {
        Statement::Assign { target, value: sum } => {
            let (number, steps) = value(memory, &sum.first, sum.rest.as_slice(), steps)?;
            memory.store(target.copy(alloc)?, number)?;
            Ok((Vec::new(alloc), steps))
        }
        Statement::Print(items) => {
            let (numbers, steps) = values(alloc, memory, items.as_slice(), steps)?;
            Ok((line_of(alloc, &numbers)?, steps))
        }
    }
}

fn values(
    alloc: Global,
    memory: &Memory,
    items: &[Sum],
    steps: u64,
) -> Result<(Vec<i64>, u64), Halt>
    ensures { Halts (λ found. (found.0.items, found.1)) result (meaning.values memory.now items.now steps) }
{
    let mut numbers = Vec::new(alloc);
    let mut left = steps;
    for item in items {
        let (number, steps) = value(memory, &item.first, item.rest.as_slice(), left)?;
        numbers.push(number)?;
        left = steps;
    }
    Ok((numbers, left))
}

fn line_of(alloc: Global, numbers: &[i64]) -> Result<Vec<u8>, NoMemory>
    ensures { IfOk result (λ line. line.items ≡ meaning.line_of numbers.now) }
{
    let mut line = Vec::new(alloc);
    for number in numbers {
        line.push(b' ')?;
        line.extend_from_slice(number.to_string(alloc)?.as_bytes())?;
    }
    line.push(b'\n')?;
    Ok(line)
}
