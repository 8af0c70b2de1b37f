//! What a program in first form does: its output and its end within a number of steps.

ghost use Rattle.std.specs.Prelude.{◌≡◌, IfOk};
ghost use Rattle.rename_ref.specs.Meaning.{run as run_of};
ghost use Rattle.rename_ref.specs.MeaningLaws.{MoreStepsOnlyAdd, OneRunPerText, RenamingKeepsRuns};

mod expression;
mod halt;
mod memory;
mod statement;

use crate::first_meaning::halt::Halt;
use crate::first_meaning::memory::Memory;
use crate::first_meaning::statement::begin;
use free_scan::first_form::Program;
use ftn_base::NoMemory;
use std::alloc::Global;

/// A fault of a run.
#[derive(Clone, Copy)]
pub enum RunFault {
    /// A variable that holds nothing is read.
    Undefined,
    /// A result lies outside 32 bits.
    Overflow,
}

/// How a run ends.
#[derive(Clone, Copy)]
pub enum Outcome {
    /// The program ended.
    Stop,
    /// It faulted.
    Fault(RunFault),
    /// A step was needed and none was left.
    Spent,
}

/// What a run wrote, and how it ended.
#[derive(Drop)]
pub struct Ran {
    /// The records, each with its LF.
    pub output: Vec<u8>,
    /// The end.
    pub outcome: Outcome,
}

/// Runs the program for at most that many steps, with the plainest means: a list of names and numbers.
pub fn run(alloc: Global, program: &Program, steps: u64) -> Result<Ran, NoMemory>
    ensures { IfOk result (λ ran. (ran.output.items, ran.outcome) ≡ run_of program.now steps) }
{
    let mut memory = Memory::new(alloc);
    let mut output = Vec::new(alloc);
    let mut left = steps;
    for statement in program.statements.as_slice() {
        match begin(alloc, &mut memory, statement, left) {
            Ok((record, steps)) => {
                output.extend_from_slice(&record)?;
                left = steps;
            }
            Err(Halt::Ended(outcome)) => return Ok(Ran { output, outcome }),
            Err(Halt::NoMemory) => return Err(NoMemory),
        }
    }
    Ok(Ran {
        output,
        outcome: Outcome::Stop,
    })
}

/// The law that more steps only add to what a program does.
pub fn more_steps_only_add()
    ensures { MoreStepsOnlyAdd }
{}

/// The law that a run is a function of the text and the number of steps.
pub fn one_run_per_text()
    ensures { OneRunPerText }
{}

/// The law that a program does the same by whatever names its variables go, if different names stay different.
pub fn renaming_keeps_runs()
    ensures { RenamingKeepsRuns }
{}
