//! The values of expressions.

ghost use Rattle.std.specs.Prelude.{◌≡◌};
ghost use Rattle.rename_ref.specs.Meaning as meaning;

use crate::first_meaning::memory::Memory;
use crate::first_meaning::{Outcome, RunFault};
use free_scan::first_form::{Operand, Sign, Term};

const OVERFLOW: Outcome = Outcome::Fault(RunFault::Overflow);

/// One step less.
pub(crate) fn step(steps: u64) -> Result<u64, Outcome>
    ensures { result ≡ meaning.step steps }
{
    steps.checked_sub(1).ok_or(Outcome::Spent)
}

fn held(memory: &Memory, operand: &Operand) -> Result<i64, Outcome>
    ensures { result ≡ meaning.held memory.now operand.now }
{
    match operand {
        Operand::Variable(name) => memory.find(name).ok_or(Outcome::Fault(RunFault::Undefined)),
        Operand::Whole(number) => Ok(i64::from(*number)),
    }
}

fn operand_value(memory: &Memory, operand: &Operand, steps: u64) -> Result<(i64, u64), Outcome>
    ensures { result ≡ meaning.operand_value memory.now operand.now steps }
{
    let left = step(steps)?;
    let number = held(memory, operand)?;
    Ok((number, left))
}

fn kept(number: i64) -> Result<i64, Outcome>
    ensures { result ≡ meaning.kept number }
{
    if i64::from(i32::MIN) <= number && number <= i64::from(i32::MAX) {
        Ok(number)
    } else {
        Err(OVERFLOW)
    }
}

fn combined(sign: Sign, left: i64, right: i64) -> Result<i64, Outcome>
    ensures { result ≡ meaning.combined sign left right }
{
    let number = match sign {
        Sign::Plus => left.checked_add(right),
        Sign::Minus => left.checked_sub(right),
    };
    match number {
        Some(number) => kept(number),
        None => Err(OVERFLOW),
    }
}

/// The value of the chain of the first operand and the terms, and the steps that are left.
pub(crate) fn value(
    memory: &Memory,
    first: &Operand,
    terms: &[Term],
    steps: u64,
) -> Result<(i64, u64), Outcome>
    ensures { result ≡ meaning.value memory.now (meaning.tree_with (meaning.leaf first.now) terms.now) steps }
{
    match terms {
        [] => operand_value(memory, first, steps),
        [front @ .., term] => {
            let steps = step(steps)?;
            let (left, steps) = value(memory, first, front, steps)?;
            let (right, steps) = operand_value(memory, &term.operand, steps)?;
            Ok((combined(term.sign, left, right)?, steps))
        }
    }
}
