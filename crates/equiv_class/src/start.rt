//! Objects before any tie is taken in.

ghost use Rattle.std.specs.Prelude.{◌≡◌, ◌<◌, ◌^◌, ℕ, [], ◌∷◌, length, slice_index, IfOk};
ghost use Rattle.equiv_class.specs.steps.Lists.{IsAlone, lists_of, member_lists, members_of};

use crate::sequences::{MIDDLE, Sequences};
use ftn_base::NoMemory;
use std::alloc::Global;

// the numbers below this one
fn numbers(alloc: Global, count: u32) -> Result<Vec<u32>, NoMemory>
    ensures size { IfOk result (λ list. length list.items ≡ count) }
    ensures each { IfOk result (λ list. (number : ℕ) → number < count → slice_index list.items number ≡ number) }
{
    let mut list = Vec::new(alloc);
    for number in 0..count {
        list.push(number)?;
    }
    Ok(list)
}

// for each number below this one a list of it alone
fn singles(alloc: Global, count: u32) -> Result<Vec<Vec<u32>>, NoMemory>
    ensures size { IfOk result (λ lists. length lists.items ≡ count) }
    ensures each { IfOk result (λ lists. (number : ℕ) → number < count → members_of (member_lists lists.items) number ≡ number ∷ []) }
{
    let mut lists = Vec::new(alloc);
    for number in 0..count {
        lists.push(vec![in alloc; number]?)?;
    }
    Ok(lists)
}

// the same numbers, in more room
fn widened(alloc: Global, sizes: &[u32]) -> Result<Vec<u64>, NoMemory>
    ensures { IfOk result (λ list. list.items ≡ sizes.now) }
{
    let mut list = Vec::new(alloc);
    for size in sizes {
        list.push(u64::from(*size))?;
    }
    Ok(list)
}

/// Each object as a sequence of its own.
pub(crate) fn alone(alloc: Global, sizes: &[u32]) -> Result<Sequences, NoMemory>
    requires { length sizes.now < 2 ^ 32 }
    ensures { IfOk result (λ sequences. IsAlone sizes.now (lists_of sequences)) }
{
    let count = sizes.len();
    let label = numbers(alloc, count as u32)?;
    let place = vec![in alloc; MIDDLE; count]?;
    let members = singles(alloc, count as u32)?;
    let below = vec![in alloc; 0; count]?;
    let above = widened(alloc, sizes)?;
    Ok(Sequences {
        label,
        place,
        members,
        below,
        above,
    })
}
