//! Common blocks that ties join.

ghost use Rattle.std.specs.Prelude.{◌<◌, All, IfOk, Decides};
ghost use Rattle.storage_layout.specs.steps.Held.{HasTwins};

use ftn_base::NoMemory;
use std::alloc::Global;

/// Whether two of these numbers, which are below the count, are one.
pub(crate) fn has_twins(alloc: Global, numbers: &[u32], count: usize) -> Result<bool, NoMemory>
    requires { All (λ number. number < count) numbers.now }
    ensures { IfOk result (λ found. Decides found (HasTwins numbers.now)) }
{
    let mut seen = vec![in alloc; false; count]?;
    for number in numbers {
        if seen[*number as usize] {
            return Ok(true);
        }
        seen[*number as usize] = true;
    }
    Ok(false)
}
