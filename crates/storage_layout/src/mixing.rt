//! Numeric and character units that are one.

ghost use Rattle.std.specs.Prelude.{◌≡◌, ◌<◌, ◌≤◌, ℕ, length, All, Decides, IfOk, slice_index, vec_len};
ghost use Rattle.storage_layout.specs.steps.Mixing.{AreMet, HasCrossing};

use crate::reaches::Reaches;
use crate::span::{Span, spans_in_order};
use equiv_class::Classes;
use ftn_base::{NoMemory, Object};
use std::alloc::Global;

// whether a span begins before those before it, of its class, but of the other sort and of other groups, end
fn has_crossing(alloc: Global, spans: &[Span], classes: usize) -> Result<bool, NoMemory>
    requires { All (λ span. span.class < classes) spans.now }
    ensures { IfOk result (λ found. Decides found (HasCrossing spans.now)) }
{
    let mut reaches = vec![in alloc; Reaches::new(); classes]?;
    for span in spans {
        let before = reaches[span.class as usize];
        if u64::from(span.start) < before.against(span.sort, span.group) {
            return Ok(true);
        }
        reaches[span.class as usize] = before.with(span.sort, span.group, span.end);
    }
    Ok(false)
}

/// Whether a unit of a numeric object and a unit of a character object of another group have one class and one
/// place in it.
pub(crate) fn mixes(
    alloc: Global,
    objects: &[Object],
    found: &Classes,
    group: &[u32],
) -> Result<bool, NoMemory>
    requires classes { length objects.now ≤ length found.now.class.items }
    requires offsets { length objects.now ≤ length found.now.offset.items }
    requires groups { length objects.now ≤ length group.now }
    requires known { (v : ℕ) → v < length objects.now → slice_index found.now.class.items v < vec_len found.now.size }
    requires filled { All (λ object. 1 ≤ object.units) objects.now }
    ensures { IfOk result (λ mixed. Decides mixed (AreMet objects.now found.now.class.items found.now.offset.items group.now)) }
{
    let spans = spans_in_order(alloc, objects, found, group)?;
    has_crossing(alloc, &spans, found.size.len())
}
