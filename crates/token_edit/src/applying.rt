//! The text that edits make.

ghost use Rattle.std.specs.Prelude.{◌≡◌, IfOk, IsTrue, length};
ghost use Rattle.token_edit.specs.Edits.{applied, fit, BytesOutsideStay};

use crate::edit::Edit;
use ftn_base::NoMemory;
use std::alloc::Global;

/// The text after the edits, which fit it: its bytes outside their ranges, and their texts in between, in order.
pub fn apply(alloc: Global, text: &[u8], edits: &[Edit]) -> Result<Vec<u8>, NoMemory>
    requires { IsTrue (fit (length text.now) edits.now) }
    ensures { IfOk result (λ made. made.items ≡ applied text.now edits.now) }
{
    let mut made = Vec::new(alloc);
    let mut at = 0;
    for edit in edits {
        made.extend_from_slice(&text[at..edit.range.start as usize])?;
        made.extend_from_slice(edit.text.bytes())?;
        at = edit.range.end as usize;
    }
    made.extend_from_slice(&text[at..])?;
    Ok(made)
}

/// The law that a byte outside all ranges stands, after edits that fit, at its place plus the differences in length of the
/// edits before it.
pub fn bytes_outside_stay()
    ensures { BytesOutsideStay }
{}
