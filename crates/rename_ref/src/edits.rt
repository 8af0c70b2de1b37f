//! Edits of a text.

ghost use Rattle.std.specs.Prelude.{◌≡◌, IfOk, IsTrue};
ghost use Rattle.rename_ref.specs.Edits.{applied, fit};

use ftn_base::{Bytes, NoMemory, Range};
use std::alloc::Global;

/// An edit: the bytes of the range are replaced by the text.
#[derive(Drop)]
pub struct Edit {
    /// The bytes that go.
    pub range: Range,
    /// The bytes that come in their place.
    pub text: Bytes,
}

/// The text after the edits: its bytes outside their ranges, and their texts in between, in order.
pub fn apply(alloc: Global, text: &[u8], edits: &[Edit]) -> Result<Vec<u8>, NoMemory>
    requires { IsTrue (fit 0 text.now edits.now) }
    ensures { IfOk result (λ made. made.items ≡ applied text.now edits.now) }
{
    let mut made = Vec::new(alloc);
    let mut at = 0;
    for edit in edits {
        made.extend_from_slice(&text[at..edit.range.start as usize])?;
        made.extend_from_slice(edit.text.bytes())?;
        at = edit.range.end as usize;
    }
    made.extend_from_slice(&text[at..])?;
    Ok(made)
}
