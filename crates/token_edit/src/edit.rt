//! Edits, and when they fit a text.

ghost use Rattle.std.specs.Prelude.{◌≡◌};
ghost use Rattle.token_edit.specs.Edits.{fit};

use ftn_base::{Bytes, Range};

/// An edit: the text comes in place of the bytes of the range. With an empty range it is an insertion before the byte there.
#[derive(Drop)]
pub struct Edit {
    /// The bytes that go, as offsets in the text before all edits.
    pub range: Range,
    /// The bytes that come.
    pub text: Bytes,
}

/// Whether the ranges lie in a text of so many bytes, are sorted and don't overlap. Several insertions may stand at one place,
/// and one at the end of a replaced range comes after it.
pub fn fits(length: u32, edits: &[Edit]) -> bool
    ensures { result ≡ fit length edits.now }
{
    let mut at = 0;
    for edit in edits {
        if edit.range.start < at || edit.range.end < edit.range.start {
            return false;
        }
        at = edit.range.end;
    }
    at <= length
}
