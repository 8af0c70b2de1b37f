//! Texts that compare as if the shorter one had blanks at its end (Fortran 90, 7.2.3).

ghost use Rattle.std.specs.Prelude.{◌≡◌, slice_get, unwrap_or};
ghost use Rattle.ftn_tree.specs.Operations.{texts_cmp};

use std::cmp::Ordering;

/// The byte there, or the blank behind the text's end.
pub(crate) fn byte_at(text: &[u8], at: usize) -> u8
    ensures { result ≡ unwrap_or (slice_get text.now at) 32 }
{
    match text.get(at) {
        Some(byte) => *byte,
        None => b' ',
    }
}

/// How the two texts compare, by bytes, the shorter with blanks at its end.
#[tactic(auto, using(crate::proofs::Comparing::decided_at, crate::proofs::Comparing::goes_on_behind))]
pub(crate) fn compare(a: &[u8], b: &[u8]) -> Ordering
    ensures { result ≡ texts_cmp a.now b.now }
{
    let mut at = 0;
    'bytes: while at < a.len() || at < b.len() {
        let how = byte_at(a, at).cmp(&byte_at(b, at));
        if how != Ordering::Equal {
            return how;
        }
        at += 1;
    }
    Ordering::Equal
}
