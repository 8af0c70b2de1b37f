//! Edits of `abcdef`, each its range and its text, and what they make, or `!` where they don't fit.

use crate::tests::fields::{halves, number};
use ftn_base::{Bytes, Range};
use std::alloc::Global;
use token_edit::{Edit, apply, fits};

const EDITS: &[u8] =
    b"~abcdef;0 0 xy~xyabcdef;6 6 xy~abcdefxy;3 3 x,3 3 yz,3 3 ~abcxyzdef;1 3 x,3 3 yz~axyzdef;\
1 1 x,1 3 yz~axyzdef;0 6 ~;0 2 xyz,2 4 ,5 6 u~xyzeu;0 1 \n,2 3 \xff\x00~\nb\xff\x00def;\
7 7 x~!;5 7 x~!;3 2 x~!;0 3 x,2 4 x~!;3 4 x,1 2 x~!;1 3 x,1 1 x~!";

fn edit(alloc: Global, field: &[u8]) -> Option<Edit> {
    let mut parts = field.split(|byte| *byte == b' ');
    let start = number(parts.next()?)?;
    let end = number(parts.next()?)?;
    let text = Bytes::from_slice(alloc, parts.next()?).ok()?;
    let range = Range { start, end };
    Some(Edit { range, text })
}

/// Whether the row's edits make what it says.
fn holds(alloc: Global, row: &[u8]) -> Option<bool> {
    let (asked, wanted) = halves(row)?;
    let mut edits = Vec::new(alloc);
    for field in asked.split(|byte| *byte == b',') {
        if !field.is_empty() {
            edits.push(edit(alloc, field)?).ok()?;
        }
    }
    if !fits(6, &edits) {
        return Some(wanted == b"!".as_slice());
    }
    Some(apply(alloc, b"abcdef", &edits).ok()?.as_slice() == wanted)
}

#[test]
fn edits_make_what_rows_say(rt: HostRuntime) {
    for row in EDITS.split(|byte| *byte == b';') {
        assert!(rt; holds(rt.alloc(), row) == Some(true));
    }
}
