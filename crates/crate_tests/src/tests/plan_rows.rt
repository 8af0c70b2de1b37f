//! Texts that are no plans, with `|` for the end of a line, and where the first field that is broken or cut begins.

use crate::tests::fields::{halves, number};
use plan_file::{PlanFault, read_plan};
use std::alloc::Global;

const BROKEN: &[u8] = b"~0;ftn-p~0;ftn-plan 2|files 1|~0;ftn-plan 1|~11;ftn-plan 1|files 0|end|~11;\
ftn-plan 1|files 01|file 0 a.f90||end|~11;ftn-plan 1|files 4097|file 0 a.f90||end|~11;\
ftn-plan 1|files +1|file 0 a.f90||end|~11;ftn-plan 1|files 1|file 00 a.f90||end|~19;\
ftn-plan 1|files 1|file 4194305 a.f90|~19;ftn-plan 1|files 1|file 99999999999999999999 a.f90|~19;\
ftn-plan 1|files 1|file 0 a.f||end|~19;ftn-plan 1|files 1|file 0 a/b.f90||end|~19;\
ftn-plan 1|files 1|file 4194304 a.f90|~38;ftn-plan 1|files 1|file 1 a.f90|xyend|~32;\
ftn-plan 1|files 1|file 9 a.f90|123456|~32;ftn-plan 1|files 1|file 2 a.f90|xy|end~35;\
ftn-plan 1|files 1|file 2 a.f90|xy|end||~39;ftn-plan 1|files 2|file 0 a.f90||end|~33;\
ftn-plan 1|files 1|file 0 a.f90||file 0 b.f90||end|~33;ftn-plan 1|files 2|file 0 b.f90||file 0 a.f90||end|~33;\
ftn-plan 1|files 2|file 0 a.f90||file 0 a.f90||end|~33;ftn-plan 1|files 2|file 0 a.f90||file 2 b.f90||end|~46";

/// Whether the row's text is broken where it says.
fn holds(alloc: Global, row: &[u8]) -> Option<bool> {
    let (asked, wanted) = halves(row)?;
    let mut text = Vec::new(alloc);
    for byte in asked {
        text.push(if *byte == b'|' { b'\n' } else { *byte }).ok()?;
    }
    match read_plan(alloc, &text) {
        Ok(_) => Some(false),
        Err(PlanFault::NotAPlan(at)) => Some(number(wanted) == Some(at)),
        Err(PlanFault::NoMemory) => None,
    }
}

#[test]
fn texts_are_broken_where_rows_say(rt: HostRuntime) {
    for row in BROKEN.split(|byte| *byte == b';') {
        assert!(rt; holds(rt.alloc(), row) == Some(true));
    }
}
