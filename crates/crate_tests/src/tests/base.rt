//! Names, texts and shapes.

use ftn_base::{Bounds, Bytes, Edition, FileName, Name, NameFault, Shape, Ty};
use std::alloc::Global;

/// The longest name, and one that is a byte longer.
fn names(alloc: Global) -> Option<bool> {
    let long = b"A_cdefghijklmnopqrstuvwxyz012345".as_slice();
    let name = Name::new(alloc, &long[..31], Edition::F90).ok()?;
    let same = name.copy(alloc).ok()?;
    let longer = Name::new(alloc, long, Edition::F90);
    let folded = b"a_cdefghijklmnopqrstuvwxyz01234".as_slice();
    Some(same.bytes() == folded && matches!(longer, Err(NameFault::NotAName)))
}

/// The longest file name, and one that is a byte longer.
fn file_names(alloc: Global) -> Option<bool> {
    let long = [b'~'; 256];
    let name = FileName::new(alloc, &long[..255]).ok()?;
    let same = name.copy(alloc).ok()?;
    let longer = FileName::new(alloc, &long);
    Some(same.bytes() == &long[..255] && matches!(longer, Err(NameFault::NotAName)))
}

fn texts(alloc: Global) -> Option<bool> {
    let text = Bytes::from_slice(alloc, b"x\xff").ok()?;
    let same = text.copy(alloc).ok()?.into_vec();
    Some(same.as_slice() == b"x\xff".as_slice())
}

fn shapes(alloc: Global) -> Option<bool> {
    let bounds = Bounds::new(alloc).with(1, 3).ok()?.with(-2, 5).ok()?;
    let bounds = bounds.with(0, 0).ok()?;
    let ty = Ty::Logical;
    let same = Shape { ty, bounds }.copy(alloc).ok()?;
    Some(same.ty == ty && same.bounds.pairs() == [(1, 3), (-2, 5), (0, 0)].as_slice())
}

#[test]
fn names_texts_and_shapes_have_memory(rt: HostRuntime) {
    let alloc = rt.alloc();
    assert!(rt; names(alloc) == Some(true));
    assert!(rt; file_names(alloc) == Some(true));
    assert!(rt; texts(alloc) == Some(true));
    assert!(rt; shapes(alloc) == Some(true));
}
