//! Implicit types, rules for names and lists of shapes.

use common_match::{Mismatch, same_shape};
use ftn_base::{Bounds, Bytes, Length, Letter, Shape, Ty};
use implicit_type::{LetterMap, Twice};
use name_rule::{NamePattern, NameRule};
use std::alloc::Global;

/// The map of an inner scoping unit with a range of its own, and a letter given twice.
fn letters() -> Option<bool> {
    let logical = Letter::Known(Ty::Logical);
    let outer = LetterMap::standard().with_range(b'a', b'c', logical).ok()?;
    let twice = outer.with_range(b'b', b'd', logical);
    let inner = LetterMap::none()
        .inner()
        .with_range(b'f', b'h', logical)
        .ok()?;
    let given = matches!(inner.type_of(b'g'), Letter::Known(Ty::Logical));
    let none = matches!(inner.type_of(b'i'), Letter::Nothing);
    Some(given && none && matches!(twice, Err(Twice(b'b'))))
}

fn rules(alloc: Global) -> Option<bool> {
    let pattern = NamePattern {
        prefix: Bytes::from_slice(alloc, b"k_").ok()?,
        most: 5,
        underscores: true,
    };
    let rule = NameRule::new(pattern, |name: &[u8]| {
        name.starts_with(b"k_") && name.len() <= 5
    });
    Some(rule.allows(b"k_abc") && !rule.allows(b"k_abcd") && rule.pattern().most == 5)
}

fn shape(alloc: Global, ty: Ty, high: i32) -> Option<Shape> {
    let bounds = Bounds::new(alloc).with(1, high).ok()?;
    Some(Shape { ty, bounds })
}

fn two_shapes(alloc: Global, high: i32) -> Option<Vec<Shape>> {
    let mut shapes = Vec::new(alloc);
    shapes.push(shape(alloc, Ty::Integer, 2)?).ok()?;
    shapes
        .push(shape(alloc, Ty::Character(Length::Assumed), high)?)
        .ok()?;
    Some(shapes)
}

/// Lists that differ in bounds, and then in length.
fn shapes(alloc: Global) -> Option<bool> {
    let one = two_shapes(alloc, 3)?;
    let other = two_shapes(alloc, 4)?;
    if one.len() != 2 || other.len() != 2 {
        return None;
    }
    let bounds = matches!(same_shape(&one, &other), Err(Mismatch { at: 1 }));
    let shorter = matches!(same_shape(&one, &one[..1]), Err(Mismatch { at: 1 }));
    Some(bounds && shorter && same_shape(&one, &one).is_ok())
}

#[test]
fn letters_rules_and_shapes_are_told(rt: HostRuntime) {
    assert!(rt; letters() == Some(true));
    assert!(rt; rules(rt.alloc()) == Some(true));
    assert!(rt; shapes(rt.alloc()) == Some(true));
}
