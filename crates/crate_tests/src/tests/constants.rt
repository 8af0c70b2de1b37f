//! Constant expressions, and texts of a given length.

use const_expr::{Naming, Setting, evaluate, fitted};
use ftn_base::Bytes;
use ftn_tree::{Expr, Operator, Value};
use sqlite_items::Boxed;
use std::alloc::Global;

fn is(text: &[u8], wanted: &[u8]) -> bool {
    text == wanted
}

fn is_text(value: &Option<Value>, wanted: &[u8]) -> bool {
    match value {
        Some(Value::Chars(text)) => text.bytes() == wanted,
        _ => false,
    }
}

fn bytes(alloc: Global, text: &[u8]) -> Option<Bytes> {
    Bytes::from_slice(alloc, text).ok()
}

/// `'ab' // c`, where `c` is the name at token 2.
fn joined(alloc: Global) -> Option<Expr> {
    let left = Expr::Quoted {
        token: 0,
        value: bytes(alloc, b"ab")?,
    };
    let right = Expr::Refer {
        name: 2,
        args: None,
        part: None,
    };
    Some(Expr::Binary {
        op: 1,
        operator: Operator::Concat,
        left: Boxed::new(alloc, left).ok()?,
        right: Boxed::new(alloc, right).ok()?,
    })
}

/// The expression has a value where its name is a constant, and else the name has no place in it.
fn has_value(alloc: Global) -> Option<bool> {
    let value = Some(Value::Chars(bytes(alloc, b"c")?));
    let namings = [Naming::Constant {
        value,
        rank: 0,
        bounds: None,
    }];
    let known = Setting {
        row: &[None, None, Some(0)],
        namings: &namings,
    };
    let made = evaluate(alloc, &known, &joined(alloc)?).ok()?;
    let is_abc = is_text(&made.value, b"abc");
    let unknown = Setting {
        row: &[None, None, None],
        namings: &namings,
    };
    let stray = evaluate(alloc, &unknown, &joined(alloc)?).ok()?;
    Some(is_abc && made.first == 0 && stray.told.stray == Some(2))
}

fn is_fitted(alloc: Global) -> Option<bool> {
    let cut = fitted(alloc, 2, b"abc").ok()?;
    let padded = fitted(alloc, 4, b"ab").ok()?;
    Some(is(cut.bytes(), b"ab") && is(padded.bytes(), b"ab  "))
}

#[test]
fn constants_have_values(rt: HostRuntime) {
    assert!(rt; has_value(rt.alloc()) == Some(true));
    assert!(rt; is_fitted(rt.alloc()) == Some(true));
}
