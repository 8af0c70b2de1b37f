//! Records, as PRINT and WRITE make them.

ghost use Rattle.std.specs.Prelude.{◌≡◌, ◌++◌, IfOk, OnOk};
ghost use Rattle.ftn_tree.specs.ListRecords.{record_of, text_of, texts_of};

use ftn_base::{Bytes, NoMemory};
use ftn_tree::Value;
use std::alloc::Global;

/// The record of these values: one blank, the items separated by one blank, and LF (Fortran 90, 10.8.2). With
/// no items it is one blank and LF. An integer is decimal, with a sign only where it is negative, a logical
/// is `T` or `F`, and a character value is its bytes.
pub fn line(alloc: Global, items: &[Value]) -> Result<Bytes, NoMemory>
    ensures { IfOk result (λ made. made ≡ record_of items.now) }
{
    let mut text = Vec::from_slice(alloc, b" ")?;
    put_items(alloc, &mut text, items)?;
    text.push(b'\n')?;
    Ok(Bytes::from_vec(text))
}

fn put_items(alloc: Global, out: &mut Vec<u8>, items: &[Value]) -> Result<(), NoMemory>
    ensures { OnOk result (out.new.items ≡ out.old.items ++ texts_of items.now) }
{
    if let [first, rest @ ..] = items {
        put(alloc, out, first)?;
        for item in rest {
            out.push(b' ')?;
            put(alloc, out, item)?;
        }
    }
    Ok(())
}

fn put(alloc: Global, out: &mut Vec<u8>, item: &Value) -> Result<(), NoMemory>
    ensures { OnOk result (out.new.items ≡ out.old.items ++ text_of item.now) }
{
    match item {
        Value::Whole(number) => out.extend_from_slice(number.to_string(alloc)?.as_bytes())?,
        Value::Truth(true) => out.push(b'T')?,
        Value::Truth(false) => out.push(b'F')?,
        Value::Chars(bytes) => out.extend_from_slice(bytes.bytes())?,
    }
    Ok(())
}
