//! Lines of words, with blanks where a reader wants them.

use ftn_base::NoMemory;
use ftn_tree::Tokens;
use std::alloc::Global;

/// Adds these bytes as they are.
pub fn join(out: &mut Vec<u8>, text: &[u8]) -> Result<(), NoMemory> {
    out.extend_from_slice(text)?;
    Ok(())
}

/// Whether no blank stands after this byte.
fn opens(byte: u8) -> bool {
    matches!(byte, b'\n' | b' ' | b'(' | b'[')
}

/// Whether no blank stands before this byte.
fn closes(byte: u8) -> bool {
    matches!(byte, b',' | b')' | b']')
}

/// Whether a blank stands between what was written and these bytes.
fn is_apart(out: &[u8], text: &[u8]) -> bool {
    match (out.last(), text.first()) {
        (Some(before), Some(after)) => !opens(*before) && !closes(*after),
        _ => false,
    }
}

/// Adds a word, after a blank where one belongs there.
pub fn put(out: &mut Vec<u8>, text: &[u8]) -> Result<(), NoMemory> {
    if is_apart(out, text) {
        out.push(b' ')?;
    }
    join(out, text)
}

/// Adds a comma before each part of a list but the first.
pub fn put_comma(out: &mut Vec<u8>, at: usize) -> Result<(), NoMemory> {
    if at > 0 { join(out, b",") } else { Ok(()) }
}

/// Adds a number in decimal.
pub fn put_number(alloc: Global, out: &mut Vec<u8>, number: u32) -> Result<(), NoMemory> {
    let digits = number.to_string(alloc)?;
    put(out, digits.as_bytes())
}

/// Adds a place: the line, a colon and the column.
pub fn put_place(alloc: Global, out: &mut Vec<u8>, place: (u32, u32)) -> Result<(), NoMemory> {
    put_number(alloc, out, place.0)?;
    join(out, b":")?;
    let column = place.1.to_string(alloc)?;
    join(out, column.as_bytes())
}

/// Adds a character constant in apostrophes, those in it doubled (Fortran 90, 4.3.2.1).
pub fn put_quoted(out: &mut Vec<u8>, text: &[u8]) -> Result<(), NoMemory> {
    put(out, b"'")?;
    for byte in text {
        if *byte == b'\'' {
            out.push(b'\'')?;
        }
        out.push(*byte)?;
    }
    join(out, b"'")
}

/// Adds what the token of that number stands for.
pub fn put_token(out: &mut Vec<u8>, tokens: &Tokens, number: u32) -> Result<(), NoMemory> {
    match tokens.items.get(number as usize) {
        Some(token) => put(out, token.value.bytes()),
        None => put(out, b"?"),
    }
}

/// The same where there is a token.
pub fn put_maybe(out: &mut Vec<u8>, tokens: &Tokens, number: Option<u32>) -> Result<(), NoMemory> {
    match number {
        Some(number) => put_token(out, tokens, number),
        None => Ok(()),
    }
}

/// Adds tokens with commas between them.
pub fn put_names(out: &mut Vec<u8>, tokens: &Tokens, names: &[u32]) -> Result<(), NoMemory> {
    for (at, name) in names.iter().enumerate() {
        put_comma(out, at)?;
        put_token(out, tokens, *name)?;
    }
    Ok(())
}

/// The line and the column of a token's first byte, both from 1.
pub fn place_of(tokens: &Tokens, number: u32) -> (u32, u32) {
    let Some(token) = tokens.items.get(number as usize) else {
        return (0, 0);
    };
    let line = token.line.saturating_sub(1) as usize;
    match tokens.line_starts.get(line) {
        Some(start) => (
            token.line,
            token.range.start.saturating_sub(*start).saturating_add(1),
        ),
        None => (0, 0),
    }
}
