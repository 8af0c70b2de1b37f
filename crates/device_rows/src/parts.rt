//! The parts of a text of rows.

use crate::fault::RowFault;
use std::alloc::Global;
use std::str;

/// A line that says something, and the text below it.
#[derive(Drop)]
pub struct Part<'a> {
    /// The line's first word.
    pub key: &'a str,
    /// What stands after the first blank of the line.
    pub rest: &'a str,
    /// The text that the lines below it make.
    pub body: Vec<u8>,
}

/// The parts of a text of rows. A line that begins with `|` or `>` is one of the text below the line before, and one
/// that begins with `#` is a remark.
pub fn parts_of(alloc: Global, text: &[u8]) -> Result<Vec<Part<'_>>, RowFault> {
    let mut parts: Vec<Part<'_>> = Vec::new(alloc);
    for line in text.split(|byte| *byte == b'\n') {
        match line.first().copied() {
            None | Some(b'#') => {}
            Some(b'|' | b'>') => match parts.last_mut() {
                Some(part) => add_line(&mut part.body, line)?,
                None => return Err(RowFault::BadLine),
            },
            Some(_) => parts.push(part_of(alloc, line)?)?,
        }
    }
    Ok(parts)
}

fn part_of(alloc: Global, line: &[u8]) -> Result<Part<'_>, RowFault> {
    let line = str::from_utf8(line)?;
    let (key, rest) = line.split_once(' ').unwrap_or((line, ""));
    Ok(Part {
        key,
        rest,
        body: Vec::new(alloc),
    })
}

/// Adds what a line of a text says: `|TEXT` is a line with its LF, `>TEXT` a line without.
fn add_line(body: &mut Vec<u8>, line: &[u8]) -> Result<(), RowFault> {
    match line {
        [b'|', text @ ..] => {
            body.extend_from_slice(text)?;
            body.push(b'\n')?;
        }
        [b'>', text @ ..] => body.extend_from_slice(text)?,
        _ => return Err(RowFault::BadLine),
    }
    Ok(())
}
