//! Rows, as the parts of a text say them.

use crate::fault::RowFault;
use crate::narrow_sink::NarrowSink;
use crate::parts::Part;
use ftn_base::FileName;
use std::alloc::Global;
use store_io::{FailAt, MemStore, Store};

/// A command over a project and devices, and what is wanted of it.
#[derive(Drop)]
pub struct Row {
    /// What the row shows.
    pub title: String,
    /// The words of the command.
    pub words: Vec<String>,
    /// The files before the command.
    pub before: MemStore,
    /// The files that are wanted after it.
    pub after: MemStore,
    /// The calls of the store that fail.
    pub fails: Vec<FailAt>,
    /// The call of the store from which on all fail.
    pub from: Option<u64>,
    /// The sink of the output.
    pub sink: NarrowSink,
    /// The exit code that is wanted.
    pub status: Option<u8>,
    /// The output that is wanted.
    pub output: Vec<u8>,
}

impl Row {
    /// A row without words and files, that wants no output.
    fn new(alloc: Global, title: &str) -> Result<Row, RowFault> {
        Ok(Row {
            title: String::from_str(alloc, title)?,
            words: Vec::new(alloc),
            before: MemStore::new(Vec::new(alloc)),
            after: MemStore::new(Vec::new(alloc)),
            fails: Vec::new(alloc),
            from: None,
            sink: NarrowSink::new(alloc),
            status: None,
            output: Vec::new(alloc),
        })
    }

    /// The row that begins with the part of that number.
    pub fn of(alloc: Global, parts: &[Part], at: usize) -> Result<Row, RowFault> {
        let title = parts.get(at).ok_or(RowFault::BadLine)?;
        let mut row = Row::new(alloc, title.rest)?;
        for part in parts.iter().skip(at.saturating_add(1)) {
            if part.key == "row" {
                break;
            }
            row.add(alloc, parts, part)?;
        }
        Ok(row)
    }

    /// Adds what a part says. `texts` are the texts that parts may name.
    fn add(&mut self, alloc: Global, texts: &[Part], part: &Part) -> Result<(), RowFault> {
        match part.key {
            "words" => self.add_words(alloc, part.rest),
            "file" | "before" | "after" => self.add_file(alloc, texts, part),
            "status" => {
                self.status = Some(part.rest.parse::<u8>()?);
                Ok(())
            }
            "output" => Ok(self.output.extend_from_slice(&part.body)?),
            _ => self.add_failure(part),
        }
    }

    /// Adds the words of a line, which single blanks separate.
    fn add_words(&mut self, alloc: Global, line: &str) -> Result<(), RowFault> {
        for word in line.split(' ') {
            self.words.push(String::from_str(alloc, word)?)?;
        }
        Ok(())
    }

    /// `file` puts a file before and after the command, `before` before it alone, and `after` after it alone.
    fn add_file(&mut self, alloc: Global, texts: &[Part], part: &Part) -> Result<(), RowFault> {
        let (name, text) = part.rest.split_once(' ').unwrap_or((part.rest, ""));
        let text = text_of(texts, text).unwrap_or(&part.body);
        if part.key != "after" {
            put(alloc, &mut self.before, name, text)?;
        }
        if part.key != "before" {
            put(alloc, &mut self.after, name, text)?;
        }
        Ok(())
    }

    /// What the line says of failing calls.
    fn add_failure(&mut self, part: &Part) -> Result<(), RowFault> {
        let call = part.rest.parse::<u64>()?;
        match part.key {
            "store-fails" => self.fails.push(FailAt { call, done: false })?,
            "store-changes" => self.fails.push(FailAt { call, done: true })?,
            "store-stops" => self.from = Some(call),
            "sink-fails" => self.sink.fails.push(call)?,
            "sink-wants" => self.sink.wants.push(call)?,
            "sink-takes" => self.sink.most = call as usize,
            _ => return Err(RowFault::BadLine),
        }
        Ok(())
    }
}

/// The text that a part of this name says.
fn text_of<'a>(texts: &'a [Part<'_>], name: &str) -> Option<&'a Vec<u8>> {
    for part in texts {
        if part.key == "text" && part.rest == name {
            return Some(&part.body);
        }
    }
    None
}

/// Puts a file.
fn put(alloc: Global, store: &mut MemStore, name: &str, text: &[u8]) -> Result<(), RowFault> {
    let name = FileName::new(alloc, name.as_bytes())?;
    let text = Vec::from_slice(alloc, text)?;
    store.prepare(1)?;
    // such a store never fails
    let _ = store.replace(name, text);
    Ok(())
}
