//! The words that the program was started with.

use std::alloc::{AllocError, Global};
use std::env::FillError;
use std::rt::Env;
use std::str;

/// What stands for a word that is no UTF-8 text: no command takes it at any place.
const NO_TEXT: &str = "-";

/// The word of these bytes.
fn word_of(alloc: Global, bytes: &[u8]) -> Result<String, AllocError> {
    match str::from_utf8(bytes) {
        Ok(text) => String::from_str(alloc, text),
        Err(_) => String::from_str(alloc, NO_TEXT),
    }
}

/// The argument at that place, the program's name being at 0, in a buffer that doubles until it fits.
fn word_at<R: Env + AllocGlobal>(rt: &R, at: usize) -> Result<Option<String>, AllocError> {
    let mut size = 256usize;
    for _ in 0..usize::BITS {
        let mut buffer = vec![in rt.alloc(); 0u8; size]?;
        match rt.arg(at, &mut buffer) {
            Ok(count) => return Ok(Some(word_of(rt.alloc(), &buffer[..count])?)),
            Err(FillError::NotPresent) => return Ok(None),
            Err(FillError::TooLong) => size = size.saturating_mul(2),
        }
    }
    Err(AllocError)
}

/// The words after the program's name. One that is no UTF-8 text is given as `-`, a bad word wherever it stands.
pub fn words_of<R: Env + AllocGlobal>(rt: &R) -> Result<Vec<String>, AllocError> {
    let mut words = Vec::new(rt.alloc());
    for at in 1..usize::MAX {
        match word_at(rt, at)? {
            Some(word) => words.push(word)?,
            None => break,
        }
    }
    Ok(words)
}
