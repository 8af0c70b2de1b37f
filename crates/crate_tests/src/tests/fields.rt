//! Rows in one constant text: each ends before a `;`, and what is wanted stands behind its `~`.

use std::alloc::Global;
use std::str;

/// What is asked and what is wanted.
pub fn halves(row: &[u8]) -> Option<(&[u8], &[u8])> {
    let mut halves = row.split(|byte| *byte == b'~');
    Some((halves.next()?, halves.next()?))
}

/// The numbers that blanks separate.
pub fn numbers(alloc: Global, text: &[u8]) -> Option<Vec<u32>> {
    let mut numbers = Vec::new(alloc);
    for word in str::from_utf8(text).ok()?.split_whitespace() {
        numbers.push(word.parse::<u32>().ok()?).ok()?;
    }
    Some(numbers)
}

/// The one number of a text.
pub fn number(text: &[u8]) -> Option<u32> {
    str::from_utf8(text).ok()?.parse::<u32>().ok()
}

/// The lists of numbers that `/` separates.
pub fn lists(alloc: Global, text: &[u8]) -> Option<Vec<Vec<u32>>> {
    let mut lists = Vec::new(alloc);
    for field in text.split(|byte| *byte == b'/') {
        lists.push(numbers(alloc, field)?).ok()?;
    }
    Some(lists)
}
