//! What came of a row, and where it isn't what was wanted.

use crate::fault::RowFault;
use ftn_base::{Bytes, FileName};
use std::alloc::Global;

/// Adds how two texts differ, if they do.
pub fn compare_texts(
    alloc: Global,
    told: &mut Vec<u8>,
    what: &str,
    came: &[u8],
    wanted: &[u8],
) -> Result<(), RowFault> {
    if came == wanted {
        return Ok(());
    }
    let line = format!(in alloc; "  {what}:\n")?;
    told.extend_from_slice(line.as_bytes())?;
    told.extend_from_slice(came)?;
    told.extend_from_slice(b"  wanted:\n")?;
    told.extend_from_slice(wanted)?;
    Ok(())
}

/// Adds how two numbers differ, if they do.
pub fn compare_numbers(
    alloc: Global,
    told: &mut Vec<u8>,
    what: &str,
    came: usize,
    wanted: usize,
) -> Result<(), RowFault> {
    if came != wanted {
        let line = format!(in alloc; "  {what} {came}, wanted {wanted}\n")?;
        told.extend_from_slice(line.as_bytes())?;
    }
    Ok(())
}

/// Adds how two lists of files differ, if they do.
pub fn compare_files(
    alloc: Global,
    told: &mut Vec<u8>,
    came: &[(FileName, Bytes)],
    wanted: &[(FileName, Bytes)],
) -> Result<(), RowFault> {
    compare_numbers(alloc, told, "files", came.len(), wanted.len())?;
    for (file, other) in came.iter().zip(wanted) {
        compare_texts(alloc, told, "name", file.0.bytes(), other.0.bytes())?;
        compare_texts(alloc, told, "text", file.1.bytes(), other.1.bytes())?;
    }
    Ok(())
}
