//! The statements that stand in a scoping unit and in no other one inside it.

ghost use Rattle.std.specs.Prelude.{◌≡◌, ◌++◌, IfOk, OnOk};
ghost use Rattle.decl_table.specs.steps.Following as spec;

use crate::rows::{Row, number_at};
use ftn_base::NoMemory;
use ftn_tree::Extent;
use std::alloc::Global;

/// Whether it is that number.
pub fn is_number(number: u32, found: Option<u32>) -> bool
    ensures { result ≡ spec.is_number number found }
{
    match found {
        Some(found) => found == number,
        None => false,
    }
}

/// Adds the statement where it has that number.
fn push_own(
    rows: &[Row],
    file: u32,
    number: u32,
    statement: u32,
    own: &mut Vec<u32>,
) -> Result<(), NoMemory>
    ensures { OnOk result (own.new.items ≡ own.old.items ++ spec.own_at number file rows.now statement) }
{
    if is_number(number, number_at(rows, file, statement)) {
        own.push(statement)?;
    }
    Ok(())
}

/// The statements from its opening to its ending that have its number.
pub fn own_statements(
    alloc: Global,
    rows: &[Row],
    unit: Extent,
    number: u32,
) -> Result<Vec<u32>, NoMemory>
    ensures { IfOk result (λ own. own.items ≡ spec.own_by number unit rows.now) }
{
    let mut own = Vec::new(alloc);
    let opening = unit.opening as usize;
    for at in opening..unit.ending as usize + 1 {
        push_own(rows, unit.file, number, at as u32, &mut own)?;
    }
    Ok(own)
}
