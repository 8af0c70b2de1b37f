//! For each statement of a project the number of the last of some extents that cover it.

ghost use Rattle.std.specs.Prelude.{◌≡◌, ◌<◌, ◌^◌, length, IfOk};
ghost use Rattle.decl_table.specs.steps.Rows as spec;

use ftn_base::NoMemory;
use ftn_tree::{Extent, FileTree};
use std::alloc::Global;
use std::marker::Model;

/// For each statement of a file a number, or nothing. Contracts see the list of these.
#[derive(Drop)]
pub struct Row {
    of: Vec<Option<u32>>,
}

impl Model for Row {
    ghost use Rattle.std.specs.Prelude.{List, ℕ, Option};

    ghost Value = { List (Option ℕ) };

    ghost view = { λ a. a.of.items };
}

impl Row {
    /// So many statements without a number.
    fn empty(alloc: Global, count: usize) -> Result<Row, NoMemory>
        ensures { IfOk result (λ row. row ≡ spec.unpainted count) }
    {
        let mut of = Vec::new(alloc);
        for _ in 0..count {
            of.push(None)?;
        }
        Ok(Row { of })
    }

    /// The number of a statement, where it has one.
    fn get(&self, statement: u32) -> Option<u32>
        ensures { result ≡ spec.number_in statement self.now }
    {
        match self.of.get(statement as usize) {
            Some(number) => *number,
            None => None,
        }
    }

    /// Gives this number to all statements from one to another.
    fn paint(&mut self, opening: u32, ending: u32, number: u32)
        ensures { self.new ≡ spec.painted opening ending number self.old }
    {
        paint_slice(&mut self.of, opening, ending, number);
    }
}

fn paint_slice(row: &mut [Option<u32>], opening: u32, ending: u32, number: u32)
    ensures { row.new ≡ spec.painted opening ending number row.old }
{
    let mut at = opening as usize;
    while at < row.len() && at <= ending as usize {
        row[at] = Some(number);
        at += 1;
    }
}

/// The number of a statement of a file, where it has one.
pub fn number_at(rows: &[Row], file: u32, statement: u32) -> Option<u32>
    ensures { result ≡ spec.number_at rows.now file statement }
{
    match rows.get(file as usize) {
        Some(row) => row.get(statement),
        None => None,
    }
}

fn empty_rows(alloc: Global, files: &[FileTree]) -> Result<Vec<Row>, NoMemory>
    ensures { IfOk result (λ rows. rows.items ≡ spec.empty_rows files.now) }
{
    let mut rows = Vec::new(alloc);
    for tree in files {
        rows.push(Row::empty(alloc, tree.statements.len())?)?;
    }
    Ok(rows)
}

fn paint(rows: &mut [Row], extent: Extent, number: u32)
    ensures { rows.new ≡ spec.with_extent extent number rows.old }
{
    let file = extent.file as usize;
    if file < rows.len() {
        rows[file].paint(extent.opening, extent.ending, number);
    }
}

/// For each statement the number of the last extent that covers it, and for each extent the number of the last one before it that
/// covers its opening.
#[derive(Drop)]
pub struct Painted {
    pub rows: Vec<Row>,
    pub around: Vec<Option<u32>>,
}

pub fn paint_all(alloc: Global, files: &[FileTree], extents: &[Extent]) -> Result<Painted, NoMemory>
    requires { length extents.now < 2 ^ 32 }
    ensures rows { IfOk result (λ made. made.rows.items ≡ spec.rows_of files.now extents.now) }
    ensures around { IfOk result (λ made. made.around.items ≡ spec.around_of files.now extents.now) }
{
    let mut rows = empty_rows(alloc, files)?;
    let mut around = Vec::new(alloc);
    let mut number = 0;
    for extent in extents {
        around.push(number_at(&rows, extent.file, extent.opening))?;
        paint(&mut rows, *extent, number);
        number += 1;
    }
    Ok(Painted { rows, around })
}
