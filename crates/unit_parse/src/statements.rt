//! One statement after another.

ghost use Rattle.std.specs.Prelude.{◌≡◌, ◌<◌, ◌^◌, length};
ghost use Rattle.ftn_tree.specs.FileFaults as files;
ghost use Rattle.unit_parse.specs.steps.Progress as spec;

use crate::fault::{NestFault, ParseFault};
use crate::forms::read_form;
use crate::nesting::Nesting;
use expr_parse::StatementFault;
use ftn_base::{FaultKind, NoMemory, Range};
use ftn_tree::{Form, Mark, Statement, Tokens};
use sqlite_items::Items;
use std::alloc::Global;

/// The statements that were read so far, and how they nest.
#[derive(Drop)]
pub struct Reading {
    /// The statements in their order.
    pub statements: Items<Statement>,
    /// Their nesting.
    pub nesting: Nesting,
}

/// The bytes of the first token of a statement.
pub fn first_bytes(tokens: &Tokens, at: Range) -> Range
    ensures { result ≡ files.first_bytes tokens.now at }
{
    match tokens.items.get(at.start as usize) {
        Some(first) => first.range,
        None => Range { start: 0, end: 0 },
    }
}

fn misread(fault: StatementFault, range: Range) -> ParseFault
    ensures { result ≡ spec.misread fault range }
{
    let kind = match fault {
        StatementFault::NotAStatement => FaultKind::NotAStatement,
        StatementFault::OutOfProfile => FaultKind::OutOfProfile,
        StatementFault::TooDeep => FaultKind::TooDeep,
        StatementFault::NoMemory => return ParseFault::NoMemory,
    };
    ParseFault::At { kind, range }
}

fn refused(fault: NestFault, range: Range) -> ParseFault
    ensures { result ≡ spec.refused fault range }
{
    match fault {
        NestFault::At { kind, .. } => ParseFault::At { kind, range },
        NestFault::NoMemory => ParseFault::NoMemory,
    }
}

impl Reading {
    /// No statement.
    fn new(alloc: Global) -> Reading
        ensures { result ≡ spec.nothing }
    {
        Reading {
            statements: Items::new(alloc),
            nesting: Nesting::new(alloc),
        }
    }

    /// Adds a statement, and gives what it is to the nesting of statements.
    fn add_form(&mut self, form: Form, at: Range) -> Result<Mark, NoMemory>
        ensures { spec.AddsForm self.old form at result self.new }
    {
        let mark = form.mark();
        self.statements.push(Statement { form, tokens: at })?;
        Ok(mark)
    }

    /// Reads the next statement, whose tokens have the numbers of that range, and sees whether it may stand there.
    fn add(&mut self, alloc: Global, tokens: &Tokens, at: Range) -> Result<(), ParseFault>
        requires { length self.old.statements < 2 ^ 32 }
        ensures { spec.Adds tokens.now at self.old result self.new }
    {
        let number = self.statements.len() as u32;
        let mark = match read_form(alloc, tokens, at) {
            Ok(form) => self.add_form(form, at)?,
            Err(fault) => return Err(misread(fault, first_bytes(tokens, at))),
        };
        if let Err(fault) = self.nesting.take_mark(number, mark, tokens) {
            return Err(refused(fault, first_bytes(tokens, at)));
        }
        Ok(())
    }
}

/// Reads all statements of a file up to the first one that is none, or that may not stand where it does.
pub fn read_all(alloc: Global, tokens: &Tokens) -> Result<Reading, ParseFault>
    requires { length tokens.now.statements < 2 ^ 32 }
    ensures { spec.ReadsAll tokens.now result }
{
    let mut reading = Reading::new(alloc);
    for at in tokens.statements.as_slice() {
        reading.add(alloc, tokens, *at)?;
    }
    Ok(reading)
}
