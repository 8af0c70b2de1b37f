//! Whole files.

ghost use Rattle.std.specs.Prelude.{◌≡◌, ◌<◌, ◌^◌, length, IfOk, IfErr};
ghost use Rattle.ftn_tree.specs.FileFaults.{IsFileTree};
ghost use Rattle.unit_parse.specs.Parsing.{HasNoTree, IsParseFault};
ghost use Rattle.unit_parse.specs.steps.Progress as spec;

use crate::fault::{NestFault, ParseFault};
use crate::statements::{Reading, first_bytes, read_all};
use ftn_base::Range;
use ftn_tree::{FileTree, Statement, Tokens};
use std::alloc::Global;

fn bytes_of(tokens: &Tokens, statements: &[Statement], number: u32) -> Range
    ensures { result ≡ spec.bytes_of tokens.now statements.now number }
{
    match statements.get(number as usize) {
        Some(statement) => first_bytes(tokens, statement.tokens),
        None => Range { start: 0, end: 0 },
    }
}

fn unfinished(fault: NestFault, tokens: &Tokens, statements: &[Statement]) -> ParseFault
    ensures { result ≡ spec.unfinished fault tokens.now statements.now }
{
    match fault {
        NestFault::At { kind, statement } => ParseFault::At {
            kind,
            range: bytes_of(tokens, statements, statement),
        },
        NestFault::NoMemory => ParseFault::NoMemory,
    }
}

/// The tree of a file: its statements, each with its form (Fortran 90, 2.1), and the program units that they make (2.2). It fails with
/// the first fault of the file: at the first statement that is none, or that may not stand where it does, and else at the innermost
/// opening that has no ending. The range of a fault counts bytes of the file and is that of the first token of the statement.
pub fn parse(alloc: Global, tokens: Tokens) -> Result<FileTree, ParseFault>
    requires { length tokens.statements < 2 ^ 32 }
    ensures tree { IfOk result (λ tree. IsFileTree tokens tree) }
    ensures fault { IfErr result (IsParseFault tokens) }
    ensures no_tree { IfErr result (HasNoTree tokens) }
{
    let Reading {
        statements,
        nesting,
    } = read_all(alloc, &tokens)?;
    match nesting.end() {
        Ok(units) => Ok(FileTree {
            tokens,
            statements,
            units,
        }),
        Err(fault) => Err(unfinished(fault, &tokens, statements.as_slice())),
    }
}
