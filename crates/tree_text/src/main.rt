//! `tree_text`: the tokens, statements and program units of a Fortran text on standard input, its names with what is said of them, its
//! expressions with what their places want, its scoping units and declared entities, or its first fault.
//!
//! What it shows is what `scan`, `parse` and `declare` gave; that it is printed rightly is shown by rows and not proved.
#![tactic(auto)]

ghost use Rattle.std.specs.Prelude.{◌≡◌, ◌<◌, ◌≤◌, ◌^◌, ◌∷◌, [], length};
ghost use Rattle.ftn_base.specs.Limits.{most_file_bytes};
ghost use Rattle.ftn_base.specs.declared.name.Edition.TheVariants as editions;
ghost use Rattle.ftn_tree.specs.Breaks.{breaches_of};
ghost use Rattle.ftn_tree.specs.Projects.{AreTrees};
ghost use Rattle.ftn_tree.specs.Reading.{tokens_of};

mod actions;
mod data;
mod declarations;
mod expressions;
mod headings;
mod line;
mod said;
mod scopes;
mod statements;
mod tokens;
mod units;

use crate::line::{join, put, put_place};
use crate::said::{put_expressions, put_mentions};
use crate::scopes::put_scopes;
use crate::statements::put_statements;
use crate::tokens::put_tokens;
use crate::units::put_units;
use free_scan::{ScanFault, scan};
use ftn_base::{Edition, FaultKind, MOST_FILE_BYTES, NoMemory, Status, Steps, line_and_column};
use ftn_tree::{FileTree, Tokens};
use std::alloc::Global;
use std::env::{Env, FillError};
use std::io;
use std::io::{Read, Write};
use std::process::ExitCode;
use unit_parse::{ParseFault, parse};

/// What is shown of a text.
#[derive(Clone, Copy)]
enum Shown {
    Tokens,
    Statements,
    Units,
    Names,
    Expressions,
    Scopes,
    Both,
}

/// What this word asks for.
fn shown_by(word: &[u8]) -> Option<Shown> {
    if word == b"tokens".as_slice() {
        Some(Shown::Tokens)
    } else if word == b"statements".as_slice() {
        Some(Shown::Statements)
    } else if word == b"units".as_slice() {
        Some(Shown::Units)
    } else if word == b"names".as_slice() {
        Some(Shown::Names)
    } else if word == b"expressions".as_slice() {
        Some(Shown::Expressions)
    } else if word == b"scopes".as_slice() {
        Some(Shown::Scopes)
    } else {
        None
    }
}

/// The one word that says what is shown; without a word it is statements and units. Nothing where the words are others.
fn asked(rt: &HostRuntime) -> Option<Shown> {
    let mut buffer = [0u8; 16];
    let shown = match rt.arg(1, &mut buffer) {
        Err(FillError::NotPresent) => return Some(Shown::Both),
        Err(FillError::TooLong) => return None,
        Ok(count) => shown_by(&buffer[..count])?,
    };
    match rt.arg(2, &mut buffer) {
        Err(FillError::NotPresent) => Some(shown),
        _ => None,
    }
}

/// Adds the line of a fault.
fn put_fault(
    alloc: Global,
    out: &mut Vec<u8>,
    text: &[u8],
    kind: FaultKind,
    at: u32,
) -> Result<Status, NoMemory>
    requires { length text.now ≤ most_file_bytes }
{
    join(out, b"fault")?;
    put(out, kind.name().as_bytes())?;
    put_place(
        alloc,
        out,
        line_and_column(text, (at as usize).min(text.len())),
    )?;
    join(out, b"\n")?;
    Ok(Status::BadProject)
}

fn put_shown(
    alloc: Global,
    out: &mut Vec<u8>,
    tree: &FileTree,
    shown: Shown,
) -> Result<(), NoMemory> {
    let (tokens, statements) = (&tree.tokens, tree.statements.as_slice());
    match shown {
        Shown::Names => put_mentions(alloc, out, tokens, statements),
        Shown::Expressions => put_expressions(alloc, out, tokens, statements),
        Shown::Units => put_units(alloc, out, tree, tree.units.as_slice(), 0),
        Shown::Tokens | Shown::Statements | Shown::Scopes => put_statements(
            alloc, out, tokens, statements,
        ),
        Shown::Both => {
            put_statements(alloc, out, tokens, statements)?;
            put_units(alloc, out, tree, tree.units.as_slice(), 0)
        }
    }
}

fn put_tree(
    alloc: Global,
    out: &mut Vec<u8>,
    tree: &FileTree,
    shown: Shown,
) -> Result<Status, NoMemory>
    requires { AreTrees (tree.now ∷ []) }
{
    match shown {
        Shown::Scopes => put_scopes(alloc, out, tree),
        _ => {
            put_shown(alloc, out, tree, shown)?;
            Ok(Status::Done)
        }
    }
}

/// Adds the tree that these tokens have, or the line of their first fault.
fn put_parsed(
    alloc: Global,
    out: &mut Vec<u8>,
    text: &[u8],
    tokens: Tokens,
    shown: Shown,
) -> Result<Status, NoMemory>
    requires short { length text.now ≤ most_file_bytes }
    requires few { length tokens.statements < 2 ^ 32 }
    requires sound { breaches_of editions.F90 text.now ≡ [] }
    requires read { tokens ≡ tokens_of text.now }
{
    match parse(alloc, tokens) {
        Ok(tree) => put_tree(alloc, out, &tree, shown),
        Err(ParseFault::At { kind, range }) => put_fault(alloc, out, text, kind, range.start),
        Err(ParseFault::NoMemory) => Err(NoMemory),
    }
}

/// Adds the tokens, or what is shown of their tree.
fn put_scanned(
    alloc: Global,
    out: &mut Vec<u8>,
    text: &[u8],
    tokens: Tokens,
    shown: Shown,
) -> Result<Status, NoMemory>
    requires short { length text.now ≤ most_file_bytes }
    requires few { length tokens.statements < 2 ^ 32 }
    requires sound { breaches_of editions.F90 text.now ≡ [] }
    requires read { tokens ≡ tokens_of text.now }
{
    match shown {
        Shown::Tokens => put_tokens(alloc, out, &tokens),
        _ => put_parsed(alloc, out, text, tokens, shown),
    }
}

/// Adds what is shown of a text. It gives how that ends.
fn put_text(
    alloc: Global,
    out: &mut Vec<u8>,
    text: &[u8],
    shown: Shown,
) -> Result<Status, NoMemory> {
    if text.len() > MOST_FILE_BYTES as usize {
        join(out, b"limit file\n")?;
        return Ok(Status::Limit);
    }
    let mut steps = Steps::new(());
    match scan(alloc, text, Edition::F90, &mut steps) {
        Ok(tokens) => put_scanned(alloc, out, text, tokens, shown),
        Err(ScanFault::At { kind, at }) => put_fault(alloc, out, text, kind, at),
        Err(ScanFault::NoMemory) => Err(NoMemory),
    }
}

/// Reads the text and writes what is shown of it.
fn answer(rt: &HostRuntime) -> Result<Status, NoMemory> {
    let mut out = Vec::new(rt.alloc());
    let status = match asked(rt) {
        Some(shown) => {
            let mut text = Vec::new(rt.alloc());
            if rt.reader().read_to_end(&mut text).is_err() {
                return Ok(Status::InputFault);
            }
            put_text(rt.alloc(), &mut out, &text, shown)?
        }
        None => {
            join(
                &mut out,
                b"one word at most: tokens, statements, units, names, expressions or scopes\n",
            )?;
            Status::BadWords
        }
    };
    match io::writer(rt).write_all(&out) {
        Ok(()) => Ok(status),
        Err(_) => Ok(Status::OutputFault),
    }
}

fn main(rt: HostRuntime) -> ExitCode {
    let status = match answer(&rt) {
        Ok(status) => status,
        Err(NoMemory) => Status::NoMemory,
    };
    ExitCode::from(status.code())
}
