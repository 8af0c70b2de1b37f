//! Tokens, and where lines begin.

use crate::line::{join, place_of, put, put_number, put_place, put_quoted};
use ftn_base::{NoMemory, Range, Status};
use ftn_tree::{Token, TokenKind, Tokens};
use std::alloc::Global;

fn put_kind(out: &mut Vec<u8>, kind: TokenKind) -> Result<(), NoMemory> {
    match kind {
        TokenKind::Word => put(out, b"word"),
        TokenKind::Whole => put(out, b"whole"),
        TokenKind::RealForm => put(out, b"real"),
        TokenKind::Quoted => put(out, b"quoted"),
        TokenKind::Dotted => put(out, b"dotted"),
        TokenKind::Mark => put(out, b"mark"),
    }
}

fn put_value(out: &mut Vec<u8>, token: &Token) -> Result<(), NoMemory> {
    match token.kind {
        TokenKind::Quoted => put_quoted(out, token.value.bytes()),
        _ => {
            join(out, b" ")?;
            join(out, token.value.bytes())
        }
    }
}

fn put_range(alloc: Global, out: &mut Vec<u8>, range: Range) -> Result<(), NoMemory> {
    put_number(alloc, out, range.start)?;
    join(out, b"-")?;
    let end = range.end.to_string(alloc)?;
    join(out, end.as_bytes())
}

/// Adds a line: the token's place, its bytes in the file from the first up to the one after the last, what it is, whether it is
/// split by a continuation, and what it stands for.
fn put_token_line(
    alloc: Global,
    out: &mut Vec<u8>,
    tokens: &Tokens,
    number: u32,
) -> Result<(), NoMemory> {
    let Some(token) = tokens.items.get(number as usize) else {
        return Ok(());
    };
    join(out, b"  ")?;
    put_place(alloc, out, place_of(tokens, number))?;
    put_range(alloc, out, token.range)?;
    put_kind(out, token.kind)?;
    if token.split {
        put(out, b"split")?;
    }
    put_value(out, token)?;
    join(out, b"\n")
}

/// Adds the tokens of each statement, and then the offset at which each line begins. Then all is done.
pub fn put_tokens(alloc: Global, out: &mut Vec<u8>, tokens: &Tokens) -> Result<Status, NoMemory> {
    for statement in tokens.statements.as_slice() {
        join(out, b"statement\n")?;
        for number in statement.start..statement.end {
            put_token_line(alloc, out, tokens, number)?;
        }
    }
    join(out, b"lines")?;
    for start in tokens.line_starts.as_slice() {
        put_number(alloc, out, *start)?;
    }
    join(out, b"\n")?;
    Ok(Status::Done)
}
