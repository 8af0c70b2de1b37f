//! Why tokens are no statement and no expression.

ghost use Rattle.std.specs.Prelude.{IsTrue, ◌↔◌, ◌≡◌, ◌+◌, ◌<◌, ◌≤◌, ◌^◌, length};
ghost use Rattle.std.specs.List.{list_any};
ghost use Rattle.ftn_tree.specs.Lexemes.{lexeme_of, is_word};
ghost use Rattle.ftn_tree.specs.Misfits as outside;
ghost use Rattle.expr_parse.specs.steps.Faults as spec;
ghost use Rattle.expr_parse.specs.Exact as exact;

use crate::fault::StatementFault;
use ftn_base::MOST_PARENTHESES;
use ftn_tree::{Lexeme, Token, TokenKind};

fn is_open(here: &Token) -> bool
    ensures { result ≡ outside.is_open here.now }
{
    matches!(here.lexeme(), Lexeme::Open)
}

fn is_close(here: &Token) -> bool
    ensures { result ≡ outside.is_close here.now }
{
    matches!(here.lexeme(), Lexeme::Close)
}

fn one_if(holds: bool) -> usize
    ensures value { result ≡ spec.one_if holds }
    ensures small { result ≤ 1 }
{
    if holds { 1 } else { 0 }
}

/// Whether parentheses nest more than 200 deep: some front of the tokens has more than 200 more `(` than `)`.
pub fn is_deep(tokens: &[Token]) -> bool
    ensures { IsTrue result ↔ outside.IsDeep tokens.now }
{
    nests_too_deep(tokens)
}

/// The same. At most 200 tokens need not be counted.
#[tactic(auto, using(crate::proofs::Deep::few_shallow))]
fn nests_too_deep(tokens: &[Token]) -> bool
    ensures { result ≡ spec.is_deep tokens.now }
{
    if tokens.len() <= MOST_PARENTHESES {
        false
    } else {
        counts_too_deep(tokens)
    }
}

#[tactic(auto, unfolding(crate::specs::steps::Faults::is_deep))]
fn counts_too_deep(tokens: &[Token]) -> bool
    ensures { result ≡ spec.is_deep tokens.now }
{
    let mut opened: usize = 0;
    let mut closed: usize = 0;
    for here in tokens {
        opened += one_if(is_open(here));
        closed += one_if(is_close(here));
        if MOST_PARENTHESES + closed < opened {
            return true;
        }
    }
    false
}

/// The fault of tokens that nothing fits: `OutOfProfile` where they may be Fortran 90 that the profile hasn't, else
/// `NotAStatement`.
pub fn misfit(tokens: &[Token]) -> StatementFault
    ensures { result ≡ exact.misfit tokens.now }
{
    if is_outside(tokens) {
        StatementFault::OutOfProfile
    } else {
        StatementFault::NotAStatement
    }
}

#[tactic(auto, unfolding(ftn_tree::specs::Misfits::is_outside))]
fn is_outside(row: &[Token]) -> bool
    ensures { result ≡ outside.is_outside row.now }
{
    begins_with_whole(row)
        || holds_foreign(row)
        || holds_glued(row)
        || holds_keyword(row)
        || is_named_construct(row)
        || begins_with_word(row)
}

fn begins_with_whole(row: &[Token]) -> bool
    ensures { result ≡ outside.begins_with_whole row.now }
{
    match row {
        [first, ..] => first.lexeme().is(Lexeme::Whole),
        [] => false,
    }
}

fn is_foreign(here: &Token) -> bool
    ensures { result ≡ outside.is_foreign here.now }
{
    match here.kind {
        TokenKind::RealForm => true,
        TokenKind::Dotted => here.lexeme().is(Lexeme::Foreign),
        TokenKind::Mark => {
            here.value.bytes() == b"%".as_slice() || here.value.bytes() == b"(/".as_slice()
        }
        _ => false,
    }
}

fn holds_foreign(row: &[Token]) -> bool
    ensures { result ≡ list_any outside.is_foreign row.now }
{
    row.iter().any(|here| is_foreign(here))
}

fn is_glued(here: &Token, next: &Token) -> bool
    ensures { result ≡ outside.is_glued here.now next.now }
{
    here.lexeme().is(Lexeme::Whole)
        && next.lexeme().is(Lexeme::Word)
        && here.range.end == next.range.start
}

fn holds_glued(row: &[Token]) -> bool
    ensures { result ≡ outside.holds_glued row.now }
{
    let mut rest = row;
    while let [here, after @ ..] = rest {
        if let [next, ..] = after {
            if is_glued(here, next) {
                return true;
            }
        }
        rest = after;
    }
    false
}

fn depth_after(depth: usize, here: &Token) -> usize
    requires { depth + 1 < 2 ^ 64 }
    ensures { result ≡ outside.depth_after depth here.now }
{
    match here.lexeme() {
        Lexeme::Open => depth + 1,
        Lexeme::Close => depth.saturating_sub(1),
        _ => depth,
    }
}

fn begins_item(depth: usize, here: &Token) -> bool
    ensures { result ≡ outside.begins_item_at depth (lexeme_of here.now) }
{
    match here.lexeme() {
        Lexeme::Open => true,
        Lexeme::Comma => depth > 0,
        _ => false,
    }
}

fn begins_keyword(row: &[Token]) -> bool
    ensures { result ≡ outside.begins_keyword row.now }
{
    match row {
        [here, next, ..] => here.lexeme().is(Lexeme::Word) && next.lexeme().is(Lexeme::Equals),
        _ => false,
    }
}

fn holds_keyword(row: &[Token]) -> bool
    ensures { result ≡ outside.holds_keyword 0 row.now }
{
    let mut depth = 0;
    let mut rest = row;
    while let [here, after @ ..] = rest {
        if begins_item(depth, here) && begins_keyword(after) {
            return true;
        }
        depth = depth_after(depth, here);
        rest = after;
    }
    false
}

fn is_named_construct(row: &[Token]) -> bool
    ensures { result ≡ outside.is_named_construct row.now }
{
    match row {
        [label, colon, here, ..] => {
            label.lexeme().is(Lexeme::Word)
                && colon.lexeme().is(Lexeme::Colon)
                && (here.is_word(b"if") || here.is_word(b"select") || here.is_word(b"selectcase"))
        }
        _ => false,
    }
}

const STATEMENT_WORDS: [&[u8]; 47] = [
    b"real",
    b"complex",
    b"double",
    b"doubleprecision",
    b"type",
    b"pointer",
    b"target",
    b"allocatable",
    b"allocate",
    b"deallocate",
    b"nullify",
    b"recursive",
    b"optional",
    b"go",
    b"goto",
    b"format",
    b"entry",
    b"namelist",
    b"where",
    b"elsewhere",
    b"include",
    b"assign",
    b"pause",
    b"data",
    b"block",
    b"blockdata",
    b"open",
    b"close",
    b"inquire",
    b"rewind",
    b"backspace",
    b"endfile",
    b"integer",
    b"logical",
    b"character",
    b"dimension",
    b"equivalence",
    b"interface",
    b"subroutine",
    b"function",
    b"call",
    b"do",
    b"stop",
    b"return",
    b"print",
    b"read",
    b"write",
];

fn is_any_word(here: &Token, words: &[&[u8]]) -> bool
    ensures { result ≡ list_any (λ text. is_word text.now here.now) words.now }
{
    words.iter().any(|text| here.is_word(text))
}

fn begins_with_word(row: &[Token]) -> bool
    ensures { result ≡ outside.begins_with_word row.now }
{
    match row {
        [first, ..] => is_any_word(first, &STATEMENT_WORDS),
        [] => false,
    }
}
