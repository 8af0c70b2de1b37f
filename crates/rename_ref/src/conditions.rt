//! What the conditions of a rename are judged by: tokens, edits and the lengths of lines.

ghost use Rattle.std.specs.List.{find};
ghost use Rattle.std.specs.Option.{option_map};
ghost use Rattle.std.specs.Prelude.{◌≡◌, ◌+◌, ◌<◌, ◌^◌, ◌++◌, ◌||◌, length, map, IfOk, OnOk};
ghost use Rattle.std.specs.Str.{bytes_eq};
ghost use Rattle.ftn_base.specs.Keywords as keywords;
ghost use Rattle.free_scan.specs.Lines.{lines};
ghost use Rattle.rename_ref.specs.Conditions as spec;
ghost use Rattle.rename_ref.specs.Edits.{replacing as replacing_of};
ghost use Rattle.rename_ref.specs.steps.LineLengths.{is_long_in, last_length};
ghost use Rattle.rename_ref.specs.Names as names;
ghost use Rattle.rename_ref.specs.Names.{denoting, name_tokens};

use crate::edits::Edit;
use crate::rename::Rename;
use ftn_base::{Bytes, FileName, LINE_LIMIT, NoMemory, is_intrinsic, is_keyword, offset_at};
use ftn_tree::{Token, TokenKind};
use std::alloc::Global;

/// Whether no name may be given this one: a word of statements or an intrinsic function, in lower case.
pub fn is_reserved(word: &[u8]) -> bool
    ensures { result ≡ (keywords.is_keyword word.now || keywords.is_intrinsic word.now) }
{
    is_keyword(word) || is_intrinsic(word)
}

fn has_value(token: &Token, value: &[u8]) -> bool
    ensures { result ≡ bytes_eq token.now.value value.now }
{
    token.value.bytes() == value
}

fn is_word(kind: TokenKind) -> bool
    ensures { result ≡ names.is_word kind }
{
    matches!(kind, TokenKind::Word)
}

fn is_name_token(token: &Token) -> bool
    ensures { result ≡ names.is_name_token token.now }
{
    is_word(token.kind) && !is_keyword(token.value.bytes())
}

fn holds(at: usize, token: &Token) -> bool
    ensures { result ≡ names.holds at token.now }
{
    token.range.start as usize <= at && at < token.range.end as usize
}

fn holding<'a>(at: usize, tokens: &'a [Token]) -> Option<&'a Token>
    ensures { option_map (λ token. token.now) result ≡ find (names.holds at) (name_tokens tokens.now) }
{
    tokens
        .iter()
        .filter(|token| is_name_token(*token))
        .find(|token| holds(at, *token))
}

fn covering<'a>(line: u32, column: u32, text: &[u8], tokens: &'a [Token]) -> Option<&'a Token>
    requires { length text.now + 2 < 2 ^ 32 }
    ensures { option_map (λ token. token.now) result ≡ names.covering line column text.now tokens.now }
{
    let at = offset_at(text, line, column)?;
    holding(at, tokens)
}

/// The name token that the order names, in the one file of the project.
pub fn chosen<'a>(
    order: &Rename,
    name: &FileName,
    text: &[u8],
    tokens: &'a [Token],
) -> Option<&'a Token>
    requires { length text.now + 2 < 2 ^ 32 }
    ensures { option_map (λ token. token.now) result ≡ spec.chosen order.now name.now text.now tokens.now }
{
    if order.file.bytes() == name.bytes() {
        covering(order.line, order.column, text, tokens)
    } else {
        None
    }
}

/// The first name token of that value.
pub fn first_of<'a>(value: &[u8], tokens: &'a [Token]) -> Option<&'a Token>
    ensures { option_map (λ token. token.now) result
        ≡ find (λ token. bytes_eq token.value value.now) (name_tokens tokens.now) }
{
    tokens
        .iter()
        .filter(|token| is_name_token(*token))
        .find(|token| has_value(*token, value))
}

/// The edits that replace each name token of the old name.
pub fn replacing(
    alloc: Global,
    old: &[u8],
    new: &[u8],
    tokens: &[Token],
) -> Result<Vec<Edit>, NoMemory>
    ensures { IfOk result (λ edits. edits.items ≡ replacing_of new.now (denoting old.now tokens.now)) }
{
    let mut edits = Vec::new(alloc);
    for token in tokens {
        if is_name_token(token) && has_value(token, old) {
            let text = Bytes::from_slice(alloc, new)?;
            edits.push(Edit {
                range: token.range,
                text,
            })?;
        }
    }
    Ok(edits)
}

/// Notes the length of a last line that lacks its LF, if it has bytes.
fn end_last(lengths: &mut Vec<usize>, length: usize) -> Result<(), NoMemory>
    ensures { OnOk result (lengths.new.items ≡ lengths.old.items ++ last_length length) }
{
    if length > 0 {
        lengths.push(length)?;
    }
    Ok(())
}

/// The length of each line of the text, its LF among its bytes.
pub fn line_lengths(alloc: Global, text: &[u8]) -> Result<Vec<usize>, NoMemory>
    ensures { IfOk result (λ lengths. lengths.items ≡ map length (lines text.now)) }
{
    let mut lengths = Vec::new(alloc);
    let mut length = 0;
    for byte in text {
        length += 1;
        if *byte == b'\n' {
            lengths.push(length)?;
            length = 0;
        }
    }
    end_last(&mut lengths, length)?;
    Ok(lengths)
}

fn is_long(lengths: &[usize], line: u32) -> bool
    ensures { result ≡ is_long_in lengths.now line }
{
    let index = line.saturating_sub(1) as usize;
    match lengths.get(index) {
        Some(length) => *length > LINE_LIMIT + 1,
        None => false,
    }
}

/// The first name token of the old name that stands on a line of more than 132 bytes.
pub fn on_long_line<'a>(lengths: &[usize], old: &[u8], tokens: &'a [Token]) -> Option<&'a Token>
    ensures { option_map (λ token. token.now) result
        ≡ find (λ token. is_long_in lengths.now token.line) (denoting old.now tokens.now) }
{
    tokens
        .iter()
        .filter(|token| is_name_token(*token))
        .filter(|token| has_value(*token, old))
        .find(|token| is_long(lengths, token.line))
}
