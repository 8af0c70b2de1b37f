//! END statements (Fortran 90, 8.1, 11.1, 11.3, 11.4, 12.3.2.1, 12.5.2).

ghost use Rattle.std.specs.Prelude.{◌≡◌};
ghost use Rattle.ftn_tree.specs.Lexemes.{is_text};
ghost use Rattle.ftn_tree.specs.UnitForms as form;
ghost use Rattle.expr_parse.specs.steps.Input.{Gives};
ghost use Rattle.spec_parse.specs.steps.Endings as spec;

use expr_parse::{Cursor, Misfit};
use ftn_tree::{EndWord, Ending, Form, Lexeme, Token, TokenKind};

fn is(word: &[u8], text: &[u8]) -> bool
    ensures { result ≡ is_text word.now text.now }
{
    word == text
}

#[tactic(auto, unfolding(crate::specs::steps::Endings::end_word))]
fn find_end_word(text: &[u8]) -> Option<EndWord>
    ensures { result ≡ spec.end_word text.now }
{
    if is(text, b"program") {
        Some(EndWord::Program)
    } else if is(text, b"module") {
        Some(EndWord::Module)
    } else if is(text, b"subroutine") {
        Some(EndWord::Subroutine)
    } else if is(text, b"function") {
        Some(EndWord::Function)
    } else if is(text, b"interface") {
        Some(EndWord::Interface)
    } else if is(text, b"if") {
        Some(EndWord::If)
    } else if is(text, b"do") {
        Some(EndWord::Do)
    } else if is(text, b"select") {
        Some(EndWord::Select)
    } else if is(text, b"block") {
        Some(EndWord::BlockData { joined: false })
    } else if is(text, b"blockdata") {
        Some(EndWord::BlockData { joined: true })
    } else {
        None
    }
}

#[tactic(auto, unfolding(crate::specs::steps::Endings::joined_end_word))]
fn find_joined_end_word(text: &[u8]) -> Option<EndWord>
    ensures { result ≡ spec.joined_end_word text.now }
{
    if is(text, b"endprogram") {
        Some(EndWord::Program)
    } else if is(text, b"endmodule") {
        Some(EndWord::Module)
    } else if is(text, b"endsubroutine") {
        Some(EndWord::Subroutine)
    } else if is(text, b"endfunction") {
        Some(EndWord::Function)
    } else if is(text, b"endinterface") {
        Some(EndWord::Interface)
    } else if is(text, b"endif") {
        Some(EndWord::If)
    } else if is(text, b"enddo") {
        Some(EndWord::Do)
    } else if is(text, b"endselect") {
        Some(EndWord::Select)
    } else if is(text, b"endblock") {
        Some(EndWord::BlockData { joined: false })
    } else if is(text, b"endblockdata") {
        Some(EndWord::BlockData { joined: true })
    } else {
        None
    }
}

fn word_of(joined: bool, token: &Token) -> Option<EndWord>
    ensures { result ≡ spec.word_of_kind joined token.now.kind token.now.value }
{
    match token.kind {
        TokenKind::Word if joined => find_joined_end_word(token.value.bytes()),
        TokenKind::Word => find_end_word(token.value.bytes()),
        _ => None,
    }
}

fn word_at_front(joined: bool, tokens: &[Token]) -> Option<EndWord>
    ensures { result ≡ spec.word_at_front joined tokens.now }
{
    match tokens {
        [here, ..] => word_of(joined, here),
        [] => None,
    }
}

#[tactic(auto, unfolding(crate::specs::steps::Endings::ending_word))]
fn read_ending_word(cursor: &mut Cursor<'_>, joined: bool) -> Result<EndWord, Misfit>
    ensures { Gives (spec.ending_word joined cursor.old) result cursor.new }
{
    let Some(word) = word_at_front(joined, cursor.rest()) else {
        return Err(Misfit::NoFit);
    };
    cursor.expect(Lexeme::Word)?;
    Ok(word)
}

fn is_parted(word: EndWord) -> bool
    ensures { result ≡ form.is_parted word }
{
    matches!(word, EndWord::BlockData { joined: false })
}

#[tactic(auto, unfolding(crate::specs::steps::Endings::ending_words))]
fn read_ending_words(cursor: &mut Cursor<'_>, joined: bool) -> Result<EndWord, Misfit>
    ensures { Gives (spec.ending_words joined cursor.old) result cursor.new }
{
    let word = read_ending_word(cursor, joined)?;
    if is_parted(word) {
        cursor.expect_word(b"data")?;
    }
    Ok(word)
}

#[tactic(auto, unfolding(crate::specs::steps::Endings::ending))]
fn read_ending(cursor: &mut Cursor<'_>, joined: bool) -> Result<Ending, Misfit>
    ensures { Gives (spec.ending joined cursor.old) result cursor.new }
{
    let word = read_ending_words(cursor, joined)?;
    let name = if cursor.sees(Lexeme::Word) {
        Some(cursor.name()?)
    } else {
        None
    };
    Ok(Ending { word, joined, name })
}

#[tactic(auto, unfolding(crate::specs::steps::Endings::parted_end))]
fn read_parted_end(cursor: &mut Cursor<'_>) -> Result<Option<Ending>, Misfit>
    ensures { Gives (spec.parted_end cursor.old) result cursor.new }
{
    cursor.expect_word(b"end")?;
    if cursor.sees(Lexeme::Word) {
        Ok(Some(read_ending(cursor, false)?))
    } else {
        Ok(None)
    }
}

/// `END`, alone or with the word of what it ends and a name; END and the word may be one word.
#[tactic(auto, unfolding(crate::specs::steps::Endings::end_row))]
pub fn read_end(cursor: &mut Cursor<'_>) -> Result<Form, Misfit>
    ensures { Gives (spec.end_row cursor.old) result cursor.new }
{
    let of = if cursor.sees_word(b"end") {
        read_parted_end(cursor)?
    } else {
        Some(read_ending(cursor, true)?)
    };
    Ok(Form::End { of })
}
