//! IMPLICIT statements (Fortran 90, 5.3).

ghost use Rattle.std.specs.Prelude.{◌≡◌};
ghost use Rattle.expr_parse.specs.steps.Input.{Gives};
ghost use Rattle.spec_parse.specs.steps.Implicits as spec;

use expr_parse::{Cursor, Misfit, constant, separated};
use ftn_tree::{
    CharLength, Expr, Form, ImplicitType, LengthSelector, LengthValue, LetterGroup, LetterRange,
    Lexeme, Token, TokenKind, TypeSpec,
};
use sqlite_items::Items;
use std::alloc::Global;

/// Reads a whole number, and gives its token's number and what it stands for.
#[tactic(auto, unfolding(crate::specs::steps::Implicits::whole_number))]
pub fn read_whole_number(alloc: Global, cursor: &mut Cursor<'_>) -> Result<(u32, i32), Misfit>
    ensures { Gives (spec.whole_number cursor.old) result cursor.new }
{
    match constant(alloc, cursor)? {
        Expr::Whole { token, value } => Ok((token, value)),
        _ => Err(Misfit::NoFit),
    }
}

#[tactic(auto, unfolding(crate::specs::steps::Implicits::given_number))]
fn read_given_number(alloc: Global, cursor: &mut Cursor<'_>) -> Result<Expr, Misfit>
    ensures { Gives (spec.given_number cursor.old) result cursor.new }
{
    let (token, value) = read_whole_number(alloc, cursor)?;
    Ok(Expr::Whole { token, value })
}

#[tactic(auto, unfolding(crate::specs::steps::Implicits::star_length))]
fn read_star_length(alloc: Global, cursor: &mut Cursor<'_>) -> Result<LengthSelector, Misfit>
    ensures { Gives (spec.star_length cursor.old) result cursor.new }
{
    if cursor.sees(Lexeme::Open) {
        cursor.expect(Lexeme::Open)?;
        let length = LengthValue::Given(read_given_number(alloc, cursor)?);
        cursor.expect(Lexeme::Close)?;
        return Ok(LengthSelector::Star(CharLength::Paren(length)));
    }
    let (token, value) = read_whole_number(alloc, cursor)?;
    Ok(LengthSelector::Star(CharLength::Whole { token, value }))
}

#[tactic(auto, unfolding(crate::specs::steps::Implicits::len_given))]
fn read_len_given(alloc: Global, cursor: &mut Cursor<'_>) -> Result<(bool, Expr), Misfit>
    ensures { Gives (spec.len_given cursor.old) result cursor.new }
{
    if !cursor.sees(Lexeme::Word) {
        return Ok((false, read_given_number(alloc, cursor)?));
    }
    cursor.expect_word(b"len")?;
    cursor.expect(Lexeme::Equals)?;
    Ok((true, read_given_number(alloc, cursor)?))
}

#[tactic(auto, unfolding(crate::specs::steps::Implicits::paren_length))]
fn read_paren_length(alloc: Global, cursor: &mut Cursor<'_>) -> Result<LengthSelector, Misfit>
    ensures { Gives (spec.paren_length cursor.old) result cursor.new }
{
    cursor.expect(Lexeme::Open)?;
    let (has_word, length) = read_len_given(alloc, cursor)?;
    cursor.expect(Lexeme::Close)?;
    Ok(LengthSelector::Paren {
        has_word,
        length: LengthValue::Given(length),
    })
}

fn is_length(token: &Token) -> bool
    ensures { result ≡ spec.is_length token.now }
{
    token.lexeme().is(Lexeme::Whole) || token.is_word(b"len")
}

#[tactic(auto, unfolding(crate::specs::steps::Implicits::implicit_length))]
fn read_implicit_length(alloc: Global, cursor: &mut Cursor<'_>) -> Result<LengthSelector, Misfit>
    ensures { Gives (spec.implicit_length cursor.old) result cursor.new }
{
    if !cursor.sees(Lexeme::Times) {
        return read_paren_length(alloc, cursor);
    }
    cursor.expect(Lexeme::Times)?;
    read_star_length(alloc, cursor)
}

#[tactic(auto, unfolding(crate::specs::steps::Implicits::implicit_character))]
fn read_implicit_character(alloc: Global, cursor: &mut Cursor<'_>) -> Result<ImplicitType, Misfit>
    ensures { Gives (spec.implicit_character cursor.old) result cursor.new }
{
    cursor.expect_word(b"character")?;
    let length = read_implicit_length(alloc, cursor)?;
    Ok(ImplicitType::Known(TypeSpec::Character(Some(length))))
}

#[tactic(auto, unfolding(crate::specs::steps::Implicits::implicit_type))]
fn read_implicit_type(alloc: Global, cursor: &mut Cursor<'_>) -> Result<ImplicitType, Misfit>
    ensures { Gives (spec.implicit_type cursor.old) result cursor.new }
{
    if cursor.sees_word(b"real") {
        cursor.expect_word(b"real")?;
        return Ok(ImplicitType::Real);
    }
    if cursor.sees_word(b"integer") {
        cursor.expect_word(b"integer")?;
        return Ok(ImplicitType::Known(TypeSpec::Integer));
    }
    if cursor.sees_word(b"logical") {
        cursor.expect_word(b"logical")?;
        return Ok(ImplicitType::Known(TypeSpec::Logical));
    }
    read_implicit_character(alloc, cursor)
}

fn one_byte(value: &[u8]) -> Option<u8>
    ensures { result ≡ spec.one_byte value.now }
{
    match value {
        [byte] => Some(*byte),
        _ => None,
    }
}

fn letter_of(token: &Token) -> Option<u8>
    ensures { result ≡ spec.letter_by token.now.kind token.now.value }
{
    match token.kind {
        TokenKind::Word => one_byte(token.value.bytes()),
        _ => None,
    }
}

fn letter_at_front(tokens: &[Token]) -> Option<u8>
    ensures { result ≡ spec.letter_at_front tokens.now }
{
    match tokens {
        [here, ..] => letter_of(here),
        [] => None,
    }
}

#[tactic(auto, unfolding(crate::specs::steps::Implicits::letter))]
fn read_letter(cursor: &mut Cursor<'_>) -> Result<(u32, u8), Misfit>
    ensures { Gives (spec.letter cursor.old) result cursor.new }
{
    let Some(letter) = letter_at_front(cursor.rest()) else {
        return Err(Misfit::NoFit);
    };
    let number = cursor.expect(Lexeme::Word)?;
    Ok((number, letter))
}

#[tactic(auto, unfolding(crate::specs::steps::Implicits::letter_range))]
fn read_letter_range(_alloc: Global, cursor: &mut Cursor<'_>) -> Result<LetterRange, Misfit>
    ensures { Gives (spec.letter_range cursor.old) result cursor.new }
{
    let (first, from) = read_letter(cursor)?;
    if !cursor.sees(Lexeme::Minus) {
        return Ok(LetterRange { first, last: None });
    }
    cursor.expect(Lexeme::Minus)?;
    let (last, to) = read_letter(cursor)?;
    if from > to {
        return Err(Misfit::NoFit);
    }
    Ok(LetterRange {
        first,
        last: Some(last),
    })
}

#[tactic(auto, unfolding(crate::specs::steps::Implicits::listed_ranges))]
fn read_listed_ranges(alloc: Global, cursor: &mut Cursor<'_>) -> Result<Items<LetterRange>, Misfit>
    ensures { Gives (spec.listed_ranges cursor.old) result cursor.new }
{
    separated(alloc, cursor, read_letter_range)
}

#[tactic(auto, unfolding(crate::specs::steps::Implicits::ranges))]
fn read_ranges(alloc: Global, cursor: &mut Cursor<'_>) -> Result<Items<LetterRange>, Misfit>
    ensures { Gives (spec.ranges cursor.old) result cursor.new }
{
    cursor.expect(Lexeme::Open)?;
    let ranges = read_listed_ranges(alloc, cursor)?;
    cursor.expect(Lexeme::Close)?;
    Ok(ranges)
}

#[tactic(auto, unfolding(crate::specs::steps::Implicits::plain_group))]
fn read_plain_group(alloc: Global, cursor: &mut Cursor<'_>) -> Result<LetterGroup, Misfit>
    ensures { Gives (spec.plain_group cursor.old) result cursor.new }
{
    cursor.expect_word(b"character")?;
    let ranges = read_ranges(alloc, cursor)?;
    let ty = ImplicitType::Known(TypeSpec::Character(None));
    Ok(LetterGroup { ty, ranges })
}

#[tactic(auto, unfolding(crate::specs::steps::Implicits::typed_group))]
fn read_typed_group(alloc: Global, cursor: &mut Cursor<'_>) -> Result<LetterGroup, Misfit>
    ensures { Gives (spec.typed_group cursor.old) result cursor.new }
{
    let ty = read_implicit_type(alloc, cursor)?;
    let ranges = read_ranges(alloc, cursor)?;
    Ok(LetterGroup { ty, ranges })
}

fn opens_letters(opening: &Token, next: &Token) -> bool
    ensures { result ≡ spec.opens_letters opening.now next.now }
{
    opening.lexeme().is(Lexeme::Open) && !is_length(next)
}

#[tactic(auto, unfolding(crate::specs::steps::Implicits::is_plain))]
fn is_plain(tokens: &[Token]) -> bool
    ensures { result ≡ spec.is_plain tokens.now }
{
    match tokens {
        [here, opening, next, ..] => here.is_word(b"character") && opens_letters(opening, next),
        _ => false,
    }
}

#[tactic(auto, unfolding(crate::specs::steps::Implicits::letter_group))]
fn read_letter_group(alloc: Global, cursor: &mut Cursor<'_>) -> Result<LetterGroup, Misfit>
    ensures { Gives (spec.letter_group cursor.old) result cursor.new }
{
    if is_plain(cursor.rest()) {
        read_plain_group(alloc, cursor)
    } else {
        read_typed_group(alloc, cursor)
    }
}

#[tactic(auto, unfolding(crate::specs::steps::Implicits::groups))]
fn read_groups(alloc: Global, cursor: &mut Cursor<'_>) -> Result<Items<LetterGroup>, Misfit>
    ensures { Gives (spec.groups cursor.old) result cursor.new }
{
    separated(alloc, cursor, read_letter_group)
}

/// `IMPLICIT NONE` or `IMPLICIT type ( letters ), ..`. The last group in parentheses is the letters: `CHARACTER (a-h)` has no
/// length.
#[tactic(auto, unfolding(crate::specs::steps::Implicits::implicit, crate::specs::steps::Implicits::groups_or_none))]
pub fn read_implicit(alloc: Global, cursor: &mut Cursor<'_>) -> Result<Form, Misfit>
    ensures { Gives (spec.implicit cursor.old) result cursor.new }
{
    cursor.expect_word(b"implicit")?;
    if cursor.sees_word(b"none") {
        cursor.expect_word(b"none")?;
        return Ok(Form::Implicit { groups: None });
    }
    let groups = Some(read_groups(alloc, cursor)?);
    Ok(Form::Implicit { groups })
}
