//! The type that a declaration writes (Fortran 90, 5.1.1).

ghost use Rattle.std.specs.Prelude.{◌≡◌};
ghost use Rattle.expr_parse.specs.steps.Input.{Gives};
ghost use Rattle.spec_parse.specs.steps.Types as spec;

use expr_parse::{Cursor, Misfit, read_expression};
use ftn_tree::{CharLength, Expr, LengthSelector, LengthValue, Lexeme, TypeSpec};
use std::alloc::Global;

/// Reads a length, `*` or an expression (5.1.1.5).
#[tactic(auto, unfolding(crate::specs::steps::Types::length_value))]
fn length_value(alloc: Global, cursor: &mut Cursor<'_>) -> Result<LengthValue, Misfit>
    ensures { Gives (spec.length_value cursor.old) result cursor.new }
{
    if cursor.sees(Lexeme::Times) {
        cursor.expect(Lexeme::Times)?;
        return Ok(LengthValue::Assumed);
    }
    Ok(LengthValue::Given(read_expression(alloc, cursor)?))
}

/// Reads what stands after `*`: a whole number, or a length in parentheses (5.1.1.5).
#[tactic(auto, unfolding(crate::specs::steps::Types::char_length))]
pub fn char_length(alloc: Global, cursor: &mut Cursor<'_>) -> Result<CharLength, Misfit>
    ensures { Gives (spec.char_length cursor.old) result cursor.new }
{
    if cursor.sees(Lexeme::Open) {
        cursor.expect(Lexeme::Open)?;
        let length = length_value(alloc, cursor)?;
        cursor.expect(Lexeme::Close)?;
        return Ok(CharLength::Paren(length));
    }
    match read_expression(alloc, cursor)? {
        Expr::Whole { token, value } => Ok(CharLength::Whole { token, value }),
        _ => Err(Misfit::NoFit),
    }
}

#[tactic(auto, unfolding(crate::specs::steps::Types::sees_len))]
fn sees_len(cursor: &Cursor<'_>) -> bool
    ensures { result ≡ spec.sees_len cursor.now }
{
    cursor.sees_word(b"len") && matches!(cursor.peek_second(), Some(Lexeme::Equals))
}

#[tactic(auto, unfolding(crate::specs::steps::Types::len_selector))]
fn len_selector(alloc: Global, cursor: &mut Cursor<'_>) -> Result<LengthSelector, Misfit>
    ensures { Gives (spec.len_selector cursor.old) result cursor.new }
{
    if !sees_len(cursor) {
        let length = length_value(alloc, cursor)?;
        return Ok(LengthSelector::Paren {
            has_word: false,
            length,
        });
    }
    cursor.expect_word(b"len")?;
    cursor.expect(Lexeme::Equals)?;
    let length = length_value(alloc, cursor)?;
    Ok(LengthSelector::Paren {
        has_word: true,
        length,
    })
}

#[tactic(auto, unfolding(crate::specs::steps::Types::length_selector))]
fn length_selector(alloc: Global, cursor: &mut Cursor<'_>) -> Result<Option<LengthSelector>, Misfit>
    ensures { Gives (spec.length_selector cursor.old) result cursor.new }
{
    if cursor.sees(Lexeme::Times) {
        cursor.expect(Lexeme::Times)?;
        return Ok(Some(LengthSelector::Star(char_length(alloc, cursor)?)));
    }
    if !cursor.sees(Lexeme::Open) {
        return Ok(None);
    }
    cursor.expect(Lexeme::Open)?;
    let selector = len_selector(alloc, cursor)?;
    cursor.expect(Lexeme::Close)?;
    Ok(Some(selector))
}

#[tactic(auto, unfolding(crate::specs::steps::Types::other_type))]
fn other_type(alloc: Global, cursor: &mut Cursor<'_>) -> Result<TypeSpec, Misfit>
    ensures { Gives (spec.other_type cursor.old) result cursor.new }
{
    if cursor.sees_word(b"logical") {
        cursor.expect_word(b"logical")?;
        return Ok(TypeSpec::Logical);
    }
    cursor.expect_word(b"character")?;
    Ok(TypeSpec::Character(length_selector(alloc, cursor)?))
}

/// Reads INTEGER, LOGICAL, or CHARACTER with the length that follows it (5.1.1). A `(` after CHARACTER begins a length.
#[tactic(auto, unfolding(crate::specs::steps::Types::type_spec))]
pub fn type_spec(alloc: Global, cursor: &mut Cursor<'_>) -> Result<TypeSpec, Misfit>
    ensures { Gives (spec.type_spec cursor.old) result cursor.new }
{
    if cursor.sees_word(b"integer") {
        cursor.expect_word(b"integer")?;
        return Ok(TypeSpec::Integer);
    }
    other_type(alloc, cursor)
}
