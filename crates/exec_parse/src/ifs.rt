//! IF constructs and IF statements (Fortran 90, 8.1.2).

ghost use Rattle.std.specs.Prelude.{◌≡◌};
ghost use Rattle.expr_parse.specs.steps.Input.{Gives};
ghost use Rattle.exec_parse.specs.steps.Constructs as spec;

use crate::actions::read_inner;
use crate::lists::read_condition;
use expr_parse::{Cursor, Misfit, is_assignment};
use ftn_tree::{Expr, Form};
use sqlite_items::Boxed;
use std::alloc::Global;

/// Whether THEN comes next, and not an assignment to a variable of this name.
#[tactic(auto, unfolding(crate::specs::steps::Constructs::sees_then))]
fn sees_then(cursor: &Cursor<'_>) -> bool
    ensures { result ≡ spec.sees_then cursor.now }
{
    !is_assignment(cursor.rest()) && cursor.sees_word(b"then")
}

#[tactic(auto, unfolding(crate::specs::steps::Constructs::after_condition))]
fn read_after_condition(
    alloc: Global,
    cursor: &mut Cursor<'_>,
    condition: Expr,
) -> Result<Form, Misfit>
    ensures { Gives (spec.after_condition condition cursor.old) result cursor.new }
{
    if sees_then(cursor) {
        cursor.expect_word(b"then")?;
        return Ok(Form::IfThen { condition });
    }
    let at = cursor.at();
    let inner = read_inner(alloc, cursor)?;
    Ok(Form::If {
        condition,
        at,
        inner: Boxed::new(alloc, inner)?,
    })
}

/// `IF ( condition ) THEN` or `IF ( condition ) statement`.
#[tactic(auto, unfolding(crate::specs::steps::Constructs::if_form))]
pub fn read_if(alloc: Global, cursor: &mut Cursor<'_>) -> Result<Form, Misfit>
    ensures { Gives (spec.if_form cursor.old) result cursor.new }
{
    cursor.expect_word(b"if")?;
    let condition = read_condition(alloc, cursor)?;
    read_after_condition(alloc, cursor, condition)
}

/// Two words that may be written as one, and whether they are.
#[tactic(auto, unfolding(crate::specs::steps::Constructs::joined_words))]
pub fn read_joined_words(
    cursor: &mut Cursor<'_>,
    whole: &[u8],
    one: &[u8],
    other: &[u8],
) -> Result<bool, Misfit>
    ensures { Gives (spec.joined_words whole.now one.now other.now cursor.old) result cursor.new }
{
    if cursor.eat_word(whole) {
        return Ok(true);
    }
    cursor.expect_word(one)?;
    cursor.expect_word(other)?;
    Ok(false)
}

#[tactic(auto, unfolding(crate::specs::steps::Constructs::else_if))]
fn read_else_if(alloc: Global, cursor: &mut Cursor<'_>) -> Result<Form, Misfit>
    ensures { Gives (spec.else_if cursor.old) result cursor.new }
{
    let joined = read_joined_words(cursor, b"elseif", b"else", b"if")?;
    let condition = read_condition(alloc, cursor)?;
    cursor.expect_word(b"then")?;
    Ok(Form::ElseIf { joined, condition })
}

#[tactic(auto, unfolding(crate::specs::steps::Constructs::plain_else))]
fn read_plain_else(cursor: &mut Cursor<'_>) -> Result<Form, Misfit>
    ensures { Gives (spec.plain_else cursor.old) result cursor.new }
{
    cursor.expect_word(b"else")?;
    Ok(Form::Else)
}

/// `ELSE` or `ELSE IF ( condition ) THEN`.
#[tactic(auto, unfolding(crate::specs::steps::Constructs::else_form))]
pub fn read_else(alloc: Global, cursor: &mut Cursor<'_>) -> Result<Form, Misfit>
    ensures { Gives (spec.else_form cursor.old) result cursor.new }
{
    if cursor.left() == 1 {
        read_plain_else(cursor)
    } else {
        read_else_if(alloc, cursor)
    }
}
