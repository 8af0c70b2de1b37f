//! DO constructs (Fortran 90, 8.1.4).

ghost use Rattle.std.specs.Prelude.{◌≡◌};
ghost use Rattle.expr_parse.specs.steps.Input.{Gives};
ghost use Rattle.exec_parse.specs.steps.Constructs as spec;

use crate::lists::read_condition;
use expr_parse::{Cursor, Misfit, read_expression};
use ftn_tree::{DoControl, Expr, Form, Lexeme};
use std::alloc::Global;

/// Whether a construct name and its colon come next.
#[tactic(auto, unfolding(crate::specs::steps::Constructs::sees_label))]
pub fn sees_label(cursor: &Cursor<'_>) -> bool
    ensures { result ≡ spec.sees_label cursor.now }
{
    matches!(cursor.peek_second(), Some(Lexeme::Colon))
}

/// `[label :]`.
#[tactic(auto, unfolding(crate::specs::steps::Constructs::label))]
fn read_label(cursor: &mut Cursor<'_>) -> Result<Option<u32>, Misfit>
    ensures { Gives (spec.label cursor.old) result cursor.new }
{
    if !sees_label(cursor) {
        return Ok(None);
    }
    let label = cursor.name()?;
    cursor.expect(Lexeme::Colon)?;
    Ok(Some(label))
}

/// `, step`.
#[tactic(auto, unfolding(crate::specs::steps::Constructs::step))]
fn read_step(alloc: Global, cursor: &mut Cursor<'_>) -> Result<Expr, Misfit>
    ensures { Gives (spec.step cursor.old) result cursor.new }
{
    cursor.expect(Lexeme::Comma)?;
    read_expression(alloc, cursor)
}

/// `variable = from, to [, step]`.
#[tactic(auto, unfolding(crate::specs::steps::Constructs::control))]
fn read_control(alloc: Global, cursor: &mut Cursor<'_>, comma: bool) -> Result<DoControl, Misfit>
    ensures { Gives (spec.control comma cursor.old) result cursor.new }
{
    let variable = cursor.name()?;
    cursor.expect(Lexeme::Equals)?;
    let from = read_expression(alloc, cursor)?;
    cursor.expect(Lexeme::Comma)?;
    let to = read_expression(alloc, cursor)?;
    let step = if cursor.sees(Lexeme::Comma) {
        Some(read_step(alloc, cursor)?)
    } else {
        None
    };
    Ok(DoControl {
        comma,
        variable,
        from,
        to,
        step,
    })
}

/// Whether WHILE comes next, and not a DO variable of this name.
#[tactic(auto, unfolding(crate::specs::steps::Constructs::sees_while))]
fn sees_while(cursor: &Cursor<'_>) -> bool
    ensures { result ≡ spec.sees_while cursor.now }
{
    cursor.sees_word(b"while") && matches!(cursor.peek_second(), Some(Lexeme::Open))
}

#[tactic(auto, unfolding(crate::specs::steps::Constructs::after_do))]
fn read_after_do(
    alloc: Global,
    cursor: &mut Cursor<'_>,
    label: Option<u32>,
    comma: bool,
) -> Result<Form, Misfit>
    ensures { Gives (spec.after_do label comma cursor.old) result cursor.new }
{
    if sees_while(cursor) {
        cursor.expect_word(b"while")?;
        let condition = read_condition(alloc, cursor)?;
        return Ok(Form::DoWhile {
            label,
            comma,
            condition,
        });
    }
    let control = read_control(alloc, cursor, comma)?;
    Ok(Form::Do {
        label,
        control: Some(control),
    })
}

#[tactic(auto, unfolding(crate::specs::steps::Constructs::do_rest))]
fn read_do_rest(alloc: Global, cursor: &mut Cursor<'_>, label: Option<u32>) -> Result<Form, Misfit>
    ensures { Gives (spec.do_rest label cursor.old) result cursor.new }
{
    if cursor.is_done() {
        return Ok(Form::Do {
            label,
            control: None,
        });
    }
    let comma = cursor.eat(Lexeme::Comma);
    read_after_do(alloc, cursor, label, comma)
}

/// `[label :] DO [[,] variable = from, to [, step]]` or `[label :] DO [,] WHILE ( condition )`.
#[tactic(auto, unfolding(crate::specs::steps::Constructs::do_form))]
pub fn read_do(alloc: Global, cursor: &mut Cursor<'_>) -> Result<Form, Misfit>
    ensures { Gives (spec.do_form cursor.old) result cursor.new }
{
    let label = read_label(cursor)?;
    cursor.expect_word(b"do")?;
    read_do_rest(alloc, cursor, label)
}
