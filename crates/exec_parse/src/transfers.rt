//! Input and output statements (Fortran 90, 9.4).

ghost use Rattle.expr_parse.specs.steps.Input.{Gives};
ghost use Rattle.exec_parse.specs.steps.Actions as spec;

use crate::lists::{read_items, read_items_after_star, read_variables, read_variables_after_star};
use expr_parse::{Cursor, Misfit};
use ftn_tree::{Form, IoStyle, Lexeme};
use std::alloc::Global;

/// `( *, * )`: the default unit, list-directed.
fn read_stars(cursor: &mut Cursor<'_>) -> Result<(), Misfit>
    ensures { Gives (spec.stars cursor.old) result cursor.new }
{
    cursor.expect(Lexeme::Open)?;
    cursor.expect(Lexeme::Times)?;
    cursor.expect(Lexeme::Comma)?;
    cursor.expect(Lexeme::Times)?;
    cursor.expect(Lexeme::Close)?;
    Ok(())
}

/// `PRINT * [, item, ..]`.
#[tactic(auto, unfolding(crate::specs::steps::Actions::print))]
pub fn read_print(alloc: Global, cursor: &mut Cursor<'_>) -> Result<Form, Misfit>
    ensures { Gives (spec.print cursor.old) result cursor.new }
{
    cursor.expect_word(b"print")?;
    cursor.expect(Lexeme::Times)?;
    let items = read_items_after_star(alloc, cursor)?;
    Ok(Form::Print {
        style: IoStyle::Star,
        items,
    })
}

/// `WRITE ( *, * ) [item, ..]`.
#[tactic(auto, unfolding(crate::specs::steps::Actions::write))]
pub fn read_write(alloc: Global, cursor: &mut Cursor<'_>) -> Result<Form, Misfit>
    ensures { Gives (spec.write cursor.old) result cursor.new }
{
    cursor.expect_word(b"write")?;
    read_stars(cursor)?;
    let items = read_items(alloc, cursor)?;
    Ok(Form::Print {
        style: IoStyle::Paren,
        items,
    })
}

#[tactic(auto, unfolding(crate::specs::steps::Actions::read_star))]
fn read_read_star(alloc: Global, cursor: &mut Cursor<'_>) -> Result<Form, Misfit>
    ensures { Gives (spec.read_star cursor.old) result cursor.new }
{
    cursor.expect_word(b"read")?;
    cursor.expect(Lexeme::Times)?;
    let items = read_variables_after_star(alloc, cursor)?;
    Ok(Form::Read {
        style: IoStyle::Star,
        items,
    })
}

#[tactic(auto, unfolding(crate::specs::steps::Actions::read_paren))]
fn read_read_paren(alloc: Global, cursor: &mut Cursor<'_>) -> Result<Form, Misfit>
    ensures { Gives (spec.read_paren cursor.old) result cursor.new }
{
    cursor.expect_word(b"read")?;
    read_stars(cursor)?;
    let items = read_variables(alloc, cursor)?;
    Ok(Form::Read {
        style: IoStyle::Paren,
        items,
    })
}

/// `READ * [, variable, ..]` or `READ ( *, * ) [variable, ..]`.
#[tactic(auto, unfolding(crate::specs::steps::Actions::read))]
pub fn read_read(alloc: Global, cursor: &mut Cursor<'_>) -> Result<Form, Misfit>
    ensures { Gives (spec.read cursor.old) result cursor.new }
{
    match cursor.peek_second() {
        Some(Lexeme::Times) => read_read_star(alloc, cursor),
        _ => read_read_paren(alloc, cursor),
    }
}
