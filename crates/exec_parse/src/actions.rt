//! Statements that may stand in an IF statement (Fortran 90, 8.1.2.4).

ghost use Rattle.expr_parse.specs.steps.Input.{Gives};
ghost use Rattle.exec_parse.specs.steps.Actions as spec;

use crate::lists::read_arguments;
use crate::transfers::{read_print, read_read, read_write};
use expr_parse::{Cursor, Misfit, is_assignment, read_expression, read_reference};
use ftn_tree::{Form, LeaveWord, Lexeme};
use sqlite_items::Items;
use std::alloc::Global;

/// `target = value` (7.5.1).
#[tactic(auto, unfolding(crate::specs::steps::Actions::assignment))]
pub fn read_assignment(alloc: Global, cursor: &mut Cursor<'_>) -> Result<Form, Misfit>
    ensures { Gives (spec.assignment cursor.old) result cursor.new }
{
    let target = read_reference(alloc, cursor)?;
    cursor.expect(Lexeme::Equals)?;
    let value = read_expression(alloc, cursor)?;
    Ok(Form::Assign { target, value })
}

/// `CALL name [( [argument, ..] )]` (12.4.3).
#[tactic(auto, unfolding(crate::specs::steps::Actions::call))]
fn read_call(alloc: Global, cursor: &mut Cursor<'_>) -> Result<Form, Misfit>
    ensures { Gives (spec.call cursor.old) result cursor.new }
{
    cursor.expect_word(b"call")?;
    let name = cursor.name()?;
    if !cursor.sees(Lexeme::Open) {
        return Ok(Form::Call { name, args: None });
    }
    let args = read_arguments(alloc, cursor)?;
    Ok(Form::Call {
        name,
        args: Some(args),
    })
}

/// `EXIT [label]` or `CYCLE [label]` (8.1.4.4).
#[tactic(auto, unfolding(crate::specs::steps::Actions::leave))]
fn read_leave(cursor: &mut Cursor<'_>, text: &[u8], word: LeaveWord) -> Result<Form, Misfit>
    ensures { Gives (spec.leave text.now word cursor.old) result cursor.new }
{
    cursor.expect_word(text)?;
    if cursor.is_done() {
        return Ok(Form::Exit { word, label: None });
    }
    let label = cursor.name()?;
    Ok(Form::Exit {
        word,
        label: Some(label),
    })
}

#[tactic(auto, unfolding(crate::specs::steps::Actions::stop_code))]
fn read_stop_code(cursor: &mut Cursor<'_>) -> Result<u32, Misfit>
    ensures { Gives (spec.stop_code cursor.old) result cursor.new }
{
    if cursor.sees(Lexeme::Whole) {
        cursor.expect(Lexeme::Whole)
    } else {
        cursor.expect(Lexeme::Quoted)
    }
}

/// `STOP [code]` (8.3).
#[tactic(auto, unfolding(crate::specs::steps::Actions::stop))]
fn read_stop(cursor: &mut Cursor<'_>) -> Result<Form, Misfit>
    ensures { Gives (spec.stop cursor.old) result cursor.new }
{
    cursor.expect_word(b"stop")?;
    if cursor.is_done() {
        return Ok(Form::Stop { code: None });
    }
    let code = read_stop_code(cursor)?;
    Ok(Form::Stop { code: Some(code) })
}

/// `RETURN` (12.5.2.5).
#[tactic(auto, unfolding(crate::specs::steps::Actions::return_form))]
fn read_return(cursor: &mut Cursor<'_>) -> Result<Form, Misfit>
    ensures { Gives (spec.return_form cursor.old) result cursor.new }
{
    cursor.expect_word(b"return")?;
    Ok(Form::Return)
}

/// `CONTINUE` (8.4).
#[tactic(auto, unfolding(crate::specs::steps::Actions::continue_form))]
fn read_continue(cursor: &mut Cursor<'_>) -> Result<Form, Misfit>
    ensures { Gives (spec.continue_form cursor.old) result cursor.new }
{
    cursor.expect_word(b"continue")?;
    Ok(Form::Continue)
}

/// CALL, PRINT, WRITE, READ, EXIT, CYCLE, STOP, RETURN or CONTINUE, as the first word says.
#[tactic(auto, unfolding(crate::specs::steps::Actions::action))]
pub fn read_action(alloc: Global, cursor: &mut Cursor<'_>) -> Result<Form, Misfit>
    ensures { Gives (spec.action cursor.old) result cursor.new }
{
    if cursor.sees_word(b"call") {
        read_call(alloc, cursor)
    } else if cursor.sees_word(b"print") {
        read_print(alloc, cursor)
    } else if cursor.sees_word(b"write") {
        read_write(alloc, cursor)
    } else if cursor.sees_word(b"read") {
        read_read(alloc, cursor)
    } else if cursor.sees_word(b"exit") {
        read_leave(cursor, b"exit", LeaveWord::Exit)
    } else if cursor.sees_word(b"cycle") {
        read_leave(cursor, b"cycle", LeaveWord::Cycle)
    } else if cursor.sees_word(b"stop") {
        read_stop(cursor)
    } else if cursor.sees_word(b"return") {
        read_return(cursor)
    } else {
        read_continue(cursor)
    }
}

/// The statement in an IF statement: an assignment by its shape, or else what its first word says.
#[tactic(auto, unfolding(crate::specs::steps::Actions::inner))]
pub fn read_inner(alloc: Global, cursor: &mut Cursor<'_>) -> Result<Form, Misfit>
    ensures { Gives (spec.inner cursor.old) result cursor.new }
{
    if is_assignment(cursor.rest()) {
        read_assignment(alloc, cursor)
    } else {
        read_action(alloc, cursor)
    }
}
