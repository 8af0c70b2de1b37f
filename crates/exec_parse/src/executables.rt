//! All executable statements.

ghost use Rattle.std.specs.Prelude.{◌≡◌};
ghost use Rattle.ftn_tree.specs.Assignments as shapes;
ghost use Rattle.ftn_tree.specs.ExecutableForms.{is_executable};
ghost use Rattle.expr_parse.specs.Exact.{IsExact, IsFitting};
ghost use Rattle.expr_parse.specs.steps.Input.{Gives, tokens_in};
ghost use Rattle.exec_parse.specs.steps.Executables as spec;

use crate::actions::{read_action, read_assignment};
use crate::cases::{read_case, read_select};
use crate::ifs::{read_else, read_if};
use crate::loops::{read_do, sees_label};
use expr_parse::{Cursor, Misfit, StatementFault, is_assignment, is_deep, misfit};
use ftn_base::Range;
use ftn_tree::{Form, Tokens};
use std::alloc::Global;

/// The executable statement that exactly the tokens of that range of numbers are, as far as they are there: an assignment, CALL, IF,
/// ELSE, DO, EXIT, CYCLE, SELECT CASE, CASE, STOP, RETURN, CONTINUE, PRINT, WRITE or READ (Fortran 90, 7.5.1, 8, 9.4, 12.4.3,
/// 12.5.2.5). Where a name, groups in parentheses if any, and `=` begin the statement, it is an assignment whatever its words. The
/// numbers in it are those of tokens in the file. It fails with `TooDeep` where parentheses nest more than 200 deep, and else where
/// the tokens are no such statement.
pub fn executable(alloc: Global, tokens: &Tokens, at: Range) -> Result<Form, StatementFault>
    ensures { IsExact is_executable at.start (tokens_in tokens.now.items at) result }
{
    let mut cursor = Cursor::new(tokens, at);
    let all = cursor.rest();
    if is_deep(all) {
        return Err(StatementFault::TooDeep);
    }
    let assigns = is_assignment(all);
    match fitting_executable(alloc, &mut cursor, assigns) {
        Ok(form) => Ok(form),
        Err(Misfit::NoMemory) => Err(StatementFault::NoMemory),
        Err(Misfit::NoFit) => Err(misfit(all)),
    }
}

/// The executable statement that exactly the tokens left are; `assigns` says whether they are an assignment by their shape. It fails
/// with [`Misfit::NoFit`] where they are none. Neither the reason nor how deep parentheses nest is looked for: test depth by
/// [`is_deep`] first.
pub fn fitting_executable(
    alloc: Global,
    cursor: &mut Cursor<'_>,
    assigns: bool,
) -> Result<Form, Misfit>
    requires { assigns ≡ shapes.is_assignment cursor.old.rest }
    ensures { IsFitting is_executable cursor.old.at cursor.old.rest result }
{
    read_whole_executable(alloc, cursor, assigns)
}

#[tactic(auto, unfolding(crate::specs::steps::Executables::whole_executable))]
fn read_whole_executable(
    alloc: Global,
    cursor: &mut Cursor<'_>,
    assigns: bool,
) -> Result<Form, Misfit>
    requires { assigns ≡ shapes.is_assignment cursor.old.rest }
    ensures { Gives (spec.whole_executable cursor.old) result cursor.new }
{
    let form = read_executable(alloc, cursor, assigns)?;
    cursor.finish_with(form)
}

#[tactic(auto, unfolding(crate::specs::steps::Executables::executable))]
fn read_executable(alloc: Global, cursor: &mut Cursor<'_>, assigns: bool) -> Result<Form, Misfit>
    requires { assigns ≡ shapes.is_assignment cursor.old.rest }
    ensures { Gives (spec.executable cursor.old) result cursor.new }
{
    if assigns {
        read_assignment(alloc, cursor)
    } else if sees_label(cursor) {
        read_do(alloc, cursor)
    } else {
        read_statement(alloc, cursor)
    }
}

/// The statement that its first word says.
#[tactic(auto, unfolding(crate::specs::steps::Executables::statement))]
fn read_statement(alloc: Global, cursor: &mut Cursor<'_>) -> Result<Form, Misfit>
    ensures { Gives (spec.statement cursor.old) result cursor.new }
{
    if cursor.sees_word(b"if") {
        read_if(alloc, cursor)
    } else if cursor.sees_word(b"else") || cursor.sees_word(b"elseif") {
        read_else(alloc, cursor)
    } else if cursor.sees_word(b"do") {
        read_do(alloc, cursor)
    } else if cursor.sees_word(b"select") || cursor.sees_word(b"selectcase") {
        read_select(alloc, cursor)
    } else if cursor.sees_word(b"case") {
        read_case(alloc, cursor)
    } else {
        read_action(alloc, cursor)
    }
}
