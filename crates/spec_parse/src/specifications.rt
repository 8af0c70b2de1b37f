//! All statements of this crate.

ghost use Rattle.std.specs.Prelude.{◌≡◌, false};
ghost use Rattle.ftn_tree.specs.Assignments as shapes;
ghost use Rattle.ftn_tree.specs.Specifications.{is_specification};
ghost use Rattle.expr_parse.specs.Exact.{IsExact, IsFitting};
ghost use Rattle.expr_parse.specs.steps.Input.{tokens_in};

use crate::rows::read_statement;
use expr_parse::{Cursor, Misfit, StatementFault, is_assignment, is_deep, misfit};
use ftn_base::Range;
use ftn_tree::{Form, Tokens};
use std::alloc::Global;

/// The statement that exactly the tokens of that range of numbers are, as far as they are there: one that begins or ends a program
/// unit or a procedure, CONTAINS, USE, IMPLICIT, INTERFACE, MODULE PROCEDURE, or a specification (Fortran 90, 5, 11, 12). The numbers
/// in it are those of tokens in the file. It fails with `TooDeep` where parentheses nest more than 200 deep, and else where the
/// tokens are no such statement.
pub fn specification(alloc: Global, tokens: &Tokens, at: Range) -> Result<Form, StatementFault>
    ensures { IsExact is_specification at.start (tokens_in tokens.now.items at) result }
{
    let mut cursor = Cursor::new(tokens, at);
    let all = cursor.rest();
    if is_deep(all) {
        return Err(StatementFault::TooDeep);
    }
    if is_assignment(all) {
        let fault = misfit(all);
        return Err(fault);
    }
    match fitting_specification(alloc, &mut cursor) {
        Ok(form) => Ok(form),
        Err(Misfit::NoMemory) => Err(StatementFault::NoMemory),
        Err(Misfit::NoFit) => Err(misfit(all)),
    }
}

/// The statement of those that [`specification`] reads that exactly the tokens left are; they are no assignment by their shape. It
/// fails with [`Misfit::NoFit`] where they are none. Neither the reason nor how deep parentheses nest is looked for: test depth by
/// [`is_deep`] first.
pub fn fitting_specification(alloc: Global, cursor: &mut Cursor<'_>) -> Result<Form, Misfit>
    requires { shapes.is_assignment cursor.old.rest ≡ false }
    ensures { IsFitting is_specification cursor.old.at cursor.old.rest result }
{
    read_statement(alloc, cursor)
}
