//! The form of one statement.

ghost use Rattle.std.specs.Prelude.{◌≡◌};
ghost use Rattle.ftn_tree.specs.FileFaults.{is_statement};
ghost use Rattle.ftn_tree.specs.Misfits as misfits;
ghost use Rattle.expr_parse.specs.Exact.{IsFitting};
ghost use Rattle.unit_parse.specs.steps.Openings as openings;
ghost use Rattle.unit_parse.specs.steps.Progress as spec;

use exec_parse::fitting_executable;
use expr_parse::{Cursor, Misfit, StatementFault, is_assignment, is_deep, misfit};
use ftn_base::Range;
use ftn_tree::{Form, Lexeme, Token, Tokens};
use spec_parse::fitting_specification;
use std::alloc::Global;

#[tactic(auto, unfolding(crate::specs::steps::Openings::first_words))]
fn has_first_word(here: &Token) -> bool
    ensures { result ≡ openings.begins_with here.now openings.first_words }
{
    here.is_word(b"call")
        || here.is_word(b"exit")
        || here.is_word(b"cycle")
        || here.is_word(b"stop")
        || here.is_word(b"return")
        || here.is_word(b"continue")
        || here.is_word(b"print")
        || here.is_word(b"write")
        || here.is_word(b"read")
        || here.is_word(b"if")
        || here.is_word(b"else")
        || here.is_word(b"elseif")
        || here.is_word(b"do")
        || here.is_word(b"select")
        || here.is_word(b"selectcase")
        || here.is_word(b"case")
}

fn is_colon(kind: Lexeme) -> bool
    ensures { result ≡ misfits.is_colon_at kind }
{
    matches!(kind, Lexeme::Colon)
}

fn has_first_colon(tokens: &[Token]) -> bool
    ensures { result ≡ openings.first_colon tokens.now }
{
    match tokens {
        [here, ..] => is_colon(here.lexeme()),
        [] => false,
    }
}

/// Whether tokens that are no assignment begin as an executable statement does: with a first word of one, or a name before a colon.
fn begins_executable(tokens: &[Token]) -> bool
    ensures { result ≡ openings.starts tokens.now }
{
    match tokens {
        [here, rest @ ..] => has_first_word(here) || has_first_colon(rest),
        [] => false,
    }
}

/// Reads the statement that all tokens left are. How they begin says which reader is asked.
fn read_fitting(alloc: Global, cursor: &mut Cursor<'_>) -> Result<Form, Misfit>
    ensures { IsFitting is_statement cursor.old.at cursor.old.rest result }
{
    if is_assignment(cursor.rest()) {
        fitting_executable(alloc, cursor, true)
    } else if begins_executable(cursor.rest()) {
        fitting_executable(alloc, cursor, false)
    } else {
        fitting_specification(alloc, cursor)
    }
}

/// Reads the statement that the tokens of that range of numbers are.
pub fn read_form(alloc: Global, tokens: &Tokens, at: Range) -> Result<Form, StatementFault>
    ensures { spec.IsForm tokens.now at result }
{
    let mut cursor = Cursor::new(tokens, at);
    let all = cursor.rest();
    if is_deep(all) {
        return Err(StatementFault::TooDeep);
    }
    match read_fitting(alloc, &mut cursor) {
        Ok(form) => Ok(form),
        Err(Misfit::NoMemory) => Err(StatementFault::NoMemory),
        Err(Misfit::NoFit) => Err(misfit(all)),
    }
}
