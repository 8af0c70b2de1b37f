//! Expressions.

ghost use Rattle.std.specs.Prelude.{◌≡◌};
ghost use Rattle.ftn_tree.specs.Grammar.{expr};
ghost use Rattle.expr_parse.specs.steps.Input.{Gives, tokens_in};
ghost use Rattle.expr_parse.specs.steps.Input as input;
ghost use Rattle.expr_parse.specs.steps.Combinators as lists;
ghost use Rattle.expr_parse.specs.steps.Reading as spec;
ghost use Rattle.expr_parse.specs.Exact.{IsExact};

use crate::cursor::Cursor;
use crate::fault::{Misfit, StatementFault};
use crate::misfits::{is_deep, misfit};
use crate::operators::LOOSEST;
use crate::rules::Rules;
use ftn_base::Range;
use ftn_tree::{Expr, Lexeme, Tokens};
use sqlite_items::Items;
use std::alloc::Global;

fn read(alloc: Global, cursor: &mut Cursor<'_>, depth: usize, most: u8) -> Result<Expr, Misfit>
    ensures { Gives (spec.read depth most cursor.old) result cursor.new }
{
    if depth == 0 {
        return Err(Misfit::NoFit);
    }
    Rules {
        alloc,
        depth: depth - 1,
        read,
    }
    .level(cursor, most)
}

/// Reads the expression that is as long as possible (Fortran 90, 7.1). It sets no limit to nested parentheses: test them by
/// [`is_deep`] first.
#[tactic(auto, unfolding(crate::specs::steps::Reading::expression))]
pub fn read_expression(alloc: Global, cursor: &mut Cursor<'_>) -> Result<Expr, Misfit>
    ensures { Gives (spec.expression cursor.old) result cursor.new }
{
    let depth = cursor.left();
    read(alloc, cursor, depth, LOOSEST)
}

/// Reads a name with the subscripts or arguments and the substring range that follow it (Fortran 90, 6.1.1, 6.2.2, 12.4.1). It sets
/// no limit to nested parentheses: test them by [`is_deep`] first.
#[tactic(auto, unfolding(crate::specs::steps::Reading::reference))]
pub fn read_reference(alloc: Global, cursor: &mut Cursor<'_>) -> Result<Expr, Misfit>
    ensures { Gives (spec.reference cursor.old) result cursor.new }
{
    let depth = cursor.left();
    Rules { alloc, depth, read }.named(cursor)
}

/// Reads one or more expressions with commas between them.
pub fn read_expressions(alloc: Global, cursor: &mut Cursor<'_>) -> Result<Items<Expr>, Misfit>
    ensures { Gives (lists.separated spec.expression cursor.old) result cursor.new }
{
    let mut found = Items::new(alloc);
    for _turn in 0..cursor.left() {
        found.push(read_expression(alloc, cursor)?)?;
        if !cursor.eat(Lexeme::Comma) {
            return Ok(found);
        }
    }
    Err(Misfit::NoFit)
}

/// Reads one or more references with commas between them.
pub fn read_references(alloc: Global, cursor: &mut Cursor<'_>) -> Result<Items<Expr>, Misfit>
    ensures { Gives (lists.separated spec.reference cursor.old) result cursor.new }
{
    let mut found = Items::new(alloc);
    for _turn in 0..cursor.left() {
        found.push(read_reference(alloc, cursor)?)?;
        if !cursor.eat(Lexeme::Comma) {
            return Ok(found);
        }
    }
    Err(Misfit::NoFit)
}

/// Reads one or more names with commas between them, and gives the numbers of their tokens.
pub fn read_names(alloc: Global, cursor: &mut Cursor<'_>) -> Result<Items<u32>, Misfit>
    ensures { Gives (lists.separated input.name cursor.old) result cursor.new }
{
    let mut found = Items::new(alloc);
    for _turn in 0..cursor.left() {
        found.push(cursor.name()?)?;
        if !cursor.eat(Lexeme::Comma) {
            return Ok(found);
        }
    }
    Err(Misfit::NoFit)
}

/// The expression that exactly the tokens of that range of numbers are, as far as they are there (Fortran 90, 7.1). The numbers in
/// it are those of tokens in the file. It fails with `TooDeep` where parentheses nest more than 200 deep, and else where the tokens
/// are no expression.
pub fn expression(alloc: Global, tokens: &Tokens, at: Range) -> Result<Expr, StatementFault>
    ensures { IsExact expr at.start (tokens_in tokens.now.items at) result }
{
    let mut cursor = Cursor::new(tokens, at);
    let all = cursor.rest();
    if is_deep(all) {
        return Err(StatementFault::TooDeep);
    }
    match whole_expression(alloc, &mut cursor) {
        Ok(found) => Ok(found),
        Err(Misfit::NoMemory) => Err(StatementFault::NoMemory),
        Err(Misfit::NoFit) => Err(misfit(all)),
    }
}

/// Reads an expression that is all that is left.
#[tactic(auto, unfolding(crate::specs::steps::Reading::whole_expression))]
fn whole_expression(alloc: Global, cursor: &mut Cursor<'_>) -> Result<Expr, Misfit>
    ensures { Gives (spec.whole_expression cursor.old) result cursor.new }
{
    let found = read_expression(alloc, cursor)?;
    cursor.finish_with(found)
}
