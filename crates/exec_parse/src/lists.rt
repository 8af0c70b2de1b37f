//! Lists of expressions in executable statements.

ghost use Rattle.expr_parse.specs.steps.Input.{Gives};
ghost use Rattle.exec_parse.specs.steps.Lists as spec;

use expr_parse::{
    Cursor, Misfit, read_expression, read_expressions, read_reference, read_references,
};
use ftn_tree::{Expr, Lexeme};
use sqlite_items::Items;
use std::alloc::Global;

/// `( condition )`.
#[tactic(auto, unfolding(crate::specs::steps::Lists::condition))]
pub fn read_condition(alloc: Global, cursor: &mut Cursor<'_>) -> Result<Expr, Misfit>
    ensures { Gives (spec.condition cursor.old) result cursor.new }
{
    cursor.expect(Lexeme::Open)?;
    let found = read_expression(alloc, cursor)?;
    cursor.expect(Lexeme::Close)?;
    Ok(found)
}

/// `( [argument, ..] )`.
#[tactic(auto, unfolding(crate::specs::steps::Lists::arguments))]
pub fn read_arguments(alloc: Global, cursor: &mut Cursor<'_>) -> Result<Items<Expr>, Misfit>
    ensures { Gives (spec.arguments cursor.old) result cursor.new }
{
    cursor.expect(Lexeme::Open)?;
    if cursor.eat(Lexeme::Close) {
        return Ok(Items::new(alloc));
    }
    let found = read_expressions(alloc, cursor)?;
    cursor.expect(Lexeme::Close)?;
    Ok(found)
}

/// The items of an output statement after `*`, each with its comma before it.
#[tactic(auto, unfolding(crate::specs::steps::Lists::items_after_star))]
pub fn read_items_after_star(alloc: Global, cursor: &mut Cursor<'_>) -> Result<Items<Expr>, Misfit>
    ensures { Gives (spec.items_after_star cursor.old) result cursor.new }
{
    let mut found = Items::new(alloc);
    for _turn in 0..cursor.left() {
        if !cursor.eat(Lexeme::Comma) {
            return Ok(found);
        }
        found.push(read_expression(alloc, cursor)?)?;
    }
    Ok(found)
}

/// The variables of an input statement after `*`, each with its comma before it.
#[tactic(auto, unfolding(crate::specs::steps::Lists::variables_after_star))]
pub fn read_variables_after_star(
    alloc: Global,
    cursor: &mut Cursor<'_>,
) -> Result<Items<Expr>, Misfit>
    ensures { Gives (spec.variables_after_star cursor.old) result cursor.new }
{
    let mut found = Items::new(alloc);
    for _turn in 0..cursor.left() {
        if !cursor.eat(Lexeme::Comma) {
            return Ok(found);
        }
        found.push(read_reference(alloc, cursor)?)?;
    }
    Ok(found)
}

/// The items of an output statement after parentheses.
#[tactic(auto, unfolding(crate::specs::steps::Lists::items))]
pub fn read_items(alloc: Global, cursor: &mut Cursor<'_>) -> Result<Items<Expr>, Misfit>
    ensures { Gives (spec.items cursor.old) result cursor.new }
{
    if cursor.is_done() {
        return Ok(Items::new(alloc));
    }
    read_expressions(alloc, cursor)
}

/// The variables of an input statement after parentheses.
#[tactic(auto, unfolding(crate::specs::steps::Lists::variables))]
pub fn read_variables(alloc: Global, cursor: &mut Cursor<'_>) -> Result<Items<Expr>, Misfit>
    ensures { Gives (spec.variables cursor.old) result cursor.new }
{
    if cursor.is_done() {
        return Ok(Items::new(alloc));
    }
    read_references(alloc, cursor)
}
