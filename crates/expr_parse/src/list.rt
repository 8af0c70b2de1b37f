//! Lists.

ghost use Rattle.expr_parse.specs.steps.Input.{Reader, Gives};
ghost use Rattle.expr_parse.specs.steps.Callable.{Reads};
ghost use Rattle.expr_parse.specs.steps.Combinators as spec;

use crate::cursor::Cursor;
use crate::fault::Misfit;
use ftn_tree::Lexeme;
use sqlite_items::Items;
use std::alloc::Global;

/// Reads one or more, with commas between them; `read` reads one of them.
pub fn separated<T: Drop, F: Fn(Global, &mut Cursor<'_>) -> Result<T, Misfit>>(
    alloc: Global,
    cursor: &mut Cursor<'_>,
    read: F,
) -> Result<Items<T>, Misfit>
    requires { F.IsAlwaysCallable read }
    ensures { (reader : Reader T) → Reads reader (F.post read) → Gives (spec.separated reader cursor.old) result cursor.new }
{
    let mut found = Items::new(alloc);
    'turns: for _turn in 0..cursor.left() {
        found.push(read(alloc, cursor)?)?;
        if !cursor.eat(Lexeme::Comma) {
            return Ok(found);
        }
    }
    Err(Misfit::NoFit)
}

/// Reads none or more, each with a comma before it; `read` reads one of them.
pub fn each_after_comma<T: Drop, F: Fn(Global, &mut Cursor<'_>) -> Result<T, Misfit>>(
    alloc: Global,
    cursor: &mut Cursor<'_>,
    read: F,
) -> Result<Items<T>, Misfit>
    requires { F.IsAlwaysCallable read }
    ensures { (reader : Reader T) → Reads reader (F.post read) → Gives (spec.each_after_comma reader cursor.old) result cursor.new }
{
    let mut found = Items::new(alloc);
    'turns: for _turn in 0..cursor.left() {
        if !cursor.eat(Lexeme::Comma) {
            return Ok(found);
        }
        found.push(read(alloc, cursor)?)?;
    }
    Ok(found)
}
