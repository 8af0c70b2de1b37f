//! Lists that `::` may begin.

ghost use Rattle.expr_parse.specs.steps.Input.{Reader, Gives};
ghost use Rattle.expr_parse.specs.steps.Callable.{Reads};
ghost use Rattle.spec_parse.specs.steps.Lists as lists;

use expr_parse::{Cursor, Misfit, separated};
use ftn_tree::Lexeme;
use sqlite_items::Items;
use std::alloc::Global;

/// Reads `::`, if it comes next, and then one or more with commas between them; `read` reads one of them. It says whether `::` was
/// there.
pub fn after_colons<T: Drop, F: Fn(Global, &mut Cursor<'_>) -> Result<T, Misfit>>(
    alloc: Global,
    cursor: &mut Cursor<'_>,
    read: F,
) -> Result<(bool, Items<T>), Misfit>
    requires { F.IsAlwaysCallable read }
    ensures { (reader : Reader T) → Reads reader (F.post read) → Gives (lists.after_colons reader cursor.old) result cursor.new }
{
    let colons = cursor.eat(Lexeme::Colons);
    let items = separated(alloc, cursor, read)?;
    Ok((colons, items))
}

/// Reads the same unless no token is left, and then none.
pub fn items_or_none<T: Drop, F: Fn(Global, &mut Cursor<'_>) -> Result<T, Misfit>>(
    alloc: Global,
    cursor: &mut Cursor<'_>,
    read: F,
) -> Result<(bool, Items<T>), Misfit>
    requires { F.IsAlwaysCallable read }
    ensures { (reader : Reader T) → Reads reader (F.post read) → Gives (lists.items_or_none reader cursor.old) result cursor.new }
{
    if cursor.is_done() {
        return Ok((false, Items::new(alloc)));
    }
    after_colons(alloc, cursor, read)
}
