//! Lists of names.

ghost use Rattle.expr_parse.specs.steps.Input.{Gives};
ghost use Rattle.expr_parse.specs.steps.Input as input;
ghost use Rattle.spec_parse.specs.steps.Names as spec;

use expr_parse::{Cursor, Misfit, read_names};
use ftn_tree::Lexeme;
use sqlite_items::Items;
use std::alloc::Global;

/// Reads a name, and gives the number of its token.
pub fn read_name(_alloc: Global, cursor: &mut Cursor<'_>) -> Result<u32, Misfit>
    ensures { Gives (input.name cursor.old) result cursor.new }
{
    cursor.name()
}

/// Reads the dummy arguments in their parentheses (Fortran 90, 12.5.2).
#[tactic(auto, unfolding(crate::specs::steps::Names::dummies))]
pub fn read_dummies(alloc: Global, cursor: &mut Cursor<'_>) -> Result<Items<u32>, Misfit>
    ensures { Gives (spec.dummies cursor.old) result cursor.new }
{
    cursor.expect(Lexeme::Open)?;
    if cursor.eat(Lexeme::Close) {
        return Ok(Items::new(alloc));
    }
    let names = read_names(alloc, cursor)?;
    cursor.expect(Lexeme::Close)?;
    Ok(names)
}
