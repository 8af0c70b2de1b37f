//! Statements that give one attribute (Fortran 90, 5.2, 12.3.2).

ghost use Rattle.std.specs.Prelude.{◌≡◌};
ghost use Rattle.expr_parse.specs.steps.Combinators as shared;
ghost use Rattle.expr_parse.specs.steps.Input.{Gives};
ghost use Rattle.expr_parse.specs.steps.Input as input;
ghost use Rattle.spec_parse.specs.steps.Lists as lists;
ghost use Rattle.spec_parse.specs.steps.Attributes as spec;

use crate::attributes::{access_word, paren_mode, procedure_word};
use crate::bounds::bounds;
use crate::colons::{after_colons, items_or_none};
use crate::names::read_name;
use expr_parse::{Cursor, Misfit, read_expression, read_names, separated};
use ftn_tree::{ArrayDecl, Form, Lexeme, NamedConstant, SaveItem};
use sqlite_items::Items;
use std::alloc::Global;

#[tactic(auto, unfolding(crate::specs::steps::Attributes::array))]
fn read_array(alloc: Global, cursor: &mut Cursor<'_>) -> Result<ArrayDecl, Misfit>
    ensures { Gives (spec.array cursor.old) result cursor.new }
{
    let name = cursor.name()?;
    let bounds = bounds(alloc, cursor)?;
    Ok(ArrayDecl { name, bounds })
}

#[tactic(auto, unfolding(crate::specs::steps::Attributes::constant))]
fn read_constant(alloc: Global, cursor: &mut Cursor<'_>) -> Result<NamedConstant, Misfit>
    ensures { Gives (spec.constant cursor.old) result cursor.new }
{
    let name = cursor.name()?;
    cursor.expect(Lexeme::Equals)?;
    let value = read_expression(alloc, cursor)?;
    Ok(NamedConstant { name, value })
}

#[tactic(auto, unfolding(crate::specs::steps::Attributes::save_item))]
fn read_save_item(_alloc: Global, cursor: &mut Cursor<'_>) -> Result<SaveItem, Misfit>
    ensures { Gives (spec.save_item cursor.old) result cursor.new }
{
    if !cursor.sees(Lexeme::Divide) {
        return Ok(SaveItem::Variable(cursor.name()?));
    }
    cursor.expect(Lexeme::Divide)?;
    let name = cursor.name()?;
    cursor.expect(Lexeme::Divide)?;
    Ok(SaveItem::Block(name))
}

fn read_arrays(alloc: Global, cursor: &mut Cursor<'_>) -> Result<(bool, Items<ArrayDecl>), Misfit>
    ensures { Gives (lists.after_colons spec.array cursor.old) result cursor.new }
{
    after_colons(alloc, cursor, read_array)
}

fn read_constants(alloc: Global, cursor: &mut Cursor<'_>) -> Result<Items<NamedConstant>, Misfit>
    ensures { Gives (shared.separated spec.constant cursor.old) result cursor.new }
{
    separated(alloc, cursor, read_constant)
}

fn read_save_items(
    alloc: Global,
    cursor: &mut Cursor<'_>,
) -> Result<(bool, Items<SaveItem>), Misfit>
    ensures { Gives (lists.items_or_none spec.save_item cursor.old) result cursor.new }
{
    items_or_none(alloc, cursor, read_save_item)
}

fn names_after_colons(alloc: Global, cursor: &mut Cursor<'_>) -> Result<(bool, Items<u32>), Misfit>
    ensures { Gives (lists.after_colons input.name cursor.old) result cursor.new }
{
    after_colons(alloc, cursor, read_name)
}

fn names_or_none(alloc: Global, cursor: &mut Cursor<'_>) -> Result<(bool, Items<u32>), Misfit>
    ensures { Gives (lists.items_or_none input.name cursor.old) result cursor.new }
{
    items_or_none(alloc, cursor, read_name)
}

/// Reads DIMENSION (5.2.5).
#[tactic(auto, unfolding(crate::specs::steps::Attributes::dimension))]
pub fn dimension(alloc: Global, cursor: &mut Cursor<'_>) -> Result<Form, Misfit>
    ensures { Gives (spec.dimension cursor.old) result cursor.new }
{
    cursor.expect_word(b"dimension")?;
    let (colons, arrays) = read_arrays(alloc, cursor)?;
    Ok(Form::Dimension { colons, arrays })
}

/// Reads PARAMETER (5.2.10).
#[tactic(auto, unfolding(crate::specs::steps::Attributes::parameter))]
pub fn parameter(alloc: Global, cursor: &mut Cursor<'_>) -> Result<Form, Misfit>
    ensures { Gives (spec.parameter cursor.old) result cursor.new }
{
    cursor.expect_word(b"parameter")?;
    cursor.expect(Lexeme::Open)?;
    let constants = read_constants(alloc, cursor)?;
    cursor.expect(Lexeme::Close)?;
    Ok(Form::Parameter { constants })
}

/// Reads SAVE (5.2.4).
#[tactic(auto, unfolding(crate::specs::steps::Attributes::save))]
pub fn save(alloc: Global, cursor: &mut Cursor<'_>) -> Result<Form, Misfit>
    ensures { Gives (spec.save cursor.old) result cursor.new }
{
    cursor.expect_word(b"save")?;
    let (colons, items) = read_save_items(alloc, cursor)?;
    Ok(Form::Save { colons, items })
}

/// Reads PUBLIC or PRIVATE (5.2.3).
#[tactic(auto, unfolding(crate::specs::steps::Attributes::access))]
pub fn access(alloc: Global, cursor: &mut Cursor<'_>) -> Result<Form, Misfit>
    ensures { Gives (spec.access cursor.old) result cursor.new }
{
    let word = access_word(cursor)?;
    let (colons, names) = names_or_none(alloc, cursor)?;
    Ok(Form::Access {
        word,
        colons,
        names,
    })
}

/// Reads EXTERNAL or INTRINSIC (12.3.2.2, 12.3.2.3).
#[tactic(auto, unfolding(crate::specs::steps::Attributes::external))]
pub fn external(alloc: Global, cursor: &mut Cursor<'_>) -> Result<Form, Misfit>
    ensures { Gives (spec.external cursor.old) result cursor.new }
{
    let word = procedure_word(cursor)?;
    let names = read_names(alloc, cursor)?;
    Ok(Form::External { word, names })
}

/// Reads INTENT (5.2.1).
#[tactic(auto, unfolding(crate::specs::steps::Attributes::intent))]
pub fn intent(alloc: Global, cursor: &mut Cursor<'_>) -> Result<Form, Misfit>
    ensures { Gives (spec.intent cursor.old) result cursor.new }
{
    cursor.expect_word(b"intent")?;
    let mode = paren_mode(cursor)?;
    let (colons, names) = names_after_colons(alloc, cursor)?;
    Ok(Form::Intent {
        mode,
        colons,
        names,
    })
}
