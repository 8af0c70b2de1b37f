//! USE statements (Fortran 90, 11.3.2).

ghost use Rattle.std.specs.Prelude.{◌≡◌};
ghost use Rattle.expr_parse.specs.steps.Input.{Gives};
ghost use Rattle.spec_parse.specs.steps.Uses as spec;

use expr_parse::{Cursor, Misfit, each_after_comma, separated};
use ftn_tree::{Form, Lexeme, OnlyItem, Rename, Token};
use sqlite_items::Items;
use std::alloc::Global;

#[tactic(auto, unfolding(crate::specs::steps::Uses::rename))]
fn read_rename(_alloc: Global, cursor: &mut Cursor<'_>) -> Result<Rename, Misfit>
    ensures { Gives (spec.rename cursor.old) result cursor.new }
{
    let local = cursor.name()?;
    cursor.expect(Lexeme::Arrow)?;
    let source = cursor.name()?;
    Ok(Rename { local, source })
}

#[tactic(auto, unfolding(crate::specs::steps::Uses::only_item))]
fn read_only_item(_alloc: Global, cursor: &mut Cursor<'_>) -> Result<OnlyItem, Misfit>
    ensures { Gives (spec.only_item cursor.old) result cursor.new }
{
    let first = cursor.name()?;
    if !cursor.sees(Lexeme::Arrow) {
        return Ok(OnlyItem {
            local: None,
            source: first,
        });
    }
    cursor.expect(Lexeme::Arrow)?;
    let source = cursor.name()?;
    Ok(OnlyItem {
        local: Some(first),
        source,
    })
}

#[tactic(auto, unfolding(crate::specs::steps::Uses::renames))]
fn read_renames(alloc: Global, cursor: &mut Cursor<'_>) -> Result<Items<Rename>, Misfit>
    ensures { Gives (spec.renames cursor.old) result cursor.new }
{
    each_after_comma(alloc, cursor, read_rename)
}

#[tactic(auto, unfolding(crate::specs::steps::Uses::use_all))]
fn read_use_all(alloc: Global, cursor: &mut Cursor<'_>) -> Result<Form, Misfit>
    ensures { Gives (spec.use_all cursor.old) result cursor.new }
{
    cursor.expect_word(b"use")?;
    let module = cursor.name()?;
    let renames = read_renames(alloc, cursor)?;
    Ok(Form::UseAll { module, renames })
}

#[tactic(auto, unfolding(crate::specs::steps::Uses::only_items))]
fn read_only_items(alloc: Global, cursor: &mut Cursor<'_>) -> Result<Items<OnlyItem>, Misfit>
    ensures { Gives (spec.only_items cursor.old) result cursor.new }
{
    separated(alloc, cursor, read_only_item)
}

#[tactic(auto, unfolding(crate::specs::steps::Uses::items_if_any))]
fn read_items_if_any(alloc: Global, cursor: &mut Cursor<'_>) -> Result<Items<OnlyItem>, Misfit>
    ensures { Gives (spec.items_if_any cursor.old) result cursor.new }
{
    if cursor.is_done() {
        Ok(Items::new(alloc))
    } else {
        read_only_items(alloc, cursor)
    }
}

#[tactic(auto, unfolding(crate::specs::steps::Uses::use_only))]
fn read_use_only(alloc: Global, cursor: &mut Cursor<'_>) -> Result<Form, Misfit>
    ensures { Gives (spec.use_only cursor.old) result cursor.new }
{
    cursor.expect_word(b"use")?;
    let module = cursor.name()?;
    cursor.expect(Lexeme::Comma)?;
    cursor.expect_word(b"only")?;
    cursor.expect(Lexeme::Colon)?;
    let items = read_items_if_any(alloc, cursor)?;
    Ok(Form::UseOnly { module, items })
}

#[tactic(auto, unfolding(crate::specs::steps::Uses::names_items))]
fn names_items(tokens: &[Token]) -> bool
    ensures { result ≡ spec.names_items tokens.now }
{
    match tokens {
        [_, _, _, only, colon, ..] => only.is_word(b"only") && colon.lexeme().is(Lexeme::Colon),
        _ => false,
    }
}

/// `USE module [, local => source, ..]` or `USE module, ONLY : [item, ..]`. A local name may be `only`.
#[tactic(auto, unfolding(crate::specs::steps::Uses::use_row))]
pub fn read_use(alloc: Global, cursor: &mut Cursor<'_>) -> Result<Form, Misfit>
    ensures { Gives (spec.use_row cursor.old) result cursor.new }
{
    if names_items(cursor.rest()) {
        read_use_only(alloc, cursor)
    } else {
        read_use_all(alloc, cursor)
    }
}
