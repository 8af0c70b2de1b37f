//! COMMON and EQUIVALENCE (Fortran 90, 5.5).

ghost use Rattle.std.specs.Prelude.{◌≡◌};
ghost use Rattle.expr_parse.specs.steps.Combinators as shared;
ghost use Rattle.expr_parse.specs.steps.Input.{Gives};
ghost use Rattle.spec_parse.specs.steps.Blocks as spec;

use crate::bounds::maybe_bounds;
use expr_parse::{Cursor, Misfit, read_expressions, separated};
use ftn_tree::{BlockName, CommonGroup, CommonMember, Designator, Expr, Form, Lexeme};
use sqlite_items::Items;
use std::alloc::Global;

fn is_slash(next: Option<Lexeme>) -> bool
    ensures { result ≡ spec.is_slash_at next }
{
    matches!(next, Some(Lexeme::Divide | Lexeme::Concat))
}

#[tactic(auto, unfolding(crate::specs::steps::Blocks::rest_of_block))]
fn rest_of_block(cursor: &mut Cursor<'_>) -> Result<Option<u32>, Misfit>
    ensures { Gives (spec.rest_of_block cursor.old) result cursor.new }
{
    if cursor.sees(Lexeme::Divide) {
        cursor.expect(Lexeme::Divide)?;
        return Ok(None);
    }
    let name = cursor.name()?;
    cursor.expect(Lexeme::Divide)?;
    Ok(Some(name))
}

fn block_of(slash: u32, name: Option<u32>) -> BlockName
    ensures { result ≡ spec.block_of (slash, name) }
{
    match name {
        None => BlockName::Blank {
            slash,
            joined: false,
        },
        Some(name) => BlockName::Named { slash, name },
    }
}

#[tactic(auto, unfolding(crate::specs::steps::Blocks::block))]
fn block(cursor: &mut Cursor<'_>) -> Result<BlockName, Misfit>
    ensures { Gives (spec.block cursor.old) result cursor.new }
{
    if cursor.sees(Lexeme::Concat) {
        let slash = cursor.expect(Lexeme::Concat)?;
        return Ok(BlockName::Blank {
            slash,
            joined: true,
        });
    }
    let slash = cursor.expect(Lexeme::Divide)?;
    let name = rest_of_block(cursor)?;
    Ok(block_of(slash, name))
}

#[tactic(auto, unfolding(crate::specs::steps::Blocks::first_block))]
fn first_block(cursor: &mut Cursor<'_>) -> Result<BlockName, Misfit>
    ensures { Gives (spec.first_block cursor.old) result cursor.new }
{
    if is_slash(cursor.peek()) {
        block(cursor)
    } else {
        Ok(BlockName::Unwritten)
    }
}

#[tactic(auto, unfolding(crate::specs::steps::Blocks::member))]
fn member(alloc: Global, cursor: &mut Cursor<'_>) -> Result<CommonMember, Misfit>
    ensures { Gives (spec.member cursor.old) result cursor.new }
{
    let name = cursor.name()?;
    let bounds = maybe_bounds(alloc, cursor)?;
    Ok(CommonMember { name, bounds })
}

fn goes_on(cursor: &Cursor<'_>) -> bool
    ensures { result ≡ spec.goes_on cursor.now }
{
    cursor.sees(Lexeme::Comma) && !is_slash(cursor.peek_second())
}

fn members(alloc: Global, cursor: &mut Cursor<'_>) -> Result<Items<CommonMember>, Misfit>
    ensures { Gives (spec.members cursor.old) result cursor.new }
{
    let mut found = Items::new(alloc);
    'turns: for _turn in 0..cursor.left() {
        found.push(member(alloc, cursor)?)?;
        if !goes_on(cursor) {
            return Ok(found);
        }
        cursor.eat(Lexeme::Comma);
    }
    Err(Misfit::NoFit)
}

#[tactic(auto, unfolding(crate::specs::steps::Blocks::first_group))]
fn first_group(alloc: Global, cursor: &mut Cursor<'_>) -> Result<CommonGroup, Misfit>
    ensures { Gives (spec.first_group cursor.old) result cursor.new }
{
    let block = first_block(cursor)?;
    let members = members(alloc, cursor)?;
    Ok(CommonGroup {
        comma: false,
        block,
        members,
    })
}

#[tactic(auto, unfolding(crate::specs::steps::Blocks::later_group))]
fn later_group(alloc: Global, cursor: &mut Cursor<'_>) -> Result<CommonGroup, Misfit>
    ensures { Gives (spec.later_group cursor.old) result cursor.new }
{
    let comma = cursor.eat(Lexeme::Comma);
    let block = block(cursor)?;
    let members = members(alloc, cursor)?;
    Ok(CommonGroup {
        comma,
        block,
        members,
    })
}

fn groups_from(
    alloc: Global,
    cursor: &mut Cursor<'_>,
    first: CommonGroup,
) -> Result<Items<CommonGroup>, Misfit>
    ensures { Gives (spec.all_groups first cursor.old) result cursor.new }
{
    let mut found = Items::new(alloc);
    found.push(first)?;
    'turns: for _turn in 0..cursor.left() {
        if cursor.is_done() {
            return Ok(found);
        }
        found.push(later_group(alloc, cursor)?)?;
    }
    Ok(found)
}

/// Reads COMMON (5.5.2).
#[tactic(auto, unfolding(crate::specs::steps::Blocks::common))]
pub fn common(alloc: Global, cursor: &mut Cursor<'_>) -> Result<Form, Misfit>
    ensures { Gives (spec.common cursor.old) result cursor.new }
{
    cursor.expect_word(b"common")?;
    let first = first_group(alloc, cursor)?;
    let groups = groups_from(alloc, cursor, first)?;
    Ok(Form::Common { groups })
}

#[tactic(auto, unfolding(crate::specs::steps::Blocks::subscripts))]
fn subscripts(alloc: Global, cursor: &mut Cursor<'_>) -> Result<Option<Items<Expr>>, Misfit>
    ensures { Gives (spec.subscripts cursor.old) result cursor.new }
{
    if !cursor.sees(Lexeme::Open) {
        return Ok(None);
    }
    cursor.expect(Lexeme::Open)?;
    let found = read_expressions(alloc, cursor)?;
    cursor.expect(Lexeme::Close)?;
    Ok(Some(found))
}

#[tactic(auto, unfolding(crate::specs::steps::Blocks::designator))]
fn read_designator(alloc: Global, cursor: &mut Cursor<'_>) -> Result<Designator, Misfit>
    ensures { Gives (spec.designator cursor.old) result cursor.new }
{
    let name = cursor.name()?;
    let subscripts = subscripts(alloc, cursor)?;
    Ok(Designator { name, subscripts })
}

/// Reads one name or more, each with the subscripts in parentheses that may follow it, with commas between them.
pub fn read_designators(alloc: Global, cursor: &mut Cursor<'_>) -> Result<Items<Designator>, Misfit>
    ensures { Gives (shared.separated spec.designator cursor.old) result cursor.new }
{
    separated(alloc, cursor, read_designator)
}

#[tactic(auto, unfolding(crate::specs::steps::Blocks::equivalence_set))]
fn read_set(alloc: Global, cursor: &mut Cursor<'_>) -> Result<Items<Designator>, Misfit>
    ensures { Gives (spec.equivalence_set cursor.old) result cursor.new }
{
    cursor.expect(Lexeme::Open)?;
    let found = read_designators(alloc, cursor)?;
    cursor.expect(Lexeme::Close)?;
    if found.len() < 2 {
        return Err(Misfit::NoFit);
    }
    Ok(found)
}

fn read_sets(alloc: Global, cursor: &mut Cursor<'_>) -> Result<Items<Items<Designator>>, Misfit>
    ensures { Gives (shared.separated spec.equivalence_set cursor.old) result cursor.new }
{
    separated(alloc, cursor, read_set)
}

/// Reads EQUIVALENCE (5.5.1).
#[tactic(auto, unfolding(crate::specs::steps::Blocks::equivalence))]
pub fn equivalence(alloc: Global, cursor: &mut Cursor<'_>) -> Result<Form, Misfit>
    ensures { Gives (spec.equivalence cursor.old) result cursor.new }
{
    cursor.expect_word(b"equivalence")?;
    let sets = read_sets(alloc, cursor)?;
    Ok(Form::Equivalence { sets })
}
