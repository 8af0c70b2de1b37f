//! CASE constructs (Fortran 90, 8.1.3).

ghost use Rattle.expr_parse.specs.steps.Input.{Gives};
ghost use Rattle.expr_parse.specs.steps.Combinators as lists;
ghost use Rattle.exec_parse.specs.steps.Constructs as spec;

use crate::ifs::read_joined_words;
use crate::lists::read_condition;
use expr_parse::{Cursor, Misfit, read_expression};
use ftn_tree::{CaseRange, Expr, Form, Lexeme};
use sqlite_items::Items;
use std::alloc::Global;

/// `SELECT CASE ( selector )`.
#[tactic(auto, unfolding(crate::specs::steps::Constructs::select))]
pub fn read_select(alloc: Global, cursor: &mut Cursor<'_>) -> Result<Form, Misfit>
    ensures { Gives (spec.select cursor.old) result cursor.new }
{
    let joined = read_joined_words(cursor, b"selectcase", b"select", b"case")?;
    let selector = read_condition(alloc, cursor)?;
    Ok(Form::Select { joined, selector })
}

/// The rest of a range after `low :`.
#[tactic(auto, unfolding(crate::specs::steps::Constructs::range_from))]
fn read_range_from(alloc: Global, cursor: &mut Cursor<'_>, low: Expr) -> Result<CaseRange, Misfit>
    ensures { Gives (spec.range_from low cursor.old) result cursor.new }
{
    match cursor.peek() {
        None | Some(Lexeme::Comma | Lexeme::Close) => Ok(CaseRange::From(low)),
        Some(_) => {
            let high = read_expression(alloc, cursor)?;
            Ok(CaseRange::Between { low, high })
        }
    }
}

/// `value`, `low :`, `: high` or `low : high`.
#[tactic(auto, unfolding(crate::specs::steps::Constructs::case_range))]
fn read_range(alloc: Global, cursor: &mut Cursor<'_>) -> Result<CaseRange, Misfit>
    ensures { Gives (spec.case_range cursor.old) result cursor.new }
{
    if cursor.eat(Lexeme::Colon) {
        let high = read_expression(alloc, cursor)?;
        return Ok(CaseRange::To(high));
    }
    let low = read_expression(alloc, cursor)?;
    if cursor.eat(Lexeme::Colon) {
        return read_range_from(alloc, cursor, low);
    }
    Ok(CaseRange::One(low))
}

fn read_range_list(alloc: Global, cursor: &mut Cursor<'_>) -> Result<Items<CaseRange>, Misfit>
    ensures { Gives (lists.separated spec.case_range cursor.old) result cursor.new }
{
    let mut found = Items::new(alloc);
    for _turn in 0..cursor.left() {
        found.push(read_range(alloc, cursor)?)?;
        if !cursor.eat(Lexeme::Comma) {
            return Ok(found);
        }
    }
    Err(Misfit::NoFit)
}

/// `( range, .. )`.
#[tactic(auto, unfolding(crate::specs::steps::Constructs::ranges))]
fn read_ranges(alloc: Global, cursor: &mut Cursor<'_>) -> Result<Items<CaseRange>, Misfit>
    ensures { Gives (spec.ranges cursor.old) result cursor.new }
{
    cursor.expect(Lexeme::Open)?;
    let found = read_range_list(alloc, cursor)?;
    cursor.expect(Lexeme::Close)?;
    Ok(found)
}

/// `DEFAULT` or `( range, .. )`, which is nothing for DEFAULT.
#[tactic(auto, unfolding(crate::specs::steps::Constructs::selection))]
fn read_selection(
    alloc: Global,
    cursor: &mut Cursor<'_>,
) -> Result<Option<Items<CaseRange>>, Misfit>
    ensures { Gives (spec.selection cursor.old) result cursor.new }
{
    if cursor.eat_word(b"default") {
        return Ok(None);
    }
    Ok(Some(read_ranges(alloc, cursor)?))
}

/// `CASE ( range, .. )` or `CASE DEFAULT`.
#[tactic(auto, unfolding(crate::specs::steps::Constructs::case_form))]
pub fn read_case(alloc: Global, cursor: &mut Cursor<'_>) -> Result<Form, Misfit>
    ensures { Gives (spec.case_form cursor.old) result cursor.new }
{
    cursor.expect_word(b"case")?;
    let ranges = read_selection(alloc, cursor)?;
    Ok(Form::Case { ranges })
}
