//! DATA (Fortran 90, 5.2.9).

ghost use Rattle.std.specs.Prelude.{◌≡◌};
ghost use Rattle.expr_parse.specs.steps.Input.{Gives};
ghost use Rattle.spec_parse.specs.steps.Data as spec;

use crate::common::read_designators;
use crate::implicits::read_whole_number;
use expr_parse::{Cursor, Misfit, constant, separated};
use ftn_tree::{DataConstant, DataGroup, DataValue, Designator, Expr, Form, Lexeme, Repeat, Sign};
use sqlite_items::Items;
use std::alloc::Global;

fn sees_sign(cursor: &Cursor<'_>) -> bool
    ensures { result ≡ spec.sees_sign cursor.now }
{
    cursor.sees(Lexeme::Plus) || cursor.sees(Lexeme::Minus)
}

#[tactic(auto, unfolding(crate::specs::steps::Data::sign))]
fn read_sign(cursor: &mut Cursor<'_>) -> Result<Sign, Misfit>
    ensures { Gives (spec.sign cursor.old) result cursor.new }
{
    if cursor.sees(Lexeme::Plus) {
        cursor.expect(Lexeme::Plus)?;
        return Ok(Sign::Plus);
    }
    cursor.expect(Lexeme::Minus)?;
    Ok(Sign::Minus)
}

#[tactic(auto, unfolding(crate::specs::steps::Data::signed))]
fn read_signed(alloc: Global, cursor: &mut Cursor<'_>) -> Result<DataConstant, Misfit>
    ensures { Gives (spec.signed cursor.old) result cursor.new }
{
    let sign = read_sign(cursor)?;
    let (token, value) = read_whole_number(alloc, cursor)?;
    Ok(DataConstant::Whole {
        sign: Some(sign),
        token,
        value,
    })
}

#[tactic(auto, unfolding(crate::specs::steps::Data::literal))]
fn read_literal(alloc: Global, cursor: &mut Cursor<'_>) -> Result<DataConstant, Misfit>
    ensures { Gives (spec.literal cursor.old) result cursor.new }
{
    match constant(alloc, cursor)? {
        Expr::Whole { token, value } => Ok(DataConstant::Whole {
            sign: None,
            token,
            value,
        }),
        Expr::Truth { token, value } => Ok(DataConstant::Truth { token, value }),
        Expr::Quoted { token, value } => Ok(DataConstant::Quoted { token, value }),
        _ => Err(Misfit::NoFit),
    }
}

#[tactic(auto, unfolding(crate::specs::steps::Data::unsigned))]
fn read_unsigned(alloc: Global, cursor: &mut Cursor<'_>) -> Result<DataConstant, Misfit>
    ensures { Gives (spec.unsigned cursor.old) result cursor.new }
{
    if cursor.sees(Lexeme::Word) {
        return Ok(DataConstant::Named(cursor.name()?));
    }
    read_literal(alloc, cursor)
}

#[tactic(auto, unfolding(crate::specs::steps::Data::data_constant))]
fn read_constant(alloc: Global, cursor: &mut Cursor<'_>) -> Result<DataConstant, Misfit>
    ensures { Gives (spec.data_constant cursor.old) result cursor.new }
{
    if sees_sign(cursor) {
        read_signed(alloc, cursor)
    } else {
        read_unsigned(alloc, cursor)
    }
}

#[tactic(auto, unfolding(crate::specs::steps::Data::repeat))]
fn read_repeat(alloc: Global, cursor: &mut Cursor<'_>) -> Result<Repeat, Misfit>
    ensures { Gives (spec.repeat cursor.old) result cursor.new }
{
    if cursor.sees(Lexeme::Word) {
        return Ok(Repeat::Named(cursor.name()?));
    }
    let (token, value) = read_whole_number(alloc, cursor)?;
    Ok(Repeat::Whole { token, value })
}

fn is_repeated(cursor: &Cursor<'_>) -> bool
    ensures { result ≡ spec.is_repeated cursor.now }
{
    matches!(cursor.peek_second(), Some(Lexeme::Times))
}

#[tactic(auto, unfolding(crate::specs::steps::Data::repeated))]
fn read_repeated(alloc: Global, cursor: &mut Cursor<'_>) -> Result<DataValue, Misfit>
    ensures { Gives (spec.repeated cursor.old) result cursor.new }
{
    let repeat = read_repeat(alloc, cursor)?;
    cursor.expect(Lexeme::Times)?;
    let constant = read_constant(alloc, cursor)?;
    Ok(DataValue {
        repeat: Some(repeat),
        constant,
    })
}

#[tactic(auto, unfolding(crate::specs::steps::Data::data_value))]
fn read_value(alloc: Global, cursor: &mut Cursor<'_>) -> Result<DataValue, Misfit>
    ensures { Gives (spec.data_value cursor.old) result cursor.new }
{
    if is_repeated(cursor) {
        return read_repeated(alloc, cursor);
    }
    let constant = read_constant(alloc, cursor)?;
    Ok(DataValue {
        repeat: None,
        constant,
    })
}

fn read_values(alloc: Global, cursor: &mut Cursor<'_>) -> Result<Items<DataValue>, Misfit>
    ensures { Gives (spec.values cursor.old) result cursor.new }
{
    separated(alloc, cursor, read_value)
}

#[tactic(auto, unfolding(crate::specs::steps::Data::pairing))]
fn read_pairing(
    alloc: Global,
    cursor: &mut Cursor<'_>,
) -> Result<(Items<Designator>, Items<DataValue>), Misfit>
    ensures { Gives (spec.pairing cursor.old) result cursor.new }
{
    let objects = read_designators(alloc, cursor)?;
    cursor.expect(Lexeme::Divide)?;
    let values = read_values(alloc, cursor)?;
    cursor.expect(Lexeme::Divide)?;
    Ok((objects, values))
}

#[tactic(auto, unfolding(crate::specs::steps::Data::first_group))]
fn read_first_group(alloc: Global, cursor: &mut Cursor<'_>) -> Result<DataGroup, Misfit>
    ensures { Gives (spec.first_group cursor.old) result cursor.new }
{
    let (objects, values) = read_pairing(alloc, cursor)?;
    Ok(DataGroup {
        comma: false,
        objects,
        values,
    })
}

#[tactic(auto, unfolding(crate::specs::steps::Data::later_group))]
fn read_later_group(alloc: Global, cursor: &mut Cursor<'_>) -> Result<DataGroup, Misfit>
    ensures { Gives (spec.later_group cursor.old) result cursor.new }
{
    let comma = cursor.eat(Lexeme::Comma);
    let (objects, values) = read_pairing(alloc, cursor)?;
    Ok(DataGroup {
        comma,
        objects,
        values,
    })
}

fn groups_from(
    alloc: Global,
    cursor: &mut Cursor<'_>,
    first: DataGroup,
) -> Result<Items<DataGroup>, Misfit>
    ensures { Gives (spec.all_groups first cursor.old) result cursor.new }
{
    let mut found = Items::new(alloc);
    found.push(first)?;
    'turns: for _turn in 0..cursor.left() {
        if cursor.is_done() {
            return Ok(found);
        }
        found.push(read_later_group(alloc, cursor)?)?;
    }
    Ok(found)
}

/// Reads DATA.
#[tactic(auto, unfolding(crate::specs::steps::Data::data_row))]
pub fn data(alloc: Global, cursor: &mut Cursor<'_>) -> Result<Form, Misfit>
    ensures { Gives (spec.data_row cursor.old) result cursor.new }
{
    cursor.expect_word(b"data")?;
    let first = read_first_group(alloc, cursor)?;
    let groups = groups_from(alloc, cursor, first)?;
    Ok(Form::Data { groups })
}
