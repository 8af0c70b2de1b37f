//! Statements that begin program units, procedures and interface blocks, and CONTAINS (Fortran 90, 11, 12.3.2.1, 12.5.2).

ghost use Rattle.std.specs.Prelude.{◌≡◌};
ghost use Rattle.expr_parse.specs.steps.Input.{Gives};
ghost use Rattle.spec_parse.specs.steps.Units as spec;

use crate::names::read_dummies;
use expr_parse::{Cursor, Misfit, read_names};
use ftn_tree::{Form, Lexeme, Token, TypeSpec};
use sqlite_items::Items;
use std::alloc::Global;

#[tactic(auto, unfolding(crate::specs::steps::Units::block_words))]
fn read_block_words(cursor: &mut Cursor<'_>) -> Result<bool, Misfit>
    ensures { Gives (spec.block_words cursor.old) result cursor.new }
{
    if cursor.sees_word(b"blockdata") {
        cursor.expect_word(b"blockdata")?;
        return Ok(true);
    }
    cursor.expect_word(b"block")?;
    cursor.expect_word(b"data")?;
    Ok(false)
}

/// `BLOCK DATA [name]` (11.4).
#[tactic(auto, unfolding(crate::specs::steps::Units::block_data))]
pub fn read_block_data(cursor: &mut Cursor<'_>) -> Result<Form, Misfit>
    ensures { Gives (spec.block_data cursor.old) result cursor.new }
{
    let joined = read_block_words(cursor)?;
    let name = if cursor.sees(Lexeme::Word) {
        Some(cursor.name()?)
    } else {
        None
    };
    Ok(Form::BlockData { joined, name })
}

/// `PROGRAM name` (11.1).
#[tactic(auto, unfolding(crate::specs::steps::Units::program))]
pub fn read_program(cursor: &mut Cursor<'_>) -> Result<Form, Misfit>
    ensures { Gives (spec.program cursor.old) result cursor.new }
{
    cursor.expect_word(b"program")?;
    let name = cursor.name()?;
    Ok(Form::Program { name })
}

#[tactic(auto, unfolding(crate::specs::steps::Units::module_unit))]
fn read_module_unit(cursor: &mut Cursor<'_>) -> Result<Form, Misfit>
    ensures { Gives (spec.module_unit cursor.old) result cursor.new }
{
    cursor.expect_word(b"module")?;
    let name = cursor.name()?;
    Ok(Form::Module { name })
}

#[tactic(auto, unfolding(crate::specs::steps::Units::module_procedure))]
fn read_module_procedure(alloc: Global, cursor: &mut Cursor<'_>) -> Result<Form, Misfit>
    ensures { Gives (spec.module_procedure cursor.old) result cursor.new }
{
    cursor.expect_word(b"module")?;
    cursor.expect_word(b"procedure")?;
    let names = read_names(alloc, cursor)?;
    Ok(Form::ModuleProcedure { names })
}

#[tactic(auto, unfolding(crate::specs::steps::Units::names_procedures))]
fn names_procedures(tokens: &[Token]) -> bool
    ensures { result ≡ spec.names_procedures tokens.now }
{
    match tokens {
        [_, next, third, ..] => next.is_word(b"procedure") && third.lexeme().is(Lexeme::Word),
        _ => false,
    }
}

/// `MODULE name` or `MODULE PROCEDURE name, ..` (11.3, 12.3.2.1). A module may have the name `procedure`.
#[tactic(auto, unfolding(crate::specs::steps::Units::module_row))]
pub fn read_module(alloc: Global, cursor: &mut Cursor<'_>) -> Result<Form, Misfit>
    ensures { Gives (spec.module_row cursor.old) result cursor.new }
{
    if names_procedures(cursor.rest()) {
        read_module_procedure(alloc, cursor)
    } else {
        read_module_unit(cursor)
    }
}

/// `SUBROUTINE name [( [dummy, ..] )]` (12.5.2.3).
#[tactic(auto, unfolding(crate::specs::steps::Units::subroutine, crate::specs::steps::Units::subroutine_parts))]
pub fn read_subroutine(alloc: Global, cursor: &mut Cursor<'_>) -> Result<Form, Misfit>
    ensures { Gives (spec.subroutine cursor.old) result cursor.new }
{
    cursor.expect_word(b"subroutine")?;
    let name = cursor.name()?;
    let dummies = if cursor.sees(Lexeme::Open) {
        Some(read_dummies(alloc, cursor)?)
    } else {
        None
    };
    Ok(Form::Subroutine { name, dummies })
}

#[tactic(auto, unfolding(crate::specs::steps::Units::result_name))]
fn read_result_name(cursor: &mut Cursor<'_>) -> Result<u32, Misfit>
    ensures { Gives (spec.result_name cursor.old) result cursor.new }
{
    cursor.expect_word(b"result")?;
    cursor.expect(Lexeme::Open)?;
    let name = cursor.name()?;
    cursor.expect(Lexeme::Close)?;
    Ok(name)
}

/// The name, the dummy arguments and the name of the result.
#[tactic(auto, unfolding(crate::specs::steps::Units::function_parts))]
fn read_function_parts(
    alloc: Global,
    cursor: &mut Cursor<'_>,
) -> Result<(u32, (Items<u32>, Option<u32>)), Misfit>
    ensures { Gives (spec.function_parts cursor.old) result cursor.new }
{
    cursor.expect_word(b"function")?;
    let name = cursor.name()?;
    let dummies = read_dummies(alloc, cursor)?;
    let result = if cursor.sees(Lexeme::Word) {
        Some(read_result_name(cursor)?)
    } else {
        None
    };
    Ok((name, (dummies, result)))
}

/// `FUNCTION name ( [dummy, ..] ) [RESULT ( name )]`, after the type if one is written (12.5.2.2).
#[tactic(auto, unfolding(crate::specs::steps::Units::function))]
pub fn read_function(
    alloc: Global,
    cursor: &mut Cursor<'_>,
    ty: Option<TypeSpec>,
) -> Result<Form, Misfit>
    ensures { Gives (spec.function ty cursor.old) result cursor.new }
{
    let (name, (dummies, result)) = read_function_parts(alloc, cursor)?;
    Ok(Form::Function {
        ty,
        name,
        dummies,
        result,
    })
}

/// `CONTAINS` (12.5.2.6).
#[tactic(auto, unfolding(crate::specs::steps::Units::contains))]
pub fn read_contains(cursor: &mut Cursor<'_>) -> Result<Form, Misfit>
    ensures { Gives (spec.contains cursor.old) result cursor.new }
{
    cursor.expect_word(b"contains")?;
    Ok(Form::Contains)
}

/// `INTERFACE [name]` (12.3.2.1).
#[tactic(auto, unfolding(crate::specs::steps::Units::interface))]
pub fn read_interface(cursor: &mut Cursor<'_>) -> Result<Form, Misfit>
    ensures { Gives (spec.interface cursor.old) result cursor.new }
{
    cursor.expect_word(b"interface")?;
    let name = if cursor.sees(Lexeme::Word) {
        Some(cursor.name()?)
    } else {
        None
    };
    Ok(Form::Interface { name })
}
