//! What a statement may be by its first word.

ghost use Rattle.std.specs.Prelude.{◌≡◌};
ghost use Rattle.ftn_tree.specs.Lexemes.{is_text};
ghost use Rattle.expr_parse.specs.steps.Input.{Gives};
ghost use Rattle.expr_parse.specs.steps.Combinators.{to_the_end};
ghost use Rattle.spec_parse.specs.steps.Rows as spec;

use crate::attribute_statements::{access, dimension, external, intent, parameter, save};
use crate::common::{common, equivalence};
use crate::data::data;
use crate::declare::declare_from;
use crate::endings::read_end;
use crate::implicits::read_implicit;
use crate::types::type_spec;
use crate::units::{
    read_block_data, read_contains, read_function, read_interface, read_module, read_program,
    read_subroutine,
};
use crate::uses::read_use;
use expr_parse::{Cursor, Misfit};
use ftn_tree::{Form, Lexeme, Token, TokenKind};
use std::alloc::Global;

/// What a statement that begins with a certain word may be.
#[derive(Clone, Copy)]
pub enum Row {
    /// BLOCK DATA.
    BlockData,
    /// PROGRAM.
    Program,
    /// MODULE, and MODULE PROCEDURE.
    Module,
    /// SUBROUTINE.
    Subroutine,
    /// FUNCTION without a type before it.
    Function,
    /// CONTAINS.
    Contains,
    /// USE.
    Use,
    /// IMPLICIT.
    Implicit,
    /// INTERFACE.
    Interface,
    /// A type: a declaration, or FUNCTION after it.
    Typed,
    /// DIMENSION.
    Dimension,
    /// PARAMETER.
    Parameter,
    /// DATA.
    Data,
    /// SAVE.
    Save,
    /// PUBLIC or PRIVATE.
    Access,
    /// EXTERNAL or INTRINSIC.
    External,
    /// INTENT.
    Intent,
    /// COMMON.
    Common,
    /// EQUIVALENCE.
    Equivalence,
    /// END, a word that END is joined to, or another word that begins none of these statements.
    End,
}

fn is(word: &[u8], text: &[u8]) -> bool
    ensures { result ≡ is_text word.now text.now }
{
    word == text
}

fn is_type_word(text: &[u8]) -> bool
    ensures { result ≡ spec.is_type_word text.now }
{
    is(text, b"integer") || is(text, b"logical") || is(text, b"character")
}

#[tactic(auto, unfolding(crate::specs::steps::Rows::attribute_row))]
fn find_attribute_row(text: &[u8]) -> Row
    ensures { result ≡ spec.attribute_row text.now }
{
    if is(text, b"dimension") {
        Row::Dimension
    } else if is(text, b"parameter") {
        Row::Parameter
    } else if is(text, b"data") {
        Row::Data
    } else if is(text, b"save") {
        Row::Save
    } else if is(text, b"public") || is(text, b"private") {
        Row::Access
    } else if is(text, b"external") || is(text, b"intrinsic") {
        Row::External
    } else if is(text, b"intent") {
        Row::Intent
    } else if is(text, b"common") {
        Row::Common
    } else if is(text, b"equivalence") {
        Row::Equivalence
    } else {
        Row::End
    }
}

#[tactic(auto, unfolding(crate::specs::steps::Rows::find_row))]
fn find_row(text: &[u8]) -> Row
    ensures { result ≡ spec.find_row text.now }
{
    if is(text, b"block") || is(text, b"blockdata") {
        Row::BlockData
    } else if is(text, b"program") {
        Row::Program
    } else if is(text, b"module") {
        Row::Module
    } else if is(text, b"subroutine") {
        Row::Subroutine
    } else if is(text, b"function") {
        Row::Function
    } else if is(text, b"contains") {
        Row::Contains
    } else if is(text, b"use") {
        Row::Use
    } else if is(text, b"implicit") {
        Row::Implicit
    } else if is(text, b"interface") {
        Row::Interface
    } else if is_type_word(text) {
        Row::Typed
    } else {
        find_attribute_row(text)
    }
}

fn row_of(token: &Token) -> Option<Row>
    ensures { result ≡ spec.row_by token.now.kind token.now.value }
{
    match token.kind {
        TokenKind::Word => Some(find_row(token.value.bytes())),
        _ => None,
    }
}

fn row_at_front(tokens: &[Token]) -> Option<Row>
    ensures { result ≡ spec.row_at_front tokens.now }
{
    match tokens {
        [here, ..] => row_of(here),
        [] => None,
    }
}

#[tactic(auto, unfolding(crate::specs::steps::Rows::begins_function))]
fn begins_function(tokens: &[Token]) -> bool
    ensures { result ≡ spec.begins_function tokens.now }
{
    match tokens {
        [here, next, ..] => here.is_word(b"function") && next.lexeme().is(Lexeme::Word),
        _ => false,
    }
}

#[tactic(auto, unfolding(crate::specs::steps::Rows::typed_row))]
fn read_typed(alloc: Global, cursor: &mut Cursor<'_>) -> Result<Form, Misfit>
    ensures { Gives (spec.typed_row cursor.old) result cursor.new }
{
    let ty = type_spec(alloc, cursor)?;
    if begins_function(cursor.rest()) {
        read_function(alloc, cursor, Some(ty))
    } else {
        declare_from(alloc, cursor, ty)
    }
}

fn read_row(alloc: Global, cursor: &mut Cursor<'_>, row: Row) -> Result<Form, Misfit>
    ensures { Gives (spec.row_reader row cursor.old) result cursor.new }
{
    match row {
        Row::BlockData => read_block_data(cursor),
        Row::Program => read_program(cursor),
        Row::Module => read_module(alloc, cursor),
        Row::Subroutine => read_subroutine(alloc, cursor),
        Row::Function => read_function(alloc, cursor, None),
        Row::Contains => read_contains(cursor),
        Row::Use => read_use(alloc, cursor),
        Row::Implicit => read_implicit(alloc, cursor),
        Row::Interface => read_interface(cursor),
        Row::Typed => read_typed(alloc, cursor),
        Row::Dimension => dimension(alloc, cursor),
        Row::Parameter => parameter(alloc, cursor),
        Row::Data => data(alloc, cursor),
        Row::Save => save(alloc, cursor),
        Row::Access => access(alloc, cursor),
        Row::External => external(alloc, cursor),
        Row::Intent => intent(alloc, cursor),
        Row::Common => common(alloc, cursor),
        Row::Equivalence => equivalence(alloc, cursor),
        Row::End => read_end(cursor),
    }
}

fn read_to_the_end(alloc: Global, cursor: &mut Cursor<'_>, row: Row) -> Result<Form, Misfit>
    ensures { Gives (to_the_end (spec.row_reader row) cursor.old) result cursor.new }
{
    let form = read_row(alloc, cursor, row)?;
    cursor.finish_with(form)
}

/// Reads a statement that is all that is left, by its first word alone: whether it is an assignment is not asked.
#[tactic(auto, unfolding(crate::specs::steps::Rows::statement))]
pub fn read_statement(alloc: Global, cursor: &mut Cursor<'_>) -> Result<Form, Misfit>
    ensures { Gives (spec.statement cursor.old) result cursor.new }
{
    let Some(row) = row_at_front(cursor.rest()) else {
        return Err(Misfit::NoFit);
    };
    read_to_the_end(alloc, cursor, row)
}
