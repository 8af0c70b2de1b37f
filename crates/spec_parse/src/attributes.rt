//! Attributes (Fortran 90, 5.1.2).

ghost use Rattle.std.specs.Prelude.{◌≡◌};
ghost use Rattle.spec_parse.specs.steps.Choices as lists;
ghost use Rattle.expr_parse.specs.steps.Combinators as shared;
ghost use Rattle.expr_parse.specs.steps.Input.{Gives};
ghost use Rattle.spec_parse.specs.steps.Attributes as spec;

use crate::bounds::bounds;
use expr_parse::{Cursor, Misfit, each_after_comma};
use ftn_tree::{AccessWord, Attribute, AttributeKind, IntentMode, Lexeme, ProcedureWord};
use sqlite_items::Items;
use std::alloc::Global;

/// Reads PUBLIC or PRIVATE.
#[tactic(auto, unfolding(crate::specs::steps::Attributes::access_word))]
pub fn access_word(cursor: &mut Cursor<'_>) -> Result<AccessWord, Misfit>
    ensures { Gives (spec.access_word cursor.old) result cursor.new }
{
    if cursor.sees_word(b"public") {
        cursor.expect_word(b"public")?;
        return Ok(AccessWord::Public);
    }
    cursor.expect_word(b"private")?;
    Ok(AccessWord::Private)
}

/// Reads EXTERNAL or INTRINSIC.
#[tactic(auto, unfolding(crate::specs::steps::Attributes::procedure_word))]
pub fn procedure_word(cursor: &mut Cursor<'_>) -> Result<ProcedureWord, Misfit>
    ensures { Gives (spec.procedure_word cursor.old) result cursor.new }
{
    if cursor.sees_word(b"external") {
        cursor.expect_word(b"external")?;
        return Ok(ProcedureWord::External);
    }
    cursor.expect_word(b"intrinsic")?;
    Ok(ProcedureWord::Intrinsic)
}

#[tactic(auto, unfolding(crate::specs::steps::Attributes::in_or_out))]
fn in_or_out(cursor: &mut Cursor<'_>) -> Result<IntentMode, Misfit>
    ensures { Gives (spec.in_or_out cursor.old) result cursor.new }
{
    if !cursor.sees_word(b"in") {
        cursor.expect_word(b"out")?;
        return Ok(IntentMode::Out);
    }
    cursor.expect_word(b"in")?;
    if cursor.eat_word(b"out") {
        Ok(IntentMode::InOut { joined: false })
    } else {
        Ok(IntentMode::In)
    }
}

#[tactic(auto, unfolding(crate::specs::steps::Attributes::intent_mode))]
fn intent_mode(cursor: &mut Cursor<'_>) -> Result<IntentMode, Misfit>
    ensures { Gives (spec.intent_mode cursor.old) result cursor.new }
{
    if cursor.sees_word(b"inout") {
        cursor.expect_word(b"inout")?;
        return Ok(IntentMode::InOut { joined: true });
    }
    in_or_out(cursor)
}

/// Reads what stands after INTENT: IN, OUT, INOUT or IN OUT in parentheses (5.1.2.3).
pub fn paren_mode(cursor: &mut Cursor<'_>) -> Result<IntentMode, Misfit>
    ensures { Gives (lists.enclosed spec.intent_mode cursor.old) result cursor.new }
{
    cursor.expect(Lexeme::Open)?;
    let mode = intent_mode(cursor)?;
    cursor.expect(Lexeme::Close)?;
    Ok(mode)
}

fn sees_access(cursor: &Cursor<'_>) -> bool
    ensures { result ≡ spec.sees_access cursor.now }
{
    cursor.sees_word(b"public") || cursor.sees_word(b"private")
}

fn sees_procedure(cursor: &Cursor<'_>) -> bool
    ensures { result ≡ spec.sees_procedure cursor.now }
{
    cursor.sees_word(b"external") || cursor.sees_word(b"intrinsic")
}

#[tactic(auto, unfolding(crate::specs::steps::Attributes::plain_attribute))]
fn plain_attribute(cursor: &mut Cursor<'_>) -> Result<AttributeKind, Misfit>
    ensures { Gives (spec.plain_attribute cursor.old) result cursor.new }
{
    if cursor.sees_word(b"parameter") {
        cursor.expect_word(b"parameter")?;
        return Ok(AttributeKind::Parameter);
    }
    cursor.expect_word(b"save")?;
    Ok(AttributeKind::Save)
}

#[tactic(auto, unfolding(crate::specs::steps::Attributes::word_attribute))]
fn word_attribute(cursor: &mut Cursor<'_>) -> Result<AttributeKind, Misfit>
    ensures { Gives (spec.word_attribute cursor.old) result cursor.new }
{
    if sees_access(cursor) {
        return Ok(AttributeKind::Access(access_word(cursor)?));
    }
    if sees_procedure(cursor) {
        return Ok(AttributeKind::Procedure(procedure_word(cursor)?));
    }
    plain_attribute(cursor)
}

#[tactic(auto, unfolding(crate::specs::steps::Attributes::attribute_kind))]
fn attribute_kind(alloc: Global, cursor: &mut Cursor<'_>) -> Result<AttributeKind, Misfit>
    ensures { Gives (spec.attribute_kind cursor.old) result cursor.new }
{
    if cursor.sees_word(b"dimension") {
        cursor.expect_word(b"dimension")?;
        return Ok(AttributeKind::Dimension(bounds(alloc, cursor)?));
    }
    if cursor.sees_word(b"intent") {
        cursor.expect_word(b"intent")?;
        return Ok(AttributeKind::Intent(paren_mode(cursor)?));
    }
    word_attribute(cursor)
}

#[tactic(auto, unfolding(crate::specs::steps::Attributes::attribute))]
fn read_attribute(alloc: Global, cursor: &mut Cursor<'_>) -> Result<Attribute, Misfit>
    ensures { Gives (spec.attribute cursor.old) result cursor.new }
{
    let token = cursor.at();
    let kind = attribute_kind(alloc, cursor)?;
    Ok(Attribute { token, kind })
}

/// Reads the attributes of a type declaration, each with its comma before it (5.1.2).
pub fn read_attributes(alloc: Global, cursor: &mut Cursor<'_>) -> Result<Items<Attribute>, Misfit>
    ensures { Gives (shared.each_after_comma spec.attribute cursor.old) result cursor.new }
{
    each_after_comma(alloc, cursor, read_attribute)
}
