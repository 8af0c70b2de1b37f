//! Type declarations (Fortran 90, 5.1).

ghost use Rattle.std.specs.Prelude.{◌≡◌};
ghost use Rattle.ftn_tree.specs.SpecificationForms as form;
ghost use Rattle.expr_parse.specs.steps.Input.{Gives};
ghost use Rattle.spec_parse.specs.steps.Declaring as spec;
ghost use Rattle.spec_parse.specs.steps.Lists as lists;

use crate::attributes::read_attributes;
use crate::bounds::maybe_bounds;
use crate::colons::after_colons;
use crate::types::char_length;
use expr_parse::{Cursor, Misfit, read_expression};
use ftn_tree::{Attribute, CharLength, EntityDecl, Expr, Form, Lexeme, TypeSpec};
use sqlite_items::Items;
use std::alloc::Global;

#[tactic(auto, unfolding(crate::specs::steps::Declaring::own_length))]
fn own_length(alloc: Global, cursor: &mut Cursor<'_>) -> Result<Option<CharLength>, Misfit>
    ensures { Gives (spec.own_length cursor.old) result cursor.new }
{
    if !cursor.sees(Lexeme::Times) {
        return Ok(None);
    }
    cursor.expect(Lexeme::Times)?;
    Ok(Some(char_length(alloc, cursor)?))
}

#[tactic(auto, unfolding(crate::specs::steps::Declaring::initial_value))]
fn initial_value(alloc: Global, cursor: &mut Cursor<'_>) -> Result<Option<Expr>, Misfit>
    ensures { Gives (spec.initial_value cursor.old) result cursor.new }
{
    if !cursor.sees(Lexeme::Equals) {
        return Ok(None);
    }
    cursor.expect(Lexeme::Equals)?;
    Ok(Some(read_expression(alloc, cursor)?))
}

#[tactic(auto, unfolding(crate::specs::steps::Declaring::entity))]
fn read_entity(alloc: Global, cursor: &mut Cursor<'_>) -> Result<EntityDecl, Misfit>
    ensures { Gives (spec.entity cursor.old) result cursor.new }
{
    let name = cursor.name()?;
    let bounds = maybe_bounds(alloc, cursor)?;
    let length = own_length(alloc, cursor)?;
    let value = initial_value(alloc, cursor)?;
    Ok(EntityDecl {
        name,
        bounds,
        length,
        value,
    })
}

fn read_entities(
    alloc: Global,
    cursor: &mut Cursor<'_>,
) -> Result<(bool, Items<EntityDecl>), Misfit>
    ensures { Gives (lists.after_colons spec.entity cursor.old) result cursor.new }
{
    after_colons(alloc, cursor, read_entity)
}

fn is_character(ty: &TypeSpec) -> bool
    ensures { result ≡ form.is_character ty.now }
{
    matches!(ty, TypeSpec::Character(_))
}

fn may_stand(entity: &EntityDecl, character: bool, colons: bool) -> bool
    ensures { result ≡ form.may_stand character colons entity.now }
{
    (character || entity.length.is_none()) && (colons || entity.value.is_none())
}

fn may_all_stand(entities: &[EntityDecl], character: bool, colons: bool) -> bool
    ensures { result ≡ form.may_all_stand character colons entities.now }
{
    entities
        .iter()
        .all(|entity| may_stand(entity, character, colons))
}

fn is_declaration(
    ty: &TypeSpec,
    attributes: &[Attribute],
    colons: bool,
    entities: &[EntityDecl],
) -> bool
    ensures { result ≡ form.is_declaration ty.now attributes.now colons entities.now }
{
    (colons || attributes.is_empty()) && may_all_stand(entities, is_character(ty), colons)
}

/// The attributes, and the entities with whether `::` stands before them.
fn read_declared(
    alloc: Global,
    cursor: &mut Cursor<'_>,
) -> Result<(Items<Attribute>, (bool, Items<EntityDecl>)), Misfit>
    ensures { Gives (spec.declared cursor.old) result cursor.new }
{
    let attributes = read_attributes(alloc, cursor)?;
    let entities = read_entities(alloc, cursor)?;
    Ok((attributes, entities))
}

/// Reads what follows the type in a type declaration (5.1).
#[tactic(auto, unfolding(crate::specs::steps::Declaring::declare_from))]
pub fn declare_from(alloc: Global, cursor: &mut Cursor<'_>, ty: TypeSpec) -> Result<Form, Misfit>
    ensures { Gives (spec.declare_from ty cursor.old) result cursor.new }
{
    let (attributes, (colons, entities)) = read_declared(alloc, cursor)?;
    if !is_declaration(&ty, attributes.as_slice(), colons, entities.as_slice()) {
        return Err(Misfit::NoFit);
    }
    Ok(Form::Declare {
        ty,
        attributes,
        colons,
        entities,
    })
}
