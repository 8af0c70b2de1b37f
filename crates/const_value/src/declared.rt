//! What a statement declares of names: types, lengths, bounds and values.

ghost use Rattle.std.specs.Prelude.{◌≡◌, ◌++◌, map, Some, None, OnOk};
ghost use Rattle.std.specs.List.{flat_map};
ghost use Rattle.std.specs.Option.{option_copied, option_or};
ghost use Rattle.ftn_tree.specs.Declarations as spec;
ghost use Rattle.ftn_tree.specs.declared.form.Form.{out-Form};

use ftn_base::NoMemory;
use ftn_tree::{
    ArrayDecl, Attribute, AttributeKind, BoundPair, CharLength, CommonGroup, CommonMember,
    EntityDecl, Expr, Form, NamedConstant, TypeSpec,
};
use sqlite_items::Items;
use std::marker::Model;

/// What a statement declares of a name, by the token of the name.
#[derive(Drop)]
pub(crate) struct Declared<'a> {
    pub name: u32,
    pub ty: Option<&'a TypeSpec>,
    pub length: Option<&'a CharLength>,
    pub bounds: Option<&'a [BoundPair]>,
    pub value: Option<&'a Expr>,
}

impl<'a> Model for Declared<'a> {
    ghost use Rattle.std.specs.Coded.{codes};
    ghost use Rattle.std.specs.Option.{option_copied};
    ghost use Rattle.ftn_tree.specs.Declarations.{Declared};
    ghost use Rattle.ftn_tree.specs.contracts.expr.Expr as e;

    ghost Value = { Declared };

    ghost coded = { Prim.hlevel (codes, e.the_row.coded) };

    ghost view = { λ d. record { name = d.name; ty = option_copied d.ty; length = option_copied d.length; bounds = option_copied d.bounds; value = option_copied d.value } };
}

/// The bounds that the attribute DIMENSION gives all entities of a statement that have none of their own (Fortran 90, 5.1.2.4).
fn shared_bounds(attributes: &[Attribute]) -> Option<&[BoundPair]>
    ensures { option_copied result ≡ spec.shared_bounds attributes.now }
{
    for attribute in attributes {
        if let AttributeKind::Dimension(pairs) = &attribute.kind {
            return Some(pairs.as_slice());
        }
    }
    None
}

fn bounds_or<'a>(
    own: &'a Option<Items<BoundPair>>,
    shared: Option<&'a [BoundPair]>,
) -> Option<&'a [BoundPair]>
    ensures { option_copied result ≡ option_or own.now (option_copied shared.entry) }
{
    match own {
        Some(pairs) => Some(pairs.as_slice()),
        None => shared,
    }
}

fn of_entity<'a>(
    ty: &'a TypeSpec,
    shared: Option<&'a [BoundPair]>,
    entity: &'a EntityDecl,
) -> Declared<'a>
    ensures { result ≡ spec.of_entity ty.now (option_copied shared.entry) entity.now }
{
    Declared {
        name: entity.name,
        ty: Some(ty),
        length: entity.length.as_ref(),
        bounds: bounds_or(&entity.bounds, shared),
        value: entity.value.as_ref(),
    }
}

fn of_array(array: &ArrayDecl) -> Declared<'_>
    ensures { result ≡ spec.of_array array.now }
{
    Declared {
        name: array.name,
        ty: None,
        length: None,
        bounds: Some(array.bounds.as_slice()),
        value: None,
    }
}

fn of_constant(constant: &NamedConstant) -> Declared<'_>
    ensures { result ≡ spec.of_constant constant.now }
{
    Declared {
        name: constant.name,
        ty: None,
        length: None,
        bounds: None,
        value: Some(&constant.value),
    }
}

fn of_member(member: &CommonMember) -> Declared<'_>
    ensures { result ≡ spec.of_member member.now }
{
    Declared {
        name: member.name,
        ty: None,
        length: None,
        bounds: bounds_or(&member.bounds, None),
        value: None,
    }
}

/// The type before FUNCTION is that of the result (12.5.2.2).
fn of_prefix(ty: &TypeSpec, name: u32) -> Declared<'_>
    ensures { result ≡ spec.of_prefix ty.now name }
{
    Declared {
        name,
        ty: Some(ty),
        length: None,
        bounds: None,
        value: None,
    }
}

fn push_entities<'a>(
    ty: &'a TypeSpec,
    attributes: &'a [Attribute],
    entities: &'a [EntityDecl],
    found: &mut Vec<Declared<'a>>,
) -> Result<(), NoMemory>
    ensures { OnOk result (found.new.items ≡ found.old.items ++ map (spec.of_entity ty.now (spec.shared_bounds attributes.now)) entities.now) }
{
    let shared = shared_bounds(attributes);
    for entity in entities {
        found.push(of_entity(ty, shared, entity))?;
    }
    Ok(())
}

fn push_arrays<'a>(arrays: &'a [ArrayDecl], found: &mut Vec<Declared<'a>>) -> Result<(), NoMemory>
    ensures { OnOk result (found.new.items ≡ found.old.items ++ map spec.of_array arrays.now) }
{
    for array in arrays {
        found.push(of_array(array))?;
    }
    Ok(())
}

fn push_constants<'a>(
    constants: &'a [NamedConstant],
    found: &mut Vec<Declared<'a>>,
) -> Result<(), NoMemory>
    ensures { OnOk result (found.new.items ≡ found.old.items ++ map spec.of_constant constants.now) }
{
    for constant in constants {
        found.push(of_constant(constant))?;
    }
    Ok(())
}

fn push_group<'a>(
    members: &'a [CommonMember],
    found: &mut Vec<Declared<'a>>,
) -> Result<(), NoMemory>
    ensures { OnOk result (found.new.items ≡ found.old.items ++ map spec.of_member members.now) }
{
    for member in members {
        found.push(of_member(member))?;
    }
    Ok(())
}

fn push_groups<'a>(groups: &'a [CommonGroup], found: &mut Vec<Declared<'a>>) -> Result<(), NoMemory>
    ensures { OnOk result (found.new.items ≡ found.old.items ++ flat_map spec.of_group groups.now) }
{
    for group in groups {
        push_group(group.members.as_slice(), found)?;
    }
    Ok(())
}

/// Adds what a statement declares of names.
pub(crate) fn push_declared<'a>(
    form: &'a Form,
    found: &mut Vec<Declared<'a>>,
) -> Result<(), NoMemory>
    ensures { OnOk result (found.new.items ≡ found.old.items ++ spec.declared_at (Some (out-Form form.now))) }
{
    match form {
        Form::Declare {
            ty,
            attributes,
            entities,
            ..
        } => push_entities(ty, attributes.as_slice(), entities.as_slice(), found),
        Form::Function {
            ty: Some(ty),
            name,
            result,
            ..
        } => {
            found.push(of_prefix(ty, result.unwrap_or(*name)))?;
            Ok(())
        }
        Form::Dimension { arrays, .. } => push_arrays(arrays.as_slice(), found),
        Form::Parameter { constants } => push_constants(constants.as_slice(), found),
        Form::Common { groups } => push_groups(groups.as_slice(), found),
        _ => Ok(()),
    }
}
