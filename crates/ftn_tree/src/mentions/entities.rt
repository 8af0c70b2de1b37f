//! Names in declarations (Fortran 90, 5.1, 5.2).

ghost use Rattle.std.specs.Prelude.{◌≡◌, ◌++◌, ◌∷◌, [], IfOk, OnOk};
ghost use Rattle.ftn_tree.specs.Expressions as exprs;
ghost use Rattle.ftn_tree.specs.PartMentions as spec;

use crate::mention::{Mention, Role};
use crate::mentions::extents::{push_bounds, push_if_bounds, push_if_star};
use crate::mentions::naming::{push_if_expr, push_mention, push_name};
use crate::parts::{ArrayDecl, Attribute, AttributeKind, EntityDecl, NamedConstant, SaveItem};
use ftn_base::NoMemory;
use sqlite_items::Items;
use std::alloc::Global;

pub(crate) fn push_attribute(
    alloc: Global,
    attribute: &Attribute,
    found: &mut Vec<Mention>,
) -> Result<(), NoMemory>
    ensures { OnOk result (found.new.items ≡ found.old.items ++ spec.in_attribute attribute.now) }
{
    match &attribute.kind {
        AttributeKind::Dimension(pairs) => push_bounds(alloc, pairs.as_slice(), found),
        _ => Ok(()),
    }
}

pub(crate) fn push_attributes(
    alloc: Global,
    attributes: &[Attribute],
    found: &mut Vec<Mention>,
) -> Result<(), NoMemory>
    ensures { OnOk result (found.new.items ≡ found.old.items ++ spec.in_attributes attributes.now) }
{
    for attribute in attributes {
        push_attribute(alloc, attribute, found)?;
    }
    Ok(())
}

fn roles_of(alloc: Global, said: &[Role], entity: &EntityDecl) -> Result<Items<Role>, NoMemory>
    ensures { IfOk result (λ all. all ≡ said.now ++ spec.own_roles entity.now) }
{
    let mut all = Items::from_slice(alloc, said)?;
    if entity.bounds.is_some() {
        all.push(Role::Bounded)?;
    }
    if entity.value.is_some() {
        all.push(Role::Valued)?;
    }
    Ok(all)
}

fn push_after_name(
    alloc: Global,
    entity: &EntityDecl,
    found: &mut Vec<Mention>,
) -> Result<(), NoMemory>
    ensures { OnOk result (found.new.items ≡ found.old.items ++ (spec.in_own_bounds entity.now.bounds ++ (spec.in_own_length entity.now.length ++ exprs.mentions_in_bound entity.now.value))) }
{
    push_if_bounds(alloc, &entity.bounds, found)?;
    push_if_star(alloc, &entity.length, found)?;
    push_if_expr(alloc, &entity.value, found)
}

pub(crate) fn push_entity(
    alloc: Global,
    said: &[Role],
    entity: &EntityDecl,
    found: &mut Vec<Mention>,
) -> Result<(), NoMemory>
    ensures { OnOk result (found.new.items ≡ found.old.items ++ spec.in_entity said.now entity.now) }
{
    let all = roles_of(alloc, said, entity)?;
    push_mention(entity.name, Role::Typed, all, found)?;
    push_after_name(alloc, entity, found)
}

pub(crate) fn push_entities(
    alloc: Global,
    said: &[Role],
    entities: &[EntityDecl],
    found: &mut Vec<Mention>,
) -> Result<(), NoMemory>
    ensures { OnOk result (found.new.items ≡ found.old.items ++ spec.in_entities said.now entities.now) }
{
    for entity in entities {
        push_entity(alloc, said, entity, found)?;
    }
    Ok(())
}

pub(crate) fn push_array(
    alloc: Global,
    array: &ArrayDecl,
    found: &mut Vec<Mention>,
) -> Result<(), NoMemory>
    ensures { OnOk result (found.new.items ≡ found.old.items ++ spec.in_array array.now) }
{
    push_name(alloc, array.name, Role::Dimensioned, found)?;
    push_bounds(alloc, array.bounds.as_slice(), found)
}

pub(crate) fn push_arrays(
    alloc: Global,
    arrays: &[ArrayDecl],
    found: &mut Vec<Mention>,
) -> Result<(), NoMemory>
    ensures { OnOk result (found.new.items ≡ found.old.items ++ spec.in_arrays arrays.now) }
{
    for array in arrays {
        push_array(alloc, array, found)?;
    }
    Ok(())
}

fn one_role(alloc: Global, role: Role) -> Result<Items<Role>, NoMemory>
    ensures { IfOk result (λ one. one ≡ role ∷ []) }
{
    let mut one = Items::new(alloc);
    one.push(role)?;
    Ok(one)
}

pub(crate) fn push_constant(
    alloc: Global,
    constant: &NamedConstant,
    found: &mut Vec<Mention>,
) -> Result<(), NoMemory>
    ensures { OnOk result (found.new.items ≡ found.old.items ++ spec.in_constant constant.now) }
{
    let also = one_role(alloc, Role::Valued)?;
    push_mention(constant.name, Role::Parameter, also, found)?;
    constant.value.push_mentions(alloc, found)
}

pub(crate) fn push_constants(
    alloc: Global,
    constants: &[NamedConstant],
    found: &mut Vec<Mention>,
) -> Result<(), NoMemory>
    ensures { OnOk result (found.new.items ≡ found.old.items ++ spec.in_constants constants.now) }
{
    for constant in constants {
        push_constant(alloc, constant, found)?;
    }
    Ok(())
}

fn save_mention(alloc: Global, item: SaveItem) -> Result<Mention, NoMemory>
    ensures { IfOk result (λ made. made ≡ spec.save_mention item) }
{
    match item {
        SaveItem::Variable(token) => Ok(Mention::new(alloc, token, Role::Saved)),
        SaveItem::Block(token) => Ok(Mention {
            token,
            role: Role::Slash,
            also: one_role(alloc, Role::Saved)?,
        }),
    }
}

pub(crate) fn push_saved(
    alloc: Global,
    items: &[SaveItem],
    found: &mut Vec<Mention>,
) -> Result<(), NoMemory>
    ensures { OnOk result (found.new.items ≡ found.old.items ++ spec.in_saved items.now) }
{
    for item in items {
        found.push(save_mention(alloc, *item)?)?;
    }
    Ok(())
}
