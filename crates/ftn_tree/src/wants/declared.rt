//! Expressions in declarations (Fortran 90, 5.1, 5.2, 5.5).

ghost use Rattle.std.specs.Prelude.{◌≡◌, ◌++◌, OnOk, map};
ghost use Rattle.std.specs.List.{flat_map};
ghost use Rattle.ftn_tree.specs.Wants as spec;

use crate::parts::{
    ArrayDecl, Attribute, AttributeKind, CommonGroup, CommonMember, DataGroup, Designator,
    EntityDecl, NamedConstant,
};
use crate::want::{Placed, Want};
use crate::wants::places::{
    place, place_bounds, place_if, place_if_each, place_own_bounds, place_own_length,
};
use ftn_base::NoMemory;
use sqlite_items::Items;

fn place_attribute<'a>(
    attribute: &'a Attribute,
    found: &mut Vec<Placed<'a>>,
) -> Result<(), NoMemory>
    ensures { OnOk result (found.new.items ≡ found.old.items ++ spec.of_attribute attribute.now) }
{
    match &attribute.kind {
        AttributeKind::Dimension(pairs) => place_bounds(pairs.as_slice(), found),
        _ => Ok(()),
    }
}

pub(crate) fn place_attributes<'a>(
    attributes: &'a [Attribute],
    found: &mut Vec<Placed<'a>>,
) -> Result<(), NoMemory>
    ensures { OnOk result (found.new.items ≡ found.old.items ++ flat_map spec.of_attribute attributes.now) }
{
    for attribute in attributes {
        place_attribute(attribute, found)?;
    }
    Ok(())
}

fn place_entity<'a>(entity: &'a EntityDecl, found: &mut Vec<Placed<'a>>) -> Result<(), NoMemory>
    ensures { OnOk result (found.new.items ≡ found.old.items ++ spec.of_entity entity.now) }
{
    place_own_bounds(&entity.bounds, found)?;
    place_own_length(&entity.length, found)?;
    place_if(Want::Value(entity.name), &entity.value, found)
}

pub(crate) fn place_entities<'a>(
    entities: &'a [EntityDecl],
    found: &mut Vec<Placed<'a>>,
) -> Result<(), NoMemory>
    ensures { OnOk result (found.new.items ≡ found.old.items ++ flat_map spec.of_entity entities.now) }
{
    for entity in entities {
        place_entity(entity, found)?;
    }
    Ok(())
}

pub(crate) fn place_arrays<'a>(
    arrays: &'a [ArrayDecl],
    found: &mut Vec<Placed<'a>>,
) -> Result<(), NoMemory>
    ensures { OnOk result (found.new.items ≡ found.old.items ++ flat_map (λ a. spec.of_bounds a.bounds) arrays.now) }
{
    for array in arrays {
        place_bounds(array.bounds.as_slice(), found)?;
    }
    Ok(())
}

pub(crate) fn place_constants<'a>(
    constants: &'a [NamedConstant],
    found: &mut Vec<Placed<'a>>,
) -> Result<(), NoMemory>
    ensures { OnOk result (found.new.items ≡ found.old.items ++ map spec.of_constant constants.now) }
{
    for constant in constants {
        place(Want::Value(constant.name), &constant.value, found)?;
    }
    Ok(())
}

fn place_members<'a>(
    members: &'a [CommonMember],
    found: &mut Vec<Placed<'a>>,
) -> Result<(), NoMemory>
    ensures { OnOk result (found.new.items ≡ found.old.items ++ flat_map spec.of_member members.now) }
{
    for member in members {
        place_own_bounds(&member.bounds, found)?;
    }
    Ok(())
}

pub(crate) fn place_groups<'a>(
    groups: &'a [CommonGroup],
    found: &mut Vec<Placed<'a>>,
) -> Result<(), NoMemory>
    ensures { OnOk result (found.new.items ≡ found.old.items ++ flat_map spec.of_group groups.now) }
{
    for group in groups {
        place_members(group.members.as_slice(), found)?;
    }
    Ok(())
}

fn place_designators<'a>(
    designators: &'a [Designator],
    found: &mut Vec<Placed<'a>>,
) -> Result<(), NoMemory>
    ensures { OnOk result (found.new.items ≡ found.old.items ++ spec.of_designators designators.now) }
{
    for designator in designators {
        place_if_each(
            Want::Subscript(designator.name),
            &designator.subscripts,
            found,
        )?;
    }
    Ok(())
}

pub(crate) fn place_sets<'a>(
    sets: &'a [Items<Designator>],
    found: &mut Vec<Placed<'a>>,
) -> Result<(), NoMemory>
    ensures { OnOk result (found.new.items ≡ found.old.items ++ flat_map spec.of_designators sets.now) }
{
    for set in sets {
        place_designators(set.as_slice(), found)?;
    }
    Ok(())
}

pub(crate) fn place_data_groups<'a>(
    groups: &'a [DataGroup],
    found: &mut Vec<Placed<'a>>,
) -> Result<(), NoMemory>
    ensures { OnOk result (found.new.items ≡ found.old.items ++ flat_map spec.of_data_group groups.now) }
{
    for group in groups {
        place_designators(group.objects.as_slice(), found)?;
    }
    Ok(())
}
