//! Names in COMMON, EQUIVALENCE and DATA (Fortran 90, 5.2.9, 5.5).

ghost use Rattle.std.specs.Prelude.{◌≡◌, ◌++◌, ◌∷◌, [], IfOk, OnOk};
ghost use Rattle.ftn_tree.specs.PartMentions as spec;
ghost use Rattle.ftn_tree.specs.declared.mention.Role.TheVariants as role;

use crate::expr::Expr;
use crate::mention::{Mention, Role};
use crate::mentions::extents::push_if_bounds;
use crate::mentions::naming::{push_if_args, push_mention, push_name};
use crate::parts::{
    BlockName, BoundPair, CommonGroup, CommonMember, DataConstant, DataGroup, DataValue,
    Designator, Repeat,
};
use ftn_base::NoMemory;
use sqlite_items::Items;
use std::alloc::Global;

fn push_block(alloc: Global, block: BlockName, found: &mut Vec<Mention>) -> Result<(), NoMemory>
    ensures { OnOk result (found.new.items ≡ found.old.items ++ spec.in_block block) }
{
    match block {
        BlockName::Unwritten | BlockName::Blank { .. } => Ok(()),
        BlockName::Named { name, .. } => push_name(alloc, name, Role::Slash, found),
    }
}

fn member_roles(alloc: Global, bounds: &Option<Items<BoundPair>>) -> Result<Items<Role>, NoMemory>
    ensures { IfOk result (λ also. also ≡ spec.where_written role.Bounded bounds.now) }
{
    let mut also = Items::new(alloc);
    if bounds.is_some() {
        also.push(Role::Bounded)?;
    }
    Ok(also)
}

fn member_role(block: BlockName) -> Role
    ensures { result ≡ spec.member_role block }
{
    match block {
        BlockName::Unwritten | BlockName::Blank { .. } => Role::Member,
        BlockName::Named { .. } => Role::NamedMember,
    }
}

fn push_member(
    alloc: Global,
    role: Role,
    member: &CommonMember,
    found: &mut Vec<Mention>,
) -> Result<(), NoMemory>
    ensures { OnOk result (found.new.items ≡ found.old.items ++ spec.in_member role member.now) }
{
    let also = member_roles(alloc, &member.bounds)?;
    push_mention(member.name, role, also, found)?;
    push_if_bounds(alloc, &member.bounds, found)
}

fn push_members(
    alloc: Global,
    role: Role,
    members: &[CommonMember],
    found: &mut Vec<Mention>,
) -> Result<(), NoMemory>
    ensures { OnOk result (found.new.items ≡ found.old.items ++ spec.in_members role members.now) }
{
    for member in members {
        push_member(alloc, role, member, found)?;
    }
    Ok(())
}

fn push_group(alloc: Global, group: &CommonGroup, found: &mut Vec<Mention>) -> Result<(), NoMemory>
    ensures { OnOk result (found.new.items ≡ found.old.items ++ spec.in_group group.now) }
{
    push_block(alloc, group.block, found)?;
    push_members(
        alloc,
        member_role(group.block),
        group.members.as_slice(),
        found,
    )
}

pub(crate) fn push_groups(
    alloc: Global,
    groups: &[CommonGroup],
    found: &mut Vec<Mention>,
) -> Result<(), NoMemory>
    ensures { OnOk result (found.new.items ≡ found.old.items ++ spec.in_groups groups.now) }
{
    for group in groups {
        push_group(alloc, group, found)?;
    }
    Ok(())
}

fn subscript_roles(alloc: Global, subscripts: &Option<Items<Expr>>) -> Result<Items<Role>, NoMemory>
    ensures { IfOk result (λ also. also ≡ spec.where_written role.Parenthesised subscripts.now) }
{
    let mut also = Items::new(alloc);
    if subscripts.is_some() {
        also.push(Role::Parenthesised)?;
    }
    Ok(also)
}

fn push_designator(
    alloc: Global,
    designator: &Designator,
    role: Role,
    found: &mut Vec<Mention>,
) -> Result<(), NoMemory>
    ensures { OnOk result (found.new.items ≡ found.old.items ++ spec.in_designator role designator.now) }
{
    let also = subscript_roles(alloc, &designator.subscripts)?;
    push_mention(designator.name, role, also, found)?;
    push_if_args(alloc, &designator.subscripts, found)
}

pub(crate) fn push_designators(
    alloc: Global,
    designators: &[Designator],
    role: Role,
    found: &mut Vec<Mention>,
) -> Result<(), NoMemory>
    ensures { OnOk result (found.new.items ≡ found.old.items ++ spec.in_designators role designators.now) }
{
    for designator in designators {
        push_designator(alloc, designator, role, found)?;
    }
    Ok(())
}

pub(crate) fn push_sets(
    alloc: Global,
    sets: &[Items<Designator>],
    found: &mut Vec<Mention>,
) -> Result<(), NoMemory>
    ensures { OnOk result (found.new.items ≡ found.old.items ++ spec.in_sets sets.now) }
{
    for set in sets {
        push_designators(alloc, set.as_slice(), Role::Tied, found)?;
    }
    Ok(())
}

fn push_repeat(
    alloc: Global,
    repeat: &Option<Repeat>,
    found: &mut Vec<Mention>,
) -> Result<(), NoMemory>
    ensures { OnOk result (found.new.items ≡ found.old.items ++ spec.in_repeat repeat.now) }
{
    match repeat {
        None | Some(Repeat::Whole { .. }) => Ok(()),
        Some(Repeat::Named(token)) => push_name(alloc, *token, Role::Plain, found),
    }
}

fn push_data_constant(
    alloc: Global,
    constant: &DataConstant,
    found: &mut Vec<Mention>,
) -> Result<(), NoMemory>
    ensures { OnOk result (found.new.items ≡ found.old.items ++ spec.in_data_constant constant.now) }
{
    match constant {
        DataConstant::Named(token) => push_name(alloc, *token, Role::Plain, found),
        _ => Ok(()),
    }
}

fn push_data_value(
    alloc: Global,
    value: &DataValue,
    found: &mut Vec<Mention>,
) -> Result<(), NoMemory>
    ensures { OnOk result (found.new.items ≡ found.old.items ++ spec.in_data_value value.now) }
{
    push_repeat(alloc, &value.repeat, found)?;
    push_data_constant(alloc, &value.constant, found)
}

pub(crate) fn push_data_values(
    alloc: Global,
    values: &[DataValue],
    found: &mut Vec<Mention>,
) -> Result<(), NoMemory>
    ensures { OnOk result (found.new.items ≡ found.old.items ++ spec.in_data_values values.now) }
{
    for value in values {
        push_data_value(alloc, value, found)?;
    }
    Ok(())
}

fn push_data_group(
    alloc: Global,
    group: &DataGroup,
    found: &mut Vec<Mention>,
) -> Result<(), NoMemory>
    ensures { OnOk result (found.new.items ≡ found.old.items ++ spec.in_data_group group.now) }
{
    push_designators(alloc, group.objects.as_slice(), Role::Given, found)?;
    push_data_values(alloc, group.values.as_slice(), found)
}

pub(crate) fn push_data_groups(
    alloc: Global,
    groups: &[DataGroup],
    found: &mut Vec<Mention>,
) -> Result<(), NoMemory>
    ensures { OnOk result (found.new.items ≡ found.old.items ++ spec.in_data_groups groups.now) }
{
    for group in groups {
        push_data_group(alloc, group, found)?;
    }
    Ok(())
}
