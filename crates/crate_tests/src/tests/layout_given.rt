//! Whether a row asks for what may be laid out.

ghost use Rattle.std.specs.Prelude.{◌≡◌, ◌≢◌, ◌≤◌, ◌<◌, ◌++◌, true, length, slice_index, All, AllPairs, IfOk, OnOk, option_map, slice_get};
ghost use Rattle.ftn_base.specs.StorageMembers.{all_members, members_of, sizes_of};
ghost use Rattle.ftn_base.specs.StorageGiven.{AreGiven, IsObjectOf, IsTieOf};

use ftn_base::{BlockList, Member, NoMemory, Object, Tie};
use std::alloc::Global;

/// Far more than a row has.
const MANY: usize = 1000;

fn add_list(members: &mut Vec<Member>, list: &BlockList) -> Result<(), NoMemory>
    ensures { OnOk result (members.new.items ≡ members.old.items ++ members_of list.now) }
{
    for object in &list.members {
        members.push(Member {
            block: list.block,
            scope: list.scope,
            object: *object,
        })?;
    }
    Ok(())
}

fn members_of_all(alloc: Global, blocks: &[BlockList]) -> Result<Vec<Member>, NoMemory>
    ensures { IfOk result (λ members. members.items ≡ all_members blocks.now) }
{
    let mut members = Vec::new(alloc);
    for list in blocks {
        add_list(&mut members, list)?;
    }
    Ok(members)
}

fn are_filled(objects: &[Object]) -> bool
    ensures { result ≡ true → All (λ object. 1 ≤ object.units) objects.now }
{
    for object in objects {
        if object.units == 0 {
            return false;
        }
    }
    true
}

fn is_new(earlier: &[Member], member: Member) -> bool
    ensures { result ≡ true → All (λ one. one.object ≢ member.object) earlier.now }
{
    for one in earlier {
        if one.object == member.object {
            return false;
        }
    }
    true
}

fn are_once(members: &[Member]) -> bool
    ensures { result ≡ true → AllPairs (λ earlier later. earlier.object ≢ later.object) members.now }
{
    for number in 0..members.len() {
        if !is_new(&members[..number], members[number]) {
            return false;
        }
    }
    true
}

fn is_so(one: &BlockList, list: &BlockList) -> bool
    ensures { result ≡ true → one.now.block ≡ list.now.block → one.now.named ≡ list.now.named }
{
    one.block != list.block || one.named == list.named
}

fn is_named_so(earlier: &[BlockList], list: &BlockList) -> bool
    ensures { result ≡ true → All (λ one. one.block ≡ list.now.block → one.named ≡ list.now.named) earlier.now }
{
    for one in earlier {
        if !is_so(one, list) {
            return false;
        }
    }
    true
}

fn are_named(blocks: &[BlockList]) -> bool
    ensures { result ≡ true → AllPairs (λ earlier later. earlier.block ≡ later.block → earlier.named ≡ later.named) blocks.now }
{
    for number in 0..blocks.len() {
        if !is_named_so(&blocks[..number], &blocks[number]) {
            return false;
        }
    }
    true
}

fn scope_of(objects: &[Object], number: u32) -> Option<u32>
    ensures { result ≡ option_map (λ object. object.scope) (slice_get objects.now number) }
{
    match objects.get(number as usize) {
        Some(object) => Some(object.scope),
        None => None,
    }
}

fn are_at_home(objects: &[Object], members: &[Member]) -> bool
    ensures { result ≡ true → All (λ member. IsObjectOf objects.now member.scope member.object) members.now }
{
    for member in members {
        if scope_of(objects, member.object) != Some(member.scope) {
            return false;
        }
    }
    true
}

fn has_unit(objects: &[Object], number: u32, unit: u32) -> bool
    ensures { result ≡ true → (number < length objects.now) × (unit < slice_index (sizes_of objects.now) number) }
{
    match objects.get(number as usize) {
        Some(object) => unit < object.units,
        None => false,
    }
}

fn is_tie_of(objects: &[Object], tie: Tie) -> bool
    ensures { result ≡ true → IsTieOf objects.now tie }
{
    has_unit(objects, tie.a, tie.at_a)
        && has_unit(objects, tie.b, tie.at_b)
        && scope_of(objects, tie.a) == scope_of(objects, tie.b)
}

fn are_tied(objects: &[Object], ties: &[Tie]) -> bool
    ensures { result ≡ true → All (IsTieOf objects.now) ties.now }
{
    for tie in ties {
        if !is_tie_of(objects, *tie) {
            return false;
        }
    }
    true
}

/// Whether these objects, lists and ties may be laid out.
pub fn are_given(
    alloc: Global,
    objects: &[Object],
    blocks: &[BlockList],
    ties: &[Tie],
) -> Result<bool, NoMemory>
    ensures { IfOk result (λ given. given ≡ true → AreGiven objects.now blocks.now ties.now) }
{
    let members = members_of_all(alloc, blocks)?;
    if blocks.len() >= MANY || members.len() >= MANY || ties.len() >= MANY {
        return Ok(false);
    }
    if !are_filled(objects) || !are_tied(objects, ties) {
        return Ok(false);
    }
    if !are_once(&members) || !are_at_home(objects, &members) {
        return Ok(false);
    }
    Ok(are_named(blocks))
}
