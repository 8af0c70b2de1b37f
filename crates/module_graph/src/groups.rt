//! Numbers of modules, by which it is known which modules lie on cycles.
//!
//! Modules that lead to one another have one number, and no others have it. The numbers are given in Kosaraju's
//! way: modules are listed in the order in which a walk backwards along uses leaves them. Then, from the last of
//! the list to the first, a module without a number gets a new one, and so do all without one to which its uses
//! lead.
//!
//! It is proved that no number falls along a use, whatever the order of that list. So all modules of a cycle have
//! one number. That no others have it is not proved: it saves time, and nothing else rests on it.

ghost use Rattle.std.specs.Prelude.{◌≡◌, ◌+◌, ◌<◌, ◌^◌, ◌∷◌, [], length, All, IfOk, OnOk};
ghost use Rattle.ftn_base.specs.ModuleUses.{AreKnown};
ghost use Rattle.module_graph.specs.Uses.{AreBelow, used_lists};
ghost use Rattle.module_graph.specs.steps.Groups.{IsGiving, NeverFalls, without_number};

use crate::entries::{Entry, empty_lists, list_of};
use crate::walk::walk_on;
use ftn_base::NoMemory;
use std::alloc::Global;

// puts a module on the list of each module that it uses
fn add_user(list: &[u32], user: u32, users: &mut [Vec<u32>]) -> Result<(), NoMemory>
    requires known { All (λ used. used < length users.old) list.now }
    requires user { user < length users.old }
    requires below { AreBelow (length users.old) users.old }
    ensures { OnOk result (AreBelow (length users.old) users.new) }
{
    for used in list {
        users[*used as usize].push(user)?;
    }
    Ok(())
}

// for each module, those that use it
fn users_of(alloc: Global, uses: &[Vec<u32>]) -> Result<Vec<Vec<u32>>, NoMemory>
    requires few { length uses.now < 2 ^ 32 }
    requires known { AreKnown (used_lists uses.now) }
    ensures sized { IfOk result (λ lists. length lists.items ≡ length uses.now) }
    ensures known { IfOk result (λ lists. AreKnown (used_lists lists.items)) }
{
    let mut users = empty_lists(alloc, uses.len())?;
    for user in 0..uses.len() as u32 {
        add_user(list_of(uses, user), user, &mut users)?;
    }
    Ok(users)
}

// walks from a module, and adds the modules to the list in the order in which they are left
fn walk_from(
    alloc: Global,
    uses: &[Vec<u32>],
    from: u32,
    marks: &mut [bool],
    left: &mut Vec<u32>,
) -> Result<(), NoMemory>
    requires known { AreKnown (used_lists uses.now) }
    requires sized { length marks.old ≡ length uses.now }
    requires from { from < length uses.now }
    requires left { All (λ number. number < length uses.now) left.old.items }
    ensures { OnOk result (All (λ number. number < length uses.now) left.new.items) }
{
    marks[from as usize] = true;
    let mut path = vec![in alloc; Entry { user: from, at: 0 }]?;
    'steps: while !path.is_empty() {
        if let Some(number) = walk_on(uses, marks, &mut path)? {
            left.push(number)?;
        }
    }
    Ok(())
}

// the modules in the order in which walks along these lists leave them
fn walk_all(alloc: Global, uses: &[Vec<u32>]) -> Result<Vec<u32>, NoMemory>
    requires few { length uses.now < 2 ^ 32 }
    requires known { AreKnown (used_lists uses.now) }
    ensures { IfOk result (λ left. All (λ number. number < length uses.now) left.items) }
{
    let mut marks = vec![in alloc; false; uses.len()]?;
    let mut left = Vec::new(alloc);
    for from in 0..uses.len() as u32 {
        if !marks[from as usize] {
            walk_from(alloc, uses, from, &mut marks, &mut left)?;
        }
    }
    Ok(left)
}

// gives the number to each module that this one uses and that has none, and stacks it
fn give_each(
    uses: &[Vec<u32>],
    user: u32,
    number: usize,
    numbers: &mut [usize],
    stack: &mut Vec<u32>,
) -> Result<(), NoMemory>
    requires known { AreKnown (used_lists uses.now) }
    requires giving { IsGiving (used_lists uses.now) number numbers.old (user ∷ stack.old.items) }
    ensures giving { OnOk result (IsGiving (used_lists uses.now) number numbers.new stack.new.items) }
    ensures shift { OnOk result (without_number numbers.new + length stack.new.items ≡ without_number numbers.old + length stack.old.items) }
{
    for used in list_of(uses, user) {
        if numbers[*used as usize] == 0 {
            numbers[*used as usize] = number;
            stack.push(*used)?;
        }
    }
    Ok(())
}

// gives the number to this module, if it has none, and to each without one to which its uses lead
fn give_from(
    alloc: Global,
    uses: &[Vec<u32>],
    from: u32,
    number: usize,
    numbers: &mut [usize],
) -> Result<(), NoMemory>
    requires known { AreKnown (used_lists uses.now) }
    requires from { from < length uses.now }
    requires giving { IsGiving (used_lists uses.now) number numbers.old [] }
    ensures { OnOk result (IsGiving (used_lists uses.now) number numbers.new []) }
{
    if numbers[from as usize] != 0 {
        return Ok(());
    }
    numbers[from as usize] = number;
    let mut stack = vec![in alloc; from]?;
    'turns: while let Some(user) = stack.pop() {
        give_each(uses, user, number, numbers, &mut stack)?;
    }
    Ok(())
}

/// A number for each module, which never falls along a use.
pub(crate) fn group_numbers(alloc: Global, uses: &[Vec<u32>]) -> Result<Vec<usize>, NoMemory>
    requires few { length uses.now < 2 ^ 32 }
    requires known { AreKnown (used_lists uses.now) }
    ensures sized { IfOk result (λ numbers. length numbers.items ≡ length uses.now) }
    ensures never_falls { IfOk result (λ numbers. NeverFalls (used_lists uses.now) numbers.items) }
{
    let mut numbers = vec![in alloc; 0_usize; uses.len()]?;
    let mut left = walk_all(alloc, &users_of(alloc, uses)?)?;
    'roots: while let Some(from) = left.pop() {
        give_from(alloc, uses, from, left.len() + 1, &mut numbers)?;
    }
    Ok(numbers)
}
