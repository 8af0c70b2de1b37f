//! The order of modules, and from which modules uses lead to one (Fortran 90, 11.3.2).

ghost use Rattle.std.specs.Prelude.{◌≡◌, ◌+◌, ◌<◌, ◌^◌, ◌++◌, ◌∷◌, ℕ, [], length, slice_get, slice_set, Some, All, IfOk, OnOk};
ghost use Rattle.ftn_base.specs.ModuleUses.{AreKnown, used_by};
ghost use Rattle.module_graph.specs.Uses.{used_lists};
ghost use Rattle.module_graph.specs.steps.Marks.{unmarked};
ghost use Rattle.ftn_tree.specs.NameFaults.{leads_to};
ghost use Rattle.scope_bind.specs.steps.Cycles.{AreAdded, AreMarked, AreUsers, IsOrdered};

use ftn_base::NoMemory;
use module_graph::{GraphFault, order};
use std::alloc::Global;

#[tactic(auto, using(module_graph::proofs::Listing::lists_length, module_graph::proofs::Listing::list_at))]
fn list_of(lists: &[Vec<u32>], number: u32) -> &[u32]
    requires { number < length lists.now }
    ensures { result.now ≡ used_by (used_lists lists.now) number }
{
    &lists[number as usize]
}

fn empty_lists(alloc: Global, count: usize) -> Result<Vec<Vec<u32>>, NoMemory>
    ensures size { IfOk result (λ lists. length lists.items ≡ count) }
    ensures none { IfOk result (λ lists. All (λ list. list.items ≡ []) lists.items) }
{
    let mut lists = Vec::new(alloc);
    for _module in 0..count {
        lists.push(Vec::new(alloc))?;
    }
    Ok(lists)
}

fn push_user(users: &mut [Vec<u32>], used: u32, user: u32) -> Result<(), NoMemory>
    requires { used < length users.old }
    ensures { OnOk result (used_lists users.new ≡ slice_set (used_lists users.old) used (used_by (used_lists users.old) used ++ user ∷ [])) }
{
    users[used as usize].push(user)?;
    Ok(())
}

// puts a module on the list of each module that it uses
fn add_user(list: &[u32], user: u32, users: &mut [Vec<u32>]) -> Result<(), NoMemory>
    requires { All (λ used. used < length users.old) list.now }
    ensures { OnOk result (AreAdded list.now user (used_lists users.old) (used_lists users.new)) }
{
    for used in list {
        push_user(users, *used, user)?;
    }
    Ok(())
}

// for each module, those that use it
fn users_of(alloc: Global, uses: &[Vec<u32>]) -> Result<Vec<Vec<u32>>, NoMemory>
    requires few { length uses.now < 2 ^ 32 }
    requires known { AreKnown (used_lists uses.now) }
    ensures { IfOk result (λ users. AreUsers (used_lists uses.now) (used_lists users.items)) }
{
    let mut users = empty_lists(alloc, uses.len())?;
    for user in 0..uses.len() as u32 {
        add_user(list_of(uses, user), user, &mut users)?;
    }
    Ok(users)
}

// marks these modules, and stacks those of them that had no mark
fn mark_all(list: &[u32], marks: &mut [bool], stack: &mut Vec<u32>) -> Result<(), NoMemory>
    requires { All (λ number. number < length marks.old) list.now }
    ensures marked { OnOk result (AreMarked list.now marks.old stack.old.items marks.new stack.new.items) }
    ensures shift { OnOk result (unmarked marks.new + length stack.new.items ≡ unmarked marks.old + length stack.old.items) }
{
    for number in list {
        if !marks[*number as usize] {
            marks[*number as usize] = true;
            stack.push(*number)?;
        }
    }
    Ok(())
}

/// For each module whether uses lead from it to that one, or it is the same.
pub(crate) fn leading_to(
    alloc: Global,
    uses: &[Vec<u32>],
    target: u32,
) -> Result<Vec<bool>, NoMemory>
    requires few { length uses.now < 2 ^ 32 }
    requires known { AreKnown (used_lists uses.now) }
    requires target { target < length uses.now }
    ensures { IfOk result (λ marks. (first : ℕ) → first < length uses.now → slice_get marks.items first ≡ Some (leads_to (used_lists uses.now) first target)) }
{
    let users = users_of(alloc, uses)?;
    let mut marks = vec![in alloc; false; uses.len()]?;
    marks[target as usize] = true;
    let mut stack = vec![in alloc; target]?;
    'turns: while let Some(used) = stack.pop() {
        mark_all(list_of(&users, used), &mut marks, &mut stack)?;
    }
    Ok(marks)
}

/// The modules in order, or the least one that lies on a cycle.
#[derive(Drop)]
pub(crate) enum Ordered {
    /// In order.
    Order(Vec<u32>),
    /// The least one.
    Cycle(u32),
}

/// The modules in order, or the least one that lies on a cycle.
pub(crate) fn order_modules(alloc: Global, uses: &[Vec<u32>]) -> Result<Ordered, NoMemory>
    requires few { length uses.now < 2 ^ 32 }
    requires known { AreKnown (used_lists uses.now) }
    ensures { IfOk result (IsOrdered (used_lists uses.now)) }
{
    match order(alloc, uses) {
        Ok(list) => Ok(Ordered::Order(list)),
        Err(GraphFault::Cycle(cycle)) => Ok(Ordered::Cycle(cycle[0])),
        Err(GraphFault::NoMemory) => Err(NoMemory),
    }
}
