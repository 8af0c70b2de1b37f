//! Which numbers lead to one another, and an order in which each comes after those that it leads to.

ghost use Rattle.std.specs.Prelude.{◌≡◌, ◌<◌, ◌≤◌, ◌+◌, ◌++◌, ◌∷◌, ℕ, List, false, true, [], length, if◌then◌else◌, slice_index_or, slice_set, Some, None, All, IfOk, OnOk};
ghost use Rattle.ftn_base.specs.ModuleUses.{AreKnown, used_by};
ghost use Rattle.const_value.specs.steps.Components.{IsFinishOrder};
ghost use Rattle.const_value.specs.steps.Labelling.{AreAdded, AreLabels, AreSpread, AreUsers, IsRoot, IsSpreading, unlabelled};
ghost use Rattle.const_value.specs.steps.Lists.{lists_of};
ghost use Rattle.const_value.specs.steps.Searching.{IsMarked, IsSearch, Stays, left_all, open_at};

use ftn_base::NoMemory;
use std::alloc::Global;

/// A number whose uses are gone through, and how many of them are.
#[derive(Clone, Copy)]
struct Open {
    node: usize,
    next: usize,
}

/// The numbers on the list with that number.
fn list_of(lists: &[Vec<usize>], number: usize) -> &[usize]
    requires { number < length lists.now }
    ensures { result.now ≡ used_by (lists_of lists.now) number }
{
    &lists[number]
}

/// Opens a number, where it isn't seen yet.
fn open_if_new(to: usize, seen: &mut [bool], stack: &mut Vec<Open>) -> Result<(), NoMemory>
    requires { to < length seen.old }
    ensures seen { OnOk result (seen.new ≡ slice_set seen.old to true) }
    ensures stack { OnOk result (stack.new.items ≡ (if slice_index_or seen.old to false then stack.old.items else stack.old.items ++ open_at to ∷ [])) }
{
    if !seen[to] {
        seen[to] = true;
        stack.push(Open { node: to, next: 0 })?;
    }
    Ok(())
}

/// Goes on with the number that was opened last: to the next one that it uses, or to its end.
fn turn(
    uses: &[Vec<usize>],
    top: Open,
    seen: &mut [bool],
    stack: &mut Vec<Open>,
    order: &mut Vec<usize>,
) -> Result<(), NoMemory>
    requires known { AreKnown (lists_of uses.now) }
    requires search { IsSearch (lists_of uses.now) seen.old (stack.old.items ++ top ∷ []) order.old.items }
    ensures search { OnOk result (IsSearch (lists_of uses.now) seen.new stack.new.items order.new.items) }
    ensures stays { OnOk result (Stays seen.old seen.new) }
    ensures less { OnOk result (left_all (lists_of uses.now) seen.new stack.new.items < left_all (lists_of uses.now) seen.old (stack.old.items ++ top ∷ [])) }
{
    let used = list_of(uses, top.node);
    if top.next < used.len() {
        stack.push(Open {
            node: top.node,
            next: top.next + 1,
        })?;
        open_if_new(used[top.next], seen, stack)?;
        Ok(())
    } else {
        order.push(top.node)?;
        Ok(())
    }
}

/// Adds a number, after all that it leads to and that aren't seen yet.
fn finish_from(
    alloc: Global,
    uses: &[Vec<usize>],
    start: usize,
    seen: &mut [bool],
    order: &mut Vec<usize>,
) -> Result<(), NoMemory>
    requires known { AreKnown (lists_of uses.now) }
    requires start { start < length uses.now }
    requires new { slice_index_or seen.old start false ≡ false }
    requires search { IsSearch (lists_of uses.now) seen.old [] order.old.items }
    ensures search { OnOk result (IsSearch (lists_of uses.now) seen.new [] order.new.items) }
    ensures stays { OnOk result (Stays seen.old seen.new) }
    ensures start { OnOk result (IsMarked seen.new start) }
{
    let mut stack = Vec::new(alloc);
    open_if_new(start, seen, &mut stack)?;
    'turns: while let Some(top) = stack.pop() {
        turn(uses, top, seen, &mut stack, order)?;
    }
    Ok(())
}

/// All numbers, each after those that it leads to, but for those that lead back to it.
pub(crate) fn finish_order(alloc: Global, uses: &[Vec<usize>]) -> Result<Vec<usize>, NoMemory>
    requires { AreKnown (lists_of uses.now) }
    ensures { IfOk result (λ order. IsFinishOrder (lists_of uses.now) order.items) }
{
    let mut seen = vec![in alloc; false; uses.len()]?;
    let mut order = Vec::new(alloc);
    let mut at = 0;
    while at < uses.len() {
        if !seen[at] {
            finish_from(alloc, uses, at, &mut seen, &mut order)?;
        }
        at += 1;
    }
    Ok(order)
}

fn empty_lists(alloc: Global, count: usize) -> Result<Vec<Vec<usize>>, NoMemory>
    ensures size { IfOk result (λ lists. length lists.items ≡ count) }
    ensures none { IfOk result (λ lists. All (λ list. list.items ≡ []) lists.items) }
{
    let mut lists = Vec::new(alloc);
    for _number in 0..count {
        lists.push(Vec::new(alloc))?;
    }
    Ok(lists)
}

fn push_user(users: &mut [Vec<usize>], used: usize, user: usize) -> Result<(), NoMemory>
    requires { used < length users.old }
    ensures { OnOk result (lists_of users.new ≡ slice_set (lists_of users.old) used (used_by (lists_of users.old) used ++ user ∷ [])) }
{
    users[used].push(user)?;
    Ok(())
}

/// Puts a number on the list of each that it uses.
fn add_user(list: &[usize], user: usize, users: &mut [Vec<usize>]) -> Result<(), NoMemory>
    requires { All (λ used. used < length users.old) list.now }
    ensures { OnOk result (AreAdded list.now user (lists_of users.old) (lists_of users.new)) }
{
    for used in list {
        push_user(users, *used, user)?;
    }
    Ok(())
}

/// For each number those that use it.
fn users_of(alloc: Global, uses: &[Vec<usize>]) -> Result<Vec<Vec<usize>>, NoMemory>
    requires { AreKnown (lists_of uses.now) }
    ensures { IfOk result (λ users. AreUsers (lists_of uses.now) (lists_of users.items)) }
{
    let mut users = empty_lists(alloc, uses.len())?;
    for user in 0..uses.len() {
        add_user(list_of(uses, user), user, &mut users)?;
    }
    Ok(users)
}

/// Gives the label to those of a list that have none, and stacks them.
fn label_all(
    list: &[usize],
    label: usize,
    labels: &mut [Option<usize>],
    stack: &mut Vec<usize>,
) -> Result<(), NoMemory>
    requires { All (λ number. number < length labels.old) list.now }
    ensures spread { OnOk result (AreSpread list.now label labels.old stack.old.items labels.new stack.new.items) }
    ensures shift { OnOk result (unlabelled labels.new + length stack.new.items ≡ unlabelled labels.old + length stack.old.items) }
{
    for number in list {
        if labels[*number].is_none() {
            labels[*number] = Some(label);
            stack.push(*number)?;
        }
    }
    Ok(())
}

/// Gives the label to all that lead to the number by way of such as have none.
fn spread(
    alloc: Global,
    users: &[Vec<usize>],
    label: usize,
    labels: &mut [Option<usize>],
) -> Result<(), NoMemory>
    requires users { All (All (λ user. user < length users.now)) (lists_of users.now) }
    requires label { label < length users.now }
    requires sized { length labels.old ≡ length users.now }
    ensures { (uses : List (List ℕ)) (front behind : List ℕ) → IsRoot uses (lists_of users.now) front label behind labels.old
        → OnOk result (IsSpreading uses (lists_of users.now) (front ++ label ∷ []) label labels.old labels.new []) }
{
    labels[label] = Some(label);
    let mut stack = vec![in alloc; label]?;
    'turns: while let Some(node) = stack.pop() {
        label_all(list_of(users, node), label, labels, &mut stack)?;
    }
    Ok(())
}

/// For each number a label, the same for two exactly where they lead to one another. The order is that of [`finish_order`].
pub(crate) fn labels_of(
    alloc: Global,
    uses: &[Vec<usize>],
    order: &[usize],
) -> Result<Vec<Option<usize>>, NoMemory>
    requires known { AreKnown (lists_of uses.now) }
    requires order { IsFinishOrder (lists_of uses.now) order.now }
    ensures { IfOk result (λ labels. AreLabels (lists_of uses.now) labels.items) }
{
    let users = users_of(alloc, uses)?;
    let mut labels = vec![in alloc; None; uses.len()]?;
    let mut left = order.len();
    while left > 0 {
        left -= 1;
        if labels[order[left]].is_none() {
            spread(alloc, &users, order[left], &mut labels)?;
        }
    }
    Ok(labels)
}
