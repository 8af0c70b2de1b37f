//! The objects of one sequence moved into another.

ghost use Rattle.std.specs.Prelude.{◌≡◌, ◌≢◌, ◌+◌, ◌-◌, ◌<◌, ◌≤◌, ◌^◌, ◌++◌, max, [], length, All, AllPairs, IfOk, OnOk, slice_index, slice_set};
ghost use Rattle.equiv_class.specs.steps.Lists.{IsMoved, member_lists, members_of};

use ftn_base::NoMemory;
use std::alloc::Global;

/// Gives these objects another label, and moves their places by `up - down`.
pub(crate) fn relabel(
    label: &mut [u32],
    place: &mut [u64],
    moved: &[u32],
    to: u32,
    up: u64,
    down: u64,
)
    requires places { length place.old ≡ length label.old }
    requires known { All (λ object. object < length label.old) moved.now }
    requires once { AllPairs (λ earlier later. earlier ≢ later) moved.now }
    requires low { All (λ object. down ≤ slice_index place.old object + up) moved.now }
    requires high { All (λ object. slice_index place.old object + up < 2 ^ 64) moved.now }
    ensures { IsMoved label.old place.old moved.now to up down label.new place.new }
{
    for object in moved {
        let at = *object as usize;
        label[at] = to;
        place[at] = place[at] + up - down;
    }
}

/// Takes the members out of one sequence, and adds them to another too.
pub(crate) fn hand_over(
    alloc: Global,
    members: &mut [Vec<u32>],
    from: u32,
    to: u32,
) -> Result<Vec<u32>, NoMemory>
    requires from { from < length members.old }
    requires to { to < length members.old }
    requires apart { from ≢ to }
    ensures moved { IfOk result (λ moved. moved.items ≡ members_of (member_lists members.old) from) }
    ensures lists { OnOk result (member_lists members.new ≡ slice_set (slice_set (member_lists members.old) from []) to (members_of (member_lists members.old) to ++ members_of (member_lists members.old) from)) }
{
    let moved = std::mem::replace(&mut members[from as usize], Vec::new(alloc));
    members[to as usize].extend_from_slice(&moved)?;
    Ok(moved)
}

/// Lets one sequence reach as far as another that is moved into it by `up - down`.
pub(crate) fn widen(below: &mut [u64], above: &mut [u64], from: u32, to: u32, up: u64, down: u64)
    requires aboves { length above.old ≡ length below.old }
    requires from { from < length below.old }
    requires to { to < length below.old }
    requires apart { from ≢ to }
    requires low { slice_index below.old from + down < 2 ^ 64 }
    requires high { slice_index above.old from + up < 2 ^ 64 }
    ensures below { below.new ≡ slice_set (slice_set below.old to (max (slice_index below.old to) (slice_index below.old from + down - up))) from 0 }
    ensures above { above.new ≡ slice_set (slice_set above.old to (max (slice_index above.old to) (slice_index above.old from + up - down))) from 0 }
{
    let lowest = (below[from as usize] + down).saturating_sub(up);
    let highest = (above[from as usize] + up).saturating_sub(down);
    below[to as usize] = below[to as usize].max(lowest);
    above[to as usize] = above[to as usize].max(highest);
    below[from as usize] = 0;
    above[from as usize] = 0;
}
