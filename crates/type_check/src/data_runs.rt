//! Which values of DATA go to elements of another type (Fortran 90, 5.2.9). Repeats are counted and nothing is written out.

ghost use Rattle.std.specs.Prelude.{◌≡◌, ◌+◌, ◌-◌, ◌^◌, ◌<◌, ◌&&◌, ◌||◌, nat_lt, max, min, map};
ghost use Rattle.std.specs.Option.{option_map};
ghost use Rattle.ftn_tree.specs.DataTypes as types;
ghost use Rattle.ftn_tree.specs.Sorts as sorts;
ghost use Rattle.const_value.specs.steps.Projects.{sort_seen};
ghost use Rattle.type_check.specs.steps.DataBy as steps;
ghost use Rattle.type_check.specs.steps.DataRuns.{AreWalked, run_seen};

use crate::data_objects::{Object, object_of};
use const_value::project::Sort;
use ftn_tree::Designator;
use name_types::names::Setting;

/// So many values on end, from that position of the group on.
#[derive(Clone, Copy)]
pub struct Run {
    pub token: u32,
    pub from: u128,
    pub count: u32,
    pub sort: Option<Sort>,
}

/// Where a walk over the objects of a group stands: the number of an object, and the position of its first element.
#[derive(Clone, Copy)]
pub struct Walk {
    pub at: usize,
    pub from: u128,
}

fn same_sort(one: Sort, other: Sort) -> bool
    ensures { result ≡ sorts.same_sort (sort_seen one) (sort_seen other) }
{
    match one {
        Sort::Whole => matches!(other, Sort::Whole),
        Sort::Truth => matches!(other, Sort::Truth),
        Sort::Text => matches!(other, Sort::Text),
    }
}

fn differ(one: Option<Sort>, other: Option<Sort>) -> bool
    ensures { result ≡ types.differ (option_map sort_seen one) (option_map sort_seen other) }
{
    match one {
        Some(one) => match other {
            Some(other) => !same_sort(one, other),
            None => false,
        },
        None => false,
    }
}

/// Whether that is so already, or elements of another type, from that position to before another one, get values of the run.
fn is_wrong_too(wrong: bool, object: &Object, from: u128, end: u128, run: &Run) -> bool
    requires { run.now.from + run.now.count < 2 ^ 128 - 1 }
    ensures { result ≡ (wrong || (nat_lt (max from run.now.from) (min end (run.now.from + run.now.count)) && types.differ (option_map sort_seen object.now.sort) (option_map sort_seen run.now.sort))) }
{
    let last = run.from + u128::from(run.count);
    wrong || (from.max(run.from) < end.min(last) && differ(object.sort, run.sort))
}

/// Whether values of a run go to elements of another type. The walk stands where no object before it gets any of them, and goes on to where
/// none before it gets any of the values that come after.
pub fn is_wrong(setting: &Setting<'_>, objects: &[Designator], walk: &mut Walk, run: &Run) -> bool
    requires fits { run.now.from + run.now.count < 2 ^ 128 - 1 }
    requires walked { AreWalked (map (steps.counted_object setting.now) objects.now) walk.old.at walk.old.from run.now.from }
    ensures wrong { result ≡ types.is_wrong (types.runs_from 0 (map (steps.counted_object setting.now) objects.now)) (run_seen run.now) }
    ensures walked { AreWalked (map (steps.counted_object setting.now) objects.now) walk.new.at walk.new.from (run.now.from + run.now.count) }
{
    let end = run.from + u128::from(run.count);
    let mut wrong = false;
    'objects: while walk.at < objects.len() {
        let object = object_of(setting, &objects[walk.at]);
        let next = walk.from.saturating_add(object.count.unwrap_or(0));
        wrong = is_wrong_too(wrong, &object, walk.from, next, run);
        if next > end {
            return wrong;
        }
        walk.at += 1;
        walk.from = next;
    }
    wrong
}
