//! What is told of DATA: objects that get no values, and numbers and types of values (Fortran 90, 5.2.9).

ghost use Rattle.std.specs.Prelude.{◌≡◌, ◌≤◌, ◌<◌, ◌+◌, ◌-◌, ◌^◌, [], List, map, IfSome};
ghost use Rattle.std.specs.List.{flat_map};
ghost use Rattle.std.specs.Option.{option_map};
ghost use Rattle.ftn_tree.specs.declared.table.Extent.{Extent};
ghost use Rattle.ftn_tree.specs.declared.unit.FileTree.{FileTree};
ghost use Rattle.ftn_tree.specs.ConstantFaults as constants;
ghost use Rattle.ftn_tree.specs.DataTypes as types;
ghost use Rattle.type_check.specs.steps.DataBy as steps;
ghost use Rattle.type_check.specs.steps.DataRight.{IsDataRight};
ghost use Rattle.type_check.specs.steps.DataRuns.{AreWalked, wrong_told};
ghost use Rattle.type_check.specs.steps.Noted.{first_seen, noted};

use crate::data_objects::{is_object, object_of};
use crate::data_runs::{Run, Walk, is_wrong};
use crate::data_values::{supply_of, value_faults};
use crate::faults::Faults;
use ftn_base::FaultKind;
use ftn_tree::{DataGroup, DataValue, Designator};
use name_types::names::Setting;

/// What names no variable that DATA may give values.
fn object_fault(setting: &Setting<'_>, object: &Designator, faults: &mut Faults)
    ensures { first_seen faults.new ≡ noted setting.now.file (first_seen faults.old) (steps.object_told setting.now object.now) }
{
    let barred = !is_object(setting, object.name);
    faults.note_if(barred, FaultKind::NotDefinable, setting.file, object.name);
}

fn objects_faults(setting: &Setting<'_>, objects: &[Designator], faults: &mut Faults)
    ensures { first_seen faults.new ≡ noted setting.now.file (first_seen faults.old) (flat_map (steps.object_told setting.now) objects.now) }
{
    for object in objects {
        object_fault(setting, object, faults);
    }
}

fn values_faults(setting: &Setting<'_>, values: &[DataValue], faults: &mut Faults)
    ensures { first_seen faults.new ≡ noted setting.now.file (first_seen faults.old) (flat_map (steps.value_told setting.now) values.now) }
{
    for value in values {
        value_faults(setting, value, faults);
    }
}

/// How many elements the objects have, where that is known of each. A number that is too large for 128 bits counts as the greatest one.
fn elements_in(setting: &Setting<'_>, objects: &[Designator]) -> Option<u128>
    ensures { result ≡ option_map steps.limited (steps.total_of (map (steps.counted_object setting.now) objects.now)) }
{
    let mut total: u128 = 0;
    for object in objects {
        match object_of(setting, object).count {
            Some(count) => total = total.saturating_add(count),
            None => return None,
        }
    }
    Some(total)
}

/// How many values there are, where that is known of each.
fn values_in(setting: &Setting<'_>, values: &[DataValue]) -> Option<u128>
    ensures total { result ≡ steps.total_of (map (steps.counted_value setting.now) values.now) }
    ensures few { IfSome result (λ total. total < 2 ^ 128 - 1) }
{
    let mut total: u128 = 0;
    for value in values {
        match supply_of(setting, value).count {
            Some(count) => total += u128::from(count),
            None => return None,
        }
    }
    Some(total)
}

/// Notes a value that goes to elements of another type, and gives the position after it.
fn wrong_value(
    setting: &Setting<'_>,
    objects: &[Designator],
    walk: &mut Walk,
    from: u128,
    value: &DataValue,
    faults: &mut Faults,
) -> u128
    requires fits { from + 2 ^ 32 < 2 ^ 128 - 1 }
    requires walked { AreWalked (map (steps.counted_object setting.now) objects.now) walk.old.at walk.old.from from }
    ensures told { first_seen faults.new ≡ noted setting.now.file (first_seen faults.old) (wrong_told (types.runs_from 0 (map (steps.counted_object setting.now) objects.now)) from (steps.counted_value setting.now value.now)) }
    ensures next { result ≡ from + types.count_or_none (steps.counted_value setting.now value.now) }
    ensures few { result ≤ from + 2 ^ 32 }
    ensures walked { AreWalked (map (steps.counted_object setting.now) objects.now) walk.new.at walk.new.from result }
{
    let supply = supply_of(setting, value);
    let run = Run {
        token: supply.token,
        from,
        count: supply.count.unwrap_or(0),
        sort: supply.sort,
    };
    let wrong = is_wrong(setting, objects, walk, &run);
    faults.note_if(wrong, FaultKind::WrongType, setting.file, run.token);
    from + u128::from(run.count)
}

/// Adds the values that go to elements of another type.
fn wrong_values(
    setting: &Setting<'_>,
    objects: &[Designator],
    values: &[DataValue],
    faults: &mut Faults,
)
    ensures { first_seen faults.new ≡ noted setting.now.file (first_seen faults.old) (types.wrong_values (types.runs_from 0 (map (steps.counted_object setting.now) objects.now)) (types.runs_from 0 (map (steps.counted_value setting.now) values.now))) }
{
    let mut walk = Walk { at: 0, from: 0 };
    let mut from: u128 = 0;
    for value in values {
        from = wrong_value(setting, objects, &mut walk, from, value, faults);
    }
}

fn first_token(setting: &Setting<'_>, objects: &[Designator]) -> u32
    ensures { result ≡ types.first_of (map (steps.counted_object setting.now) objects.now) }
{
    match objects {
        [object, ..] => object.name,
        [] => 0,
    }
}

/// Adds what is told of the numbers and types of values, where it is known how many there are.
fn counts_faults(
    setting: &Setting<'_>,
    objects: &[Designator],
    values: &[DataValue],
    faults: &mut Faults,
)
    ensures { first_seen faults.new ≡ noted setting.now.file (first_seen faults.old) (types.counts_told (map (steps.counted_object setting.now) objects.now) (map (steps.counted_value setting.now) values.now)) }
{
    let Some(elements) = elements_in(setting, objects) else {
        return;
    };
    let Some(given) = values_in(setting, values) else {
        return;
    };
    if elements == given {
        wrong_values(setting, objects, values, faults);
    } else {
        faults.note(
            FaultKind::WrongCount,
            setting.file,
            first_token(setting, objects),
        );
    }
}

/// Adds what is told of a group, by what is kept.
fn faults_by(setting: &Setting<'_>, group: &DataGroup, faults: &mut Faults)
    ensures { first_seen faults.new ≡ noted setting.now.file (first_seen faults.old) (steps.group_by setting.now group.now) }
{
    objects_faults(setting, group.objects.as_slice(), faults);
    values_faults(setting, group.values.as_slice(), faults);
    counts_faults(
        setting,
        group.objects.as_slice(),
        group.values.as_slice(),
        faults,
    );
}

/// Adds what is told of a group of DATA, where the names of its values are those of constants.
pub fn group_faults(setting: &Setting<'_>, group: &DataGroup, faults: &mut Faults)
    ensures { (files : List FileTree) (e : Extent) → IsDataRight files e setting.now → constants.group_told files e.file group.now ≡ [] → first_seen faults.new ≡ noted e.file (first_seen faults.old) (types.group_told files e group.now) }
{
    faults_by(setting, group, faults);
}
