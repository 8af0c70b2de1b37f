//! Values of DATA: how often they are given, their types, and what is told of their names (Fortran 90, 5.2.9).

ghost use Rattle.std.specs.Prelude.{◌≡◌, Some};
ghost use Rattle.std.specs.Option.{option_map};
ghost use Rattle.ftn_tree.specs.DataTypes as types;
ghost use Rattle.ftn_tree.specs.Sorts as sorts;
ghost use Rattle.ftn_tree.specs.declared.value.Value.TheVariants as value;
ghost use Rattle.const_value.specs.steps.Projects.{sort_seen};
ghost use Rattle.type_check.specs.steps.DataBy as steps;
ghost use Rattle.type_check.specs.steps.Noted.{first_seen, noted};
ghost use Rattle.name_types.specs.steps.Senses.{lent};

use crate::faults::Faults;
use const_value::project::Sort;
use ftn_base::FaultKind;
use ftn_tree::{DataConstant, DataValue, Repeat, Value};
use name_types::names::Setting;

/// A value, so often, where that is known, and its type.
#[derive(Clone, Copy)]
pub struct Supply {
    pub token: u32,
    pub count: Option<u32>,
    pub sort: Option<Sort>,
}

/// The type of a constant's name, not of an array's.
fn scalar_of(setting: &Setting<'_>, token: u32) -> Option<Sort>
    ensures { option_map sort_seen result ≡ steps.scalar_by setting.now token }
{
    match setting.names.naming(setting.file, token) {
        Some(naming) => { if naming.rank == 0 { naming.sort } else { None } }
        None => None,
    }
}

fn value_of<'a>(setting: &Setting<'a>, token: u32) -> Option<&'a Value>
    ensures { lent result ≡ steps.value_by setting.now token }
{
    match setting.names.project.entity_at(setting.file, token) {
        Some(entity) => match setting
            .names
            .values
            .constants
            .as_slice()
            .get(entity as usize)
        {
            Some(value) => value.as_ref(),
            None => None,
        },
        None => None,
    }
}

fn is_whole(sort: Option<Sort>) -> bool
    ensures { result ≡ sorts.is_sort sorts.Whole (option_map sort_seen sort) }
{
    matches!(sort, Some(Sort::Whole))
}

fn count_in(number: i32) -> Option<u32>
    ensures { result ≡ types.count_in (Some (value.Whole number)) }
{
    if number < 0 {
        None
    } else {
        Some(number as u32)
    }
}

fn whole_count(value: Option<&Value>) -> Option<u32>
    ensures { result ≡ types.count_in (lent value.entry) }
{
    match value {
        Some(Value::Whole(value)) => count_in(*value),
        Some(Value::Truth(_)) | Some(Value::Chars(_)) => None,
        None => None,
    }
}

fn is_below_zero(number: i32) -> bool
    ensures { result ≡ types.is_negative (Some (value.Whole number)) }
{
    number < 0
}

fn is_negative(value: Option<&Value>) -> bool
    ensures { result ≡ types.is_negative (lent value.entry) }
{
    match value {
        Some(Value::Whole(value)) => is_below_zero(*value),
        Some(Value::Truth(_)) | Some(Value::Chars(_)) => false,
        None => false,
    }
}

fn repeat_of(setting: &Setting<'_>, repeat: &Option<Repeat>) -> Option<u32>
    ensures { result ≡ steps.repeat_by setting.now repeat.now }
{
    match repeat {
        None => Some(1),
        Some(Repeat::Whole { value, .. }) => count_in(*value),
        Some(Repeat::Named(token)) => {
            if is_whole(scalar_of(setting, *token)) {
                whole_count(value_of(setting, *token))
            } else {
                None
            }
        }
    }
}

/// The first token of a constant: a sign stands right before its number.
fn token_of(constant: &DataConstant) -> u32
    ensures { result ≡ types.constant_token constant.now }
{
    match constant {
        DataConstant::Whole {
            sign: Some(_),
            token,
            ..
        } => token.saturating_sub(1),
        DataConstant::Whole {
            sign: None,
            token,
            ..
        } => *token,
        DataConstant::Truth { token, .. } => *token,
        DataConstant::Quoted { token, .. } => *token,
        DataConstant::Named(token) => *token,
    }
}

fn sort_of(setting: &Setting<'_>, constant: &DataConstant) -> Option<Sort>
    ensures { option_map sort_seen result ≡ steps.sort_of_constant setting.now constant.now }
{
    match constant {
        DataConstant::Whole { .. } => Some(Sort::Whole),
        DataConstant::Truth { .. } => Some(Sort::Truth),
        DataConstant::Quoted { .. } => Some(Sort::Text),
        DataConstant::Named(token) => scalar_of(setting, *token),
    }
}

/// What a value of DATA supplies.
pub fn supply_of(setting: &Setting<'_>, value: &DataValue) -> Supply
    ensures token { result.token ≡ (steps.counted_value setting.now value.now).token }
    ensures count { result.count ≡ (steps.counted_value setting.now value.now).count }
    ensures sort { option_map sort_seen result.sort ≡ (steps.counted_value setting.now value.now).sort }
{
    Supply {
        token: token_of(&value.constant),
        count: repeat_of(setting, &value.repeat),
        sort: sort_of(setting, &value.constant),
    }
}

/// A repeat is an integer of at least 0.
fn repeat_fault(setting: &Setting<'_>, repeat: &Option<Repeat>, faults: &mut Faults)
    ensures { first_seen faults.new ≡ noted setting.now.file (first_seen faults.old) (steps.repeat_told setting.now repeat.now) }
{
    if let Some(Repeat::Named(token)) = repeat {
        let wrong = !is_whole(scalar_of(setting, *token)) || is_negative(value_of(setting, *token));
        faults.note_if(wrong, FaultKind::WrongType, setting.file, *token);
    }
}

/// An array's name is no value.
fn constant_fault(setting: &Setting<'_>, constant: &DataConstant, faults: &mut Faults)
    ensures { first_seen faults.new ≡ noted setting.now.file (first_seen faults.old) (steps.constant_told setting.now constant.now) }
{
    if let DataConstant::Named(token) = constant {
        let wrong = scalar_of(setting, *token).is_none();
        faults.note_if(wrong, FaultKind::WrongType, setting.file, *token);
    }
}

/// Adds what is told of the names of a value.
pub fn value_faults(setting: &Setting<'_>, value: &DataValue, faults: &mut Faults)
    ensures { first_seen faults.new ≡ noted setting.now.file (first_seen faults.old) (steps.value_told setting.now value.now) }
{
    repeat_fault(setting, &value.repeat, faults);
    constant_fault(setting, &value.constant, faults);
}
