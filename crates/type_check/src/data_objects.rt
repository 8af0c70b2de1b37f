//! Objects of DATA: which variables get values, and how many elements they have (Fortran 90, 5.2.9).

ghost use Rattle.std.specs.Prelude.{◌≡◌, map};
ghost use Rattle.std.specs.Option.{option_map};
ghost use Rattle.ftn_tree.specs.Arrays as arrays;
ghost use Rattle.ftn_tree.specs.DataTypes as types;
ghost use Rattle.const_value.specs.steps.Giving as giving;
ghost use Rattle.const_value.specs.steps.Projects.{sort_seen};
ghost use Rattle.type_check.specs.steps.DataBy as steps;
ghost use Rattle.name_types.specs.steps.Senses.{lent};

use const_value::project::{Project, Sort};
use ftn_base::Shape;
use ftn_tree::{Designator, EntityKind};
use name_types::names::Setting;

/// So many elements of a variable, where that is known, and their type. A number that is too large for 128 bits counts as the greatest
/// one.
#[derive(Clone, Copy)]
pub struct Object {
    pub count: Option<u128>,
    pub sort: Option<Sort>,
}

/// The number of whole numbers from the lower bound to the upper one.
fn extent_of(pair: (i32, i32)) -> u64
    ensures { result ≡ arrays.span pair.0 pair.1 }
{
    let (low, high) = pair;
    if high < low {
        0
    } else {
        (i64::from(high) - i64::from(low) + 1) as u64
    }
}

fn elements_in(pairs: &[(i32, i32)]) -> u128
    ensures { result ≡ steps.limited (arrays.elements (map arrays.axis_from pairs.now)) }
{
    match pairs {
        [] => 1,
        [pair, rest @ ..] => u128::from(extent_of(*pair)).saturating_mul(elements_in(rest)),
    }
}

/// The number of elements.
fn elements_of(shape: &Shape) -> u128
    ensures { result ≡ steps.limited (types.elements_of shape.now) }
{
    elements_in(shape.bounds.pairs())
}

fn is_variable_kind(kind: EntityKind) -> bool
    ensures { result ≡ types.is_plain_variable kind }
{
    matches!(kind, EntityKind::Variable)
}

/// Whether it is a variable other than a dummy argument or a result.
fn is_variable(project: &Project<'_>, entity: u32) -> bool
    ensures { result ≡ giving.is_variable project.now entity }
{
    match project.entity(entity as usize) {
        Some(entity) => is_variable_kind(entity.kind),
        None => false,
    }
}

/// Whether it is a variable of the scoping unit, no member of blank common, and of a named block only in a BLOCK DATA.
fn is_own(project: &Project<'_>, scope: u32, entity: u32) -> bool
    ensures { result ≡ giving.is_object project.now scope entity }
{
    if is_variable(project, entity) {
        match project.name_of(entity as usize) {
            Some(name) => match project.names.get(name) {
                Some(owned) => owned.scope == scope as usize && !owned.said.barred,
                None => false,
            },
            None => false,
        }
    } else {
        false
    }
}

/// Whether the name at a token is that of a variable that DATA may give values here.
pub fn is_object(setting: &Setting<'_>, token: u32) -> bool
    ensures { result ≡ steps.object_by setting.now token }
{
    match setting.names.project.entity_at(setting.file, token) {
        Some(entity) => is_own(setting.names.project, setting.scope, entity),
        None => false,
    }
}

fn shape_of<'a>(setting: &Setting<'a>, token: u32) -> Option<&'a Shape>
    ensures { lent result ≡ steps.shape_by setting.now token }
{
    match setting.names.project.entity_at(setting.file, token) {
        Some(entity) => match setting.names.values.shapes.as_slice().get(entity as usize) {
            Some(shape) => shape.as_ref(),
            None => None,
        },
        None => None,
    }
}

fn count_of(setting: &Setting<'_>, designator: &Designator) -> Option<u128>
    ensures { result ≡ option_map steps.limited (steps.count_by setting.now designator.now) }
{
    match &designator.subscripts {
        Some(_) => Some(1),
        None => match shape_of(setting, designator.name) {
            Some(shape) => Some(elements_of(shape)),
            None => None,
        },
    }
}

/// The elements that a designator names.
pub fn object_of(setting: &Setting<'_>, designator: &Designator) -> Object
    ensures count { result.count ≡ option_map steps.limited (steps.counted_object setting.now designator.now).count }
    ensures sort { option_map sort_seen result.sort ≡ (steps.counted_object setting.now designator.now).sort }
{
    let count = if is_object(setting, designator.name) {
        count_of(setting, designator)
    } else {
        None
    };
    Object {
        count,
        sort: setting.sort(designator.name),
    }
}
