//! What the entities of a project are in constant expressions, by what is known of them as values (Fortran 90, 7.1.6.1).

ghost use Rattle.std.specs.Prelude.{◌≡◌, map, Some, IfOk};
ghost use Rattle.std.specs.List.{list_any, range_with_len};
ghost use Rattle.std.specs.Option.{option_and_then};
ghost use Rattle.ftn_tree.specs.Constants.{is_empty_pair};
ghost use Rattle.ftn_tree.specs.Intrinsics as intrinsics;
ghost use Rattle.const_value.specs.steps.Knowing.{function_naming};
ghost use Rattle.type_check.specs.steps.Constants as steps;
ghost use Rattle.type_check.specs.steps.DataBy.{of_entity};

use const_expr::{Naming, function_named};
use const_value::project::Project;
use ftn_base::{Bounds, Name, NoMemory, Shape};
use ftn_tree::{Entity, EntityKind, Value, Values};
use std::alloc::Global;

fn function_naming(name: &Option<Name>) -> Naming
    ensures { result ≡ function_naming (option_and_then intrinsics.function_named name.now) }
{
    match name {
        Some(name) => match function_named(name.bytes()) {
            Some(function) => Naming::Function(function),
            None => Naming::Stray,
        },
        None => Naming::Stray,
    }
}

fn is_empty_pair(pair: (i32, i32)) -> bool
    ensures { result ≡ is_empty_pair (Some pair) }
{
    let (low, high) = pair;
    high < low
}

/// Whether a dimension has no element.
fn is_empty(pairs: &[(i32, i32)]) -> bool
    ensures { result ≡ list_any (λ pair. is_empty_pair (Some pair)) pairs.now }
{
    for pair in pairs {
        if is_empty_pair(*pair) {
            return true;
        }
    }
    false
}

/// The bounds, where each dimension has an element.
fn filled(alloc: Global, bounds: &Bounds) -> Result<Option<Bounds>, NoMemory>
    ensures { IfOk result (λ made. made ≡ steps.if_filled bounds.now) }
{
    if is_empty(bounds.pairs()) {
        Ok(None)
    } else {
        Ok(Some(bounds.copy(alloc)?))
    }
}

fn bounds_at(
    alloc: Global,
    shapes: &[Option<Shape>],
    number: usize,
) -> Result<Option<Bounds>, NoMemory>
    ensures { IfOk result (λ made. made ≡ option_and_then steps.bounds_in (of_entity shapes.now (Some number))) }
{
    match shapes.get(number) {
        Some(Some(shape)) => filled(alloc, &shape.bounds),
        _ => Ok(None),
    }
}

fn value_at(
    alloc: Global,
    constants: &[Option<Value>],
    number: usize,
) -> Result<Option<Value>, NoMemory>
    ensures { IfOk result (λ made. made ≡ of_entity constants.now (Some number)) }
{
    match constants.get(number) {
        Some(Some(value)) => Ok(Some(value.copy(alloc)?)),
        _ => Ok(None),
    }
}

fn rank_of(project: &Project<'_>, number: usize) -> usize
    ensures { result ≡ steps.rank_by project.now number }
{
    match project.name_of(number) {
        Some(name) => match project.written.get(name) {
            Some(written) => written.pairs().len(),
            None => 0,
        },
        None => 0,
    }
}

fn constant_naming(
    alloc: Global,
    project: &Project<'_>,
    values: &Values,
    number: usize,
) -> Result<Naming, NoMemory>
    ensures { IfOk result (λ made. made ≡ steps.constant_by project.now values.now number) }
{
    let value = value_at(alloc, values.constants.as_slice(), number)?;
    let bounds = bounds_at(alloc, values.shapes.as_slice(), number)?;
    Ok(Naming::Constant {
        value,
        rank: rank_of(project, number),
        bounds,
    })
}

fn naming_in(
    alloc: Global,
    project: &Project<'_>,
    values: &Values,
    number: usize,
    entity: &Entity,
) -> Result<Naming, NoMemory>
    ensures { IfOk result (λ made. made ≡ steps.naming_in project.now values.now number entity.now) }
{
    match entity.kind {
        EntityKind::Intrinsic => Ok(function_naming(&entity.name)),
        EntityKind::Constant => constant_naming(alloc, project, values, number),
        _ => Ok(Naming::Stray),
    }
}

fn naming_at(
    alloc: Global,
    project: &Project<'_>,
    values: &Values,
    number: usize,
) -> Result<Naming, NoMemory>
    ensures { IfOk result (λ made. made ≡ steps.naming_at project.now values.now number) }
{
    match project.entity(number) {
        Some(entity) => naming_in(alloc, project, values, number, entity),
        None => Ok(Naming::Stray),
    }
}

/// What each entity of a project is in a constant expression.
pub fn namings_of(
    alloc: Global,
    project: &Project<'_>,
    values: &Values,
) -> Result<Vec<Naming>, NoMemory>
    ensures { IfOk result (λ made. made.items ≡ steps.namings_by project.now values.now) }
{
    let mut made = Vec::new(alloc);
    for number in 0..project.bound.tables.entities.len() {
        made.push(naming_at(alloc, project, values, number)?)?;
    }
    Ok(made)
}
