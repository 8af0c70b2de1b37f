//! What is known of all entities of a project as values: their shapes, constant values and kinds (Fortran 90, 2.4).

ghost use Rattle.std.specs.Prelude.{◌≡◌, length, IfOk};
ghost use Rattle.const_value.specs.steps.EntityLists as steps;

use crate::entity_shapes::{constant_of, held_name, kind_of, shape_of};
use crate::measured::Measured;
use crate::project::Project;
use ftn_base::{NoMemory, Shape};
use ftn_tree::{Entity, Kind, Value};
use std::alloc::Global;

/// What is known of the name of what an entity holds.
fn held<'a>(
    project: &Project<'_>,
    known: &'a [Measured],
    number: usize,
    entity: &Entity,
) -> Option<&'a Measured>
    ensures { steps.lent result ≡ steps.held project.now known.now number entity.now }
{
    match held_name(project, number, entity) {
        Some(name) => known.get(name),
        None => None,
    }
}

fn shape_at(
    alloc: Global,
    project: &Project<'_>,
    known: &[Measured],
    number: usize,
    entity: &Entity,
) -> Result<Option<Shape>, NoMemory>
    ensures { IfOk result (λ made. made ≡ steps.shape_at project.now known.now number entity.now) }
{
    match held(project, known, number, entity) {
        Some(known) => shape_of(alloc, known),
        None => Ok(None),
    }
}

/// The shape of each entity that has one.
pub(crate) fn shapes_of(
    alloc: Global,
    project: &Project<'_>,
    known: &[Measured],
) -> Result<Vec<Option<Shape>>, NoMemory>
    ensures { IfOk result (λ made. made.items ≡ steps.shapes_from project.now known.now 0 project.now.bound.now.tables.entities) }
{
    let mut shapes = Vec::new(alloc);
    let mut number = 0;
    for entity in project.bound.tables.entities.as_slice() {
        shapes.push(shape_at(alloc, project, known, number, entity)?)?;
        number += 1;
    }
    Ok(shapes)
}

fn constant_at(
    alloc: Global,
    project: &Project<'_>,
    known: &[Measured],
    number: usize,
    entity: &Entity,
) -> Result<Option<Value>, NoMemory>
    ensures { IfOk result (λ made. made ≡ steps.constant_at project.now known.now number entity.now) }
{
    match held(project, known, number, entity) {
        Some(known) => constant_of(alloc, entity.kind, known),
        None => Ok(None),
    }
}

/// The value of each entity that is a constant.
pub(crate) fn constants_of(
    alloc: Global,
    project: &Project<'_>,
    known: &[Measured],
) -> Result<Vec<Option<Value>>, NoMemory>
    ensures { IfOk result (λ made. made.items ≡ steps.constants_from project.now known.now 0 project.now.bound.now.tables.entities) }
{
    let mut constants = Vec::new(alloc);
    let mut number = 0;
    for entity in project.bound.tables.entities.as_slice() {
        constants.push(constant_at(alloc, project, known, number, entity)?)?;
        number += 1;
    }
    Ok(constants)
}

/// The type and rank by the number of a name.
fn kind_by(project: &Project<'_>, known: &[Measured], name: usize) -> Result<Option<Kind>, NoMemory>
    requires names { length known.now ≡ length project.now.names.items }
    requires written { length known.now ≡ length project.now.written.items }
    ensures { IfOk result (λ made. made ≡ steps.kind_by project.now known.now name) }
{
    if name < known.len() {
        kind_of(project, &known[name], name)
    } else {
        Ok(None)
    }
}

fn kind_at(
    project: &Project<'_>,
    known: &[Measured],
    number: usize,
    entity: &Entity,
) -> Result<Option<Kind>, NoMemory>
    requires names { length known.now ≡ length project.now.names.items }
    requires written { length known.now ≡ length project.now.written.items }
    ensures { IfOk result (λ made. made ≡ steps.kind_at project.now known.now number entity.now) }
{
    match held_name(project, number, entity) {
        Some(name) => kind_by(project, known, name),
        None => Ok(None),
    }
}

/// The type and rank of each entity that has a type.
pub(crate) fn kinds_of(
    alloc: Global,
    project: &Project<'_>,
    known: &[Measured],
) -> Result<Vec<Option<Kind>>, NoMemory>
    requires names { length known.now ≡ length project.now.names.items }
    requires written { length known.now ≡ length project.now.written.items }
    ensures { IfOk result (λ made. made.items ≡ steps.kinds_from project.now known.now 0 project.now.bound.now.tables.entities) }
{
    let mut kinds = Vec::new(alloc);
    let mut number = 0;
    for entity in project.bound.tables.entities.as_slice() {
        kinds.push(kind_at(project, known, number, entity)?)?;
        number += 1;
    }
    Ok(kinds)
}
