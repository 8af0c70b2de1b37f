//! What is known of an entity as a value: its shape, its constant value, its type and rank (Fortran 90, 2.4, 5.1.1.5).

ghost use Rattle.std.specs.Prelude.{◌≡◌, ◌<◌, length, IfOk};
ghost use Rattle.ftn_tree.specs.DeclaredEntities as declared;
ghost use Rattle.ftn_tree.specs.EntityValues as spec;
ghost use Rattle.ftn_tree.specs.Extents.{layer_at};
ghost use Rattle.ftn_tree.specs.Shapes as shapes;
ghost use Rattle.const_value.specs.steps.EntityShapes as steps;
ghost use Rattle.const_value.specs.steps.Projects.{sort_seen};
ghost use Rattle.std.specs.Option.{option_map};

use crate::measured::Measured;
use crate::project::{Project, Sort};
use decl_table::forms::form_at;
use ftn_base::{Length, NoMemory, Shape, Ty};
use ftn_tree::{Entity, EntityKind, FileTree, Form, Kind, Scope, Value};
use std::alloc::Global;

fn has_result_at(files: &[FileTree], scope: &Scope) -> bool
    ensures { result ≡ declared.has_result_at (layer_at files.now scope.now.unit.file scope.now.unit.statement) }
{
    match form_at(files, scope.unit.file, scope.unit.statement) {
        Some(Form::Function { result, .. }) => result.is_some(),
        _ => false,
    }
}

/// Whether RESULT stands in the opening of a function.
fn has_result(project: &Project<'_>, opens: Option<u32>) -> bool
    ensures { result ≡ steps.has_result project.now opens }
{
    match opens {
        Some(scope) => match project.bound.tables.scopes.get(scope as usize) {
            Some(scope) => has_result_at(project.files, scope),
            None => false,
        },
        None => false,
    }
}

/// Whether it holds a value: a variable, a constant, a dummy argument or a result.
fn holds(project: &Project<'_>, entity: &Entity) -> bool
    ensures { result ≡ steps.holds project.now entity.now }
{
    match entity.kind {
        EntityKind::Variable | EntityKind::Constant | EntityKind::Dummy | EntityKind::Answer =>
            true,
        EntityKind::Function => !has_result(project, entity.opens),
        _ => false,
    }
}

/// The number of the name of what an entity holds.
pub(crate) fn held_name(project: &Project<'_>, number: usize, entity: &Entity) -> Option<usize>
    ensures { result ≡ steps.held_name project.now number entity.now }
{
    if holds(project, entity) {
        project.name_of(number)
    } else {
        None
    }
}

/// The number where it has 32 bits.
fn in_32_bits(number: usize) -> Result<u32, NoMemory>
    ensures { IfOk result (λ same. same ≡ number) }
{
    if number < 4294967296 {
        Ok(number as u32)
    } else {
        Err(NoMemory)
    }
}

/// A length of `*` is that of the value.
fn with_value(ty: Ty, value: &Option<Value>) -> Result<Ty, NoMemory>
    ensures { IfOk result (λ full. full ≡ shapes.with_value value.now ty) }
{
    match ty {
        Ty::Character(Length::Assumed) => match value {
            Some(Value::Chars(text)) => {
                let length = in_32_bits(text.bytes().len())?;
                Ok(Ty::Character(Length::Fixed(length)))
            }
            _ => Ok(ty),
        },
        _ => Ok(ty),
    }
}

/// The type of an entity, its length with it: the length `*` of a constant is that of its value.
fn full_type(known: &Measured) -> Result<Option<Ty>, NoMemory>
    ensures { IfOk result (λ ty. ty ≡ steps.full_type known.now) }
{
    match known.ty {
        Some(ty) => Ok(Some(with_value(ty, &known.value)?)),
        None => Ok(None),
    }
}

/// The type and the bounds, where all are constant.
pub(crate) fn shape_of(alloc: Global, known: &Measured) -> Result<Option<Shape>, NoMemory>
    ensures { IfOk result (λ made. made ≡ steps.shape_of known.now) }
{
    match full_type(known)? {
        Some(ty) => match &known.bounds {
            Some(bounds) => Ok(Some(Shape {
                ty,
                bounds: bounds.copy(alloc)?,
            })),
            None => Ok(None),
        },
        None => Ok(None),
    }
}

/// The type, where a length that isn't known is that of the actual argument or of the value.
fn type_by(known: Option<Ty>, sort: Option<Sort>) -> Option<Ty>
    ensures { result ≡ spec.type_by known (option_map sort_seen sort) }
{
    match known {
        Some(ty) => Some(ty),
        None => match sort {
            Some(Sort::Whole) => Some(Ty::Integer),
            Some(Sort::Truth) => Some(Ty::Logical),
            Some(Sort::Text) => Some(Ty::Character(Length::Assumed)),
            None => None,
        },
    }
}

/// The type and the rank.
pub(crate) fn kind_of(
    project: &Project<'_>,
    known: &Measured,
    name: usize,
) -> Result<Option<Kind>, NoMemory>
    requires names { name < length project.now.names.items }
    requires written { name < length project.now.written.items }
    ensures { IfOk result (λ kind. kind ≡ steps.kind_by project.now known.now name) }
{
    let full = full_type(known)?;
    let rank = in_32_bits(project.rank_of(name))?;
    match type_by(full, project.sort_of(name)) {
        Some(ty) => Ok(Some(Kind { ty, rank })),
        None => Ok(None),
    }
}

/// The value of a constant.
pub(crate) fn constant_of(
    alloc: Global,
    kind: EntityKind,
    known: &Measured,
) -> Result<Option<Value>, NoMemory>
    ensures { IfOk result (λ value. value ≡ steps.constant_of kind known.now) }
{
    match kind {
        EntityKind::Constant => match &known.value {
            Some(value) => Ok(Some(value.copy(alloc)?)),
            None => Ok(None),
        },
        _ => Ok(None),
    }
}
