//! The types with their lengths, and the ranks, of names (Fortran 90, 5.1, 5.1.1.5, 12.3.2).

ghost use Rattle.std.specs.Prelude.{◌≡◌, ◌<◌, length, IfOk};
ghost use Rattle.std.specs.Option.{option_or};
ghost use Rattle.ftn_tree.specs.Constants as constants;
ghost use Rattle.ftn_tree.specs.Declarations.{type_length};
ghost use Rattle.ftn_tree.specs.TypeFaults as spec;
ghost use Rattle.const_expr.specs.Namings.{evaluated_by};
ghost use Rattle.const_value.specs.steps.Measuring as measuring;
ghost use Rattle.const_value.specs.steps.References.{file_of};
ghost use Rattle.const_value.specs.steps.Written.{typing_seen};
ghost use Rattle.type_check.specs.steps.Natures as steps;

use const_expr::{Naming, Setting, evaluate};
use const_value::project::{Project, Sort};
use const_value::written::Typing;
use ftn_base::{Length, Letter, NoMemory, Ty};
use ftn_tree::{CharLength, Expr, LengthSelector, LengthValue, TypeSpec, Value};
use name_types::kinds::same_sort;
use std::alloc::Global;

/// A type with its length, where that is constant, and a rank.
#[derive(Clone, Copy)]
pub struct Nature {
    pub sort: Option<Sort>,
    pub length: Option<u32>,
    pub rank: usize,
}

fn same_sorts(one: Option<Sort>, other: Option<Sort>) -> bool
    ensures { result ≡ steps.same_sorts one other }
{
    match one {
        Some(one) => match other {
            Some(other) => same_sort(one, other),
            None => false,
        },
        None => other.is_none(),
    }
}

fn same_lengths(one: Option<u32>, other: Option<u32>) -> bool
    ensures { result ≡ steps.same_lengths one other }
{
    match one {
        Some(one) => match other {
            Some(other) => one == other,
            None => false,
        },
        None => other.is_none(),
    }
}

impl Nature {
    /// Whether both are one type.
    pub fn is_same_type(&self, other: &Nature) -> bool
        ensures { result ≡ spec.same_type (steps.nature_seen self.now) (steps.nature_seen other.now) }
    {
        same_sorts(self.sort, other.sort) && same_lengths(self.length, other.length)
    }

    /// Whether both are one type and rank.
    pub fn is_same(&self, other: &Nature) -> bool
        ensures { result ≡ spec.same_nature (steps.nature_seen self.now) (steps.nature_seen other.now) }
    {
        self.is_same_type(other) && self.rank == other.rank
    }
}

/// A negative length is 0.
fn fixed(z: i32) -> u32
    ensures { result ≡ constants.at_least_none z }
{
    if z < 0 { 0 } else { z as u32 }
}

/// The value of an expression as a length.
fn length_given(alloc: Global, setting: &Setting<'_>, expr: &Expr) -> Result<Option<u32>, NoMemory>
    ensures { IfOk result (λ made. made ≡ steps.fixed_in (constants.length_by (evaluated_by setting.now.row.now setting.now.namings.now expr.now).value)) }
{
    Ok(match evaluate(alloc, setting, expr)?.value {
        Some(Value::Whole(z)) => Some(fixed(z)),
        _ => None,
    })
}

fn of_value(
    alloc: Global,
    setting: &Setting<'_>,
    value: &LengthValue,
) -> Result<Option<u32>, NoMemory>
    ensures { IfOk result (λ made. made ≡ steps.fixed_in (constants.length_in (evaluated_by setting.now.row.now setting.now.namings.now) value.now)) }
{
    match value {
        LengthValue::Assumed => Ok(None),
        LengthValue::Given(expr) => length_given(alloc, setting, expr),
    }
}

fn of_length(
    alloc: Global,
    setting: &Setting<'_>,
    length: &CharLength,
) -> Result<Option<u32>, NoMemory>
    ensures { IfOk result (λ made. made ≡ steps.length_by (evaluated_by setting.now.row.now setting.now.namings.now) length.now) }
{
    match length {
        CharLength::Whole { value, .. } => Ok(Some(fixed(*value))),
        CharLength::Paren(value) => of_value(alloc, setting, value),
    }
}

/// The length of a type; none is 1.
fn of_type(alloc: Global, setting: &Setting<'_>, ty: &TypeSpec) -> Result<Option<u32>, NoMemory>
    ensures { IfOk result (λ made. made ≡ steps.length_or (evaluated_by setting.now.row.now setting.now.namings.now) (type_length ty.now)) }
{
    match ty {
        TypeSpec::Character(Some(LengthSelector::Star(length))) => {
            of_length(alloc, setting, length)
        }
        TypeSpec::Character(Some(LengthSelector::Paren { length, .. })) => {
            of_value(alloc, setting, length)
        }
        _ => Ok(Some(1)),
    }
}

/// The length of a character entity: its own, else that of its type.
fn length_of(
    alloc: Global,
    setting: &Setting<'_>,
    typing: &Typing<'_>,
) -> Result<Option<u32>, NoMemory>
    ensures { IfOk result (λ made. made ≡ steps.length_or (evaluated_by setting.now.row.now setting.now.namings.now) (option_or (typing_seen typing.now).length (type_length typing.now.ty.now))) }
{
    match typing.length {
        Some(length) => of_length(alloc, setting, length),
        None => of_type(alloc, setting, typing.ty),
    }
}

/// The length of what gets a type so.
fn length_typed(
    alloc: Global,
    setting: &Setting<'_>,
    typing: &Typing<'_>,
) -> Result<Option<u32>, NoMemory>
    ensures { IfOk result (λ made. made ≡ spec.fixed_length (measuring.typed_by (evaluated_by setting.now.row.now setting.now.namings.now) (typing_seen typing.now))) }
{
    match typing.ty {
        TypeSpec::Character(_) => length_of(alloc, setting, typing),
        _ => Ok(None),
    }
}

fn length_lettered(letter: Letter) -> Option<u32>
    ensures { result ≡ spec.fixed_length (constants.letter_type letter) }
{
    match letter {
        Letter::Known(ty) => match ty {
            Ty::Character(Length::Fixed(length)) => Some(length),
            _ => None,
        },
        _ => None,
    }
}

/// The length of a name, by what expressions give in a file.
fn length_in(
    alloc: Global,
    project: &Project<'_>,
    setting: &Setting<'_>,
    name: usize,
) -> Result<Option<u32>, NoMemory>
    requires names { name < length project.now.names.items }
    requires written { name < length project.now.written.items }
    ensures { IfOk result (λ made. made ≡ spec.fixed_length (measuring.declared_type (evaluated_by setting.now.row.now setting.now.namings.now) project.now.bound.now project.now.names.items project.now.written.items name)) }
{
    match &project.written[name].typing {
        Some(typing) => length_typed(alloc, setting, typing),
        None => Ok(length_lettered(project.letter_of(name))),
    }
}

/// The number of the file where a name is.
fn file_of(project: &Project<'_>, name: usize) -> u32
    ensures { result ≡ file_of project.now.names.items name }
{
    match project.names.get(name) {
        Some(owned) => owned.file,
        None => 0,
    }
}

fn length_at(
    alloc: Global,
    project: &Project<'_>,
    namings: &[Naming],
    name: usize,
) -> Result<Option<u32>, NoMemory>
    requires names { name < length project.now.names.items }
    requires written { name < length project.now.written.items }
    ensures { IfOk result (λ made. made ≡ spec.fixed_length (measuring.declared_type (steps.given_for project.now namings.now name) project.now.bound.now project.now.names.items project.now.written.items name)) }
{
    let setting = Setting {
        row: project.row(file_of(project, name)),
        namings,
    };
    length_in(alloc, project, &setting, name)
}

/// Those of the name of that number.
pub fn nature_of(
    alloc: Global,
    project: &Project<'_>,
    namings: &[Naming],
    name: usize,
) -> Result<Nature, NoMemory>
    requires names { name < length project.now.names.items }
    requires written { name < length project.now.written.items }
    ensures { IfOk result (λ made. steps.nature_seen made ≡ steps.nature_by project.now namings.now name) }
{
    let length = length_at(alloc, project, namings, name)?;
    Ok(Nature {
        sort: project.sort_of(name),
        length,
        rank: project.rank_of(name),
    })
}
