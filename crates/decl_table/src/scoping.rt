//! The scoping units of a project.

ghost use Rattle.std.specs.Prelude.{◌≡◌, ◌<◌, length, map, slice_get, Some, IfOk};
ghost use Rattle.std.specs.List.{filter};
ghost use Rattle.ftn_tree.specs.Extents as spec;
ghost use Rattle.ftn_tree.specs.Scopes as scopes;
ghost use Rattle.ftn_tree.specs.Projects.{AreTrees};
ghost use Rattle.decl_table.specs.steps.Located.{IsScoping, is_interface_number};
ghost use Rattle.decl_table.specs.steps.Rows as rows;

use crate::extents::extents;
use crate::forms::{form_at, is_interface, name_at, name_token};
use crate::rows::{Painted, Row, paint_all};
use ftn_base::NoMemory;
use ftn_tree::{Extent, FileTree, Form, ScopeKind};
use std::alloc::Global;

/// The scoping units of a project in the order of their openings, whether each is an interface body, the number of each one's host,
/// and of each statement the number of the scoping unit that it stands in.
#[derive(Drop)]
pub struct Scoping {
    pub units: Vec<Extent>,
    pub bodies: Vec<bool>,
    pub hosts: Vec<Option<u32>>,
    pub rows: Vec<Row>,
}

/// Whether the extent of that number is an interface block.
fn is_interface_at(files: &[FileTree], all: &[Extent], number: Option<u32>) -> bool
    ensures { result ≡ is_interface_number files.now all.now number }
{
    match number {
        Some(number) => match all.get(number as usize) {
            Some(extent) => is_interface(files, *extent),
            None => false,
        },
        None => false,
    }
}

/// Whether each extent stands right in an interface block.
fn bodies_among(
    alloc: Global,
    files: &[FileTree],
    all: &[Extent],
    around: &[Option<u32>],
) -> Result<Vec<bool>, NoMemory>
    ensures { IfOk result (λ bodies. bodies.items ≡ map (is_interface_number files.now all.now) around.now) }
{
    let mut bodies = Vec::new(alloc);
    for number in around {
        bodies.push(is_interface_at(files, all, *number))?;
    }
    Ok(bodies)
}

/// Those that are no interface blocks.
fn units_among(
    alloc: Global,
    files: &[FileTree],
    all: &[Extent],
    bodies: &[bool],
) -> Result<(Vec<Extent>, Vec<bool>), NoMemory>
    requires { bodies.now ≡ map (spec.is_body files.now) all.now }
    ensures units { IfOk result (λ made. made.0.items ≡ rows.units_of files.now all.now) }
    ensures bodies { IfOk result (λ made. made.1.items ≡ map (spec.is_body files.now) (rows.units_of files.now all.now)) }
{
    let mut units = Vec::new(alloc);
    let mut kept = Vec::new(alloc);
    let mut at = 0;
    for extent in all {
        if !is_interface(files, *extent) {
            units.push(*extent)?;
            kept.push(bodies[at])?;
        }
        at += 1;
    }
    Ok((units, kept))
}

/// The scoping units of a project.
pub fn scoping_units(alloc: Global, files: &[FileTree]) -> Result<Scoping, NoMemory>
    requires { AreTrees files.now }
    ensures { IfOk result (IsScoping files.now) }
{
    let all = extents(alloc, files)?;
    let outer = paint_all(alloc, files, &all)?;
    let bodies = bodies_among(alloc, files, &all, &outer.around)?;
    let (units, bodies) = units_among(alloc, files, &all, &bodies)?;
    let Painted { rows, around } = paint_all(alloc, files, &units)?;
    Ok(Scoping {
        units,
        bodies,
        hosts: around,
        rows,
    })
}

/// What a scoping unit is.
pub fn kind_of(files: &[FileTree], unit: Extent, body: bool) -> ScopeKind
    requires { body ≡ spec.is_body files.now unit }
    ensures { result ≡ scopes.scope_kind files.now unit }
{
    match form_at(files, unit.file, unit.opening) {
        Some(Form::Program { .. }) => ScopeKind::Program,
        Some(Form::Module { .. }) => ScopeKind::Module,
        Some(Form::BlockData { .. }) => ScopeKind::BlockData,
        Some(Form::Function { .. }) => procedure_kind(body, ScopeKind::Function),
        _ => procedure_kind(body, ScopeKind::Subroutine),
    }
}

fn procedure_kind(body: bool, kind: ScopeKind) -> ScopeKind
    ensures { result ≡ scopes.procedure_kind body kind }
{
    if body { ScopeKind::Body } else { kind }
}

/// The name of a scoping unit. A BLOCK DATA without one has `%blockdata`.
pub fn scope_name(files: &[FileTree], unit: Extent) -> &[u8]
    ensures { result.now ≡ scopes.scope_name files.now unit }
{
    match name_token(files, unit) {
        Some(token) => name_at(files, unit.file, token),
        None => b"%blockdata",
    }
}

/// The scoping unit of that number, whether it is an interface body, and the number of its host.
pub fn unit_at(files: &[FileTree], scoping: &Scoping, number: u32) -> (Extent, bool, Option<u32>)
    requires known { IsScoping files.now scoping.now }
    requires within { number < length (spec.scoping files.now) }
    ensures unit { slice_get (spec.scoping files.now) number ≡ Some result.0 }
    ensures body { result.1 ≡ spec.is_body files.now result.0 }
    ensures host { result.2 ≡ scopes.host_number files.now result.0 }
{
    (
        scoping.units[number as usize],
        scoping.bodies[number as usize],
        scoping.hosts[number as usize],
    )
}
