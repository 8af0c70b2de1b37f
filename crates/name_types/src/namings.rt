//! What the entities of a project are as references see them (Fortran 90, 2.4.5, 5.3, 12.5.2.2, 14.7.6).

ghost use Rattle.std.specs.Prelude.{◌≡◌, None, IfOk};
ghost use Rattle.std.specs.Option.{option_map};
ghost use Rattle.ftn_tree.specs.DeclaredEntities as entities;
ghost use Rattle.ftn_tree.specs.Extents.{layer_at, scoping as scoping_of};
ghost use Rattle.const_value.specs.steps.Projects.{sort_seen};
ghost use Rattle.decl_table.specs.steps.Located.{IsScoping};
ghost use Rattle.name_types.specs.steps.Gathered.{Due, what_seen};
ghost use Rattle.name_types.specs.steps.Generics.{AreGenerics};
ghost use Rattle.name_types.specs.steps.Namings as steps;

use crate::declared::Declared;
use crate::generics::Generics;
use crate::names::{Naming, What};
use const_expr::function_named;
use const_value::project::Sort;
use decl_table::forms::form_at;
use decl_table::scoping::Scoping;
use ftn_base::NoMemory;
use ftn_tree::{Entity, EntityKind, Extent, FileTree, Form};
use std::alloc::Global;

/// Whether RESULT stands in the opening of a function.
fn has_result(files: &[FileTree], extent: Extent) -> bool
    ensures { result ≡ entities.has_result_at (layer_at files.now extent.file extent.opening) }
{
    match form_at(files, extent.file, extent.opening) {
        Some(Form::Function { result, .. }) => result.is_some(),
        _ => false,
    }
}

/// The scoping unit in which what an entity holds is declared: the one that it opens, else its own.
fn scope_of(entity: &Entity) -> Option<u32>
    ensures { result ≡ steps.scope_of entity.now }
{
    match entity.opens {
        Some(scope) => Some(scope),
        None => entity.home,
    }
}

/// Its name. A BLOCK DATA without one has `%blockdata`.
fn name_of(entity: &Entity) -> &[u8]
    ensures { result.now ≡ steps.name_of entity.now }
{
    match &entity.name {
        Some(name) => name.bytes(),
        None => b"%blockdata",
    }
}

/// The type and the rank of what is declared under an entity's name.
fn sort_and_rank(declared: &Declared<'_>, entity: &Entity) -> (Option<Sort>, usize)
    ensures sort { option_map sort_seen result.0 ≡ steps.sort_of declared.now entity.now }
    ensures rank { result.1 ≡ steps.rank_of declared.now entity.now }
{
    match scope_of(entity) {
        Some(scope) => (
            declared.sort(scope as usize, name_of(entity)),
            declared.rank(scope as usize, name_of(entity)),
        ),
        None => (None, 0),
    }
}

/// Whether RESULT stands in the opening of the function of that number.
fn has_answer(files: &[FileTree], scoping: &Scoping, scope: u32) -> bool
    requires { IsScoping files.now scoping.now }
    ensures { result ≡ steps.has_answer files.now scope }
{
    match scoping.units.get(scope as usize) {
        Some(extent) => has_result(files, *extent),
        None => false,
    }
}

/// What a program unit or a procedure is.
fn unit_what(files: &[FileTree], scoping: &Scoping, kind: EntityKind, scope: u32) -> What
    requires { IsScoping files.now scoping.now }
    ensures { what_seen files.now result ≡ steps.unit_what files.now kind scope }
{
    match kind {
        EntityKind::Function => What::Function {
            scope,
            answer: has_answer(files, scoping, scope),
        },
        EntityKind::Subroutine => What::Subroutine { scope },
        _ => What::Other,
    }
}

/// Whether a name of a scoping unit may be defined (14.7.6).
fn may_be_defined(declared: &Declared<'_>, kind: EntityKind, scope: u32, name: &[u8]) -> bool
    ensures { result ≡ steps.may_be_defined declared.now kind scope name.now }
{
    match kind {
        EntityKind::Constant => false,
        EntityKind::Dummy => !declared.is_given(scope as usize, name),
        _ => true,
    }
}

/// What a name of a scoping unit is.
fn own_what(
    alloc: Global,
    files: &[FileTree],
    declared: &Declared<'_>,
    generics: &Generics<'_>,
    entity: &Entity,
    scope: u32,
) -> Result<What, NoMemory>
    requires { AreGenerics files.now generics.now }
    ensures { IfOk result (steps.IsOwn files.now declared.now entity.now.kind scope (steps.name_of entity.now)) }
{
    let name = name_of(entity);
    match entity.kind {
        EntityKind::Generic => {
            let specifics = generics.specifics(alloc, files, scope, name)?;
            Ok(What::Generic { specifics })
        }
        EntityKind::Construct => Ok(What::Other),
        kind => Ok(What::Data {
            definable: may_be_defined(declared, kind, scope, name),
        }),
    }
}

/// What stands in no scoping unit: intrinsic functions, and common blocks.
fn loose_what(entity: &Entity) -> What
    ensures { result ≡ steps.loose_what entity.now }
{
    match entity.kind {
        EntityKind::Intrinsic => What::Intrinsic {
            function: function_named(name_of(entity)),
        },
        _ => What::Other,
    }
}

/// What an entity is as references see it.
fn what_of(
    alloc: Global,
    files: &[FileTree],
    scoping: &Scoping,
    declared: &Declared<'_>,
    generics: &Generics<'_>,
    entity: &Entity,
) -> Result<What, NoMemory>
    requires known { IsScoping files.now scoping.now }
    requires generics { AreGenerics files.now generics.now }
    ensures { IfOk result (steps.IsWhat files.now declared.now entity.now.kind (steps.name_of entity.now) entity.now entity.now.opens entity.now.home) }
{
    match entity.opens {
        Some(scope) => Ok(unit_what(files, scoping, entity.kind, scope)),
        None => match entity.home {
            Some(scope) => own_what(alloc, files, declared, generics, entity, scope),
            None => Ok(loose_what(entity)),
        },
    }
}

fn naming_of(
    alloc: Global,
    files: &[FileTree],
    scoping: &Scoping,
    declared: &Declared<'_>,
    generics: &Generics<'_>,
    entity: &Entity,
) -> Result<Naming, NoMemory>
    requires known { IsScoping files.now scoping.now }
    requires generics { AreGenerics files.now generics.now }
    ensures { IfOk result (steps.IsKept files.now declared.now entity.now) }
{
    let (sort, rank) = sort_and_rank(declared, entity);
    let what = what_of(alloc, files, scoping, declared, generics, entity)?;
    Ok(Naming { sort, rank, what })
}

/// What each entity of a project is, by its number.
pub fn namings_of(
    alloc: Global,
    files: &[FileTree],
    scoping: &Scoping,
    declared: &Declared<'_>,
    generics: &Generics<'_>,
) -> Result<Vec<Naming>, NoMemory>
    requires known { IsScoping files.now scoping.now }
    requires generics { AreGenerics files.now generics.now }
    ensures { IfOk result (λ namings. steps.AreKept files.now declared.now declared.now.project.now.bound.now.tables.entities namings.items) }
{
    let mut namings = Vec::new(alloc);
    for entity in declared.project.bound.tables.entities.as_slice() {
        namings.push(naming_of(alloc, files, scoping, declared, generics, entity)?)?;
    }
    Ok(namings)
}
