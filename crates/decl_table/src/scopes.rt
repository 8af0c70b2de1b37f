//! The table of the scoping units of a project.

ghost use Rattle.std.specs.Prelude.{◌≡◌, ◌+◌, ◌++◌, ◌∷◌, [], map as map_of, take, length, ◌<◌, slice_get, Some, IfOk, OnOk};
ghost use Rattle.ftn_tree.specs.DeclaredEntities as entities;
ghost use Rattle.ftn_tree.specs.Extents as spec;
ghost use Rattle.ftn_tree.specs.ScopeLetters as implicit;
ghost use Rattle.ftn_tree.specs.Scopes as scopes;
ghost use Rattle.ftn_tree.specs.Projects.{AreTrees};
ghost use Rattle.decl_table.specs.steps.Located.{IsScoping};
ghost use Rattle.decl_table.specs.steps.Rows.{rows_of};
ghost use Rattle.decl_table.specs.steps.Following as steps;

use crate::forms::{first_token_at, span_of};
use crate::letters::after_own;
use crate::own::own_statements;
use crate::scoping::{Scoping, kind_of, scope_name, unit_at};
use ftn_base::{Bytes, Letter, NoMemory};
use ftn_tree::{Extent, FileTree, Scope, StatementId};
use implicit_type::LetterMap;
use sqlite_items::Items;
use std::alloc::Global;

fn outer_path(alloc: Global, files: &[FileTree], unit: Extent) -> Result<Bytes, NoMemory>
    ensures { IfOk result (λ path. path ≡ scopes.scope_name files.now unit) }
{
    Bytes::from_slice(alloc, scope_name(files, unit))
}

fn inner_path(
    alloc: Global,
    files: &[FileTree],
    unit: Extent,
    host: &[u8],
) -> Result<Bytes, NoMemory>
    ensures { IfOk result (λ path. path ≡ host.now ++ 47 ∷ scopes.scope_name files.now unit) }
{
    let mut path = Vec::from_slice(alloc, host)?;
    path.push(b'/')?;
    path.extend_from_slice(scope_name(files, unit))?;
    Ok(Bytes::from_vec(path))
}

/// The path of a scoping unit, by those of the scoping units before it.
fn path_of(
    alloc: Global,
    files: &[FileTree],
    unit: Extent,
    host: Option<u32>,
    paths: &[Bytes],
) -> Result<Bytes, NoMemory>
    ensures { IfOk result (λ path. path ≡ steps.path_by files.now unit host paths.now) }
{
    match host {
        Some(host) => match paths.get(host as usize) {
            Some(path) => inner_path(alloc, files, unit, path.bytes()),
            None => outer_path(alloc, files, unit),
        },
        None => outer_path(alloc, files, unit),
    }
}

/// The letters of a scoping unit, by those of the scoping units before it.
fn letters_of(
    files: &[FileTree],
    unit: Extent,
    own: &[u32],
    body: bool,
    host: Option<u32>,
    maps: &[LetterMap],
) -> LetterMap
    requires own { own.now ≡ scopes.own_statements files.now unit }
    requires body { body ≡ spec.is_body files.now unit }
    ensures { result ≡ steps.entries_by files.now unit host maps.now }
{
    match host {
        Some(host) => match maps.get(host as usize) {
            Some(map) => after_own(files, unit, own, body, map),
            None => after_own(files, unit, own, body, &LetterMap::standard()),
        },
        None => after_own(files, unit, own, body, &LetterMap::standard()),
    }
}

/// The entry of a scoping unit.
fn entry_of(
    files: &[FileTree],
    unit: Extent,
    body: bool,
    host: Option<u32>,
    path: Bytes,
    letters: Items<Letter>,
) -> Scope
    requires body { body ≡ spec.is_body files.now unit }
    requires host { host ≡ scopes.host_number files.now unit }
    requires path { path ≡ scopes.path_of files.now unit }
    requires types { letters ≡ implicit.letters_of files.now unit }
    ensures { result ≡ entities.scope_entry files.now unit }
{
    Scope {
        kind: kind_of(files, unit, body),
        path,
        host,
        opening: span_of(
            files,
            unit.file,
            first_token_at(files, unit.file, unit.opening),
        ),
        unit: StatementId {
            file: unit.file,
            statement: unit.opening,
        },
        letters,
    }
}

/// Adds the entry of the scoping unit of that number, its path and its letters to those of all before it.
fn push_scope(
    alloc: Global,
    files: &[FileTree],
    scoping: &Scoping,
    number: u32,
    paths: &mut Vec<Bytes>,
    maps: &mut Vec<LetterMap>,
) -> Result<Scope, NoMemory>
    requires trees { AreTrees files.now }
    requires known { IsScoping files.now scoping.now }
    requires within { number < length (spec.scoping files.now) }
    requires paths { paths.old.items ≡ map_of (scopes.path_of files.now) (take number (spec.scoping files.now)) }
    requires maps { maps.old.items ≡ map_of (implicit.entries_of files.now) (take number (spec.scoping files.now)) }
    ensures scope { IfOk result (λ scope. map_of (entities.scope_entry files.now) (take (number + 1) (spec.scoping files.now)) ≡ map_of (entities.scope_entry files.now) (take number (spec.scoping files.now)) ++ scope ∷ []) }
    ensures paths { OnOk result (paths.new.items ≡ map_of (scopes.path_of files.now) (take (number + 1) (spec.scoping files.now))) }
    ensures maps { OnOk result (maps.new.items ≡ map_of (implicit.entries_of files.now) (take (number + 1) (spec.scoping files.now))) }
{
    let (unit, body, host) = unit_at(files, scoping, number);
    let own = own_statements(alloc, &scoping.rows, unit, number)?;
    let path = path_of(alloc, files, unit, host, paths)?;
    let map = letters_of(files, unit, &own, body, host, maps);
    let types = Items::from_vec(map.types(alloc)?);
    paths.push(path.copy(alloc)?)?;
    maps.push(map)?;
    Ok(entry_of(files, unit, body, host, path, types))
}

/// The scoping units of a project (Fortran 90, 14.1.1), in the order of files and of the openings in each: what each is, its path and
/// its host, the token and the statement that open it, and the implicit types of its letters (5.3).
pub(crate) fn scope_table(
    alloc: Global,
    files: &[FileTree],
    scoping: &Scoping,
) -> Result<Items<Scope>, NoMemory>
    requires trees { AreTrees files.now }
    requires known { IsScoping files.now scoping.now }
    ensures { IfOk result (λ made. made ≡ map_of (entities.scope_entry files.now) (spec.scoping files.now)) }
{
    let mut made = Vec::new(alloc);
    let mut paths = Vec::new(alloc);
    let mut maps = Vec::new(alloc);
    for at in 0..scoping.units.len() {
        let scope = push_scope(alloc, files, scoping, at as u32, &mut paths, &mut maps)?;
        made.push(scope)?;
    }
    Ok(Items::from_vec(made))
}
