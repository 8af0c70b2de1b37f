//! The scoping units and the declared entities of a file, or the first fault of its declarations.

ghost use Rattle.std.specs.Prelude.{◌∷◌, []};
ghost use Rattle.ftn_tree.specs.Projects.{AreTrees};

use crate::line::{join, put, put_place};
use decl_table::declare;
use ftn_base::{Fault, MOST_FILE_BYTES, Name, NoMemory, Span, Status};
use ftn_tree::{Entity, EntityKind, FileTree, Scope, ScopeKind, TableFault, Tables, Tokens};
use std::alloc::Global;
use std::slice::from_ref;

/// The word for what a scoping unit is.
fn scope_word(kind: ScopeKind) -> &'static [u8] {
    match kind {
        ScopeKind::Program => b"program",
        ScopeKind::Module => b"module",
        ScopeKind::BlockData => b"block data",
        ScopeKind::Subroutine => b"subroutine",
        ScopeKind::Function => b"function",
        ScopeKind::Body => b"interface body",
    }
}

/// The word for what an entity is.
fn entity_word(kind: EntityKind) -> &'static [u8] {
    match kind {
        EntityKind::Program => b"program",
        EntityKind::Module => b"module",
        EntityKind::BlockData => b"block data",
        EntityKind::Subroutine => b"subroutine",
        EntityKind::Function => b"function",
        EntityKind::Variable => b"variable",
        EntityKind::Constant => b"constant",
        EntityKind::Dummy => b"dummy",
        EntityKind::Answer => b"result",
        EntityKind::Block => b"block",
        EntityKind::Generic => b"generic",
        EntityKind::Construct => b"construct",
        EntityKind::Intrinsic => b"intrinsic",
    }
}

/// The line and the column of a byte of the file, both from 1.
fn place_at(tokens: &Tokens, at: u32) -> (u32, u32) {
    let starts = tokens.line_starts.as_slice();
    let line = starts.partition_point(|start: &u32| *start <= at);
    if line > MOST_FILE_BYTES as usize {
        return (0, 0);
    }
    match starts.get(line.saturating_sub(1)) {
        Some(start) => (line as u32, at.saturating_sub(*start).saturating_add(1)),
        None => (0, 0),
    }
}

/// Adds the place of a row of bytes.
fn put_span(alloc: Global, out: &mut Vec<u8>, tokens: &Tokens, span: Span) -> Result<(), NoMemory> {
    put_place(alloc, out, place_at(tokens, span.range.start))
}

/// Adds the path of the scoping unit of that number, after a word, where there is one.
fn put_path(
    out: &mut Vec<u8>,
    scopes: &[Scope],
    word: &[u8],
    number: Option<u32>,
) -> Result<(), NoMemory> {
    let Some(number) = number else {
        return Ok(());
    };
    put(out, word)?;
    match scopes.get(number as usize) {
        Some(scope) => put(out, scope.path.bytes()),
        None => put(out, b"?"),
    }
}

/// Adds a line: the place of the opening, the path, what it is, and the host.
fn put_scope(
    alloc: Global,
    out: &mut Vec<u8>,
    tokens: &Tokens,
    scopes: &[Scope],
    scope: &Scope,
) -> Result<(), NoMemory> {
    join(out, b"scope")?;
    put_span(alloc, out, tokens, scope.opening)?;
    put(out, scope.path.bytes())?;
    put(out, scope_word(scope.kind))?;
    put_path(out, scopes, b"in", scope.host)?;
    join(out, b"\n")
}

/// Adds a name, or a dash where there is none.
fn put_name(out: &mut Vec<u8>, name: &Option<Name>) -> Result<(), NoMemory> {
    match name {
        Some(name) => put(out, name.bytes()),
        None => put(out, b"-"),
    }
}

/// Adds a line: the place of the first token, the name, what it is, the scoping unit that it belongs to, and whether its type comes from
/// its first letter.
fn put_entity(
    alloc: Global,
    out: &mut Vec<u8>,
    tokens: &Tokens,
    scopes: &[Scope],
    entity: &Entity,
) -> Result<(), NoMemory> {
    join(out, b"entity")?;
    put_span(alloc, out, tokens, entity.first)?;
    put_name(out, &entity.name)?;
    put(out, entity_word(entity.kind))?;
    put_path(out, scopes, b"of", entity.home)?;
    if entity.implicit {
        put(out, b"implicit")?;
    }
    join(out, b"\n")
}

fn put_tables(
    alloc: Global,
    out: &mut Vec<u8>,
    tokens: &Tokens,
    tables: &Tables,
) -> Result<Status, NoMemory> {
    let scopes = tables.scopes.as_slice();
    for scope in scopes {
        put_scope(alloc, out, tokens, scopes, scope)?;
    }
    for entity in tables.entities.as_slice() {
        put_entity(alloc, out, tokens, scopes, entity)?;
    }
    Ok(Status::Done)
}

/// Adds a place, or a dash where there is none.
fn put_maybe_span(
    alloc: Global,
    out: &mut Vec<u8>,
    tokens: &Tokens,
    span: Option<Span>,
) -> Result<(), NoMemory> {
    match span {
        Some(span) => put_span(alloc, out, tokens, span),
        None => put(out, b"-"),
    }
}

/// Adds the line of a fault, with the place that it clashes with where it has one.
fn put_clash(
    alloc: Global,
    out: &mut Vec<u8>,
    tokens: &Tokens,
    fault: Fault,
) -> Result<Status, NoMemory> {
    join(out, b"fault")?;
    put(out, fault.kind.name().as_bytes())?;
    put_maybe_span(alloc, out, tokens, fault.span)?;
    if let Some(other) = fault.other {
        put(out, b"first at")?;
        put_span(alloc, out, tokens, other)?;
    }
    join(out, b"\n")?;
    Ok(Status::BadProject)
}

/// Adds a line for each scoping unit of a file and then one for each of its declared entities, or the line of the first fault of its
/// declarations. It gives how that ends.
pub fn put_scopes(alloc: Global, out: &mut Vec<u8>, tree: &FileTree) -> Result<Status, NoMemory>
    requires { AreTrees (tree.now ∷ []) }
{
    match declare(alloc, from_ref(tree)) {
        Ok(tables) => put_tables(alloc, out, &tree.tokens, &tables),
        Err(TableFault::Project(fault)) => put_clash(alloc, out, &tree.tokens, fault),
        Err(TableFault::NoMemory) => Err(NoMemory),
    }
}
