//! The procedures of a project as references see them (Fortran 90, 12.2, 12.5.2).

ghost use Rattle.std.specs.Prelude.{◌≡◌, map, IfOk};
ghost use Rattle.std.specs.Option.{option_map};
ghost use Rattle.ftn_tree.specs.Extents.{layer_at};
ghost use Rattle.ftn_tree.specs.Procedures as spec;
ghost use Rattle.name_types.specs.steps.Kinds.{formal_seen, kind_seen, signature_seen};
ghost use Rattle.name_types.specs.steps.Signatures as steps;

use crate::declared::Declared;
use crate::kinds::{Formal, Kind, Signature};
use decl_table::forms::{form_at, name_at};
use ftn_base::NoMemory;
use ftn_tree::{Extent, FileTree, Form};
use std::alloc::Global;

/// The dummy argument of that name.
fn formal(declared: &Declared<'_>, scope: usize, name: &[u8]) -> Formal
    ensures { formal_seen result ≡ steps.formal_by declared.now scope name.now }
{
    Formal {
        kind: declared.kind(scope, name),
        out: declared.is_out(scope, name),
    }
}

/// The dummy arguments whose names stand at these tokens.
fn formals(
    alloc: Global,
    files: &[FileTree],
    declared: &Declared<'_>,
    scope: usize,
    file: u32,
    tokens: &[u32],
) -> Result<Vec<Formal>, NoMemory>
    ensures { IfOk result (λ made. map formal_seen made.items ≡ map (steps.formal_at files.now declared.now scope file) tokens.now) }
{
    let mut made = Vec::new(alloc);
    for token in tokens {
        made.push(formal(declared, scope, name_at(files, file, *token)))?;
    }
    Ok(made)
}

/// The tokens of the names of the dummy arguments of what opens there.
fn dummy_tokens(files: &[FileTree], unit: Extent) -> &[u32]
    ensures { result.now ≡ spec.dummy_tokens (layer_at files.now unit.file unit.opening) }
{
    match form_at(files, unit.file, unit.opening) {
        Some(form) => match form {
            Form::Subroutine { dummies, .. } => match dummies {
                Some(dummies) => dummies.as_slice(),
                None => &[],
            },
            Form::Function { dummies, .. } => dummies.as_slice(),
            _ => &[],
        },
        None => &[],
    }
}

/// The token of the name of the result of what opens there (12.5.2.2).
fn result_token(files: &[FileTree], unit: Extent) -> Option<u32>
    ensures { result ≡ spec.result_token (layer_at files.now unit.file unit.opening) }
{
    match form_at(files, unit.file, unit.opening) {
        Some(Form::Function { name, result, .. }) => Some(result.unwrap_or(*name)),
        _ => None,
    }
}

fn result_kind(
    files: &[FileTree],
    declared: &Declared<'_>,
    scope: usize,
    unit: Extent,
) -> Option<Kind>
    ensures { option_map kind_seen result ≡ steps.result_by files.now declared.now scope unit }
{
    match result_token(files, unit) {
        Some(token) => declared.kind(scope, name_at(files, unit.file, token)),
        None => None,
    }
}

/// What a scoping unit is as a procedure.
fn signature_of(
    alloc: Global,
    files: &[FileTree],
    declared: &Declared<'_>,
    scope: usize,
    unit: Extent,
) -> Result<Signature, NoMemory>
    ensures { IfOk result (λ made. signature_seen made ≡ steps.signature_by files.now declared.now scope unit) }
{
    let formals = formals(
        alloc,
        files,
        declared,
        scope,
        unit.file,
        dummy_tokens(files, unit),
    )?;
    Ok(Signature {
        procedure: unit,
        formals,
        function: result_token(files, unit).is_some(),
        result: result_kind(files, declared, scope, unit),
    })
}

/// What each scoping unit is as a procedure, by its number.
pub fn signatures_of(
    alloc: Global,
    files: &[FileTree],
    declared: &Declared<'_>,
    units: &[Extent],
) -> Result<Vec<Signature>, NoMemory>
    ensures { IfOk result (λ made. map signature_seen made.items ≡ steps.signatures_from files.now declared.now 0 units.now) }
{
    let mut made = Vec::new(alloc);
    let mut scope = 0;
    for unit in units {
        made.push(signature_of(alloc, files, declared, scope, *unit)?)?;
        scope += 1;
    }
    Ok(made)
}
