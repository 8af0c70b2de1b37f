//! Statements, tokens and their places by number.

ghost use Rattle.std.specs.Prelude.{◌≡◌};
ghost use Rattle.std.specs.Option.{option_copied};
ghost use Rattle.ftn_tree.specs.Extents as spec;
ghost use Rattle.ftn_tree.specs.Scopes as scopes;

use ftn_base::{Range, Span};
use ftn_tree::{Extent, FileTree, Form};

/// What a statement of a file says, where the file has one of that number.
pub fn form_at(files: &[FileTree], file: u32, statement: u32) -> Option<&Form>
    ensures { option_copied result ≡ spec.form_at files.now file statement }
{
    match files.get(file as usize) {
        Some(tree) => match tree.statements.get(statement as usize) {
            Some(statement) => Some(&statement.form),
            None => None,
        },
        None => None,
    }
}

/// Whether it is an interface block.
pub fn is_interface(files: &[FileTree], extent: Extent) -> bool
    ensures { result ≡ spec.is_interface files.now extent }
{
    match form_at(files, extent.file, extent.opening) {
        Some(Form::Interface { .. }) => true,
        _ => false,
    }
}

/// The folded name at a token of a file.
pub fn name_at(files: &[FileTree], file: u32, token: u32) -> &[u8]
    ensures { result.now ≡ scopes.name_at files.now file token }
{
    match files.get(file as usize) {
        Some(tree) => tree.tokens.name_bytes(token),
        None => &[],
    }
}

/// Where a token of a file stands.
pub fn span_of(files: &[FileTree], file: u32, token: u32) -> Span
    ensures { result ≡ scopes.span_of files.now file token }
{
    let range = match files.get(file as usize) {
        Some(tree) => match tree.tokens.items.get(token as usize) {
            Some(here) => here.range,
            None => Range { start: 0, end: 0 },
        },
        None => Range { start: 0, end: 0 },
    };
    Span { file, range }
}

/// The first token of a statement.
pub fn first_token_at(files: &[FileTree], file: u32, statement: u32) -> u32
    ensures { result ≡ scopes.first_token_at files.now file statement }
{
    match files.get(file as usize) {
        Some(tree) => match tree.statements.get(statement as usize) {
            Some(statement) => statement.tokens.start,
            None => 0,
        },
        None => 0,
    }
}

/// The name that an opening gives.
pub fn name_token(files: &[FileTree], extent: Extent) -> Option<u32>
    ensures { result ≡ scopes.name_token files.now extent }
{
    match form_at(files, extent.file, extent.opening) {
        Some(form) => match form {
            Form::Program { name }
            | Form::Module { name }
            | Form::Subroutine { name, .. }
            | Form::Function { name, .. } => Some(*name),
            Form::BlockData { name, .. } => *name,
            _ => None,
        },
        None => None,
    }
}
