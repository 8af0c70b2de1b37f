//! What the statements of a project write for the names of its scoping units.

ghost use Rattle.std.specs.Prelude.{◌≡◌, ◌++◌, ℕ, List, length, map, slice_get, Some, IfOk, OnOk};
ghost use Rattle.ftn_tree.specs.Declarations.{declared_at};
ghost use Rattle.ftn_tree.specs.Extents.{layer_at, scoping as scoping_of};
ghost use Rattle.ftn_tree.specs.Projects.{AreTrees};
ghost use Rattle.ftn_tree.specs.Scopes as scopes;
ghost use Rattle.decl_table.specs.steps.Located.{IsScoping};
ghost use Rattle.decl_table.specs.steps.Said.{IsWithin};
ghost use Rattle.const_value.specs.steps.Data as steps;
ghost use Rattle.const_value.specs.steps.Names.{all_data, all_said, number_at, number_in as number_kept, number_of};
ghost use Rattle.const_value.specs.steps.Written.{written_of, written_seen};

use crate::declared::{Declared, push_declared};
use crate::name_numbers::{Names, Numbers, number_in};
use crate::written::Written;
use decl_table::forms::{form_at, name_at};
use decl_table::own::own_statements;
use decl_table::scoping::Scoping;
use ftn_base::NoMemory;
use ftn_tree::{Extent, FileTree};
use std::alloc::Global;

/// Adds what a statement declares.
fn push_at<'a>(
    files: &'a [FileTree],
    file: u32,
    statement: u32,
    found: &mut Vec<Declared<'a>>,
) -> Result<(), NoMemory>
    ensures { OnOk result (found.new.items ≡ found.old.items ++ declared_at (layer_at files.now file statement)) }
{
    match form_at(files, file, statement) {
        Some(form) => push_declared(form, found),
        None => Ok(()),
    }
}

/// What the own statements of a scoping unit declare.
fn own_declared<'a>(
    alloc: Global,
    files: &'a [FileTree],
    scoping: &Scoping,
    unit: Extent,
    number: u32,
) -> Result<Vec<Declared<'a>>, NoMemory>
    requires trees { AreTrees files.now }
    requires known { IsScoping files.now scoping.now }
    requires unit { slice_get (scoping_of files.now) number ≡ Some unit }
    ensures { IfOk result (λ found. found.items ≡ steps.declared_in files.now unit) }
{
    let statements = own_statements(alloc, &scoping.rows, unit, number)?;
    let mut found = Vec::new(alloc);
    for statement in &statements {
        push_at(files, unit.file, *statement, &mut found)?;
    }
    Ok(found)
}

/// Writes one more for the name with that number, where there is one.
fn put_one<'a>(number: Option<usize>, declared: &Declared<'a>, written: &mut [Written<'a>])
    requires { IsWithin (length written.old) number }
    ensures { map written_seen written.new ≡ steps.put_one (map written_seen written.old) number declared.now }
{
    if let Some(number) = number {
        written[number] = written[number].with(declared);
    }
}

/// Writes what the statements of a scoping unit declare of its names.
fn put_all<'a>(
    files: &'a [FileTree],
    file: u32,
    numbers: &Numbers<'_>,
    declared: &[Declared<'a>],
    written: &mut [Written<'a>],
)
    requires { (name : List ℕ) → IsWithin (length written.old) (number_kept numbers.now name) }
    ensures { map written_seen written.new ≡ steps.put_by (λ d. number_kept numbers.now (scopes.name_at files.now file d.name)) (map written_seen written.old) declared.now }
{
    for one in declared {
        put_one(
            number_in(numbers, name_at(files, file, one.name)),
            one,
            written,
        );
    }
}

/// For each name what is written for it.
pub(crate) fn written_for<'a>(
    alloc: Global,
    files: &'a [FileTree],
    scoping: &Scoping,
    names: &Names<'_>,
) -> Result<Vec<Written<'a>>, NoMemory>
    requires trees { AreTrees files.now }
    requires known { IsScoping files.now scoping.now }
    requires units { length names.now.numbers.items ≡ length (scoping_of files.now) }
    requires numbers { (scope : ℕ) (name : List ℕ) → number_at names.now.numbers.items scope name ≡ number_of (all_said files.now) scope name }
    requires count { length names.now.all.items ≡ length (all_data files.now) }
    ensures { IfOk result (λ written. map written_seen written.items ≡ map (written_of files.now) (all_data files.now)) }
{
    let mut written = vec![in alloc; Written::nothing(); names.all.len()]?;
    let mut number = 0;
    for unit in &scoping.units {
        let declared = own_declared(alloc, files, scoping, *unit, number)?;
        let numbers = &names.numbers[number as usize];
        put_all(files, unit.file, numbers, &declared, &mut written);
        number += 1;
    }
    Ok(written)
}
