//! The values that the statements of a project give at the start of a run, in the order of statements.

ghost use Rattle.std.specs.Prelude.{◌≡◌, ◌+◌, ◌++◌, false, true, map, slice_get, IfOk, OnOk};
ghost use Rattle.std.specs.Option.{unwrap_or};
ghost use Rattle.ftn_tree.specs.Extents.{is_body, scoping};
ghost use Rattle.ftn_tree.specs.Projects.{AreTrees};
ghost use Rattle.decl_table.specs.steps.Rows.{rows_of};
ghost use Rattle.const_value.specs.steps.FirstFault.{sight_at};
ghost use Rattle.const_value.specs.steps.Giving as steps;
ghost use Rattle.const_value.specs.steps.Telling.{sight_of};

use crate::givens::push_form;
use crate::knowledge::Knowledge;
use crate::project::Project;
use crate::view::View;
use decl_table::rows::{Row, number_at};
use decl_table::scoping::scoping_units;
use ftn_base::NoMemory;
use ftn_tree::{FileTree, Form, Given, Statement};
use std::alloc::Global;

/// The number after that one, where it has 32 bits.
fn next(number: u32) -> Result<u32, NoMemory>
    ensures { IfOk result (λ more. more ≡ number + 1) }
{
    match number.checked_add(1) {
        Some(more) => Ok(more),
        None => Err(NoMemory),
    }
}

/// Whether the scoping unit of that number is an interface body.
fn is_body(bodies: &[bool], scope: u32) -> bool
    ensures { result ≡ unwrap_or (slice_get bodies.now scope) false }
{
    match bodies.get(scope as usize) {
        Some(body) => *body,
        None => false,
    }
}

/// Adds what a statement of a scoping unit gives. Interface bodies give nothing.
fn push_in_scope(
    alloc: Global,
    view: &View<'_>,
    bodies: &[bool],
    scope: u32,
    form: &Form,
    found: &mut Vec<Given>,
) -> Result<(), NoMemory>
    ensures given { OnOk result (found.new.items ≡ found.old.items ++ steps.scope_given (sight_of view.now) bodies.now scope form.now) }
    ensures fits { OnOk result (steps.scope_fits (sight_of view.now) bodies.now scope form.now ≡ true) }
{
    if is_body(bodies, scope) {
        Ok(())
    } else {
        push_form(alloc, view, scope, form, found)
    }
}

fn push_statement(
    alloc: Global,
    view: &View<'_>,
    rows: &[Row],
    bodies: &[bool],
    at: u32,
    statement: &Statement,
    found: &mut Vec<Given>,
) -> Result<(), NoMemory>
    ensures given { OnOk result (found.new.items ≡ found.old.items ++ steps.statement_given (sight_of view.now) rows.now bodies.now at statement.now) }
    ensures fits { OnOk result (steps.statement_fits (sight_of view.now) rows.now bodies.now at statement.now ≡ true) }
{
    match number_at(rows, view.file, at) {
        Some(scope) => push_in_scope(alloc, view, bodies, scope, &statement.form, found),
        None => Ok(()),
    }
}

fn push_statements(
    alloc: Global,
    view: &View<'_>,
    rows: &[Row],
    bodies: &[bool],
    statements: &[Statement],
    found: &mut Vec<Given>,
) -> Result<(), NoMemory>
    ensures given { OnOk result (found.new.items ≡ found.old.items ++ steps.statements_given (sight_of view.now) rows.now bodies.now 0 statements.now) }
    ensures fits { OnOk result (steps.statements_fit (sight_of view.now) rows.now bodies.now 0 statements.now ≡ true) }
{
    let mut at = 0;
    for statement in statements {
        push_statement(alloc, view, rows, bodies, at, statement, found)?;
        at = next(at)?;
    }
    Ok(())
}

/// Adds what the statements of a file give.
fn push_file(
    alloc: Global,
    project: &Project<'_>,
    all: &Knowledge,
    rows: &[Row],
    bodies: &[bool],
    file: u32,
    tree: &FileTree,
    found: &mut Vec<Given>,
) -> Result<(), NoMemory>
    ensures given { OnOk result (found.new.items ≡ found.old.items ++ steps.statements_given (sight_at project.now all.now.known.items all.now.namings.items file) rows.now bodies.now 0 tree.now.statements) }
    ensures fits { OnOk result (steps.statements_fit (sight_at project.now all.now.known.items all.now.namings.items file) rows.now bodies.now 0 tree.now.statements ≡ true) }
{
    let view = View::of(project, &all.known, &all.namings, file);
    push_statements(
        alloc,
        &view,
        rows,
        bodies,
        tree.statements.as_slice(),
        found,
    )?;
    Ok(())
}

fn push_files(
    alloc: Global,
    project: &Project<'_>,
    all: &Knowledge,
    rows: &[Row],
    bodies: &[bool],
    found: &mut Vec<Given>,
) -> Result<(), NoMemory>
    ensures given { OnOk result (found.new.items ≡ found.old.items ++ steps.files_given project.now all.now.known.items all.now.namings.items rows.now bodies.now 0 project.now.files.now) }
    ensures fits { OnOk result (steps.files_fit project.now all.now.known.items all.now.namings.items rows.now bodies.now 0 project.now.files.now ≡ true) }
{
    let mut file = 0;
    for tree in project.files {
        push_file(alloc, project, all, rows, bodies, file, tree, found)?;
        file = next(file)?;
    }
    Ok(())
}

/// The initial values that declarations and DATA give, in the order of statements.
pub(crate) fn givens_of(
    alloc: Global,
    project: &Project<'_>,
    all: &Knowledge,
) -> Result<Vec<Given>, NoMemory>
    requires { AreTrees project.now.files.now }
    ensures given { IfOk result (λ given. given.items ≡ steps.files_given project.now all.now.known.items all.now.namings.items (rows_of project.now.files.now (scoping project.now.files.now)) (map (is_body project.now.files.now) (scoping project.now.files.now)) 0 project.now.files.now) }
    ensures fits { IfOk result (λ given. steps.files_fit project.now all.now.known.items all.now.namings.items (rows_of project.now.files.now (scoping project.now.files.now)) (map (is_body project.now.files.now) (scoping project.now.files.now)) 0 project.now.files.now ≡ true) }
{
    let scoping = scoping_units(alloc, project.files)?;
    let mut found = Vec::new(alloc);
    push_files(
        alloc,
        project,
        all,
        &scoping.rows,
        &scoping.bodies,
        &mut found,
    )?;
    Ok(found)
}
