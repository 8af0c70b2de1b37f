//! What the spelling can't say of a program.

ghost use Rattle.std.specs.List.{flat_map, list_all};
ghost use Rattle.std.specs.Prelude.{◌≡◌, ◌&&◌, not, IfOk};
ghost use Rattle.ftn_base.specs.Keywords as words;
ghost use Rattle.free_scan.specs.Clean as spec;
ghost use Rattle.free_scan.specs.Spelling.{is_some_row};

use crate::first_form::names::{NameSet, gather};
use crate::first_form::program::{Operand, Program, Statement, Sum, Term};
use ftn_base::{Edition, GREATEST_INTEGER, Name, NoMemory, is_intrinsic, is_keyword, is_name};
use sqlite_items::Items;
use std::alloc::Global;

fn operand_fits(operand: &Operand) -> bool
    ensures { result ≡ spec.operand_fits operand.now }
{
    match operand {
        Operand::Variable(_) => true,
        Operand::Whole(value) => *value <= GREATEST_INTEGER,
    }
}

fn terms_fit(terms: &[Term]) -> bool
    ensures { result ≡ list_all (λ term. spec.operand_fits term.operand) terms.now }
{
    terms.iter().all(|term| operand_fits(&term.operand))
}

fn sum_fits(sum: &Sum) -> bool
    ensures { result ≡ spec.sum_fits sum.now }
{
    operand_fits(&sum.first) && terms_fit(sum.rest.as_slice())
}

fn sums_fit(sums: &[Sum]) -> bool
    ensures { result ≡ list_all spec.sum_fits sums.now }
{
    sums.iter().all(|sum| sum_fits(sum))
}

fn some_sums_fit(sums: &[Sum]) -> bool
    ensures { result ≡ (is_some_row sums.now && list_all spec.sum_fits sums.now) }
{
    match sums {
        [] => false,
        [_, ..] => sums_fit(sums),
    }
}

fn statement_fits(statement: &Statement) -> bool
    ensures { result ≡ spec.statement_fits statement.now }
{
    match statement {
        Statement::Assign { target: _, value } => sum_fits(value),
        Statement::Print(items) => some_sums_fit(items.as_slice()),
    }
}

fn statements_fit(statements: &[Statement]) -> bool
    ensures { result ≡ list_all spec.statement_fits statements.now }
{
    statements.iter().all(|statement| statement_fits(statement))
}

fn has_names(names: &Items<Name>) -> bool
    ensures { result ≡ is_some_row names.now }
{
    matches!(names.as_slice(), [_, ..])
}

fn all_have_names(lists: &[Items<Name>]) -> bool
    ensures { result ≡ list_all is_some_row lists.now }
{
    lists.iter().all(|names| has_names(names))
}

fn is_no_word(bytes: &[u8]) -> bool
    ensures { result ≡ (not (words.is_keyword bytes.now) && not (words.is_intrinsic bytes.now)) }
{
    !is_keyword(bytes) && !is_intrinsic(bytes)
}

fn is_free_name(bytes: &[u8]) -> bool
    ensures { result ≡ spec.is_free_name bytes.now }
{
    is_name(bytes, Edition::F90) && is_no_word(bytes)
}

fn are_free(names: &[Name]) -> bool
    ensures { result ≡ list_all spec.is_free_name names.now }
{
    names.iter().all(|name| is_free_name(name.bytes()))
}

fn all_are_free(lists: &[Items<Name>]) -> bool
    ensures { result ≡ list_all (λ names. list_all spec.is_free_name names) lists.now }
{
    lists.iter().all(|names| are_free(names.as_slice()))
}

fn knows_operand(variables: &NameSet, operand: &Operand) -> bool
    ensures { result ≡ list_all (spec.is_among variables.now) (spec.operand_names operand.now) }
{
    match operand {
        Operand::Variable(name) => variables.has(name),
        Operand::Whole(_) => true,
    }
}

fn knows_terms(variables: &NameSet, terms: &[Term]) -> bool
    ensures { result ≡ list_all (λ term. list_all (spec.is_among variables.now) (spec.operand_names term.operand)) terms.now }
{
    terms
        .iter()
        .all(|term| knows_operand(variables, &term.operand))
}

fn knows_sum(variables: &NameSet, sum: &Sum) -> bool
    ensures { result ≡ list_all (spec.is_among variables.now) (spec.sum_names sum.now) }
{
    knows_operand(variables, &sum.first) && knows_terms(variables, sum.rest.as_slice())
}

fn knows_sums(variables: &NameSet, sums: &[Sum]) -> bool
    ensures { result ≡ list_all (λ sum. list_all (spec.is_among variables.now) (spec.sum_names sum)) sums.now }
{
    sums.iter().all(|sum| knows_sum(variables, sum))
}

fn knows_statement(variables: &NameSet, statement: &Statement) -> bool
    ensures { result ≡ list_all (spec.is_among variables.now) (spec.statement_names statement.now) }
{
    match statement {
        Statement::Assign { target, value } => variables.has(target) && knows_sum(variables, value),
        Statement::Print(items) => knows_sums(variables, items.as_slice()),
    }
}

fn knows_statements(variables: &NameSet, statements: &[Statement]) -> bool
    ensures { result ≡ list_all (λ statement. list_all (spec.is_among variables.now) (spec.statement_names statement)) statements.now }
{
    statements
        .iter()
        .all(|statement| knows_statement(variables, statement))
}

fn is_filled(program: &Program) -> bool
    ensures { result ≡ (list_all is_some_row program.now.declared && list_all spec.statement_fits program.now.statements) }
{
    all_have_names(program.declared.as_slice()) && statements_fit(program.statements.as_slice())
}

fn has_free_names(program: &Program) -> bool
    ensures { result ≡ (spec.is_free_name program.now.name && list_all (λ names. list_all spec.is_free_name names) program.now.declared) }
{
    is_free_name(program.name.bytes()) && all_are_free(program.declared.as_slice())
}

/// Whether the program and its variables have names of their own, and only its variables are referred to (5.1, 11.1).
pub fn is_clean(alloc: Global, program: &Program) -> Result<bool, NoMemory>
    ensures { IfOk result (λ answer. answer ≡ spec.is_clean program.now) }
{
    if !is_filled(program) {
        return Ok(false);
    }
    if !has_free_names(program) {
        return Ok(false);
    }
    let Some(variables) = gather(alloc, program.declared.as_slice())? else {
        return Ok(false);
    };
    if variables.has(&program.name) {
        return Ok(false);
    }
    Ok(knows_statements(&variables, program.statements.as_slice()))
}
