//! Reading a text as a program in first form.

ghost use Rattle.std.specs.Prelude.{◌≡◌, ◌≤◌, ◌<◌, ◌^◌, ◌+◌, length, map, List, ℕ, Some, IfOk, MatchOption, ⊤};
ghost use Rattle.std.specs.List.{prefix_len};
ghost use Rattle.free_scan.specs.FirstForm.{IsProgramText, Lacks};
ghost use Rattle.free_scan.specs.steps.Reading as spec;
ghost use Rattle.free_scan.specs.Spelling.{lexeme_of, lexeme_rows};
ghost use Rattle.free_scan.specs.Tokens.{tokens_of};
ghost use Rattle.free_scan.specs.declared.first_form.program.Program.{Program};

use crate::first_form::clean::is_clean;
use crate::first_form::lines::is_plain;
use crate::first_form::program::{Program, Statement};
use crate::first_form::rows::rows;
use crate::first_form::statements::{
    is_closing, is_declaration, read_declaration, read_opening, read_statement,
};
use crate::first_form::token::{PlacedPiece, scan, tokens_among};
use ftn_base::{Name, NoMemory};
use ftn_tree::Token;
use sqlite_items::Items;
use std::alloc::Global;

/// A text in first form: its tokens, and the program that it spells.
#[derive(Drop)]
pub struct FirstForm {
    /// The tokens.
    pub tokens: Items<Token>,
    /// The program.
    pub program: Program,
}

fn read_declarations(
    alloc: Global,
    rows: &[&[PlacedPiece]],
) -> Result<Option<Items<Items<Name>>>, NoMemory>
    ensures { IfOk result (λ found. found ≡ spec.read_all spec.read_declaration (map (λ row. map lexeme_of row.now) rows.now)) }
{
    let mut declared = Items::new(alloc);
    for row in rows {
        let Some(names) = read_declaration(alloc, row)? else {
            return Ok(None);
        };
        declared.push(names)?;
    }
    Ok(Some(declared))
}

fn read_statements(
    alloc: Global,
    rows: &[&[PlacedPiece]],
) -> Result<Option<Items<Statement>>, NoMemory>
    ensures { IfOk result (λ found. found ≡ spec.read_all spec.read_statement (map (λ row. map lexeme_of row.now) rows.now)) }
{
    let mut statements = Items::new(alloc);
    for row in rows {
        let Some(statement) = read_statement(alloc, row)? else {
            return Ok(None);
        };
        statements.push(statement)?;
    }
    Ok(Some(statements))
}

fn count_declarations(rows: &[&[PlacedPiece]]) -> usize
    ensures { result ≡ prefix_len (λ row. spec.is_declaration (map lexeme_of row.now)) rows.now }
{
    rows.iter().take_while(|row| is_declaration(row)).count()
}

#[tactic(auto, unfolding(crate::specs::steps::Reading::read_body))]
fn read_body(
    alloc: Global,
    name: Name,
    rows: &[&[PlacedPiece]],
) -> Result<Option<Program>, NoMemory>
    ensures { IfOk result (λ found. found ≡ spec.read_body name (map (λ row. map lexeme_of row.now) rows.now)) }
{
    let (declared, statements) = rows.split_at(count_declarations(rows));
    let Some(declared) = read_declarations(alloc, declared)? else {
        return Ok(None);
    };
    let Some(statements) = read_statements(alloc, statements)? else {
        return Ok(None);
    };
    Ok(Some(Program {
        name,
        declared,
        statements,
    }))
}

#[tactic(auto, unfolding(crate::specs::steps::Reading::read_program))]
fn read_program(alloc: Global, rows: &[&[PlacedPiece]]) -> Result<Option<Program>, NoMemory>
    ensures { IfOk result (λ found. found ≡ spec.read_program (map (λ row. map lexeme_of row.now) rows.now)) }
{
    let [opening, body @ .., closing] = rows else {
        return Ok(None);
    };
    let Some(name) = read_opening(alloc, opening)? else {
        return Ok(None);
    };
    if !is_closing(&name, closing) {
        return Ok(None);
    }
    read_body(alloc, name, body)
}

#[tactic(auto, unfolding(crate::specs::steps::Reading::read_clean))]
fn read_clean(alloc: Global, pieces: &[PlacedPiece]) -> Result<Option<Program>, NoMemory>
    ensures { IfOk result (λ found. found ≡ spec.read_clean (lexeme_rows pieces.now)) }
{
    let rows = rows(alloc, pieces)?;
    let Some(program) = read_program(alloc, &rows)? else {
        return Ok(None);
    };
    if is_clean(alloc, &program)? {
        Ok(Some(program))
    } else {
        Ok(None)
    }
}

/// The program that the text spells, or nothing where it spells none in first form.
pub fn read_first_form(alloc: Global, text: &[u8]) -> Result<Option<FirstForm>, NoMemory>
    requires { length text.now + 2 < 2 ^ 32 }
    ensures program { IfOk result (λ found. MatchOption found (Lacks text.now) (λ form. IsProgramText text.now form.program)) }
    ensures tokens { IfOk result (λ found. MatchOption found ⊤ (λ form. tokens_of text.now ≡ Some form.tokens)) }
{
    if !is_plain(text) {
        return Ok(None);
    }
    let Some(pieces) = scan(alloc, text)? else {
        return Ok(None);
    };
    let Some(program) = read_clean(alloc, &pieces)? else {
        return Ok(None);
    };
    let tokens = tokens_among(alloc, pieces)?;
    Ok(Some(FirstForm { tokens, program }))
}

/// A text spells at most one program.
pub fn one_program_per_text()
    ensures { (text : List ℕ) (first second : Program) → IsProgramText text first → IsProgramText text second → first ≡ second }
{}
