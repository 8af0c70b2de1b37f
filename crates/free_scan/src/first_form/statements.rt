//! Statements, each read from its row of tokens.

ghost use Rattle.std.specs.Prelude.{◌≡◌, map, if◌then◌else◌, Some, None, IfOk};
ghost use Rattle.free_scan.specs.steps.Reading as spec;
ghost use Rattle.free_scan.specs.Spelling.{lexeme_of};

use crate::first_form::program::{Operand, Sign, Statement, Sum, Term};
use crate::first_form::rows::{is_comma, is_text, parts, says_mark, says_word, whole_value};
use crate::first_form::token::{PieceKind, PlacedPiece};
use ftn_base::{Edition, Name, NameFault, NoMemory};
use sqlite_items::Items;
use std::alloc::Global;

fn word_of(alloc: Global, token: &PlacedPiece) -> Result<Option<Name>, NoMemory>
    ensures { IfOk result (λ found. found ≡ spec.word_of (lexeme_of token.now)) }
{
    if token.kind != PieceKind::Word {
        return Ok(None);
    }
    lower_name(alloc, token.value.bytes())
}

fn lower_name(alloc: Global, word: &[u8]) -> Result<Option<Name>, NoMemory>
    ensures { IfOk result (λ found. found ≡ (if spec.is_lower_name word.now then Some word.now else None)) }
{
    match Name::new(alloc, word, Edition::F90) {
        Ok(name) => {
            if is_text(name.bytes(), word) {
                Ok(Some(name))
            } else {
                Ok(None)
            }
        }
        Err(NameFault::NotAName) => Ok(None),
        Err(NameFault::NoMemory) => Err(NoMemory),
    }
}

fn read_operand(alloc: Global, token: &PlacedPiece) -> Result<Option<Operand>, NoMemory>
    ensures { IfOk result (λ found. found ≡ spec.read_operand (lexeme_of token.now)) }
{
    match token.kind {
        PieceKind::Word => match lower_name(alloc, token.value.bytes())? {
            Some(name) => Ok(Some(Operand::Variable(name))),
            None => Ok(None),
        },
        PieceKind::Whole => match whole_value(token.value.bytes()) {
            Some(value) => Ok(Some(Operand::Whole(value))),
            None => Ok(None),
        },
        PieceKind::Mark | PieceKind::Blank | PieceKind::Comment | PieceKind::LineEnd => Ok(None),
    }
}

fn read_sign(token: &PlacedPiece) -> Option<Sign>
    ensures { result ≡ spec.read_sign (lexeme_of token.now) }
{
    if says_mark(token, b"+") {
        Some(Sign::Plus)
    } else if says_mark(token, b"-") {
        Some(Sign::Minus)
    } else {
        None
    }
}

fn read_term(
    alloc: Global,
    first: &PlacedPiece,
    second: &PlacedPiece,
) -> Result<Option<Term>, NoMemory>
    ensures { IfOk result (λ found. found ≡ spec.read_term (lexeme_of first.now) (lexeme_of second.now)) }
{
    let Some(sign) = read_sign(first) else {
        return Ok(None);
    };
    let Some(operand) = read_operand(alloc, second)? else {
        return Ok(None);
    };
    Ok(Some(Term { sign, operand }))
}

fn read_terms(alloc: Global, row: &[PlacedPiece]) -> Result<Option<Items<Term>>, NoMemory>
    ensures { IfOk result (λ found. found ≡ spec.read_terms (map lexeme_of row.now)) }
{
    let mut terms = Items::new(alloc);
    let mut rest = row;
    while let [first, second, after @ ..] = rest {
        let Some(term) = read_term(alloc, first, second)? else {
            return Ok(None);
        };
        terms.push(term)?;
        rest = after;
    }
    match rest {
        [] => Ok(Some(terms)),
        [_, ..] => Ok(None),
    }
}

#[tactic(auto, unfolding(crate::specs::steps::Reading::read_sum))]
fn read_sum(alloc: Global, row: &[PlacedPiece]) -> Result<Option<Sum>, NoMemory>
    ensures { IfOk result (λ found. found ≡ spec.read_sum (map lexeme_of row.now)) }
{
    let [first, rest @ ..] = row else {
        return Ok(None);
    };
    let Some(first) = read_operand(alloc, first)? else {
        return Ok(None);
    };
    let Some(rest) = read_terms(alloc, rest)? else {
        return Ok(None);
    };
    Ok(Some(Sum { first, rest }))
}

fn read_sums(alloc: Global, row: &[PlacedPiece]) -> Result<Option<Items<Sum>>, NoMemory>
    ensures { IfOk result (λ found. found ≡ spec.read_sums (map lexeme_of row.now)) }
{
    let parts = parts(alloc, row)?;
    let mut sums = Items::new(alloc);
    for part in &parts {
        let Some(sum) = read_sum(alloc, part)? else {
            return Ok(None);
        };
        sums.push(sum)?;
    }
    Ok(Some(sums))
}

/// The name that stands alone in a row.
pub fn read_name(alloc: Global, row: &[PlacedPiece]) -> Result<Option<Name>, NoMemory>
    ensures { IfOk result (λ found. found ≡ spec.read_name (map lexeme_of row.now)) }
{
    match row {
        [word] => word_of(alloc, word),
        _ => Ok(None),
    }
}

fn read_names(alloc: Global, row: &[PlacedPiece]) -> Result<Option<Items<Name>>, NoMemory>
    ensures { IfOk result (λ found. found ≡ spec.read_names (map lexeme_of row.now)) }
{
    let parts = parts(alloc, row)?;
    let mut names = Items::new(alloc);
    for part in &parts {
        let Some(name) = read_name(alloc, part)? else {
            return Ok(None);
        };
        names.push(name)?;
    }
    Ok(Some(names))
}

/// Whether the row begins as a declaration does (5.1).
pub fn is_declaration(row: &[PlacedPiece]) -> bool
    ensures { result ≡ spec.is_declaration (map lexeme_of row.now) }
{
    match row {
        [first, second, ..] => says_word(first, b"integer") && says_mark(second, b"::"),
        _ => false,
    }
}

/// The names that a row declares (5.1).
#[tactic(auto, unfolding(crate::specs::steps::Reading::read_declaration))]
pub fn read_declaration(alloc: Global, row: &[PlacedPiece]) -> Result<Option<Items<Name>>, NoMemory>
    ensures { IfOk result (λ found. found ≡ spec.read_declaration (map lexeme_of row.now)) }
{
    match row {
        [first, second, rest @ ..] => {
            if says_word(first, b"integer") && says_mark(second, b"::") {
                read_names(alloc, rest)
            } else {
                Ok(None)
            }
        }
        _ => Ok(None),
    }
}

fn read_assignment(
    alloc: Global,
    target: &PlacedPiece,
    value: &[PlacedPiece],
) -> Result<Option<Statement>, NoMemory>
    ensures { IfOk result (λ found. found ≡ spec.read_assignment (lexeme_of target.now) (map lexeme_of value.now)) }
{
    let Some(target) = word_of(alloc, target)? else {
        return Ok(None);
    };
    let Some(value) = read_sum(alloc, value)? else {
        return Ok(None);
    };
    Ok(Some(Statement::Assign { target, value }))
}

fn read_print(alloc: Global, row: &[PlacedPiece]) -> Result<Option<Statement>, NoMemory>
    ensures { IfOk result (λ found. found ≡ spec.read_print (map lexeme_of row.now)) }
{
    let [comma, items @ ..] = row else {
        return Ok(None);
    };
    if !is_comma(comma) {
        return Ok(None);
    }
    let Some(items) = read_sums(alloc, items)? else {
        return Ok(None);
    };
    Ok(Some(Statement::Print(items)))
}

/// The executable statement that a row spells (7.5.1, 9.4.2).
#[tactic(auto, unfolding(crate::specs::steps::Reading::read_statement))]
pub fn read_statement(alloc: Global, row: &[PlacedPiece]) -> Result<Option<Statement>, NoMemory>
    ensures { IfOk result (λ found. found ≡ spec.read_statement (map lexeme_of row.now)) }
{
    let [first, second, rest @ ..] = row else {
        return Ok(None);
    };
    if says_mark(second, b"=") {
        read_assignment(alloc, first, rest)
    } else if says_word(first, b"print") && says_mark(second, b"*") {
        read_print(alloc, rest)
    } else {
        Ok(None)
    }
}

/// The program's name, from the row that begins it (11.1).
pub fn read_opening(alloc: Global, row: &[PlacedPiece]) -> Result<Option<Name>, NoMemory>
    ensures { IfOk result (λ found. found ≡ spec.read_opening (map lexeme_of row.now)) }
{
    let [first, rest @ ..] = row else {
        return Ok(None);
    };
    if says_word(first, b"program") {
        read_name(alloc, rest)
    } else {
        Ok(None)
    }
}

/// Whether the row ends the program of that name (11.1).
pub fn is_closing(name: &Name, row: &[PlacedPiece]) -> bool
    ensures { result ≡ spec.is_closing name.now (map lexeme_of row.now) }
{
    match row {
        [first, second, third] => {
            says_word(first, b"end")
                && says_word(second, b"program")
                && says_word(third, name.bytes())
        }
        _ => false,
    }
}
