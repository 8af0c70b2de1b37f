//! Bounds of arrays (Fortran 90, 5.1.2.4).

ghost use Rattle.std.specs.Prelude.{◌≡◌};
ghost use Rattle.ftn_tree.specs.SpecificationForms as form;
ghost use Rattle.expr_parse.specs.steps.Combinators as shared;
ghost use Rattle.expr_parse.specs.steps.Input.{Gives};
ghost use Rattle.spec_parse.specs.steps.Bounds as spec;

use expr_parse::{Cursor, Misfit, read_expression, separated};
use ftn_tree::{BoundPair, Expr, Lexeme};
use sqlite_items::Items;
use std::alloc::Global;

#[tactic(auto, unfolding(crate::specs::steps::Bounds::upper_bound))]
fn upper_bound(alloc: Global, cursor: &mut Cursor<'_>) -> Result<Option<Expr>, Misfit>
    ensures { Gives (spec.upper_bound cursor.old) result cursor.new }
{
    if cursor.sees(Lexeme::Times) {
        cursor.expect(Lexeme::Times)?;
        return Ok(None);
    }
    Ok(Some(read_expression(alloc, cursor)?))
}

fn pair_of(first: Expr, rest: Option<Option<Expr>>) -> BoundPair
    ensures { result ≡ spec.pair_of (first, rest) }
{
    match rest {
        None => BoundPair {
            low: None,
            high: Some(first),
        },
        Some(high) => BoundPair {
            low: Some(first),
            high,
        },
    }
}

#[tactic(auto, unfolding(crate::specs::steps::Bounds::rest_of_bound))]
fn rest_of_bound(alloc: Global, cursor: &mut Cursor<'_>) -> Result<Option<Option<Expr>>, Misfit>
    ensures { Gives (spec.rest_of_bound cursor.old) result cursor.new }
{
    if !cursor.sees(Lexeme::Colon) {
        return Ok(None);
    }
    cursor.expect(Lexeme::Colon)?;
    Ok(Some(upper_bound(alloc, cursor)?))
}

#[tactic(auto, unfolding(crate::specs::steps::Bounds::bound))]
fn read_bound(alloc: Global, cursor: &mut Cursor<'_>) -> Result<BoundPair, Misfit>
    ensures { Gives (spec.bound cursor.old) result cursor.new }
{
    if cursor.sees(Lexeme::Times) {
        cursor.expect(Lexeme::Times)?;
        return Ok(BoundPair {
            low: None,
            high: None,
        });
    }
    let first = read_expression(alloc, cursor)?;
    let rest = rest_of_bound(alloc, cursor)?;
    Ok(pair_of(first, rest))
}

fn read_pairs(alloc: Global, cursor: &mut Cursor<'_>) -> Result<Items<BoundPair>, Misfit>
    ensures { Gives (shared.separated spec.bound cursor.old) result cursor.new }
{
    separated(alloc, cursor, read_bound)
}

/// The most dimensions that an array has (5.1.2.4).
const MOST_DIMENSIONS: usize = 7;

fn are_bounded(pairs: &[BoundPair]) -> bool
    ensures { result ≡ form.are_bounded pairs.now }
{
    pairs.iter().all(|pair| pair.high.is_some())
}

fn are_dimensions(pairs: &[BoundPair]) -> bool
    ensures { result ≡ form.are_dimensions pairs.now }
{
    let before_last = pairs.len().saturating_sub(1);
    pairs.len() <= MOST_DIMENSIONS && are_bounded(&pairs[..before_last])
}

/// Reads bounds in their parentheses (5.1.2.4).
#[tactic(auto, unfolding(crate::specs::steps::Bounds::bounds))]
pub fn bounds(alloc: Global, cursor: &mut Cursor<'_>) -> Result<Items<BoundPair>, Misfit>
    ensures { Gives (spec.bounds cursor.old) result cursor.new }
{
    cursor.expect(Lexeme::Open)?;
    let pairs = read_pairs(alloc, cursor)?;
    cursor.expect(Lexeme::Close)?;
    if !are_dimensions(pairs.as_slice()) {
        return Err(Misfit::NoFit);
    }
    Ok(pairs)
}

/// Reads bounds in their parentheses, if a parenthesis comes next.
pub fn maybe_bounds(
    alloc: Global,
    cursor: &mut Cursor<'_>,
) -> Result<Option<Items<BoundPair>>, Misfit>
    ensures { Gives (spec.maybe_bounds cursor.old) result cursor.new }
{
    if cursor.sees(Lexeme::Open) {
        Ok(Some(bounds(alloc, cursor)?))
    } else {
        Ok(None)
    }
}
