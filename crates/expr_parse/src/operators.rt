//! How tightly operators bind (Fortran 90, 7.1.3), and what they make.

ghost use Rattle.std.specs.Prelude.{◌≡◌, ◌≤◌, IfOk, OnSome, length};
ghost use Rattle.ftn_tree.specs.Levels as levels;
ghost use Rattle.expr_parse.specs.steps.Operators as spec;

use crate::cursor::Cursor;
use ftn_tree::{Expr, Lexeme, Operator};
use sqlite_items::{Boxed, Items};
use std::alloc::{AllocError, Global};
use std::marker::Model;

/// The level of an expression of any operators.
pub const LOOSEST: u8 = 9;

/// An operator between two operands: the level of what it makes of them, and their greatest levels.
#[derive(Drop)]
pub struct Binding {
    pub operator: Operator,
    pub level: u8,
    pub left: u8,
    pub right: u8,
}

impl Model for Binding {
    ghost use Rattle.ftn_tree.specs.Levels.{Binding};

    ghost Value = { Binding };

    ghost view = { λ b. record { operator = b.operator; level = b.level; left = b.left; right = b.right } };
}

/// An operator before an operand: the level of what it makes of it, and its greatest level.
#[derive(Drop)]
pub struct Prefix {
    pub operator: Operator,
    pub level: u8,
    pub operand: u8,
}

impl Model for Prefix {
    ghost use Rattle.ftn_tree.specs.Levels.{Prefix};

    ghost Value = { Prefix };

    ghost view = { λ p. record { operator = p.operator; level = p.level; operand = p.operand } };
}

fn binds(operator: Operator, level: u8, left: u8, right: u8) -> Option<Binding>
    ensures { result ≡ levels.binding operator level left right }
{
    Some(Binding {
        operator,
        level,
        left,
        right,
    })
}

fn binding_of(operator: Operator) -> Option<Binding>
    ensures { result ≡ levels.binding_of operator }
{
    match operator {
        Operator::Power => binds(operator, 1, 0, 1),
        Operator::Times | Operator::Divide => binds(operator, 2, 2, 1),
        Operator::Plus | Operator::Minus => binds(operator, 3, 3, 2),
        Operator::Concat => binds(operator, 4, 4, 3),
        Operator::Eq | Operator::Ne | Operator::Lt | Operator::Le | Operator::Gt | Operator::Ge =>
            binds(operator, 5, 4, 4),
        Operator::And => binds(operator, 7, 7, 6),
        Operator::Or => binds(operator, 8, 8, 7),
        Operator::Eqv | Operator::Neqv => binds(operator, 9, 9, 8),
        Operator::Not => None,
    }
}

fn between(kind: Lexeme) -> Option<Binding>
    ensures { result ≡ levels.between kind }
{
    binding_of(kind.operator()?)
}

fn binds_one(operator: Operator, level: u8, operand: u8) -> Option<Prefix>
    ensures { result ≡ levels.prefix operator level operand }
{
    Some(Prefix {
        operator,
        level,
        operand,
    })
}

fn prefix_of(operator: Operator) -> Option<Prefix>
    ensures { result ≡ levels.prefix_of operator }
{
    match operator {
        Operator::Plus | Operator::Minus => binds_one(operator, 3, 2),
        Operator::Not => binds_one(operator, 6, 5),
        _ => None,
    }
}

fn before(kind: Lexeme) -> Option<Prefix>
    ensures { result ≡ levels.before kind }
{
    prefix_of(kind.operator()?)
}

/// How the next token binds after an operand of level `own`, in an expression of at most level `most`.
#[tactic(auto, unfolding(crate::specs::steps::Operators::next_operator))]
pub fn next_operator(cursor: &Cursor<'_>, most: u8, own: u8) -> Option<Binding>
    ensures value { result ≡ spec.next_operator most own cursor.now }
    ensures there { OnSome result (1 ≤ length cursor.now.rest) }
{
    let how = between(cursor.peek()?)?;
    if how.level <= most && own <= how.left {
        Some(how)
    } else {
        None
    }
}

/// How the next token binds before an operand, in an expression of at most level `most`.
#[tactic(auto, unfolding(crate::specs::steps::Operators::next_sign))]
pub fn next_sign(cursor: &Cursor<'_>, most: u8) -> Option<Prefix>
    ensures value { result ≡ spec.next_sign most cursor.now }
    ensures there { OnSome result (1 ≤ length cursor.now.rest) }
{
    let how = before(cursor.peek()?)?;
    if how.level <= most { Some(how) } else { None }
}

/// An operator and its operand.
pub fn unary(alloc: Global, op: u32, operator: Operator, arg: Expr) -> Result<Expr, AllocError>
    ensures { IfOk result (λ e. e ≡ Expr.Unary op operator arg) }
{
    Ok(Expr::Unary {
        op,
        operator,
        arg: Boxed::new(alloc, arg)?,
    })
}

/// An operator and its two operands.
pub fn binary(
    alloc: Global,
    op: u32,
    operator: Operator,
    left: Expr,
    right: Expr,
) -> Result<Expr, AllocError>
    ensures { IfOk result (λ e. e ≡ Expr.Binary op operator left right) }
{
    Ok(Expr::Binary {
        op,
        operator,
        left: Boxed::new(alloc, left)?,
        right: Boxed::new(alloc, right)?,
    })
}

/// Operands, each with the token of the `**` after it, and the last one: `**` associates to the right.
#[tactic(auto, using(crate::proofs::Chains::chained_last))]
pub fn chained(alloc: Global, mut steps: Items<(Expr, u32)>, last: Expr) -> Result<Expr, AllocError>
    ensures { IfOk result (λ e. e ≡ spec.chained steps last) }
{
    let mut right = last;
    while let Some((left, op)) = steps.pop() {
        right = binary(alloc, op, Operator::Power, left, right)?;
    }
    Ok(right)
}
