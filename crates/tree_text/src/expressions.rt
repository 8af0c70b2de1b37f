//! Expressions: an operator stands between brackets with its operands.

use crate::line::{join, put, put_comma, put_quoted, put_token};
use ftn_base::NoMemory;
use ftn_tree::{Expr, Part, Tokens};

/// Adds an expression, `[left op right]` for an operator between operands and `[op operand]` for one before its operand. All other
/// parentheses are those of the text.
#[cycle(expression)]
pub fn put_expr(out: &mut Vec<u8>, tokens: &Tokens, expr: &Expr) -> Result<(), NoMemory> {
    match expr {
        Expr::Whole { token, .. } | Expr::Truth { token, .. } => put_token(out, tokens, *token),
        Expr::Quoted { value, .. } => put_quoted(out, value.bytes()),
        Expr::Paren { inner, .. } => {
            put(out, b"(")?;
            put_expr(out, tokens, inner.get())?;
            put(out, b")")
        }
        Expr::Unary { op, arg, .. } => {
            put(out, b"[")?;
            put_token(out, tokens, *op)?;
            put_expr(out, tokens, arg.get())?;
            put(out, b"]")
        }
        Expr::Binary {
            op,
            left,
            right,
            ..
        } => {
            put(out, b"[")?;
            put_expr(out, tokens, left.get())?;
            put_token(out, tokens, *op)?;
            put_expr(out, tokens, right.get())?;
            put(out, b"]")
        }
        Expr::Refer { name, args, part } => {
            put_token(out, tokens, *name)?;
            if let Some(args) = args {
                put_arguments(out, tokens, args.as_slice())?;
            }
            match part {
                Some(part) => put_part(out, tokens, part.get()),
                None => Ok(()),
            }
        }
    }
}

/// Adds expressions with commas between them.
#[cycle(expression)]
pub fn put_exprs(out: &mut Vec<u8>, tokens: &Tokens, list: &[Expr]) -> Result<(), NoMemory> {
    for (at, expr) in list.iter().enumerate() {
        put_comma(out, at)?;
        put_expr(out, tokens, expr)?;
    }
    Ok(())
}

/// Adds subscripts or arguments right after a name, in their parentheses.
#[cycle(expression)]
pub fn put_arguments(out: &mut Vec<u8>, tokens: &Tokens, list: &[Expr]) -> Result<(), NoMemory> {
    join(out, b"(")?;
    put_exprs(out, tokens, list)?;
    join(out, b")")
}

#[cycle(expression)]
fn put_part(out: &mut Vec<u8>, tokens: &Tokens, part: &Part) -> Result<(), NoMemory> {
    join(out, b"(")?;
    put_bound(out, tokens, &part.low)?;
    put(out, b":")?;
    put_bound(out, tokens, &part.high)?;
    join(out, b")")
}

#[cycle(expression)]
fn put_bound(out: &mut Vec<u8>, tokens: &Tokens, bound: &Option<Expr>) -> Result<(), NoMemory> {
    match bound {
        Some(bound) => put_expr(out, tokens, bound),
        None => Ok(()),
    }
}
