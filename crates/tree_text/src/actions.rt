//! Parts of executable statements.

use crate::expressions::{put_arguments, put_expr, put_exprs};
use crate::line::{join, put, put_comma, put_quoted, put_token};
use ftn_base::NoMemory;
use ftn_tree::{CaseRange, DoControl, Expr, IoStyle, TokenKind, Tokens};
use sqlite_items::Items;

/// Adds a condition or a selector in parentheses.
pub fn put_condition(out: &mut Vec<u8>, tokens: &Tokens, expr: &Expr) -> Result<(), NoMemory> {
    put(out, b"(")?;
    put_expr(out, tokens, expr)?;
    put(out, b")")
}

/// Adds `target = value`.
pub fn put_assignment(
    out: &mut Vec<u8>,
    tokens: &Tokens,
    target: &Expr,
    value: &Expr,
) -> Result<(), NoMemory> {
    put_expr(out, tokens, target)?;
    put(out, b"=")?;
    put_expr(out, tokens, value)
}

/// Adds what stands after CALL.
pub fn put_call(
    out: &mut Vec<u8>,
    tokens: &Tokens,
    name: u32,
    args: &Option<Items<Expr>>,
) -> Result<(), NoMemory> {
    put(out, b"CALL")?;
    put_token(out, tokens, name)?;
    match args {
        Some(args) => put_arguments(out, tokens, args.as_slice()),
        None => Ok(()),
    }
}

/// Adds the construct name before a DO, where one is written.
pub fn put_label(out: &mut Vec<u8>, tokens: &Tokens, label: Option<u32>) -> Result<(), NoMemory> {
    match label {
        Some(label) => {
            put_token(out, tokens, label)?;
            put(out, b":")
        }
        None => Ok(()),
    }
}

/// Adds the control of a counted DO, where there is one.
pub fn put_control(
    out: &mut Vec<u8>,
    tokens: &Tokens,
    control: &Option<DoControl>,
) -> Result<(), NoMemory> {
    let Some(control) = control else {
        return Ok(());
    };
    put_comma(out, usize::from(control.comma))?;
    put_token(out, tokens, control.variable)?;
    put(out, b"=")?;
    put_expr(out, tokens, &control.from)?;
    join(out, b",")?;
    put_expr(out, tokens, &control.to)?;
    if let Some(step) = &control.step {
        join(out, b",")?;
        put_expr(out, tokens, step)?;
    }
    Ok(())
}

fn put_range(out: &mut Vec<u8>, tokens: &Tokens, range: &CaseRange) -> Result<(), NoMemory> {
    match range {
        CaseRange::One(value) => put_expr(out, tokens, value),
        CaseRange::From(low) => {
            put_expr(out, tokens, low)?;
            put(out, b":")
        }
        CaseRange::To(high) => {
            put(out, b":")?;
            put_expr(out, tokens, high)
        }
        CaseRange::Between { low, high } => {
            put_expr(out, tokens, low)?;
            put(out, b":")?;
            put_expr(out, tokens, high)
        }
    }
}

/// Adds the ranges of CASE in parentheses, or DEFAULT.
pub fn put_ranges(
    out: &mut Vec<u8>,
    tokens: &Tokens,
    ranges: &Option<Items<CaseRange>>,
) -> Result<(), NoMemory> {
    let Some(ranges) = ranges else {
        return put(out, b"DEFAULT");
    };
    put(out, b"(")?;
    for (at, range) in ranges.as_slice().iter().enumerate() {
        put_comma(out, at)?;
        put_range(out, tokens, range)?;
    }
    put(out, b")")
}

/// Adds the code of STOP, where there is one.
pub fn put_code(out: &mut Vec<u8>, tokens: &Tokens, code: Option<u32>) -> Result<(), NoMemory> {
    let Some(code) = code else {
        return Ok(());
    };
    match tokens.items.get(code as usize) {
        Some(token) => match token.kind {
            TokenKind::Quoted => put_quoted(out, token.value.bytes()),
            _ => put(out, token.value.bytes()),
        },
        None => put(out, b"?"),
    }
}

/// Adds `*` or `(*, *)`, and the items of input or output.
pub fn put_items(
    out: &mut Vec<u8>,
    tokens: &Tokens,
    style: IoStyle,
    items: &[Expr],
) -> Result<(), NoMemory> {
    match style {
        IoStyle::Star => {
            put(out, b"*")?;
            put_comma(out, items.len())?;
        }
        IoStyle::Paren => put(out, b"(*, *)")?,
    }
    put_exprs(out, tokens, items)
}
