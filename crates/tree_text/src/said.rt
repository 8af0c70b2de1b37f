//! Names with what is said of them, and expressions with what their places want.

use crate::expressions::put_expr;
use crate::line::{join, place_of, put, put_comma, put_maybe, put_place, put_token};
use ftn_base::NoMemory;
use ftn_tree::{Mention, Placed, Role, Statement, Tokens, Want};
use std::alloc::Global;

/// The word for a role that stands in a declaration, or for one in which a name stands elsewhere.
fn role_word(role: Role) -> &'static [u8] {
    match role {
        Role::Typed => b"typed",
        Role::Bounded => b"bounded",
        Role::Dimensioned => b"dimensioned",
        Role::DimensionAttribute => b"bounded by DIMENSION",
        Role::DimensionTwice => b"DIMENSION twice",
        Role::Valued => b"valued",
        Role::Parameter => b"PARAMETER",
        Role::Saved => b"SAVE",
        Role::Public => b"PUBLIC",
        Role::Private => b"PRIVATE",
        Role::External => b"EXTERNAL",
        Role::Intrinsic => b"INTRINSIC",
        Role::IntentIn => b"INTENT(IN)",
        Role::IntentOut => b"INTENT(OUT)",
        Role::IntentInOut => b"INTENT(INOUT)",
        Role::Member => b"member",
        Role::NamedMember => b"member of a named block",
        Role::Tied => b"tied",
        Role::Given => b"given",
        _ => other_word(role),
    }
}

/// The word for a role outside of declarations.
fn other_word(role: Role) -> &'static [u8] {
    match role {
        Role::Opens => b"opens",
        Role::Ends => b"ends",
        Role::Leaves => b"leaves",
        Role::Label => b"label",
        Role::Slash => b"block",
        Role::Module => b"module",
        Role::Source => b"source",
        Role::Local => b"local",
        Role::Dummy => b"dummy",
        Role::Answer => b"result",
        Role::Generic => b"generic",
        Role::Specific => b"specific",
        Role::Called => b"called",
        Role::Parenthesised => b"parenthesised",
        Role::Ranged => b"ranged",
        Role::Inner => b"inner",
        Role::Body => b"body",
        _ => b"plain",
    }
}

/// Adds a line: the place of a name, the name, and all that is said of it, with commas between.
fn put_mention(
    alloc: Global,
    out: &mut Vec<u8>,
    tokens: &Tokens,
    mention: &Mention,
) -> Result<(), NoMemory> {
    put_place(alloc, out, place_of(tokens, mention.token))?;
    put_token(out, tokens, mention.token)?;
    put(out, role_word(mention.role))?;
    for role in mention.also.as_slice() {
        put_comma(out, 1)?;
        put(out, role_word(*role))?;
    }
    join(out, b"\n")
}

fn put_each_mention(
    alloc: Global,
    out: &mut Vec<u8>,
    tokens: &Tokens,
    mentions: &[Mention],
) -> Result<(), NoMemory> {
    for mention in mentions {
        put_mention(alloc, out, tokens, mention)?;
    }
    Ok(())
}

fn put_mentions_of(
    alloc: Global,
    out: &mut Vec<u8>,
    tokens: &Tokens,
    statement: &Statement,
) -> Result<(), NoMemory> {
    let mut mentions = Vec::new(alloc);
    statement.form.push_mentions(alloc, &mut mentions)?;
    put_each_mention(alloc, out, tokens, &mentions)
}

/// Adds a line for each name in the statements.
pub fn put_mentions(
    alloc: Global,
    out: &mut Vec<u8>,
    tokens: &Tokens,
    statements: &[Statement],
) -> Result<(), NoMemory> {
    for statement in statements {
        put_mentions_of(alloc, out, tokens, statement)?;
    }
    Ok(())
}

/// The word for what a place wants.
fn want_word(want: Want) -> &'static [u8] {
    match want {
        Want::Target => b"target",
        Want::Assigned => b"assigned",
        Want::Condition => b"condition",
        Want::Selector => b"selector",
        Want::Case => b"case",
        Want::Limit => b"limit",
        Want::Argument(_) => b"argument of",
        Want::Output => b"output",
        Want::Input => b"input",
        Want::Bound => b"bound",
        Want::Length => b"length",
        Want::Value(_) => b"value of",
        Want::Subscript(_) => b"subscript of",
    }
}

/// The token of the name that a place belongs to, where there is one.
fn want_name(want: Want) -> Option<u32> {
    match want {
        Want::Argument(name) | Want::Value(name) | Want::Subscript(name) => Some(name),
        _ => None,
    }
}

/// Adds a line: the place of an expression, what is wanted there, and the expression after a colon.
fn put_placed(
    alloc: Global,
    out: &mut Vec<u8>,
    tokens: &Tokens,
    placed: &Placed<'_>,
) -> Result<(), NoMemory> {
    put_place(alloc, out, place_of(tokens, placed.expr.first_token()))?;
    put(out, want_word(placed.want))?;
    put_maybe(out, tokens, want_name(placed.want))?;
    join(out, b":")?;
    put_expr(out, tokens, placed.expr)?;
    join(out, b"\n")
}

/// Adds a line for each expression of the statements that stands in no other.
pub fn put_expressions(
    alloc: Global,
    out: &mut Vec<u8>,
    tokens: &Tokens,
    statements: &[Statement],
) -> Result<(), NoMemory> {
    for statement in statements {
        let mut found = Vec::new(alloc);
        statement.form.push_expressions(&mut found)?;
        for placed in &found {
            put_placed(alloc, out, tokens, placed)?;
        }
    }
    Ok(())
}
