//! Names by themselves and in expressions.

ghost use Rattle.std.specs.Prelude.{◌≡◌, ◌++◌, ◌∷◌, [], OnOk};
ghost use Rattle.ftn_tree.specs.Expressions as exprs;
ghost use Rattle.ftn_tree.specs.PartMentions as spec;
ghost use Rattle.ftn_tree.specs.Roles as roles;

use crate::expr::Expr;
use crate::mention::{Mention, Role};
use ftn_base::NoMemory;
use sqlite_items::Items;
use std::alloc::Global;

pub(crate) fn push_name(
    alloc: Global,
    token: u32,
    role: Role,
    found: &mut Vec<Mention>,
) -> Result<(), NoMemory>
    ensures { OnOk result (found.new.items ≡ found.old.items ++ roles.mention token role ∷ []) }
{
    found.push(Mention::new(alloc, token, role))?;
    Ok(())
}

pub(crate) fn push_mention(
    token: u32,
    role: Role,
    also: Items<Role>,
    found: &mut Vec<Mention>,
) -> Result<(), NoMemory>
    ensures { OnOk result (found.new.items ≡ found.old.items ++ roles.mention_with token role also ∷ []) }
{
    found.push(Mention { token, role, also })?;
    Ok(())
}

pub(crate) fn push_if_named(
    alloc: Global,
    token: Option<u32>,
    role: Role,
    found: &mut Vec<Mention>,
) -> Result<(), NoMemory>
    ensures { OnOk result (found.new.items ≡ found.old.items ++ spec.maybe_named role token) }
{
    match token {
        Some(token) => push_name(alloc, token, role, found),
        None => Ok(()),
    }
}

pub(crate) fn push_names(
    alloc: Global,
    names: &[u32],
    role: Role,
    found: &mut Vec<Mention>,
) -> Result<(), NoMemory>
    ensures { OnOk result (found.new.items ≡ found.old.items ++ spec.all_named role names.now) }
{
    for name in names {
        push_name(alloc, *name, role, found)?;
    }
    Ok(())
}

pub(crate) fn push_if_names(
    alloc: Global,
    names: &Option<Items<u32>>,
    role: Role,
    found: &mut Vec<Mention>,
) -> Result<(), NoMemory>
    ensures { OnOk result (found.new.items ≡ found.old.items ++ spec.maybe_all_named role names.now) }
{
    match names {
        Some(names) => push_names(alloc, names.as_slice(), role, found),
        None => Ok(()),
    }
}

pub(crate) fn push_exprs(
    alloc: Global,
    exprs: &[Expr],
    found: &mut Vec<Mention>,
) -> Result<(), NoMemory>
    ensures { OnOk result (found.new.items ≡ found.old.items ++ spec.in_all exprs.now) }
{
    for expr in exprs {
        expr.push_mentions(alloc, found)?;
    }
    Ok(())
}

pub(crate) fn push_if_expr(
    alloc: Global,
    expr: &Option<Expr>,
    found: &mut Vec<Mention>,
) -> Result<(), NoMemory>
    ensures { OnOk result (found.new.items ≡ found.old.items ++ exprs.mentions_in_bound expr.now) }
{
    match expr {
        Some(expr) => expr.push_mentions(alloc, found),
        None => Ok(()),
    }
}

pub(crate) fn push_if_args(
    alloc: Global,
    args: &Option<Items<Expr>>,
    found: &mut Vec<Mention>,
) -> Result<(), NoMemory>
    ensures { OnOk result (found.new.items ≡ found.old.items ++ exprs.mentions_in_args args.now) }
{
    match args {
        Some(args) => push_exprs(alloc, args.as_slice(), found),
        None => Ok(()),
    }
}
