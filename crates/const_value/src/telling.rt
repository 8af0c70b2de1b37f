//! What is told of an expression that has to be constant.

ghost use Rattle.std.specs.Prelude.{◌≡◌, ◌&&◌, ◌||◌, IfOk};
ghost use Rattle.const_expr.specs.Seen.{told_in};
ghost use Rattle.const_value.specs.steps.Measuring.{given};

use crate::view::View;
use const_expr::{Told, evaluate};
use ftn_base::NoMemory;
use ftn_tree::Expr;
use std::alloc::Global;

/// What is told of an expression.
pub(crate) fn told_of(alloc: Global, view: &View<'_>, expr: &Expr) -> Result<Told, NoMemory>
    ensures { IfOk result (λ told. told ≡ told_in (given view.now expr.now)) }
{
    let made = evaluate(alloc, &view.names, expr)?;
    Ok(made.told)
}

/// Whether one of two holds.
pub(crate) fn either(one: bool, other: bool) -> bool
    ensures { result ≡ (one || other) }
{
    one || other
}

/// Whether both hold.
pub(crate) fn both(one: bool, other: bool) -> bool
    ensures { result ≡ (one && other) }
{
    one && other
}
