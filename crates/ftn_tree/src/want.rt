//! What places in statements want of the expressions in them.

use crate::expr::Expr;
use std::marker::Model;

/// What a place wants of the expression that stands in it.
#[derive(Clone, Copy)]
pub enum Want {
    /// What gets a value by an assignment: a variable (7.5.1).
    Target,
    /// The right side of an assignment, which has the target's type (7.5.1).
    Assigned,
    /// A condition: a logical scalar (8.1.2, 8.1.4).
    Condition,
    /// The expression of a SELECT CASE (8.1.3).
    Selector,
    /// A value or a bound of CASE, which is a constant of the selector's type (8.1.3).
    Case,
    /// What a DO variable begins with, goes to or grows by: an integer scalar (8.1.4).
    Limit,
    /// An actual argument of a called procedure, with the token of its name (12.4.1). The arguments come in their order.
    Argument(u32),
    /// An item of output (9.4.2).
    Output,
    /// An item of input: a variable (9.4.2).
    Input,
    /// A bound of an array: an integer scalar (5.1.2.4).
    Bound,
    /// A character length: an integer scalar (5.1.1.5).
    Length,
    /// The value of an entity or a named constant, with the token of its name (5.1, 5.2.10).
    Value(u32),
    /// A subscript of an array element in EQUIVALENCE or DATA, with the token of the array's name: an integer scalar (5.2.9, 5.5.1).
    Subscript(u32),
}

/// An expression of a statement, lent, with what its place wants of it.
#[derive(Drop)]
pub struct Placed<'a> {
    /// What is wanted there.
    pub want: Want,
    /// The expression.
    pub expr: &'a Expr,
}

impl<'a> Model for Placed<'a> {
    ghost use Rattle.std.specs.Coded.{codes};
    ghost use Rattle.ftn_tree.specs.Wants.{Placed, placed};
    ghost use Rattle.ftn_tree.specs.contracts.expr.Expr as e;

    ghost Value = { Placed };

    ghost coded = { Prim.hlevel (codes, e.the_row.coded) };

    ghost view = { λ p. placed p.want p.expr.now };
}
