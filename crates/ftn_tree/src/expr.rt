//! Expressions (Fortran 90, 7.1).

ghost use Rattle.std.specs.Prelude.{◌≡◌, ◌++◌, OnOk};
ghost use Rattle.ftn_tree.specs.Expressions as spec;

use crate::mention::{Mention, Role};
use crate::operator::Operator;
use ftn_base::{Bytes, NoMemory};
use sqlite_items::{Boxed, Items};
use std::alloc::Global;

/// An expression as it is written (7.1.1). Each `u32` is the number of a token in the file, from 0.
#[cycle(expr)]
#[derive(Drop)]
pub enum Expr {
    /// A whole number (4.3.1.1).
    Whole {
        /// Its token.
        token: u32,
        /// What it stands for.
        value: i32,
    },
    /// `.TRUE.` or `.FALSE.` (4.3.2.2).
    Truth {
        /// Its token.
        token: u32,
        /// What it stands for.
        value: bool,
    },
    /// A character constant (4.3.2.1).
    Quoted {
        /// Its token.
        token: u32,
        /// The bytes that it stands for.
        value: Bytes,
    },
    /// An expression in parentheses (7.1.1.1).
    Paren {
        /// The opening parenthesis.
        token: u32,
        /// What stands between the parentheses.
        inner: Boxed<Expr>,
    },
    /// A sign or `.NOT.` and its operand (7.1.1.3, 7.1.1.6).
    Unary {
        /// The token of the operator.
        op: u32,
        /// Which operator it is.
        operator: Operator,
        /// The operand.
        arg: Boxed<Expr>,
    },
    /// An operator between two operands (7.1.1.3 to 7.1.1.6).
    Binary {
        /// The token of the operator.
        op: u32,
        /// Which operator it is.
        operator: Operator,
        /// The operand before it.
        left: Boxed<Expr>,
        /// The operand after it.
        right: Boxed<Expr>,
    },
    /// A name with what follows it: a variable, an array element, a substring, a named constant or a function reference
    /// (6, 12.4.2).
    Refer {
        /// The name.
        name: u32,
        /// The subscripts or actual arguments in their parentheses. `f()` has an empty list.
        args: Option<Items<Expr>>,
        /// The substring range in its parentheses (6.1.1).
        part: Option<Boxed<Part>>,
    },
}

/// A substring range, `low : high` (6.1.1).
#[cycle(expr)]
#[derive(Drop)]
pub struct Part {
    /// The position of its first character, if it is written.
    pub low: Option<Expr>,
    /// The position of its last character, if it is written.
    pub high: Option<Expr>,
}

impl Expr {
    /// The number of the first token of the expression.
    pub fn first_token(&self) -> u32
        ensures { result ≡ spec.first_token self.now }
    {
        let mut expr = self;
        loop {
            match expr {
                Expr::Binary { left, .. } => expr = left.get(),
                Expr::Whole { token, .. }
                | Expr::Truth { token, .. }
                | Expr::Quoted { token, .. }
                | Expr::Paren { token, .. } => return *token,
                Expr::Unary { op, .. } => return *op,
                Expr::Refer { name, .. } => return *name,
            }
        }
    }

    /// Whether it is a name with what follows it, as a variable is written.
    pub fn is_reference(&self) -> bool
        ensures { result ≡ spec.is_reference self.now }
    {
        matches!(self, Expr::Refer { .. })
    }

    /// Adds the names in the expression, in their order, each with its role: [`Role::Parenthesised`] where subscripts or arguments
    /// follow it in parentheses, [`Role::Ranged`] where a substring range follows it alone, and else [`Role::Plain`].
    #[cycle(mentions)]
    pub fn push_mentions(&self, alloc: Global, mentions: &mut Vec<Mention>) -> Result<(), NoMemory>
        ensures { OnOk result (mentions.new.items ≡ mentions.old.items ++ spec.mentions_in self.now) }
    {
        match self {
            Expr::Whole { .. } | Expr::Truth { .. } | Expr::Quoted { .. } => {}
            Expr::Paren { inner, .. } => inner.get().push_mentions(alloc, mentions)?,
            Expr::Unary { arg, .. } => arg.get().push_mentions(alloc, mentions)?,
            Expr::Binary { left, right, .. } => {
                left.get().push_mentions(alloc, mentions)?;
                right.get().push_mentions(alloc, mentions)?;
            }
            Expr::Refer { name, args, part } => {
                mentions.push(Mention::new(alloc, *name, role_with(args, part)))?;
                push_in_args(alloc, args, mentions)?;
                push_in_part(alloc, part, mentions)?;
            }
        }
        Ok(())
    }
}

fn role_with(args: &Option<Items<Expr>>, part: &Option<Boxed<Part>>) -> Role
    ensures { result ≡ spec.role_with args.now part.now }
{
    match (args, part) {
        (Some(_), _) => Role::Parenthesised,
        (None, Some(_)) => Role::Ranged,
        (None, None) => Role::Plain,
    }
}

#[cycle(mentions)]
fn push_in_args(
    alloc: Global,
    args: &Option<Items<Expr>>,
    mentions: &mut Vec<Mention>,
) -> Result<(), NoMemory>
    ensures { OnOk result (mentions.new.items ≡ mentions.old.items ++ spec.mentions_in_args args.now) }
{
    if let Some(args) = args {
        for arg in args.as_slice() {
            arg.push_mentions(alloc, mentions)?;
        }
    }
    Ok(())
}

#[cycle(mentions)]
fn push_in_part(
    alloc: Global,
    part: &Option<Boxed<Part>>,
    mentions: &mut Vec<Mention>,
) -> Result<(), NoMemory>
    ensures { OnOk result (mentions.new.items ≡ mentions.old.items ++ spec.mentions_in_part part.now) }
{
    match part {
        Some(part) => {
            let part = part.get();
            push_in_bound(alloc, &part.low, mentions)?;
            push_in_bound(alloc, &part.high, mentions)
        }
        None => Ok(()),
    }
}

#[cycle(mentions)]
fn push_in_bound(
    alloc: Global,
    bound: &Option<Expr>,
    mentions: &mut Vec<Mention>,
) -> Result<(), NoMemory>
    ensures { OnOk result (mentions.new.items ≡ mentions.old.items ++ spec.mentions_in_bound bound.now) }
{
    match bound {
        Some(bound) => bound.push_mentions(alloc, mentions),
        None => Ok(()),
    }
}
