//! The rules of expressions (Fortran 90, 7.1.1, 6.1.1, 6.2.2, 12.4.1). They take the reader of the expressions that stand inside as a
//! parameter.

ghost use Rattle.std.specs.Prelude.{◌≡◌, ◌≤◌, ◌∷◌, []};
ghost use Rattle.expr_parse.specs.steps.Input.{Gives};
ghost use Rattle.expr_parse.specs.steps.Reading as spec;
ghost use Rattle.expr_parse.specs.steps.Nests.{Nests};

use crate::constants::constant;
use crate::cursor::Cursor;
use crate::fault::Misfit;
use crate::operators::{LOOSEST, binary, chained, next_operator, next_sign, unary};
use ftn_tree::{Expr, Lexeme, Part};
use sqlite_items::{Boxed, Items};
use std::alloc::Global;

/// The rules, over the reader of the expressions inside.
#[derive(Clone, Copy)]
pub struct Rules<F> {
    pub alloc: Global,
    /// How deep expressions inside may still nest.
    pub depth: usize,
    /// Reads an expression that nests so deep, of at most a level.
    pub read: F,
}

impl<F: Fn(Global, &mut Cursor<'_>, usize, u8) -> Result<Expr, Misfit>> Rules<F> {
    fn read(&self, cursor: &mut Cursor<'_>, most: u8) -> Result<Expr, Misfit>
        requires { Nests self.now.depth (F.pre self.now.read) (F.post self.now.read) }
        ensures { Gives (spec.read self.now.depth most cursor.old) result cursor.new }
    {
        (self.read)(self.alloc, cursor, self.depth, most)
    }

    #[tactic(auto, unfolding(crate::specs::steps::Reading::parenthesized))]
    fn parenthesized(&self, cursor: &mut Cursor<'_>) -> Result<Expr, Misfit>
        requires { Nests self.now.depth (F.pre self.now.read) (F.post self.now.read) }
        ensures { Gives (spec.parenthesized (spec.read self.now.depth) cursor.old) result cursor.new }
    {
        let token = cursor.expect(Lexeme::Open)?;
        let inner = Boxed::new(self.alloc, self.read(cursor, LOOSEST)?)?;
        cursor.expect(Lexeme::Close)?;
        Ok(Expr::Paren { token, inner })
    }

    #[tactic(auto, unfolding(crate::specs::steps::Reading::bound))]
    fn bound(&self, cursor: &mut Cursor<'_>, until: Lexeme) -> Result<Option<Expr>, Misfit>
        requires { Nests self.now.depth (F.pre self.now.read) (F.post self.now.read) }
        ensures { Gives (spec.bound (spec.read self.now.depth) until cursor.old) result cursor.new }
    {
        if cursor.sees(until) {
            return Ok(None);
        }
        Ok(Some(self.read(cursor, LOOSEST)?))
    }

    #[tactic(auto, unfolding(crate::specs::steps::Reading::part_from))]
    fn part_from(&self, cursor: &mut Cursor<'_>, low: Option<Expr>) -> Result<Part, Misfit>
        requires { Nests self.now.depth (F.pre self.now.read) (F.post self.now.read) }
        ensures { Gives (spec.part_from (spec.read self.now.depth) low cursor.old) result cursor.new }
    {
        cursor.expect(Lexeme::Colon)?;
        let high = self.bound(cursor, Lexeme::Close)?;
        cursor.expect(Lexeme::Close)?;
        Ok(Part { low, high })
    }

    fn with_part(
        &self,
        cursor: &mut Cursor<'_>,
        name: u32,
        low: Option<Expr>,
    ) -> Result<Expr, Misfit>
        requires { Nests self.now.depth (F.pre self.now.read) (F.post self.now.read) }
        ensures { Gives (spec.with_part (spec.read self.now.depth) name low cursor.old) result cursor.new }
    {
        let part = self.part_from(cursor, low)?;
        Ok(Expr::Refer {
            name,
            args: None,
            part: Some(Boxed::new(self.alloc, part)?),
        })
    }

    #[tactic(auto, unfolding(crate::specs::steps::Reading::with_args))]
    fn with_args(
        &self,
        cursor: &mut Cursor<'_>,
        name: u32,
        args: Items<Expr>,
    ) -> Result<Expr, Misfit>
        requires { Nests self.now.depth (F.pre self.now.read) (F.post self.now.read) }
        ensures { Gives (spec.with_args (spec.read self.now.depth) name args cursor.old) result cursor.new }
    {
        if !cursor.eat(Lexeme::Open) {
            return Ok(Expr::Refer {
                name,
                args: Some(args),
                part: None,
            });
        }
        let low = self.bound(cursor, Lexeme::Colon)?;
        let part = self.part_from(cursor, low)?;
        Ok(Expr::Refer {
            name,
            args: Some(args),
            part: Some(Boxed::new(self.alloc, part)?),
        })
    }

    #[tactic(auto, unfolding(crate::specs::steps::Combinators::each_after_comma_from))]
    fn list_from(&self, cursor: &mut Cursor<'_>, first: Expr) -> Result<Items<Expr>, Misfit>
        requires { Nests self.now.depth (F.pre self.now.read) (F.post self.now.read) }
        ensures { Gives (spec.list_from (spec.read self.now.depth) first cursor.old) result cursor.new }
    {
        let mut found = Items::new(self.alloc);
        found.push(first)?;
        for _turn in 0..cursor.left() {
            if !cursor.eat(Lexeme::Comma) {
                return Ok(found);
            }
            found.push(self.read(cursor, LOOSEST)?)?;
        }
        Ok(found)
    }

    #[tactic(auto, unfolding(crate::specs::steps::Reading::args_from))]
    fn args_from(&self, cursor: &mut Cursor<'_>, name: u32, first: Expr) -> Result<Expr, Misfit>
        requires { Nests self.now.depth (F.pre self.now.read) (F.post self.now.read) }
        ensures { Gives (spec.args_from (spec.read self.now.depth) name first cursor.old) result cursor.new }
    {
        let args = self.list_from(cursor, first)?;
        cursor.expect(Lexeme::Close)?;
        self.with_args(cursor, name, args)
    }

    fn group_from(
        &self,
        cursor: &mut Cursor<'_>,
        name: u32,
        low: Option<Expr>,
    ) -> Result<Expr, Misfit>
        requires { Nests self.now.depth (F.pre self.now.read) (F.post self.now.read) }
        ensures { Gives (spec.group_from (spec.read self.now.depth) name low cursor.old) result cursor.new }
    {
        match low {
            Some(first) if !cursor.sees(Lexeme::Colon) => self.args_from(cursor, name, first),
            low => self.with_part(cursor, name, low),
        }
    }

    #[tactic(auto, unfolding(crate::specs::steps::Reading::group))]
    fn group(&self, cursor: &mut Cursor<'_>, name: u32) -> Result<Expr, Misfit>
        requires { Nests self.now.depth (F.pre self.now.read) (F.post self.now.read) }
        ensures { Gives (spec.group (spec.read self.now.depth) name cursor.old) result cursor.new }
    {
        if cursor.eat(Lexeme::Close) {
            return self.with_args(cursor, name, Items::new(self.alloc));
        }
        let low = self.bound(cursor, Lexeme::Colon)?;
        self.group_from(cursor, name, low)
    }

    /// Reads a name with what follows it.
    #[tactic(auto, unfolding(crate::specs::steps::Reading::named))]
    pub fn named(&self, cursor: &mut Cursor<'_>) -> Result<Expr, Misfit>
        requires { Nests self.now.depth (F.pre self.now.read) (F.post self.now.read) }
        ensures { Gives (spec.named (spec.read self.now.depth) cursor.old) result cursor.new }
    {
        let name = cursor.name()?;
        if cursor.eat(Lexeme::Open) {
            return self.group(cursor, name);
        }
        Ok(Expr::Refer {
            name,
            args: None,
            part: None,
        })
    }

    #[tactic(auto, unfolding(crate::specs::steps::Reading::primary))]
    fn primary(&self, cursor: &mut Cursor<'_>) -> Result<Expr, Misfit>
        requires { Nests self.now.depth (F.pre self.now.read) (F.post self.now.read) }
        ensures { Gives (spec.primary (spec.read self.now.depth) cursor.old) result cursor.new }
    {
        match cursor.peek() {
            Some(Lexeme::Word) => self.named(cursor),
            Some(Lexeme::Open) => self.parenthesized(cursor),
            _ => constant(self.alloc, cursor),
        }
    }

    #[tactic(auto, unfolding(crate::specs::steps::Reading::powers, crate::specs::steps::Reading::powers_from))]
    fn powers(&self, cursor: &mut Cursor<'_>) -> Result<Expr, Misfit>
        requires { Nests self.now.depth (F.pre self.now.read) (F.post self.now.read) }
        ensures { Gives (spec.powers (spec.read self.now.depth) cursor.old) result cursor.new }
    {
        let mut steps = Items::new(self.alloc);
        for _turn in 0..cursor.left() {
            let operand = self.primary(cursor)?;
            let op = cursor.at();
            if !cursor.eat(Lexeme::Power) {
                return Ok(chained(self.alloc, steps, operand)?);
            }
            steps.push((operand, op))?;
        }
        Err(Misfit::NoFit)
    }

    #[tactic(auto, unfolding(crate::specs::steps::Reading::operators, crate::specs::steps::Reading::climb))]
    fn operators(
        &self,
        cursor: &mut Cursor<'_>,
        most: u8,
        first: Expr,
        own: u8,
    ) -> Result<Expr, Misfit>
        requires { Nests self.now.depth (F.pre self.now.read) (F.post self.now.read) }
        ensures { Gives (spec.operators (spec.read self.now.depth) most own first cursor.old) result cursor.new }
    {
        let mut left = first;
        let mut own = own;
        for _turn in 0..cursor.left() {
            let Some(how) = next_operator(cursor, most, own) else {
                return Ok(left);
            };
            let op = cursor.at();
            cursor.skip();
            let right = self.read(cursor, how.right)?;
            left = binary(self.alloc, op, how.operator, left, right)?;
            own = how.level;
        }
        Ok(left)
    }

    /// Reads an expression of at most a level, as long as possible.
    #[tactic(auto, unfolding(crate::specs::steps::Reading::level))]
    pub fn level(&self, cursor: &mut Cursor<'_>, most: u8) -> Result<Expr, Misfit>
        requires { Nests self.now.depth (F.pre self.now.read) (F.post self.now.read) }
        ensures { Gives (spec.level (spec.read self.now.depth) most cursor.old) result cursor.new }
    {
        let Some(how) = next_sign(cursor, most) else {
            let first = self.powers(cursor)?;
            return self.operators(cursor, most, first, 1);
        };
        let op = cursor.at();
        cursor.skip();
        let arg = self.read(cursor, how.operand)?;
        let first = unary(self.alloc, op, how.operator, arg)?;
        self.operators(cursor, most, first, how.level)
    }
}
