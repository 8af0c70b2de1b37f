//! A cursor over the tokens of a statement.

ghost use Rattle.std.specs.Prelude.{◌≡◌, ◌<◌, ◌≤◌, ◌+◌, ◌^◌, true, length, OnSome};
ghost use Rattle.expr_parse.specs.steps.Input as spec;
ghost use Rattle.expr_parse.specs.steps.Input.{Gives};

use crate::fault::Misfit;
use ftn_base::Range;
use ftn_tree::{Lexeme, Token, Tokens};
use std::marker::Model;

/// The tokens of a statement that are not read yet. A reader that answers [`Misfit::NoFit`] may have read some of them.
#[derive(Drop)]
pub struct Cursor<'a> {
    rest: &'a [Token],
    at: u32,
}

impl<'a> Model for Cursor<'a> {
    ghost use Rattle.std.specs.Prelude.{◌+◌, ◌<◌, ◌^◌, length};
    ghost use Rattle.expr_parse.specs.steps.Input.{Input, input};

    ghost Value = { Input };

    ghost view = { λ c. input c.at c.rest.now };

    ghost invariant = { λ c. c.at + length c.rest.now < 2 ^ 32 };
}

impl<'a> Cursor<'a> {
    /// The tokens of that range of numbers, as far as they are there.
    pub fn new(tokens: &'a Tokens, range: Range) -> Cursor<'a>
        ensures { result ≡ spec.input range.start (spec.tokens_in tokens.now.items range) }
    {
        let all = tokens.items.as_slice();
        let (_, from) = all.split_at(all.len().min(range.start as usize));
        let count = range.end.saturating_sub(range.start) as usize;
        let (rest, _) = from.split_at(from.len().min(count));
        Cursor {
            rest,
            at: range.start,
        }
    }

    /// The number of the next token.
    pub fn at(&self) -> u32
        ensures { result ≡ self.now.at }
    {
        self.at
    }

    /// How many tokens are left.
    pub fn left(&self) -> usize
        ensures { result ≡ length self.now.rest }
    {
        self.rest.len()
    }

    /// The tokens that are left.
    pub fn rest(&self) -> &'a [Token]
        ensures { result.now ≡ self.now.rest }
    {
        self.rest
    }

    /// What the next token is in the grammar.
    #[tactic(auto, unfolding(crate::specs::steps::Input::peek))]
    pub fn peek(&self) -> Option<Lexeme>
        ensures value { result ≡ spec.peek self.now }
        ensures there { OnSome result (1 ≤ length self.now.rest) }
    {
        match self.rest {
            [here, ..] => Some(here.lexeme()),
            [] => None,
        }
    }

    /// What the token after the next one is in the grammar.
    #[tactic(auto, unfolding(crate::specs::steps::Input::peek_second))]
    pub fn peek_second(&self) -> Option<Lexeme>
        ensures { result ≡ spec.peek_second self.now }
    {
        match self.rest {
            [_, second, ..] => Some(second.lexeme()),
            _ => None,
        }
    }

    /// Whether the next token is that.
    #[tactic(auto, unfolding(crate::specs::steps::Input::sees))]
    pub fn sees(&self, kind: Lexeme) -> bool
        ensures value { result ≡ spec.sees kind self.now }
        ensures there { result ≡ true → 1 ≤ length self.now.rest }
    {
        match self.rest {
            [here, ..] => here.lexeme().is(kind),
            [] => false,
        }
    }

    /// Whether the next token is that word, given in lower case.
    #[tactic(auto, unfolding(crate::specs::steps::Input::sees_word))]
    pub fn sees_word(&self, text: &[u8]) -> bool
        ensures value { result ≡ spec.sees_word text.now self.now }
        ensures there { result ≡ true → 1 ≤ length self.now.rest }
    {
        match self.rest {
            [here, ..] => here.is_word(text),
            [] => false,
        }
    }

    /// Whether no token is left.
    #[tactic(auto, unfolding(crate::specs::steps::Input::is_done))]
    pub fn is_done(&self) -> bool
        ensures { result ≡ spec.is_done self.now }
    {
        self.rest.is_empty()
    }

    pub(crate) fn skip(&mut self)
        requires { 1 ≤ length self.old.rest }
        ensures { self.new ≡ spec.after self.old }
    {
        self.rest = &self.rest[1..];
        self.at += 1;
    }

    /// Takes the next token if it is that, and says whether it was.
    pub fn eat(&mut self, kind: Lexeme) -> bool
        ensures found { result ≡ spec.sees kind self.old }
        ensures after { self.new ≡ spec.after_if result self.old }
    {
        let found = self.sees(kind);
        if found {
            self.skip();
        }
        found
    }

    /// Takes the next token if it is that word, and says whether it was.
    pub fn eat_word(&mut self, text: &[u8]) -> bool
        ensures found { result ≡ spec.sees_word text.now self.old }
        ensures after { self.new ≡ spec.after_if result self.old }
    {
        let found = self.sees_word(text);
        if found {
            self.skip();
        }
        found
    }

    /// Takes the next token, which has to be that, and gives its number.
    #[tactic(auto, unfolding(crate::specs::steps::Input::expect))]
    pub fn expect(&mut self, kind: Lexeme) -> Result<u32, Misfit>
        ensures { Gives (spec.expect kind self.old) result self.new }
    {
        if !self.sees(kind) {
            return Err(Misfit::NoFit);
        }
        let at = self.at;
        self.skip();
        Ok(at)
    }

    /// Takes the next token, which has to be that word, and gives its number.
    #[tactic(auto, unfolding(crate::specs::steps::Input::expect_word))]
    pub fn expect_word(&mut self, text: &[u8]) -> Result<u32, Misfit>
        ensures { Gives (spec.expect_word text.now self.old) result self.new }
    {
        if !self.sees_word(text) {
            return Err(Misfit::NoFit);
        }
        let at = self.at;
        self.skip();
        Ok(at)
    }

    /// Takes a name, and gives its token's number.
    pub fn name(&mut self) -> Result<u32, Misfit>
        ensures { Gives (spec.name self.old) result self.new }
    {
        self.expect(Lexeme::Word)
    }

    /// Says that no token may be left.
    #[tactic(auto, unfolding(crate::specs::steps::Input::finish, crate::specs::steps::Input::is_done))]
    pub fn finish(&mut self) -> Result<(), Misfit>
        ensures { Gives (spec.finish self.old) result self.new }
    {
        if self.is_done() {
            Ok(())
        } else {
            Err(Misfit::NoFit)
        }
    }

    /// Gives what was read, if no token is left.
    pub fn finish_with<T: Drop>(&mut self, found: T) -> Result<T, Misfit>
        ensures { Gives (spec.finish_with found self.old) result self.new }
    {
        self.finish()?;
        Ok(found)
    }
}
