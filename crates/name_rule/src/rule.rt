//! Rules for names: a pattern, and a test that answers it.

ghost use Rattle.name_rule.specs.Admits.{AreBytes, admits};
ghost use Rattle.name_rule.specs.Rule.{AnswersPattern, pattern_of};
ghost use Rattle.std.specs.Prelude.{◌≡◌};

use crate::pattern::NamePattern;

/// A rule for names: a pattern, and a test that answers whether the pattern admits a name.
#[derive(Drop)]
pub struct NameRule<F> {
    pattern: NamePattern,
    test: F,
}

impl<F: Fn(&[u8]) -> bool> NameRule<F> {
    /// The rule of this pattern. The test may be called on all names, and answers exactly whether the pattern
    /// admits them.
    pub fn new(pattern: NamePattern, test: F) -> NameRule<F>
        requires callable { F.IsAlwaysCallable test }
        requires answers { (name : _) (answer : _) → AreBytes name.now → F.post test name answer → answer ≡ admits pattern name.now }
        ensures exact { AnswersPattern F.Fn result }
        ensures pattern { pattern_of result ≡ pattern }
    {
        NameRule { pattern, test }
    }

    /// Whether the rule allows the name: exactly where its pattern admits it.
    pub fn allows(&self, name: &[u8]) -> bool
        requires { AnswersPattern F.Fn self.now }
        ensures { result ≡ admits (pattern_of self.now) name.now }
    {
        (self.test)(name)
    }

    /// The pattern, lent.
    pub fn pattern(&self) -> &NamePattern
        ensures { result.now ≡ pattern_of self.now }
    {
        &self.pattern
    }
}
