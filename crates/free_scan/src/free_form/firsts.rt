//! The first of the places at which a text breaks a rule.

ghost use Rattle.std.specs.Prelude.{◌≡◌, None, [], ◌∷◌};
ghost use Rattle.ftn_tree.specs.Breaks as breaks;
ghost use Rattle.ftn_tree.specs.Breaks.{only_if};
ghost use Rattle.free_scan.specs.steps.Firsts as spec;

use ftn_base::FaultKind;
use std::marker::Model;

/// The first place at which a text is found to break a rule, in bytes, and the rule. Contracts see both.
#[derive(Drop)]
pub(crate) struct Firsts {
    found: Option<(u32, FaultKind)>,
}

impl Model for Firsts {
    ghost use Rattle.std.specs.Prelude.{Option};
    ghost use Rattle.ftn_tree.specs.Breaks.{Breach};

    ghost Value = { Option Breach };

    ghost view = { λ a. a.found };
}

/// Which rule comes first of two that are broken at one place.
fn rank(kind: FaultKind) -> u32
    ensures { result ≡ breaks.rank kind }
{
    match kind {
        FaultKind::BadByte => 0,
        FaultKind::OpenText => 1,
        FaultKind::LongLine => 2,
        FaultKind::ManyContinuations => 3,
        FaultKind::LoneAmpersand => 4,
        FaultKind::LongName => 5,
        FaultKind::BigNumber => 6,
        _ => 7,
    }
}

/// Whether a breach comes before another one.
fn comes_before(breach: (u32, FaultKind), other: (u32, FaultKind)) -> bool
    ensures { result ≡ spec.comes_before breach other }
{
    breach.0 < other.0 || breach.0 == other.0 && rank(breach.1) < rank(other.1)
}

/// The earlier of what was found and a breach.
fn earlier(found: Option<(u32, FaultKind)>, breach: (u32, FaultKind)) -> Option<(u32, FaultKind)>
    ensures { result ≡ spec.earlier found breach }
{
    match found {
        None => Some(breach),
        Some(first) => {
            if comes_before(breach, first) {
                Some(breach)
            } else {
                Some(first)
            }
        }
    }
}

impl Firsts {
    /// No rule is broken so far.
    pub(crate) fn new() -> Firsts
        ensures { result ≡ None }
    {
        Firsts { found: None }
    }

    /// A rule is broken at that offset.
    pub(crate) fn note(&mut self, at: u32, kind: FaultKind)
        ensures { self.new ≡ spec.least self.old ((at, kind) ∷ []) }
    {
        self.found = earlier(self.found, (at, kind));
    }

    /// A rule is broken at that offset, if it is so.
    pub(crate) fn note_if(&mut self, broken: bool, at: u32, kind: FaultKind)
        ensures { self.new ≡ spec.least self.old (only_if broken (at, kind)) }
    {
        if broken {
            self.note(at, kind);
        }
    }

    /// The earlier of the two.
    pub(crate) fn merged(self, other: Firsts) -> Firsts
        ensures { result ≡ spec.merged self other }
    {
        match other.found {
            None => self,
            Some(breach) => Firsts {
                found: earlier(self.found, breach),
            },
        }
    }

    /// The place and the rule, if one is broken.
    pub(crate) fn found(&self) -> Option<(u32, FaultKind)>
        ensures { result ≡ self.now }
    {
        self.found
    }
}
