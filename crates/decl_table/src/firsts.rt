//! What was said of a name, each thing with the first saying that says it.

ghost use Rattle.std.specs.Prelude.{◌≡◌};
ghost use Rattle.decl_table.specs.steps.Firsts as steps;

use crate::saying::Saying;
use ftn_tree::Role;

/// For each thing that may be said of a name, the index of the first saying that says it, among some sayings of that name (Fortran
/// 90, 5, 8.1.4, 11.3, 12.3.2, 12.5.2).
#[derive(Clone, Copy)]
pub(crate) struct Firsts {
    /// A type (5.1).
    pub typed: Option<usize>,
    /// Bounds (5.1.2.4, 5.2.5, 5.5.2).
    pub bounded: Option<usize>,
    /// A value (5.1, 5.2.10).
    pub valued: Option<usize>,
    /// A value that is an initial value by its declaration.
    pub initial: Option<usize>,
    /// That it is a named constant (5.1.2.1, 5.2.10).
    pub parameter: Option<usize>,
    /// SAVE by its name (5.1.2.5, 5.2.4).
    pub saved: Option<usize>,
    /// That it is a dummy argument (12.5.2).
    pub dummy: Option<usize>,
    /// That it is a function's result (12.5.2.2).
    pub answer: Option<usize>,
    /// EXTERNAL (12.3.2.2).
    pub external: Option<usize>,
    /// INTRINSIC (12.3.2.3).
    pub intrinsic: Option<usize>,
    /// That an interface body declares it (12.3.2.1).
    pub body: Option<usize>,
    /// That it is a procedure inside, a generic name or a construct name.
    pub inside: Option<usize>,
    /// That it is a member of a common block (5.5.2).
    pub member: Option<usize>,
    /// That it is a member of blank common.
    pub blank: Option<usize>,
    /// That it stands in EQUIVALENCE (5.5.1).
    pub tied: Option<usize>,
    /// INTENT (5.1.2.3, 5.2.1).
    pub intent: Option<usize>,
    /// PUBLIC (5.1.2.2, 5.2.3).
    pub public: Option<usize>,
    /// PRIVATE (5.1.2.2, 5.2.3).
    pub private: Option<usize>,
}

/// The lower of two indexes that may be there.
pub(crate) fn least(one: Option<usize>, other: Option<usize>) -> Option<usize>
    ensures { result ≡ steps.least one other }
{
    match one {
        None => other,
        Some(a) => match other {
            None => one,
            Some(b) => Some(a.min(b)),
        },
    }
}

/// The index, where the other one is there.
pub(crate) fn with(index: Option<usize>, other: Option<usize>) -> Option<usize>
    ensures { result ≡ steps.with index other }
{
    if other.is_some() { index } else { None }
}

fn first(is_said: bool) -> Option<usize>
    ensures { result ≡ steps.first is_said }
{
    if is_said { Some(0) } else { None }
}

impl Firsts {
    /// Of no saying.
    pub fn none() -> Firsts
        ensures { result ≡ steps.nothing }
    {
        Firsts {
            typed: None,
            bounded: None,
            valued: None,
            initial: None,
            parameter: None,
            saved: None,
            dummy: None,
            answer: None,
            external: None,
            intrinsic: None,
            body: None,
            inside: None,
            member: None,
            blank: None,
            tied: None,
            intent: None,
            public: None,
            private: None,
        }
    }

    /// Of one saying, which has the index 0.
    pub fn of(s: &Saying<'_>) -> Firsts
        ensures { result ≡ steps.alone s.now }
    {
        let said = s.said;
        Firsts {
            typed: first(said.says(Role::Typed)),
            bounded: first(s.is_bounded()),
            valued: first(said.says(Role::Valued)),
            initial: first(s.is_initial()),
            parameter: first(said.says(Role::Parameter)),
            saved: first(s.is_saved()),
            dummy: first(said.says(Role::Dummy)),
            answer: first(said.says(Role::Answer)),
            external: first(said.says(Role::External)),
            intrinsic: first(said.says(Role::Intrinsic)),
            body: first(said.says(Role::Body)),
            inside: first(s.is_inside()),
            member: first(s.is_member()),
            blank: first(s.is_member() && !said.says(Role::NamedMember)),
            tied: first(said.says(Role::Tied)),
            intent: first(s.has_intent()),
            public: first(said.says(Role::Public)),
            private: first(said.says(Role::Private)),
        }
    }

    /// With one more saying, which has that index.
    pub fn and(&self, index: usize, one: &Firsts) -> Firsts
        ensures { result ≡ steps.joined index self.now one.now }
    {
        let here = Some(index);
        Firsts {
            typed: self.typed.or(with(here, one.typed)),
            bounded: self.bounded.or(with(here, one.bounded)),
            valued: self.valued.or(with(here, one.valued)),
            initial: self.initial.or(with(here, one.initial)),
            parameter: self.parameter.or(with(here, one.parameter)),
            saved: self.saved.or(with(here, one.saved)),
            dummy: self.dummy.or(with(here, one.dummy)),
            answer: self.answer.or(with(here, one.answer)),
            external: self.external.or(with(here, one.external)),
            intrinsic: self.intrinsic.or(with(here, one.intrinsic)),
            body: self.body.or(with(here, one.body)),
            inside: self.inside.or(with(here, one.inside)),
            member: self.member.or(with(here, one.member)),
            blank: self.blank.or(with(here, one.blank)),
            tied: self.tied.or(with(here, one.tied)),
            intent: self.intent.or(with(here, one.intent)),
            public: self.public.or(with(here, one.public)),
            private: self.private.or(with(here, one.private)),
        }
    }
}
