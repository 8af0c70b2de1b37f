//! What is said of a name in one place.

ghost use Rattle.std.specs.Prelude.{◌≡◌};
ghost use Rattle.ftn_tree.specs.Exclusions.{is_twice_itself};
ghost use Rattle.ftn_tree.specs.Sayings as spec;

use ftn_tree::{Mention, Role};
use std::marker::Model;

/// A name and what is said of it in that place, both lent.
#[derive(Drop)]
pub struct Saying<'a> {
    /// The folded name.
    pub name: &'a [u8],
    /// What is said of it.
    pub said: &'a Mention,
}

impl<'a> Model for Saying<'a> {
    ghost use Rattle.std.specs.Coded.{codes};
    ghost use Rattle.ftn_tree.specs.Sayings.{Saying};

    ghost Value = { Saying };

    ghost view = { λ s. record { name = s.name.now; said = s.said.now } };
}

impl<'a> Saying<'a> {
    /// Bounds (Fortran 90, 5.1.2.4, 5.2.5, 5.5.2).
    pub fn is_bounded(&self) -> bool
        ensures { result ≡ spec.bounded self.now }
    {
        self.said.says(Role::Bounded)
            || self.said.says(Role::Dimensioned)
            || self.said.says(Role::DimensionAttribute)
    }

    /// A value that is an initial value by its declaration (5.1).
    pub fn is_initial(&self) -> bool
        ensures { result ≡ spec.initial self.now }
    {
        self.said.says(Role::Valued) && !self.said.says(Role::Parameter)
    }

    /// SAVE by its name; a block that is saved is no name of the scoping unit (5.2.4).
    pub fn is_saved(&self) -> bool
        ensures { result ≡ spec.saved self.now }
    {
        self.said.says(Role::Saved) && !self.said.says(Role::Slash)
    }

    /// INTENT (5.1.2.3, 5.2.1).
    pub fn has_intent(&self) -> bool
        ensures { result ≡ spec.intent self.now }
    {
        self.said.says(Role::IntentIn)
            || self.said.says(Role::IntentOut)
            || self.said.says(Role::IntentInOut)
    }

    /// A procedure inside, a generic name or a construct name.
    pub fn is_inside(&self) -> bool
        ensures { result ≡ spec.inside self.now }
    {
        self.said.says(Role::Inner) || self.said.says(Role::Generic) || self.said.says(Role::Label)
    }

    /// A member of a common block (5.5.2).
    pub fn is_member(&self) -> bool
        ensures { result ≡ spec.member self.now }
    {
        self.said.says(Role::Member) || self.said.says(Role::NamedMember)
    }

    /// Whether it alone makes a second declaration: by DIMENSION twice, or EXTERNAL and INTRINSIC, among the attributes of a declaration
    /// (5.1.2).
    pub fn is_twice_alone(&self) -> bool
        ensures { result ≡ is_twice_itself self.now }
    {
        self.said.says(Role::DimensionTwice)
            || (self.said.says(Role::External) && self.said.says(Role::Intrinsic))
    }
    /// A procedure outside of the scoping unit (12.3.2).
    pub fn is_outside(&self) -> bool
        ensures { result ≡ spec.outside self.now }
    {
        self.said.says(Role::External)
            || self.said.says(Role::Intrinsic)
            || self.said.says(Role::Body)
    }

    /// What declares the name.
    pub fn is_declaring(&self) -> bool
        ensures { result ≡ spec.declares self.now }
    {
        self.said.says(Role::Dummy)
            || self.said.says(Role::Answer)
            || self.is_inside()
            || self.is_outside()
            || self.said.says(Role::Typed)
            || self.is_bounded()
            || self.said.says(Role::Parameter)
            || self.is_saved()
            || self.has_intent()
            || self.is_member()
            || self.said.says(Role::Tied)
    }
}
