//! What may not be said of one name in one scoping unit (Fortran 90, 5.1.2, 5.2, 5.5, 12.3.2, 12.5.2, 14.1.2), by the first saying
//! that says each thing.

ghost use Rattle.std.specs.Prelude.{◌≡◌};
ghost use Rattle.decl_table.specs.steps.Rules as steps;

use crate::firsts::{Firsts, least, with};

impl Firsts {
    /// A dummy argument or a result (12.5.2).
    fn argument(&self) -> Option<usize>
        ensures { result ≡ steps.argument self.now }
    {
        least(self.dummy, self.answer)
    }

    /// A procedure outside of the scoping unit (12.3.2).
    fn outside(&self) -> Option<usize>
        ensures { result ≡ steps.outside self.now }
    {
        least(least(self.external, self.intrinsic), self.body)
    }

    /// What declares the name.
    fn declared(&self) -> Option<usize>
        ensures { result ≡ steps.declares self.now }
    {
        let named = least(least(self.argument(), self.inside), self.outside());
        let shaped = least(least(named, self.typed), self.bounded);
        let kept = least(least(shaped, self.parameter), self.saved);
        least(least(least(kept, self.intent), self.member), self.tied)
    }

    /// What an argument or a result may not be (12.5.2).
    fn not_argument(&self) -> Option<usize>
        ensures { result ≡ steps.not_argument self.now }
    {
        let valued = least(least(self.parameter, self.saved), self.initial);
        let procedure = least(least(valued, self.external), self.intrinsic);
        least(least(procedure, self.member), self.tied)
    }

    /// What a named constant may not be (5.1.2.1).
    fn not_constant(&self) -> Option<usize>
        ensures { result ≡ steps.not_constant self.now }
    {
        least(
            least(least(self.saved, self.intent), self.member),
            self.tied,
        )
    }

    /// What a procedure outside may not be (12.3.2).
    fn not_procedure(&self) -> Option<usize>
        ensures { result ≡ steps.not_procedure self.now }
    {
        let shaped = least(least(self.bounded, self.saved), self.parameter);
        least(least(least(shaped, self.initial), self.member), self.tied)
    }

    /// A member of a common block that gets no initial value: in a block data program unit only one of blank common (5.5.2, 11.4).
    fn bare_member(&self, block_data: bool) -> Option<usize>
        ensures { result ≡ steps.bare_member block_data self.now }
    {
        if block_data { self.blank } else { self.member }
    }
}

/// The first earlier saying that gives what this one gives too, and what is given once: a type, bounds or a value.
fn alike(earlier: &Firsts, one: &Firsts) -> Option<usize>
    ensures { result ≡ steps.alike earlier.now one.now }
{
    let typed = with(earlier.typed, one.typed);
    let bounded = with(earlier.bounded, one.bounded);
    least(least(typed, bounded), with(earlier.valued, one.valued))
}

/// The first earlier saying that may not be followed by this one.
fn twice_before(earlier: &Firsts, one: &Firsts) -> Option<usize>
    ensures { result ≡ steps.twice_before earlier.now one.now }
{
    let dummy = with(earlier.dummy, one.argument());
    let inside = with(earlier.inside, one.declared());
    let body = with(earlier.body, one.argument());
    let procedure = with(earlier.intrinsic, least(one.external, one.body));
    least(least(dummy, least(inside, body)), procedure)
}

/// The first earlier saying that may not follow this one.
fn twice_after(earlier: &Firsts, one: &Firsts) -> Option<usize>
    ensures { result ≡ steps.twice_after earlier.now one.now }
{
    let dummy = with(earlier.argument(), one.dummy);
    let inside = with(earlier.declared(), one.inside);
    let body = with(earlier.argument(), one.body);
    let procedure = with(least(earlier.external, earlier.body), one.intrinsic);
    least(least(dummy, least(inside, body)), procedure)
}

/// The first earlier saying that makes this one a second declaration.
pub(crate) fn twice(earlier: &Firsts, one: &Firsts) -> Option<usize>
    ensures { result ≡ steps.twice earlier.now one.now }
{
    let apart = least(twice_before(earlier, one), twice_after(earlier, one));
    least(alike(earlier, one), apart)
}

/// The first earlier saying that excludes this one.
pub(crate) fn excluding(block_data: bool, earlier: &Firsts, one: &Firsts) -> Option<usize>
    ensures { result ≡ steps.excluding block_data earlier.now one.now }
{
    let argument = with(earlier.argument(), one.not_argument());
    let constant = with(earlier.parameter, one.not_constant());
    let saved = with(earlier.member, one.saved);
    let initial = with(earlier.bare_member(block_data), one.initial);
    let outside = with(earlier.outside(), one.not_procedure());
    let public = with(earlier.public, one.private);
    let variable = least(least(argument, constant), least(saved, initial));
    least(least(variable, outside), public)
}

/// The first earlier saying that this one excludes.
fn excluded(block_data: bool, earlier: &Firsts, one: &Firsts) -> Option<usize>
    ensures { result ≡ steps.excluded block_data earlier.now one.now }
{
    let argument = with(earlier.not_argument(), one.argument());
    let constant = with(earlier.not_constant(), one.parameter);
    let saved = with(earlier.saved, one.member);
    let initial = with(earlier.initial, one.bare_member(block_data));
    let outside = with(earlier.not_procedure(), one.outside());
    let private = with(earlier.private, one.public);
    let variable = least(least(argument, constant), least(saved, initial));
    least(least(variable, outside), private)
}

/// The first earlier saying that conflicts with this one. A member of COMMON is listed once (5.5.2).
pub(crate) fn conflicting(block_data: bool, earlier: &Firsts, one: &Firsts) -> Option<usize>
    ensures { result ≡ steps.conflicting block_data earlier.now one.now }
{
    let attributes = least(
        excluding(block_data, earlier, one),
        excluded(block_data, earlier, one),
    );
    least(attributes, with(earlier.member, one.member))
}
