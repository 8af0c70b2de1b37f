//! What the sayings of a name say of its place and of DATA.

ghost use Rattle.std.specs.Prelude.{◌≡◌};
ghost use Rattle.ftn_tree.specs.NameFaults as spec;
ghost use Rattle.const_value.specs.steps.Said as steps;

use decl_table::noted::may_be_own;
use decl_table::saying::Saying;
use ftn_tree::Role;

/// What some sayings of one name say.
#[derive(Clone, Copy)]
pub struct Said {
    /// Its first token where it opens, or where a procedure inside, a generic name or a construct name begins.
    opened: Option<u32>,
    /// Its first token where it may be one of the scoping unit's own.
    first: Option<u32>,
    /// That it is given INTENT(IN) (Fortran 90, 5.1.2.3).
    pub given: bool,
    /// That it is given INTENT(OUT) or INTENT(INOUT).
    pub defined: bool,
    /// That it is a function's result (12.5.2.2).
    pub answer: bool,
    /// That it is a member of a common block whose members get no initial values there (5.2.9).
    pub barred: bool,
}

/// Whether the name opens there what it is the name of.
fn opens_name(s: &Saying<'_>) -> bool
    ensures { result ≡ spec.opens_name s.now }
{
    s.is_inside() || (s.said.says(Role::Answer) && s.said.role.is(Role::Opens))
}

/// Whether it is a member of a common block there, but for a named block in a BLOCK DATA.
fn bars(in_block_data: bool, s: &Saying<'_>) -> bool
    ensures { result ≡ steps.bars in_block_data s.now }
{
    s.is_member() && !(s.said.says(Role::NamedMember) && in_block_data)
}

fn first_of(earlier: Option<u32>, is_one: bool, token: u32) -> Option<u32>
    ensures { result ≡ steps.first_of earlier is_one token }
{
    match earlier {
        Some(earlier) => Some(earlier),
        None => { if is_one { Some(token) } else { None } }
    }
}

/// Whether it is given INTENT(OUT) or INTENT(INOUT) there.
fn defines(s: &Saying<'_>) -> bool
    ensures { result ≡ steps.defines s.now }
{
    s.said.says(Role::IntentOut) || s.said.says(Role::IntentInOut)
}

impl Said {
    /// Of no saying.
    pub fn nothing() -> Said
        ensures { result ≡ steps.nothing }
    {
        Said {
            opened: None,
            first: None,
            given: false,
            defined: false,
            answer: false,
            barred: false,
        }
    }

    /// With one more saying after these.
    pub fn with(&self, in_block_data: bool, s: &Saying<'_>) -> Said
        ensures { result ≡ steps.with_saying in_block_data self.now s.now }
    {
        let token = s.said.token;
        Said {
            opened: first_of(self.opened, opens_name(s), token),
            first: first_of(self.first, may_be_own(s.said.role), token),
            given: self.given || s.said.says(Role::IntentIn),
            defined: self.defined || defines(s),
            answer: self.answer || s.said.says(Role::Answer),
            barred: self.barred || bars(in_block_data, s),
        }
    }

    /// The first token of the name.
    pub fn begins(&self) -> u32
        ensures { result ≡ steps.begins self.now }
    {
        match self.opened {
            Some(token) => token,
            None => self.first.unwrap_or(0),
        }
    }
}
