//! Names in statements, and what is said of them there.

ghost use Rattle.std.specs.Prelude.{◌≡◌, ◌≢◌, true, false, IfOk};
ghost use Rattle.ftn_tree.specs.Roles as spec;

use crate::token::Tokens;
use sqlite_items::Items;
use std::alloc::Global;

/// What is said of a name where it stands: the place in the statement, or an attribute that the statement gives it.
#[derive(Clone, Copy)]
pub enum Role {
    /// After PROGRAM, MODULE, SUBROUTINE, FUNCTION or BLOCK DATA.
    Opens,
    /// After END and its word.
    Ends,
    /// After EXIT or CYCLE.
    Leaves,
    /// Before DO.
    Label,
    /// Between slashes in COMMON or SAVE.
    Slash,
    /// After USE.
    Module,
    /// The name that an item of USE has in the module, also where it is the item's only name.
    Source,
    /// The name that an item of USE gives before `=>`.
    Local,
    /// In the list of dummy arguments.
    Dummy,
    /// It is a function's result: after RESULT, or the name of a function without RESULT (12.5.2.2).
    Answer,
    /// A type declaration or the type of a FUNCTION statement gives it a type (5.1, 12.5.2.2).
    Typed,
    /// Bounds of its own follow it in a type declaration or in COMMON (5.1, 5.5.2).
    Bounded,
    /// In DIMENSION, with its bounds (5.2.5).
    Dimensioned,
    /// The attribute DIMENSION gives it bounds (5.1.2.4).
    DimensionAttribute,
    /// DIMENSION stands twice among its attributes.
    DimensionTwice,
    /// A type declaration or PARAMETER gives it a value (5.1, 5.2.10).
    Valued,
    /// It is a named constant: by PARAMETER as a statement or as an attribute (5.1.2.1, 5.2.10).
    Parameter,
    /// It has SAVE by its name: by a statement or as an attribute (5.1.2.5, 5.2.4).
    Saved,
    /// PUBLIC (5.1.2.2, 5.2.3).
    Public,
    /// PRIVATE (5.1.2.2, 5.2.3).
    Private,
    /// EXTERNAL (5.1.2.6, 12.3.2.2).
    External,
    /// INTRINSIC (5.1.2.7, 12.3.2.3).
    Intrinsic,
    /// INTENT(IN) (5.1.2.3, 5.2.1).
    IntentIn,
    /// INTENT(OUT).
    IntentOut,
    /// INTENT(INOUT).
    IntentInOut,
    /// A member of blank common in COMMON (5.5.2).
    Member,
    /// A member of a named block in COMMON (5.5.2).
    NamedMember,
    /// In EQUIVALENCE (5.5.1).
    Tied,
    /// An object of DATA (5.2.9).
    Given,
    /// After INTERFACE.
    Generic,
    /// In MODULE PROCEDURE.
    Specific,
    /// After CALL.
    Called,
    /// In an expression, a target or an input item, with parentheses after it that hold no `:`. It is said beside their role of names in
    /// EQUIVALENCE and DATA too, where subscripts are written.
    Parenthesised,
    /// The same, with parentheses after it that hold a substring range and no subscripts before them (6.1.1).
    Ranged,
    /// The same without parentheses, or as a DO variable.
    Plain,
    /// In its host: the name of a module procedure or an internal procedure, where that opens (11.3, 12.1.2.2).
    Inner,
    /// In its host: the name of an interface body, where that opens (12.3.2.1).
    Body,
}

impl Role {
    /// Whether both are the same.
    #[tactic(auto, unfolding(crate::specs::Roles::same_role))]
    pub fn is(self, other: Role) -> bool
        ensures value { result ≡ spec.same_role self other }
        ensures same { result ≡ true → self ≡ other }
        ensures other { result ≡ false → self ≢ other }
    {
        self == other
    }

    /// Whether the place alone tells what the name denotes: it is the name of a unit that is opened or ended, of a construct or of a
    /// common block, or it stands in USE. Such a name makes no implicit entity.
    pub fn is_special(self) -> bool
        ensures { result ≡ spec.is_special self }
    {
        matches!(
            self,
            Role::Opens
                | Role::Ends
                | Role::Leaves
                | Role::Label
                | Role::Slash
                | Role::Module
                | Role::Source
                | Role::Local
        )
    }

    /// Whether the name stands there as one that a specification declares (5): in a type declaration, DIMENSION, PARAMETER, SAVE,
    /// EXTERNAL, INTRINSIC, INTENT, COMMON or EQUIVALENCE.
    pub fn is_declaration(self) -> bool
        ensures { result ≡ spec.is_declaration self }
    {
        matches!(
            self,
            Role::Typed
                | Role::Dimensioned
                | Role::Parameter
                | Role::Saved
                | Role::External
                | Role::Intrinsic
                | Role::IntentIn
                | Role::IntentOut
                | Role::IntentInOut
                | Role::Member
                | Role::NamedMember
                | Role::Tied
        )
    }
}

/// A name in a statement, with the list of what is said of it there: its role and what else is said.
#[derive(Drop)]
pub struct Mention {
    /// Its token.
    pub token: u32,
    /// The role that its place gives it.
    pub role: Role,
    /// What else the statement says of it.
    pub also: Items<Role>,
}

impl Mention {
    /// A name of which its place alone says something.
    pub fn new(alloc: Global, token: u32, role: Role) -> Mention
        ensures { result ≡ spec.mention token role }
    {
        Mention {
            token,
            role,
            also: Items::new(alloc),
        }
    }

    /// Whether that is said of the name.
    pub fn says(&self, role: Role) -> bool
        ensures { result ≡ spec.says role self.now }
    {
        self.role.is(role) || holds(self.also.as_slice(), role)
    }
}

fn holds(roles: &[Role], role: Role) -> bool
    ensures { result ≡ spec.holds role roles.now }
{
    roles.iter().any(|one| one.is(role))
}

impl Tokens {
    /// The bytes of the token of that number, a word in lower case, or none where no token has the number. So it is a name's folded
    /// bytes.
    pub fn name_bytes(&self, token: u32) -> &[u8]
        ensures { result.now ≡ spec.name_bytes self.now token }
    {
        match self.items.as_slice().get(token as usize) {
            Some(here) => here.value.bytes(),
            None => &[],
        }
    }
}
