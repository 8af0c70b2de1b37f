//! Faults of declarations, by tokens.

ghost use Rattle.std.specs.Prelude.{◌≡◌, ◌++◌};
ghost use Rattle.decl_table.specs.steps.Gathering.{earlier};
ghost use Rattle.ftn_tree.specs.DeclarationFaults.{before_in_place, declaration_rank, first_finding};

use ftn_base::FaultKind;
use std::marker::Model;

/// A token of a file.
#[derive(Drop)]
pub struct Place {
    /// The number of the file.
    pub file: u32,
    /// The number of the token.
    pub token: u32,
}

impl Model for Place {
    ghost use Rattle.ftn_tree.specs.GlobalNames.{Place, place};

    ghost Value = { Place };

    ghost view = { λ p. place p.file p.token };
}

/// A fault of a declaration: its kind, where it is, and the second place that [`FaultKind::Twice`] has.
#[derive(Drop)]
pub struct Finding {
    /// What is wrong.
    pub kind: FaultKind,
    /// Where it is.
    pub at: Place,
    /// The other declaration.
    pub other: Option<Place>,
}

impl Model for Finding {
    ghost use Rattle.std.specs.Coded.{codes};
    ghost use Rattle.ftn_tree.specs.DeclarationFaults.{Finding};

    ghost Value = { Finding };

    ghost view = { λ f. record { kind = f.kind; at = f.at; other = f.other } };
}

fn rank(kind: FaultKind) -> u8
    ensures { result ≡ declaration_rank kind }
{
    match kind {
        FaultKind::Twice => 0,
        _ => 1,
    }
}

impl Finding {
    /// Whether it comes before the other one: by file, then by token, then by kind.
    pub fn is_before(&self, other: &Finding) -> bool
        ensures { result ≡ before_in_place declaration_rank self.now other.now }
    {
        self.at.file < other.at.file
            || (self.at.file == other.at.file
                && (self.at.token < other.at.token
                    || (self.at.token == other.at.token && rank(self.kind) < rank(other.kind))))
    }
}

/// The one that comes before the other, and of those alike the first. So the first fault of two lists is found from that of each.
pub fn earlier(first: Option<Finding>, second: Option<Finding>) -> Option<Finding>
    ensures value { result ≡ earlier first second }
    ensures joined { (xs ys : _) → first ≡ first_finding declaration_rank xs → second ≡ first_finding declaration_rank ys → result ≡ first_finding declaration_rank (xs ++ ys) }
{
    match first {
        None => second,
        Some(one) => match second {
            None => Some(one),
            Some(other) => {
                if other.is_before(&one) {
                    Some(other)
                } else {
                    Some(one)
                }
            }
        },
    }
}
