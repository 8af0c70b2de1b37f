//! Faults of modules and of names, by tokens.

ghost use Rattle.std.specs.Prelude.{◌≡◌, ◌++◌};
ghost use Rattle.ftn_tree.specs.DeclarationFaults as spec;
ghost use Rattle.ftn_tree.specs.GlobalNames.{place};
ghost use Rattle.scope_bind.specs.steps.Findings as steps;

use decl_table::finding::{Finding, Place};
use ftn_base::FaultKind;

/// Which kinds of faults are told, and so their order at one place.
#[derive(Clone, Copy)]
pub(crate) enum Kinds {
    /// Those of USE statements.
    Uses,
    /// Those of names.
    Names,
}

fn rank(kinds: Kinds, kind: FaultKind) -> u8
    ensures { result ≡ steps.rank_of kinds kind }
{
    match kinds {
        Kinds::Uses => match kind {
            FaultKind::Unknown => 0,
            _ => 1,
        },
        Kinds::Names => match kind {
            FaultKind::Ambiguous => 0,
            FaultKind::Unknown => 1,
            FaultKind::RealOutOfProfile => 2,
            _ => 3,
        },
    }
}

/// A fault with one place.
pub(crate) fn found(kind: FaultKind, file: u32, token: u32) -> Finding
    ensures { result ≡ spec.found kind (place file token) }
{
    Finding {
        kind,
        at: Place { file, token },
        other: None,
    }
}

fn is_before(kinds: Kinds, one: &Finding, other: &Finding) -> bool
    ensures { result ≡ spec.before_in_place (steps.rank_of kinds) one.now other.now }
{
    one.at.file < other.at.file
        || (one.at.file == other.at.file
            && (one.at.token < other.at.token
                || (one.at.token == other.at.token
                    && rank(kinds, one.kind) < rank(kinds, other.kind))))
}

/// The one that comes before the other, and of those alike the first. So the first fault of two lists is found from that of each.
pub(crate) fn earlier(
    kinds: Kinds,
    first: Option<Finding>,
    second: Option<Finding>,
) -> Option<Finding>
    ensures value { result ≡ steps.earlier kinds first second }
    ensures joined { (xs ys : _) → first ≡ spec.first_finding (steps.rank_of kinds) xs → second ≡ spec.first_finding (steps.rank_of kinds) ys
        → result ≡ spec.first_finding (steps.rank_of kinds) (xs ++ ys) }
{
    match first {
        None => second,
        Some(one) => match second {
            None => Some(one),
            Some(other) => {
                if is_before(kinds, &other, &one) {
                    Some(other)
                } else {
                    Some(one)
                }
            }
        },
    }
}
