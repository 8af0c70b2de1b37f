//! Faults of types, by tokens.

ghost use Rattle.std.specs.Prelude.{◌≡◌};
ghost use Rattle.std.specs.Option.{option_map};
ghost use Rattle.ftn_tree.specs.DeclarationFaults as spec;
ghost use Rattle.ftn_tree.specs.TypeFaults.{type_rank};
ghost use Rattle.type_check.specs.steps.Findings as steps;

use decl_table::forms::span_of;
use ftn_base::{Fault, FaultKind};
use ftn_tree::FileTree;

/// A fault: its kind, and the token of a file where it is.
#[derive(Clone, Copy)]
pub struct Finding {
    pub kind: FaultKind,
    pub file: u32,
    pub token: u32,
}

/// The order of the kinds at one place.
pub fn rank(kind: FaultKind) -> u8
    ensures { result ≡ type_rank kind }
{
    match kind {
        FaultKind::WrongType => 0,
        FaultKind::WrongCount => 1,
        FaultKind::NoSpecific => 2,
        FaultKind::TwoSpecifics => 3,
        _ => 4,
    }
}

impl Finding {
    /// Whether it comes before the other one: by file, then by token, then by kind.
    fn is_before(&self, other: &Finding) -> bool
        ensures { result ≡ spec.before_in_place type_rank (steps.finding_seen self.now) (steps.finding_seen other.now) }
    {
        self.file < other.file
            || (self.file == other.file
                && (self.token < other.token
                    || (self.token == other.token && rank(self.kind) < rank(other.kind))))
    }

    /// The fault with its place in the file.
    pub fn fault(&self, files: &[FileTree]) -> Fault
        ensures { result ≡ spec.fault_of files.now (steps.finding_seen self.now) }
    {
        Fault {
            kind: self.kind,
            span: Some(span_of(files, self.file, self.token)),
            other: None,
        }
    }
}

/// The one that comes before the other, and of those alike the first.
pub fn earlier(first: Option<Finding>, second: Option<Finding>) -> Option<Finding>
    ensures { option_map steps.finding_seen result ≡ steps.earlier (option_map steps.finding_seen first) (option_map steps.finding_seen second) }
{
    match first {
        None => second,
        Some(one) => match second {
            None => Some(one),
            Some(other) => {
                if other.is_before(&one) {
                    Some(other)
                } else {
                    Some(one)
                }
            }
        },
    }
}
