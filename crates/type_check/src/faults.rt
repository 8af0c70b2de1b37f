//! The first of the faults that were found so far.

ghost use Rattle.std.specs.Prelude.{◌≡◌, Some, None};
ghost use Rattle.std.specs.Option.{option_map};
ghost use Rattle.ftn_tree.specs.DeclarationFaults as spec;
ghost use Rattle.ftn_tree.specs.GlobalNames.{place};
ghost use Rattle.type_check.specs.steps.Findings as steps;
ghost use Rattle.type_check.specs.steps.Kept.{told_seen};
ghost use Rattle.type_check.specs.steps.Noted as noted;

use crate::finding::{Finding, earlier};
use crate::typed::Told;
use ftn_base::FaultKind;

/// The first of some faults.
#[derive(Clone, Copy)]
pub struct Faults {
    pub first: Option<Finding>,
}

impl Faults {
    /// Of none.
    pub fn none() -> Faults
        ensures { noted.first_seen result ≡ None }
    {
        Faults { first: None }
    }

    /// Adds one.
    pub fn note(&mut self, kind: FaultKind, file: u32, token: u32)
        ensures { noted.first_seen self.new ≡ steps.earlier (noted.first_seen self.old) (Some (spec.found kind (place file token))) }
    {
        self.first = earlier(self.first, Some(Finding { kind, file, token }));
    }

    /// Adds one where it is one.
    pub fn note_if(&mut self, told: bool, kind: FaultKind, file: u32, token: u32)
        ensures { noted.first_seen self.new ≡ steps.gathered (noted.first_seen self.old) (steps.told_if told (spec.found kind (place file token))) }
    {
        if told {
            self.note(kind, file, token);
        }
    }

    /// Adds the first of what is told of an expression, where there is something.
    pub fn note_told(&mut self, file: u32, told: Option<Told>)
        ensures { noted.first_seen self.new ≡ steps.earlier (noted.first_seen self.old) (noted.told_found file (option_map told_seen told)) }
    {
        if let Some(told) = told {
            self.note(told.kind, file, told.token);
        }
    }
}
