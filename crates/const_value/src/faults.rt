//! The first of the faults that were found so far.

ghost use Rattle.std.specs.Prelude.{◌≡◌, Some, None};
ghost use Rattle.std.specs.Option.{option_map};
ghost use Rattle.ftn_tree.specs.DeclarationFaults as spec;
ghost use Rattle.ftn_tree.specs.GlobalNames.{place};
ghost use Rattle.const_value.specs.steps.Findings as steps;
ghost use Rattle.const_value.specs.steps.Told as of_told;

use crate::finding::{Finding, earlier};
use const_expr::Told;
use ftn_base::FaultKind;

/// The first of some faults.
#[derive(Clone, Copy)]
pub(crate) struct Faults {
    pub first: Option<Finding>,
}

impl Faults {
    /// Of none.
    pub fn none() -> Faults
        ensures { of_told.first_seen result ≡ None }
    {
        Faults { first: None }
    }

    /// Adds one.
    pub fn note(&mut self, kind: FaultKind, file: u32, token: u32)
        ensures { of_told.first_seen self.new ≡ steps.earlier (of_told.first_seen self.old) (Some (spec.found kind (place file token))) }
    {
        self.join(Some(Finding { kind, file, token }));
    }

    /// Adds one where it is one.
    pub fn note_if(&mut self, told: bool, kind: FaultKind, file: u32, token: u32)
        ensures { of_told.first_seen self.new ≡ steps.gathered (of_told.first_seen self.old) (steps.told_if told (spec.found kind (place file token))) }
    {
        if told {
            self.note(kind, file, token);
        }
    }

    /// Adds the first of some more, where there is one.
    fn join(&mut self, found: Option<Finding>)
        ensures { of_told.first_seen self.new ≡ steps.earlier (of_told.first_seen self.old) (option_map steps.finding_seen found) }
    {
        self.first = earlier(self.first, found);
    }

    /// Adds the first name of an expression that has no place in a constant one.
    pub fn note_stray(&mut self, file: u32, told: &Told)
        ensures { of_told.first_seen self.new ≡ steps.earlier (of_told.first_seen self.old) (of_told.stray_found file told.now) }
    {
        if let Some(token) = told.stray {
            self.note(FaultKind::NotConstant, file, token);
        }
    }

    /// Adds the first operation of an expression that has no value.
    pub fn note_breach(&mut self, file: u32, told: &Told)
        ensures { of_told.first_seen self.new ≡ steps.earlier (of_told.first_seen self.old) (of_told.breach_found file told.now) }
    {
        if let Some(breach) = told.breach {
            self.note(breach.kind, file, breach.token);
        }
    }

    /// Adds both.
    pub fn note_told(&mut self, file: u32, told: &Told)
        ensures { of_told.first_seen self.new ≡ steps.earlier (steps.earlier (of_told.first_seen self.old) (of_told.stray_found file told.now)) (of_told.breach_found file told.now) }
    {
        self.note_stray(file, told);
        self.note_breach(file, told);
    }
}
