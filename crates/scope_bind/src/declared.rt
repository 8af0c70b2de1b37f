//! What a scoping unit itself says that a name denotes (Fortran 90, 12.3.2, 12.4, 14.1).

ghost use Rattle.std.specs.Prelude.{◌≡◌};
ghost use Rattle.ftn_tree.specs.Meanings as meanings;
ghost use Rattle.scope_bind.specs.steps.Declared as steps;
ghost use Rattle.scope_bind.specs.steps.Exporting.{HasUnit};
ghost use Rattle.scope_bind.specs.steps.Globals.{unit_at, IsNumber};
ghost use Rattle.scope_bind.specs.steps.Known.{IsKnown};

use crate::known::Known;
use ftn_base::is_intrinsic;

/// What a name is in a scoping unit, as that says itself.
#[derive(Clone, Copy)]
pub(crate) enum Declared {
    /// Nothing.
    Nothing,
    /// Nothing, and nothing around it counts.
    Unknown,
    /// What opens the scoping unit of that number.
    Unit(u32),
    /// An entity of its own.
    Own,
    /// The intrinsic function of its name.
    Intrinsic,
}

pub(crate) fn known_unit(found: Option<u32>) -> Declared
    ensures { result ≡ steps.known_unit found }
{
    match found {
        Some(scope) => Declared::Unit(scope),
        None => Declared::Unknown,
    }
}

/// The intrinsic function of that name, where it is one, else the other.
pub(crate) fn intrinsic_or(name: &[u8], other: Declared) -> Declared
    ensures { result ≡ steps.intrinsic_or name.now other }
{
    if is_intrinsic(name) {
        Declared::Intrinsic
    } else {
        other
    }
}

impl Known<'_, '_> {
    /// The external procedure of that name.
    pub fn procedure_named(&self, name: &[u8]) -> Declared
        requires known { IsKnown self.now }
        ensures value { result ≡ steps.procedure_by self.now.files.now name.now }
        ensures within { HasUnit self.now.files.now result }
    {
        known_unit(self.procedure(name))
    }

    /// A procedure outside (12.3.2).
    fn outside(&self, name: &[u8], external: bool) -> Declared
        requires known { IsKnown self.now }
        ensures { result ≡ steps.outside_by self.now.files.now name.now external }
    {
        if external {
            self.procedure_named(name)
        } else {
            intrinsic_or(name, Declared::Unknown)
        }
    }

    /// A name that is typed alone and referenced with parentheses (12.4).
    fn function_named(&self, name: &[u8]) -> Declared
        requires known { IsKnown self.now }
        ensures { result ≡ steps.function_by self.now.files.now name.now }
    {
        intrinsic_or(name, known_unit(self.function(name)))
    }

    /// The result of a function (12.5.2.2).
    fn result(&self, scope: u32, name: &[u8]) -> Declared
        requires known { IsKnown self.now }
        requires within { IsNumber self.now.files.now scope }
        ensures { result ≡ steps.result_by self.now.files.now scope name.now }
    {
        if self.has_result(scope) {
            Declared::Own
        } else if self.is_body(scope) {
            self.procedure_named(name)
        } else {
            Declared::Unit(scope)
        }
    }

    /// By what is heard of it.
    fn declared_by(&self, scope: u32, name: &[u8]) -> Declared
        requires known { IsKnown self.now }
        requires within { IsNumber self.now.files.now scope }
        ensures { result ≡ steps.declared_at self.now.files.now scope name.now }
    {
        let heard = self.heard(scope, name);
        if heard.dummy {
            Declared::Own
        } else if heard.answer {
            self.result(scope, name)
        } else if heard.inner {
            known_unit(self.inner(scope, name))
        } else if heard.generic.is_some() || heard.label.is_some() {
            Declared::Own
        } else if heard.outside {
            self.outside(name, self.told(scope, name).external)
        } else if self.noted(scope, name).referenced && heard.is_typed_alone() {
            self.function_named(name)
        } else if heard.declared {
            Declared::Own
        } else {
            Declared::Nothing
        }
    }

    /// What a name is in a scoping unit, as that says itself.
    pub fn declared(&self, scope: u32, name: &[u8]) -> Declared
        requires known { IsKnown self.now }
        requires within { IsNumber self.now.files.now scope }
        ensures within { HasUnit self.now.files.now result }
        ensures meant { steps.meant self.now.files.now scope name.now result ≡ meanings.declared_in self.now.files.now (unit_at self.now.files.now scope) name.now }
    {
        self.declared_by(scope, name)
    }
}
