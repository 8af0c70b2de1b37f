//! What names denote in a scoping unit (Fortran 90, 11.3.2, 12.3.2, 12.4, 14.1).

ghost use Rattle.std.specs.Prelude.{◌≡◌, if◌then◌else◌};
ghost use Rattle.ftn_tree.specs.Meanings as spec;
ghost use Rattle.scope_bind.specs.steps.Declared.{meant};
ghost use Rattle.scope_bind.specs.steps.Exporting.{HasUnit};
ghost use Rattle.scope_bind.specs.steps.Globals.{unit_at, IsNumber};
ghost use Rattle.scope_bind.specs.steps.Known.{IsKnown};
ghost use Rattle.scope_bind.specs.steps.Meaning as steps;
ghost use Rattle.scope_bind.specs.declared.meaning.Meaning.TheVariants as made;

use crate::declared::{Declared, intrinsic_or};
use crate::known::Known;
use ftn_base::{EntityId, Name};
use ftn_tree::{Mention, Role};
use use_assoc::Exports;

/// What a name denotes, entities by their provisional numbers. Of several the first two are told.
#[derive(Clone, Copy)]
pub(crate) enum Meaning {
    /// Nothing so far.
    Nothing,
    /// One entity.
    One(EntityId),
    /// Several, of which a reference would be ambiguous.
    Several(EntityId, EntityId),
    /// Nothing, and nothing around it counts.
    Unknown,
}

pub(crate) fn or_meaning(first: Meaning, other: Meaning) -> Meaning
    ensures { result ≡ steps.or_meaning first other }
{
    match first {
        Meaning::Nothing => other,
        _ => first,
    }
}

/// What several entities by one name are to a reference.
pub(crate) fn used_meaning(entities: &[EntityId]) -> Meaning
    ensures { result ≡ steps.used_meaning entities.now }
{
    match entities {
        [] => Meaning::Nothing,
        [one] => Meaning::One(*one),
        [first, second, ..] => Meaning::Several(*first, *second),
    }
}

/// What counts around a scoping unit: nothing for an interface body.
fn unless_body(body: bool, around: Meaning) -> Meaning
    ensures { result ≡ (if body then made.Nothing else around) }
{
    if body { Meaning::Nothing } else { around }
}

impl Known<'_, '_> {
    /// What a name denotes that is that in a scoping unit.
    pub fn meaning_of(&self, scope: u32, name: &[u8], declared: Declared) -> Meaning
        requires known { IsKnown self.now }
        requires within { IsNumber self.now.files.now scope }
        requires declared { HasUnit self.now.files.now declared }
        ensures { result ≡ steps.numbered self.now.files.now (meant self.now.files.now scope name.now declared) }
    {
        match declared {
            Declared::Nothing => Meaning::Nothing,
            Declared::Unknown => Meaning::Unknown,
            Declared::Unit(number) => Meaning::One(self.unit_entity(number)),
            Declared::Own => Meaning::One(self.own_entity(scope, name)),
            Declared::Intrinsic => Meaning::One(self.intrinsic_entity(name)),
        }
    }

    /// An entity that its first letter types (5.3).
    pub fn letter_meaning(&self, scope: u32, name: &[u8]) -> Meaning
        requires known { IsKnown self.now }
        requires within { IsNumber self.now.files.now scope }
        ensures { result ≡ steps.numbered self.now.files.now (spec.letter_meaning self.now.files.now (unit_at self.now.files.now scope) name.now) }
    {
        if self.is_plain(scope, name) {
            Meaning::One(self.own_entity(scope, name))
        } else {
            Meaning::Nothing
        }
    }

    /// What a name denotes in one scoping unit, where it is known what it denotes around it, and `used` has what USE makes accessible in
    /// each.
    fn meaning_in(&self, used: &[Exports], scope: u32, name: &Name, around: Meaning) -> Meaning
        requires known { IsKnown self.now }
        requires within { IsNumber self.now.files.now scope }
        requires used { used.now ≡ steps.used_everywhere self.now.files.now }
        ensures { (outer : spec.Meaning) → around ≡ steps.numbered self.now.files.now outer
            → result ≡ steps.numbered self.now.files.now (spec.meaning_in self.now.files.now (spec.accessible_in self.now.files.now (unit_at self.now.files.now scope)) (unit_at self.now.files.now scope) name.now outer) }
    {
        let around = unless_body(self.is_body(scope), around);
        let own = self.declared(scope, name.bytes());
        let declared = self.meaning_of(scope, name.bytes(), own);
        let used = used_meaning(used[scope as usize].entities(name));
        let letter = self.letter_meaning(scope, name.bytes());
        or_meaning(declared, or_meaning(used, or_meaning(around, letter)))
    }

    /// What a name denotes in a scoping unit, where `used` has what USE makes accessible in each.
    pub fn denotes(&self, used: &[Exports], scope: u32, name: &Name) -> Meaning
        requires known { IsKnown self.now }
        requires within { IsNumber self.now.files.now scope }
        requires used { used.now ≡ steps.used_everywhere self.now.files.now }
        ensures { result ≡ steps.numbered self.now.files.now (spec.denotes self.now.files.now (unit_at self.now.files.now scope) name.now) }
    {
        match self.host(scope) {
            Some(host) => {
                let around = self.denotes(used, host, name);
                self.meaning_in(used, scope, name, around)
            }
            None => self.meaning_in(used, scope, name, Meaning::Nothing),
        }
    }

    /// What a reference to a name denotes that denotes nothing in its scoping unit (12.4).
    fn reference(&self, mention: &Mention, name: &[u8]) -> Declared
        requires known { IsKnown self.now }
        ensures within { HasUnit self.now.files.now result }
        ensures meant { (scope : _) → meant self.now.files.now scope name.now result ≡ spec.reference_meaning self.now.files.now mention.now name.now }
    {
        if mention.says(Role::Called) {
            self.procedure_named(name)
        } else if mention.says(Role::Parenthesised) && !mention.says(Role::Given) {
            intrinsic_or(name, self.procedure_named(name))
        } else {
            Declared::Unknown
        }
    }

    /// What a name denotes where it is mentioned in a scoping unit.
    pub fn meaning_at(
        &self,
        used: &[Exports],
        scope: u32,
        mention: &Mention,
        name: &Name,
    ) -> Meaning
        requires known { IsKnown self.now }
        requires within { IsNumber self.now.files.now scope }
        requires used { used.now ≡ steps.used_everywhere self.now.files.now }
        requires name { name.now ≡ steps.name_of self.now.files.now (unit_at self.now.files.now scope).file mention.now }
        ensures { result ≡ steps.numbered self.now.files.now (spec.meaning_at self.now.files.now (unit_at self.now.files.now scope) mention.now) }
    {
        let referenced = self.meaning_of(
            scope,
            name.bytes(),
            self.reference(mention, name.bytes()),
        );
        or_meaning(self.denotes(used, scope, name), referenced)
    }
}
