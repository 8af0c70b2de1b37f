//! What the sayings of a name say of what it declares.

ghost use Rattle.std.specs.Prelude.{◌≡◌, ◌||◌, OnOk, IfOk, ℕ, List, if◌then◌else◌};
ghost use Rattle.std.specs.List.{filter};
ghost use Rattle.std.specs.Str.{bytes_eq};
ghost use Rattle.ftn_tree.specs.Sayings.{same_name};
ghost use Rattle.ftn_tree.specs.DeclaredEntities as spec;
ghost use Rattle.decl_table.specs.steps.Heard as steps;

use crate::saying::Saying;
use ftn_base::NoMemory;
use ftn_tree::{EntityKind, Role};
use indexmap::IndexMap;
use std::alloc::Global;

/// What some sayings of one name say (Fortran 90, 5, 8.1.4, 11.3, 12.3.2, 12.5.2).
#[derive(Clone, Copy)]
pub struct Heard {
    /// That it is a dummy argument (12.5.2).
    pub dummy: bool,
    /// That it is a function's result (12.5.2.2).
    pub answer: bool,
    /// That it is a procedure inside.
    pub inner: bool,
    /// The first token where it is a generic name.
    pub generic: Option<u32>,
    /// The first token where it is a construct name.
    pub label: Option<u32>,
    /// That it is a procedure outside.
    pub outside: bool,
    /// That it is a named constant.
    pub parameter: bool,
    /// What declares it.
    pub declared: bool,
    /// A type.
    pub typed: bool,
    /// Bounds, a value, an attribute, or a place in storage: what a procedure outside hasn't.
    pub shaped: bool,
}

fn either(one: bool, other: bool) -> bool
    ensures { result ≡ (one || other) }
{
    one || other
}

fn earlier(is_said: bool, token: u32, later: Option<u32>) -> Option<u32>
    ensures { result ≡ steps.earlier is_said token later }
{
    if is_said { Some(token) } else { later }
}

/// Bounds, a value, an attribute, or a place in storage.
fn is_shaped(s: &Saying<'_>) -> bool
    ensures { result ≡ steps.shaped s.now }
{
    s.is_bounded()
        || s.said.says(Role::Valued)
        || s.said.says(Role::Parameter)
        || s.is_saved()
        || s.has_intent()
        || s.is_member()
        || s.said.says(Role::Tied)
}

impl Heard {
    /// Of no saying.
    fn none() -> Heard
        ensures { result ≡ steps.nothing }
    {
        Heard {
            dummy: false,
            answer: false,
            inner: false,
            generic: None,
            label: None,
            outside: false,
            parameter: false,
            declared: false,
            typed: false,
            shaped: false,
        }
    }

    /// With one more saying before these.
    fn after(&self, s: &Saying<'_>) -> Heard
        ensures { result ≡ steps.after s.now self.now }
    {
        let said = s.said;
        let token = said.token;
        Heard {
            dummy: either(said.says(Role::Dummy), self.dummy),
            answer: either(said.says(Role::Answer), self.answer),
            inner: either(said.says(Role::Inner), self.inner),
            generic: earlier(said.says(Role::Generic), token, self.generic),
            label: earlier(said.says(Role::Label), token, self.label),
            outside: either(s.is_outside(), self.outside),
            parameter: either(said.says(Role::Parameter), self.parameter),
            declared: either(s.is_declaring(), self.declared),
            typed: either(said.says(Role::Typed), self.typed),
            shaped: either(is_shaped(s), self.shaped),
        }
    }

    /// Whether a type declaration gives it a type, and nothing else declares it (12.3.2.2, 12.4).
    pub fn is_typed_alone(&self) -> bool
        ensures { result ≡ steps.is_typed_alone self.now }
    {
        self.typed && !self.shaped
    }

    /// What the name declares, where it is referenced with parentheses or not, and RESULT stands in its scoping unit's opening or not.
    pub fn kind(&self, has_result: bool, referenced: bool) -> Option<EntityKind>
        ensures { result ≡ steps.kind_heard has_result referenced self.now }
    {
        if self.dummy {
            Some(EntityKind::Dummy)
        } else if self.answer {
            if has_result {
                Some(EntityKind::Answer)
            } else {
                None
            }
        } else if self.inner {
            None
        } else if self.generic.is_some() {
            Some(EntityKind::Generic)
        } else if self.label.is_some() {
            Some(EntityKind::Construct)
        } else if self.outside || (referenced && self.is_typed_alone()) {
            None
        } else if self.parameter {
            Some(EntityKind::Constant)
        } else if self.declared {
            Some(EntityKind::Variable)
        } else {
            None
        }
    }
}

/// What is said of each name.
pub type Sayings<'a> = IndexMap<&'a [u8], Heard>;

/// What is said of that name.
pub fn heard_of(names: &Sayings<'_>, name: &[u8]) -> Heard
    ensures { result ≡ steps.heard_in names.now name.now }
{
    match names.get(name) {
        Some(heard) => *heard,
        None => Heard::none(),
    }
}

fn put<'a>(names: &mut Sayings<'a>, name: &'a [u8], heard: Heard) -> Result<(), NoMemory>
    ensures { OnOk result ((other : _) → steps.heard_in names.new other ≡ (if bytes_eq name.now other then heard else steps.heard_in names.old other)) }
{
    names.insert(name, heard)?;
    Ok(())
}

/// What these sayings say of each name.
pub fn hear<'a>(alloc: Global, said: &[Saying<'a>]) -> Result<Sayings<'a>, NoMemory>
    ensures { IfOk result (λ names. (name : List ℕ) → steps.heard_in names name ≡ steps.heard_of (filter (same_name name) said.now)) }
{
    let mut names: Sayings<'a> = IndexMap::new(alloc);
    let mut at = said.len();
    while at > 0 {
        at -= 1;
        let s = &said[at];
        let later = heard_of(&names, s.name);
        put(&mut names, s.name, later.after(s))?;
    }
    Ok(names)
}
