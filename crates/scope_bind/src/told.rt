//! What the sayings of a name say beside what they declare: that it is a procedure of the project outside, and where it begins.

ghost use Rattle.std.specs.Prelude.{◌≡◌, ◌||◌, OnOk, IfOk, ℕ, List, if◌then◌else◌};
ghost use Rattle.std.specs.List.{filter};
ghost use Rattle.std.specs.Str.{bytes_eq};
ghost use Rattle.ftn_tree.specs.NameFaults as faults;
ghost use Rattle.ftn_tree.specs.Sayings.{same_name};
ghost use Rattle.scope_bind.specs.steps.Told as steps;

use decl_table::noted::may_be_own;
use decl_table::saying::Saying;
use ftn_base::NoMemory;
use ftn_tree::Role;
use indexmap::IndexMap;
use std::alloc::Global;

/// What some sayings of one name say.
#[derive(Clone, Copy)]
pub(crate) struct Told {
    /// EXTERNAL or an interface body (Fortran 90, 12.3.2.1, 12.3.2.2).
    pub external: bool,
    /// The first token where it is that of a procedure inside, a generic name, a construct name or a function without RESULT.
    pub opens: Option<u32>,
    /// The first token of a place that may be one of its own.
    pub begins: Option<u32>,
}

fn either(one: bool, other: bool) -> bool
    ensures { result ≡ (one || other) }
{
    one || other
}

fn earlier(is_said: bool, token: u32, later: Option<u32>) -> Option<u32>
    ensures { result ≡ steps.earlier is_said token later }
{
    if is_said { Some(token) } else { later }
}

fn is_external(s: &Saying<'_>) -> bool
    ensures { result ≡ steps.is_external s.now }
{
    s.said.says(Role::External) || s.said.says(Role::Body)
}

/// Whether it opens what has the name.
fn opens_name(s: &Saying<'_>) -> bool
    ensures { result ≡ faults.opens_name s.now }
{
    s.is_inside() || (s.said.says(Role::Answer) && s.said.role.is(Role::Opens))
}

impl Told {
    /// Of no saying.
    fn none() -> Told
        ensures { result ≡ steps.nothing }
    {
        Told {
            external: false,
            opens: None,
            begins: None,
        }
    }

    /// With one more saying before these.
    fn after(&self, s: &Saying<'_>) -> Told
        ensures { result ≡ steps.after s.now self.now }
    {
        let token = s.said.token;
        Told {
            external: either(is_external(s), self.external),
            opens: earlier(opens_name(s), token, self.opens),
            begins: earlier(may_be_own(s.said.role), token, self.begins),
        }
    }

    /// The first token of the name in its scoping unit, by all that is said of it there.
    pub fn place(&self) -> u32
        ensures { result ≡ steps.begins_by self.now }
    {
        match self.opens {
            Some(token) => token,
            None => self.begins.unwrap_or(0),
        }
    }
}

/// What is said of each name.
pub(crate) type Telling<'a> = IndexMap<&'a [u8], Told>;

/// What is said of that name.
pub(crate) fn told_of(names: &Telling<'_>, name: &[u8]) -> Told
    ensures { result ≡ steps.told_in names.now name.now }
{
    match names.get(name) {
        Some(told) => *told,
        None => Told::none(),
    }
}

fn put<'a>(names: &mut Telling<'a>, name: &'a [u8], told: Told) -> Result<(), NoMemory>
    ensures { OnOk result ((other : _) → steps.told_in names.new other ≡ (if bytes_eq name.now other then told else steps.told_in names.old other)) }
{
    names.insert(name, told)?;
    Ok(())
}

/// What these sayings say of each name.
pub(crate) fn tell<'a>(alloc: Global, said: &[Saying<'a>]) -> Result<Telling<'a>, NoMemory>
    ensures { IfOk result (λ names. (name : List ℕ) → steps.told_in names name ≡ steps.told_of (filter (same_name name) said.now)) }
{
    let mut names: Telling<'a> = IndexMap::new(alloc);
    let mut at = said.len();
    while at > 0 {
        at -= 1;
        let s = &said[at];
        let later = told_of(&names, s.name);
        put(&mut names, s.name, later.after(s))?;
    }
    Ok(names)
}
