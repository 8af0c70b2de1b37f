//! The first fault that the names of one scoping unit give.

ghost use Rattle.std.specs.Prelude.{◌≡◌, [], IfOk};
ghost use Rattle.decl_table.specs.steps.NameFindings as steps;
ghost use Rattle.ftn_tree.specs.DeclarationFaults.{declaration_rank, each_after, first_finding};
ghost use Rattle.ftn_tree.specs.DeclarationFaults as spec;

use crate::finding::{Finding, Place, earlier};
use crate::firsts::Firsts;
use crate::known_names::{Known, known, put};
use crate::rules::{conflicting, excluding, twice};
use crate::saying::Saying;
use ftn_base::{FaultKind, NoMemory};
use ftn_tree::ScopeKind;
use indexmap::IndexMap;
use std::alloc::Global;

/// Whether it is a module.
pub(crate) fn is_module(kind: ScopeKind) -> bool
    ensures { result ≡ spec.is_module kind }
{
    matches!(kind, ScopeKind::Module)
}

fn is_block_data(kind: ScopeKind) -> bool
    ensures { result ≡ spec.is_block_data kind }
{
    matches!(kind, ScopeKind::BlockData)
}

/// The index of the first saying of the name, up to the `index`th, that makes this one, the `index`th, a second declaration.
fn partner(index: usize, before: &Firsts, one: &Firsts, s: &Saying<'_>) -> Option<usize>
    ensures { result ≡ steps.partner index before.now one.now s.now }
{
    if s.is_twice_alone() {
        twice(&before.and(index, one), one)
    } else {
        twice(before, one)
    }
}

/// Where a saying is a second declaration, with its partner's index.
fn twice_finding(
    file: u32,
    said: &[Saying<'_>],
    s: &Saying<'_>,
    partner: Option<usize>,
) -> Option<Finding>
    ensures { result ≡ steps.twice_finding file said.now s.now partner }
{
    let first = said.get(partner?)?;
    Some(Finding {
        kind: FaultKind::Twice,
        at: Place {
            file,
            token: s.said.token,
        },
        other: Some(Place {
            file,
            token: first.said.token,
        }),
    })
}

/// Whether a name has INTENT and is no dummy argument (5.1.2.3), or PUBLIC or PRIVATE in what is no module (5.2.3).
fn is_misplaced(kind: ScopeKind, before: &Firsts, one: &Firsts) -> bool
    ensures { result ≡ steps.is_misplaced kind before.now one.now }
{
    (one.intent.is_some() && before.dummy.is_none())
        || ((one.public.is_some() || one.private.is_some()) && !is_module(kind))
}

/// Whether a saying conflicts with itself, its place, or those before it.
fn is_conflicting(kind: ScopeKind, before: &Firsts, one: &Firsts) -> bool
    ensures { result ≡ steps.is_conflicting kind before.now one.now }
{
    let block_data = is_block_data(kind);
    excluding(block_data, one, one).is_some()
        || is_misplaced(kind, before, one)
        || conflicting(block_data, before, one).is_some()
}

fn conflicting_finding(
    kind: ScopeKind,
    file: u32,
    before: &Firsts,
    one: &Firsts,
    s: &Saying<'_>,
) -> Option<Finding>
    ensures { result ≡ steps.conflicting_finding kind file before.now one.now s.now }
{
    if !is_conflicting(kind, before, one) {
        return None;
    }
    Some(Finding {
        kind: FaultKind::Conflicting,
        at: Place {
            file,
            token: s.said.token,
        },
        other: None,
    })
}

/// The first fault, in the order of places, that the names of a scoping unit give, where that is said of names in it: a name that is
/// declared twice (Fortran 90, 14.1.2), or attributes that exclude each other (5.1.2, 5.2, 5.5, 12.3.2, 12.5.2). It fails where
/// memory is refused.
pub fn first_of_names(
    alloc: Global,
    kind: ScopeKind,
    file: u32,
    said: &[Saying<'_>],
) -> Result<Option<Finding>, NoMemory>
    ensures { IfOk result (λ found. found ≡ first_finding declaration_rank (each_after kind file [] said.now)) }
{
    let mut names: Known<'_> = IndexMap::new(alloc);
    let mut found = None;
    for index in 0..said.len() {
        let s = &said[index];
        let before = known(&names, s.name);
        let one = Firsts::of(s);
        let partner = partner(index, &before, &one, s);
        found = earlier(found, twice_finding(file, said, s, partner));
        found = earlier(found, conflicting_finding(kind, file, &before, &one, s));
        put(&mut names, s.name, before.and(index, &one))?;
    }
    Ok(found)
}
