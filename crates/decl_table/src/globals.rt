//! Global names that are declared twice (Fortran 90, 14.1.1).

ghost use Rattle.std.specs.Prelude.{◌≡◌, ◌++◌, ◌∷◌, map, if◌then◌else◌, is_some, Some, None, [], IfOk, OnOk};
ghost use Rattle.std.specs.Option.{option_or};
ghost use Rattle.ftn_tree.specs.DeclarationFaults.{first_finding, declaration_rank};
ghost use Rattle.ftn_tree.specs.GlobalNames as spec;
ghost use Rattle.decl_table.specs.steps.Globals as steps;

use crate::finding::{Finding, Place, earlier};
use ftn_base::{FaultKind, NoMemory};
use indexmap::IndexMap;
use std::alloc::Global as Memory;
use std::marker::Model;

/// A token of a file, as it is kept.
#[derive(Clone, Copy)]
pub(crate) struct At {
    file: u32,
    token: u32,
}

/// A global name, or none, and where it is given.
#[derive(Drop)]
pub(crate) struct Given<'a> {
    pub(crate) name: &'a [u8],
    pub(crate) has_name: bool,
    pub(crate) file: u32,
    pub(crate) token: u32,
}

impl<'a> Model for Given<'a> {
    ghost use Rattle.std.specs.Prelude.{if◌then◌else◌, Some, None};
    ghost use Rattle.std.specs.Coded.{codes};
    ghost use Rattle.ftn_tree.specs.GlobalNames.{Global, place};

    ghost Value = { Global };

    ghost view = { λ g. record { name = if g.has_name then Some g.name.now else None; at = place g.file g.token } };
}

type Named<'a> = IndexMap<&'a [u8], At>;

/// Where it is given, as it is kept.
fn at_of(given: &Given<'_>) -> At
    ensures { result ≡ steps.at_of given.now }
{
    At {
        file: given.file,
        token: given.token,
    }
}

fn place_of(at: At) -> Place
    ensures { result ≡ steps.place_of at }
{
    Place {
        file: at.file,
        token: at.token,
    }
}

/// The place that is kept by that name.
fn kept(named: &Named<'_>, unnamed: Option<At>, given: &Given<'_>) -> Option<At>
    ensures { result ≡ steps.kept named.now unnamed given.now.name }
{
    if !given.has_name {
        return unnamed;
    }
    match named.get(given.name) {
        Some(at) => Some(*at),
        None => None,
    }
}

/// Keeps the place of a name, which wasn't kept before.
fn put<'a>(named: &mut Named<'a>, name: &'a [u8], at: At) -> Result<(), NoMemory>
    requires { steps.kept named.old None (Some name.now) ≡ None }
    ensures { OnOk result ((other : _) → steps.kept named.new None (Some other) ≡ option_or (steps.kept named.old None (Some other)) (if spec.same_name (Some name.now) (Some other) then Some at else None)) }
{
    named.insert(name, at)?;
    Ok(())
}

/// Where a name is given second, and where first.
fn twice(given: &Given<'_>, first: Option<At>) -> Option<Finding>
    ensures { result ≡ steps.twice given.now.at first }
{
    let first = first?;
    Some(Finding {
        kind: FaultKind::Twice,
        at: place_of(at_of(given)),
        other: Some(place_of(first)),
    })
}

/// The places that are kept: of each name the first, and the first of what has no name.
#[derive(Drop)]
pub(crate) struct Seen<'a> {
    named: Named<'a>,
    unnamed: Option<At>,
}

impl<'a> Seen<'a> {
    /// None.
    fn new(alloc: Memory) -> Seen<'a>
        ensures { (name : _) → steps.kept_by result name ≡ None }
    {
        Seen {
            named: IndexMap::new(alloc),
            unnamed: None,
        }
    }

    /// The place that is kept by the name of this one.
    fn first(&self, given: &Given<'_>) -> Option<At>
        ensures { result ≡ steps.kept_by self.now given.now.name }
    {
        kept(&self.named, self.unnamed, given)
    }

    /// Keeps the place of this one, where `first` is what was kept by its name.
    fn keep(&mut self, given: &Given<'a>, first: Option<At>) -> Result<(), NoMemory>
        requires { first ≡ steps.kept_by self.old given.now.name }
        ensures { OnOk result ((name : _) → steps.kept_by self.new name ≡ option_or (steps.kept_by self.old name) (if spec.same_name given.now.name name then Some (steps.at_of given.now) else None)) }
    {
        if first.is_some() {
            return Ok(());
        }
        if given.has_name {
            put(&mut self.named, given.name, at_of(given))?;
        } else {
            self.unnamed = Some(at_of(given));
        }
        Ok(())
    }
}

/// The first of those that are given twice up to this one, where `found` is the first of those before.
fn twice_up_to<'a>(
    found: Option<Finding>,
    seen: &mut Seen<'a>,
    given: &Given<'a>,
) -> Result<Option<Finding>, NoMemory>
    ensures kept { OnOk result ((before : _) → steps.Keeps (steps.kept_by seen.old) before → steps.Keeps (steps.kept_by seen.new) (before ++ given.now ∷ [])) }
    ensures found { IfOk result (λ next. (before : _) → steps.Keeps (steps.kept_by seen.old) before → found ≡ steps.first_of (spec.unit_pairs [] before) → next ≡ steps.first_of (spec.unit_pairs [] (before ++ given.now ∷ []))) }
{
    let first = seen.first(given);
    seen.keep(given, first)?;
    Ok(earlier(found, twice(given, first)))
}

/// Where a block has a unit's name: the fault at the later of the two.
fn twice_in_turn(block: &Given<'_>, unit: Option<At>) -> Option<Finding>
    ensures { result ≡ steps.twice_in_turn block.now.at unit }
{
    let unit = unit?;
    let block = at_of(block);
    let (at, other) = if is_before(unit, block) {
        (block, unit)
    } else {
        (unit, block)
    };
    Some(Finding {
        kind: FaultKind::Twice,
        at: place_of(at),
        other: Some(place_of(other)),
    })
}

fn is_before(one: At, other: At) -> bool
    ensures { result ≡ spec.before (steps.place_of one) (steps.place_of other) }
{
    one.file < other.file || (one.file == other.file && one.token < other.token)
}

/// The fault of a block, where none of its name came before.
fn block_fault(given: &Given<'_>, first: Option<At>, units: &Seen<'_>) -> Option<Finding>
    ensures { result ≡ (if is_some first then None else steps.twice_in_turn given.now.at (steps.kept_by units.now given.now.name)) }
{
    if first.is_some() {
        return None;
    }
    twice_in_turn(given, units.first(given))
}

/// The first of the blocks up to this one that have a unit's name, where `found` is the first of those before.
fn block_up_to<'a>(
    found: Option<Finding>,
    units: &Seen<'a>,
    blocks: &mut Seen<'a>,
    given: &Given<'a>,
) -> Result<Option<Finding>, NoMemory>
    ensures kept { OnOk result ((before : _) → steps.Keeps (steps.kept_by blocks.old) before → steps.Keeps (steps.kept_by blocks.new) (before ++ given.now ∷ [])) }
    ensures found { IfOk result (λ next. (all before : _) → steps.Keeps (steps.kept_by units.now) all → steps.Keeps (steps.kept_by blocks.old) before → found ≡ steps.first_of (steps.block_pairs all before) → next ≡ steps.first_of (steps.block_pairs all (before ++ given.now ∷ []))) }
{
    let first = blocks.first(given);
    let pair = block_fault(given, first, units);
    blocks.keep(given, first)?;
    Ok(earlier(found, pair))
}

/// The first of units that have the name of one before, and the places of the first of each name.
pub(crate) fn units_fault<'a>(
    alloc: Memory,
    units: &[Given<'a>],
) -> Result<(Option<Finding>, Seen<'a>), NoMemory>
    ensures found { IfOk result (λ made. made.0 ≡ steps.first_of (spec.unit_pairs [] units.now)) }
    ensures kept { IfOk result (λ made. steps.Keeps (steps.kept_by made.1) units.now) }
{
    let mut seen = Seen::new(alloc);
    let mut found = None;
    for given in units {
        found = twice_up_to(found, &mut seen, given)?;
    }
    Ok((found, seen))
}

/// The first of blocks that have a unit's name.
pub(crate) fn blocks_fault<'a>(
    alloc: Memory,
    units: &Seen<'a>,
    blocks: &[Given<'a>],
) -> Result<Option<Finding>, NoMemory>
    ensures { IfOk result (λ found. (all : _) → steps.Keeps (steps.kept_by units.now) all → found ≡ steps.first_of (steps.block_pairs all blocks.now)) }
{
    let mut seen = Seen::new(alloc);
    let mut found = None;
    for given in blocks {
        found = block_up_to(found, units, &mut seen, given)?;
    }
    Ok(found)
}
