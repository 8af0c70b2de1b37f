//! The constants to which constants refer, and those that are defined by themselves (Fortran 90, 5.1.2.1, 7.1.6.1).

ghost use Rattle.std.specs.Prelude.{◌≡◌, ◌<◌, ◌++◌, [], ◌∷◌, length, slice_get, IfOk, OnOk};
ghost use Rattle.std.specs.List.{cons_option, flat_map};
ghost use Rattle.std.specs.Option.{option_copied, option_map};
ghost use Rattle.ftn_base.specs.ModuleUses.{AreKnown};
ghost use Rattle.ftn_tree.specs.Expressions.{mentions_in_bound};
ghost use Rattle.ftn_tree.specs.KeyKinds as kinds;
ghost use Rattle.const_value.specs.steps.Lengths.{length_seen};
ghost use Rattle.const_value.specs.steps.References as steps;
ghost use Rattle.const_value.specs.steps.Told as of_told;
ghost use Rattle.const_value.specs.steps.Findings.{gathered};
ghost use Rattle.const_value.specs.steps.Written.{typing_seen, written_seen};

use crate::components::{finish_order, labels_of};
use crate::faults::Faults;
use crate::lengths::{WrittenLength, written_length};
use crate::name_numbers::Owned;
use crate::project::Project;
use crate::written::{Typing, Written};
use ftn_base::{FaultKind, NoMemory};
use ftn_tree::{BoundPair, EntityKind, Expr, Mention};
use std::alloc::Global;

/// For each name that is a constant the constants to which its value, its length and its bounds refer, each with the token where, and how
/// they hang together.
#[derive(Drop)]
pub(crate) struct Circles {
    pub uses: Vec<Vec<usize>>,
    pub tokens: Vec<Vec<u32>>,
    /// Each after those to which it refers, but for those that lead back to it.
    pub order: Vec<usize>,
    /// The same of two exactly where they lead to one another.
    labels: Vec<Option<usize>>,
}

// ---- the names in expressions

fn push_bound(alloc: Global, bound: &Option<Expr>, found: &mut Vec<Mention>) -> Result<(), NoMemory>
    ensures { OnOk result (found.new.items ≡ found.old.items ++ mentions_in_bound bound.now) }
{
    match bound {
        Some(expr) => expr.push_mentions(alloc, found),
        None => Ok(()),
    }
}

fn push_bounds(alloc: Global, pairs: &[BoundPair], found: &mut Vec<Mention>) -> Result<(), NoMemory>
    ensures { OnOk result (found.new.items ≡ found.old.items ++ flat_map steps.mentions_of_pair pairs.now) }
{
    for pair in pairs {
        push_bound(alloc, &pair.low, found)?;
        push_bound(alloc, &pair.high, found)?;
    }
    Ok(())
}

fn push_length(
    alloc: Global,
    length: WrittenLength<'_>,
    found: &mut Vec<Mention>,
) -> Result<(), NoMemory>
    ensures { OnOk result (found.new.items ≡ found.old.items ++ steps.mentions_of_length (length_seen length.entry)) }
{
    match length {
        WrittenLength::Unwritten | WrittenLength::Whole(_) | WrittenLength::Star => Ok(()),
        WrittenLength::Given(expr) => expr.push_mentions(alloc, found),
    }
}

fn push_typing(
    alloc: Global,
    typing: &Option<Typing<'_>>,
    found: &mut Vec<Mention>,
) -> Result<(), NoMemory>
    ensures { OnOk result (found.new.items ≡ found.old.items ++ steps.mentions_of_typing (option_map typing_seen typing.now)) }
{
    match typing {
        Some(typing) => push_length(alloc, written_length(typing), found),
        None => Ok(()),
    }
}

fn push_value(alloc: Global, value: Option<&Expr>, found: &mut Vec<Mention>) -> Result<(), NoMemory>
    ensures { OnOk result (found.new.items ≡ found.old.items ++ mentions_in_bound (option_copied value.entry)) }
{
    match value {
        Some(expr) => expr.push_mentions(alloc, found),
        None => Ok(()),
    }
}

/// The names in the expressions that define a name: its value, its length and its bounds.
fn mentions_for(alloc: Global, written: &Written<'_>) -> Result<Vec<Mention>, NoMemory>
    ensures { IfOk result (λ found. found.items ≡ steps.mentions_of_written (written_seen written.now)) }
{
    let mut found = Vec::new(alloc);
    push_value(alloc, written.value, &mut found)?;
    push_typing(alloc, &written.typing, &mut found)?;
    push_bounds(alloc, written.pairs(), &mut found)?;
    Ok(found)
}

// ---- the constants among them

fn is_constant_kind(kind: EntityKind) -> bool
    ensures { result ≡ kinds.is_constant kind }
{
    matches!(kind, EntityKind::Constant)
}

/// Whether the name is that of a constant.
pub(crate) fn is_constant(project: &Project<'_>, name: usize) -> bool
    requires { name < length project.now.links.entity_of.items }
    ensures { result ≡ steps.is_constant project.now name }
{
    match project.kind_of(name) {
        Some(kind) => is_constant_kind(kind),
        None => false,
    }
}

/// The number of an entity's name, where it is a constant.
fn constant_entity(project: &Project<'_>, number: usize) -> Option<usize>
    ensures { result ≡ steps.constant_entity project.now number }
{
    match project.entity(number) {
        Some(entity) => {
            if is_constant_kind(entity.kind) {
                project.name_of(number)
            } else {
                None
            }
        }
        None => None,
    }
}

/// The number of the name of the constant that the name at a token denotes.
fn constant_at(project: &Project<'_>, file: u32, token: u32) -> Option<usize>
    ensures { result ≡ steps.constant_at project.now file token }
{
    match project.entity_at(file, token) {
        Some(entity) => constant_entity(project, entity as usize),
        None => None,
    }
}

/// Adds a constant, with the token where it is named.
fn push_named(
    to: Option<usize>,
    token: u32,
    used: &mut Vec<usize>,
    tokens: &mut Vec<u32>,
) -> Result<(), NoMemory>
    ensures used { OnOk result (used.new.items ≡ used.old.items ++ cons_option to []) }
    ensures tokens { OnOk result (tokens.new.items ≡ tokens.old.items ++ cons_option (option_map (λ number. token) to) []) }
{
    if let Some(to) = to {
        used.push(to)?;
        tokens.push(token)?;
    }
    Ok(())
}

/// Adds the constants among some names.
fn push_references(
    project: &Project<'_>,
    file: u32,
    mentions: &[Mention],
    used: &mut Vec<usize>,
    tokens: &mut Vec<u32>,
) -> Result<(), NoMemory>
    ensures used { OnOk result (used.new.items ≡ used.old.items ++ steps.used_in project.now file mentions.now) }
    ensures tokens { OnOk result (tokens.new.items ≡ tokens.old.items ++ steps.tokens_in project.now file mentions.now) }
{
    for mention in mentions {
        push_named(
            constant_at(project, file, mention.token),
            mention.token,
            used,
            tokens,
        )?;
    }
    Ok(())
}

/// The constants to which a constant refers, each with the token where.
fn references(
    alloc: Global,
    project: &Project<'_>,
    name: usize,
) -> Result<(Vec<usize>, Vec<u32>), NoMemory>
    requires sized { steps.IsSized project.now }
    requires name { name < length project.now.names.items }
    ensures used { IfOk result (λ made. made.0.items ≡ steps.refers project.now name) }
    ensures tokens { IfOk result (λ made. made.1.items ≡ steps.refers_at project.now name) }
{
    let mut used = Vec::new(alloc);
    let mut tokens = Vec::new(alloc);
    if is_constant(project, name) {
        let mentions = mentions_for(alloc, &project.written[name])?;
        push_references(
            project,
            project.names[name].file,
            &mentions,
            &mut used,
            &mut tokens,
        )?;
    }
    Ok((used, tokens))
}

/// The file of a name.
fn file_of(names: &[Owned], name: usize) -> u32
    ensures { result ≡ steps.file_of names.now name }
{
    match names.get(name) {
        Some(owned) => owned.file,
        None => 0,
    }
}

fn token_at(tokens: &[u32], at: usize) -> Option<u32>
    ensures { result ≡ slice_get tokens.now at }
{
    match tokens.get(at) {
        Some(token) => Some(*token),
        None => None,
    }
}

impl Circles {
    /// How the constants of a project refer to one another.
    pub fn of(alloc: Global, project: &Project<'_>) -> Result<Circles, NoMemory>
        requires sized { steps.IsSized project.now }
        requires known { AreKnown (steps.all_uses project.now) }
        ensures { IfOk result (steps.AreCircles project.now) }
    {
        let mut uses = Vec::new(alloc);
        let mut tokens = Vec::new(alloc);
        let names = project.names.as_slice();
        for name in 0..names.len() {
            let (used, at) = references(alloc, project, name)?;
            uses.push(used)?;
            tokens.push(at)?;
        }
        let order = finish_order(alloc, &uses)?;
        let labels = labels_of(alloc, &uses, &order)?;
        Ok(Circles {
            uses,
            tokens,
            order,
            labels,
        })
    }

    /// Whether the second of two, to which the first refers, leads back to it.
    fn leads_back(&self, name: usize, used: usize) -> bool
        requires name { name < length self.now.labels.items }
        requires used { used < length self.now.labels.items }
        ensures { result ≡ steps.leads_back self.now name used }
    {
        match self.labels[name] {
            Some(one) => match self.labels[used] {
                Some(other) => one == other,
                None => false,
            },
            None => self.labels[used].is_none(),
        }
    }

    /// Whether it is a constant that is defined by itself.
    pub fn is_circular(&self, name: usize) -> bool
        requires whole { steps.IsWhole self.now }
        requires name { name < length self.now.uses.items }
        ensures { result ≡ steps.is_circular self.now name }
    {
        for used in &self.uses[name] {
            if self.leads_back(name, *used) {
                return true;
            }
        }
        false
    }

    /// Adds the references of constants to such as lead back to them.
    pub fn push_faults(&self, project: &Project<'_>, faults: &mut Faults)
        requires whole { steps.IsWhole self.now }
        requires names { length project.now.names.items ≡ length self.now.uses.items }
        ensures { of_told.first_seen faults.new ≡ gathered (of_told.first_seen faults.old) (steps.circular_findings self.now project.now) }
    {
        let names = project.names.as_slice();
        for name in 0..names.len() {
            self.push_of(name, file_of(names, name), faults);
        }
    }

    /// Adds a reference to one that leads back.
    fn push_one(&self, name: usize, file: u32, used: usize, token: Option<u32>, faults: &mut Faults)
        requires name { name < length self.now.labels.items }
        requires used { used < length self.now.labels.items }
        ensures { of_told.first_seen faults.new ≡ gathered (of_told.first_seen faults.old) (steps.circle_of self.now name file used token) }
    {
        if let Some(token) = token {
            if self.leads_back(name, used) {
                faults.note(FaultKind::Circular, file, token);
            }
        }
    }

    fn push_of(&self, name: usize, file: u32, faults: &mut Faults)
        requires whole { steps.IsWhole self.now }
        requires name { name < length self.now.uses.items }
        ensures { of_told.first_seen faults.new ≡ gathered (of_told.first_seen faults.old) (steps.circles_of self.now name file) }
    {
        let tokens = self.tokens[name].as_slice();
        let mut at = 0;
        for used in &self.uses[name] {
            self.push_one(name, file, *used, token_at(tokens, at), faults);
            at += 1;
        }
    }
}
