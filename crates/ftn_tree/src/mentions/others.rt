//! Names in USE and in constructs (Fortran 90, 8.1, 11.3.2).

ghost use Rattle.std.specs.Prelude.{◌≡◌, ◌++◌, ◌∷◌, [], OnOk};
ghost use Rattle.ftn_tree.specs.Expressions as exprs;
ghost use Rattle.ftn_tree.specs.PartMentions as spec;

use crate::mention::{Mention, Role};
use crate::mentions::naming::{push_if_expr, push_if_named, push_name};
use crate::parts::{CaseRange, DoControl, OnlyItem, Rename};
use ftn_base::NoMemory;
use std::alloc::Global;

fn push_rename(alloc: Global, item: Rename, found: &mut Vec<Mention>) -> Result<(), NoMemory>
    ensures { OnOk result (found.new.items ≡ found.old.items ++ spec.in_rename item) }
{
    push_name(alloc, item.local, Role::Local, found)?;
    push_name(alloc, item.source, Role::Source, found)
}

pub(crate) fn push_renames(
    alloc: Global,
    items: &[Rename],
    found: &mut Vec<Mention>,
) -> Result<(), NoMemory>
    ensures { OnOk result (found.new.items ≡ found.old.items ++ spec.in_renames items.now) }
{
    for item in items {
        push_rename(alloc, *item, found)?;
    }
    Ok(())
}

fn push_only_item(alloc: Global, item: OnlyItem, found: &mut Vec<Mention>) -> Result<(), NoMemory>
    ensures { OnOk result (found.new.items ≡ found.old.items ++ spec.in_only_item item) }
{
    push_if_named(alloc, item.local, Role::Local, found)?;
    push_name(alloc, item.source, Role::Source, found)
}

pub(crate) fn push_only_items(
    alloc: Global,
    items: &[OnlyItem],
    found: &mut Vec<Mention>,
) -> Result<(), NoMemory>
    ensures { OnOk result (found.new.items ≡ found.old.items ++ spec.in_only_items items.now) }
{
    for item in items {
        push_only_item(alloc, *item, found)?;
    }
    Ok(())
}

fn push_limits(alloc: Global, control: &DoControl, found: &mut Vec<Mention>) -> Result<(), NoMemory>
    ensures { OnOk result (found.new.items ≡ found.old.items ++ (exprs.mentions_in control.now.from ++ (exprs.mentions_in control.now.to ++ exprs.mentions_in_bound control.now.step))) }
{
    control.from.push_mentions(alloc, found)?;
    control.to.push_mentions(alloc, found)?;
    push_if_expr(alloc, &control.step, found)
}

pub(crate) fn push_if_control(
    alloc: Global,
    control: &Option<DoControl>,
    found: &mut Vec<Mention>,
) -> Result<(), NoMemory>
    ensures { OnOk result (found.new.items ≡ found.old.items ++ spec.in_control control.now) }
{
    match control {
        Some(control) => {
            push_name(alloc, control.variable, Role::Plain, found)?;
            push_limits(alloc, control, found)
        }
        None => Ok(()),
    }
}

fn push_range(alloc: Global, range: &CaseRange, found: &mut Vec<Mention>) -> Result<(), NoMemory>
    ensures { OnOk result (found.new.items ≡ found.old.items ++ spec.in_range range.now) }
{
    match range {
        CaseRange::One(expr) | CaseRange::From(expr) | CaseRange::To(expr) => {
            expr.push_mentions(alloc, found)
        }
        CaseRange::Between { low, high } => {
            low.push_mentions(alloc, found)?;
            high.push_mentions(alloc, found)
        }
    }
}

pub(crate) fn push_ranges(
    alloc: Global,
    ranges: &[CaseRange],
    found: &mut Vec<Mention>,
) -> Result<(), NoMemory>
    ensures { OnOk result (found.new.items ≡ found.old.items ++ spec.in_ranges ranges.now) }
{
    for range in ranges {
        push_range(alloc, range, found)?;
    }
    Ok(())
}
