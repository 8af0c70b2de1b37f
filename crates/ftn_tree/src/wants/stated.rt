//! Expressions in statements, form by form.

ghost use Rattle.std.specs.Prelude.{◌≡◌, ◌++◌, OnOk};
ghost use Rattle.std.specs.List.{flat_map};
ghost use Rattle.ftn_tree.specs.declared.form.Form.{out-Form};
ghost use Rattle.ftn_tree.specs.Wants as spec;

use crate::form::Form;
use crate::parts::{Attribute, CaseRange, DoControl, EntityDecl, TypeSpec};
use crate::want::{Placed, Want};
use crate::wants::declared::{
    place_arrays, place_attributes, place_constants, place_data_groups, place_entities,
    place_groups, place_sets,
};
use crate::wants::places::{place, place_each, place_if, place_if_each, place_prefix, place_type};
use ftn_base::NoMemory;
use sqlite_items::Items;

fn place_control<'a>(
    control: &'a Option<DoControl>,
    found: &mut Vec<Placed<'a>>,
) -> Result<(), NoMemory>
    ensures { OnOk result (found.new.items ≡ found.old.items ++ spec.of_control control.now) }
{
    match control {
        Some(control) => {
            place(Want::Limit, &control.from, found)?;
            place(Want::Limit, &control.to, found)?;
            place_if(Want::Limit, &control.step, found)
        }
        None => Ok(()),
    }
}

fn place_range<'a>(range: &'a CaseRange, found: &mut Vec<Placed<'a>>) -> Result<(), NoMemory>
    ensures { OnOk result (found.new.items ≡ found.old.items ++ spec.of_range range.now) }
{
    match range {
        CaseRange::One(expr) | CaseRange::From(expr) | CaseRange::To(expr) => {
            place(Want::Case, expr, found)
        }
        CaseRange::Between { low, high } => {
            place(Want::Case, low, found)?;
            place(Want::Case, high, found)
        }
    }
}

fn place_ranges<'a>(ranges: &'a [CaseRange], found: &mut Vec<Placed<'a>>) -> Result<(), NoMemory>
    ensures { OnOk result (found.new.items ≡ found.old.items ++ flat_map spec.of_range ranges.now) }
{
    for range in ranges {
        place_range(range, found)?;
    }
    Ok(())
}

fn place_if_ranges<'a>(
    ranges: &'a Option<Items<CaseRange>>,
    found: &mut Vec<Placed<'a>>,
) -> Result<(), NoMemory>
    ensures { OnOk result (found.new.items ≡ found.old.items ++ spec.of_ranges ranges.now) }
{
    match ranges {
        Some(ranges) => place_ranges(ranges.as_slice(), found),
        None => Ok(()),
    }
}

fn place_declaration<'a>(
    ty: &'a TypeSpec,
    attributes: &'a [Attribute],
    entities: &'a [EntityDecl],
    found: &mut Vec<Placed<'a>>,
) -> Result<(), NoMemory>
    ensures { OnOk result (found.new.items ≡ found.old.items ++ (spec.of_type ty.now ++ (flat_map spec.of_attribute attributes.now ++ flat_map spec.of_entity entities.now))) }
{
    place_type(ty, found)?;
    place_attributes(attributes, found)?;
    place_entities(entities, found)
}

fn place_action<'a>(form: &'a Form, found: &mut Vec<Placed<'a>>) -> Result<(), NoMemory>
    ensures { OnOk result (found.new.items ≡ found.old.items ++ spec.action_expressions_at (out-Form form.now)) }
{
    match form {
        Form::Assign { target, value } => {
            place(Want::Target, target, found)?;
            place(Want::Assigned, value, found)
        }
        Form::Call { name, args } => place_if_each(Want::Argument(*name), args, found),
        Form::Print { items, .. } => place_each(Want::Output, items.as_slice(), found),
        Form::Read { items, .. } => place_each(Want::Input, items.as_slice(), found),
        _ => Ok(()),
    }
}

fn place_executable<'a>(form: &'a Form, found: &mut Vec<Placed<'a>>) -> Result<(), NoMemory>
    ensures { OnOk result (found.new.items ≡ found.old.items ++ spec.executable_expressions_at (out-Form form.now)) }
{
    match form {
        Form::IfThen { condition } | Form::ElseIf { condition, .. } => {
            place(Want::Condition, condition, found)
        }
        Form::If {
            condition,
            inner,
            ..
        } => {
            place(Want::Condition, condition, found)?;
            place_action(inner.get(), found)
        }
        Form::Do { control, .. } => place_control(control, found),
        Form::DoWhile { condition, .. } => place(Want::Condition, condition, found),
        Form::Select { selector, .. } => place(Want::Selector, selector, found),
        Form::Case { ranges } => place_if_ranges(ranges, found),
        _ => place_action(form, found),
    }
}

impl Form {
    /// Adds the expressions in the statement, in the order of their tokens, each lent and with what its place wants. What stands inside
    /// an expression isn't added by itself.
    pub fn push_expressions<'a>(&'a self, found: &mut Vec<Placed<'a>>) -> Result<(), NoMemory>
        ensures { OnOk result (found.new.items ≡ found.old.items ++ spec.expressions_of self.now) }
    {
        match self {
            Form::Function { ty, .. } => place_prefix(ty, found),
            Form::Declare {
                ty,
                attributes,
                entities,
                ..
            } => place_declaration(ty, attributes.as_slice(), entities.as_slice(), found),
            Form::Dimension { arrays, .. } => place_arrays(arrays.as_slice(), found),
            Form::Parameter { constants } => place_constants(constants.as_slice(), found),
            Form::Data { groups } => place_data_groups(groups.as_slice(), found),
            Form::Common { groups } => place_groups(groups.as_slice(), found),
            Form::Equivalence { sets } => place_sets(sets.as_slice(), found),
            _ => place_executable(self, found),
        }
    }
}
