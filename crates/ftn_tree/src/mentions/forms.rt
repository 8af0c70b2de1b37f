//! Names in statements, form by form.

ghost use Rattle.std.specs.Prelude.{◌≡◌, ◌++◌, ◌∷◌, [], IfOk, OnOk};
ghost use Rattle.ftn_tree.specs.declared.mention.Role.TheVariants as role;
ghost use Rattle.ftn_tree.specs.declared.form.Form.{out-Form};
ghost use Rattle.ftn_tree.specs.Mentions as spec;
ghost use Rattle.ftn_tree.specs.PartMentions as parts;
ghost use Rattle.ftn_tree.specs.Roles as roles;

use crate::form::Form;
use crate::mention::{Mention, Role};
use crate::mentions::entities::{
    push_arrays, push_attributes, push_constants, push_entities, push_saved,
};
use crate::mentions::extents::push_type;
use crate::mentions::given::{access_role, given_by, intent_role, procedure_role};
use crate::mentions::naming::{
    push_exprs, push_if_args, push_if_named, push_if_names, push_mention, push_name, push_names,
};
use crate::mentions::others::{push_if_control, push_only_items, push_ranges, push_renames};
use crate::mentions::shared::{push_data_groups, push_groups, push_sets};
use crate::parts::{Attribute, CaseRange, Ending, EntityDecl, TypeSpec};
use ftn_base::NoMemory;
use sqlite_items::Items;
use std::alloc::Global;

impl Form {
    /// Adds the names in the statement, in the order of their tokens, each with what is said of it there. The letters of IMPLICIT are
    /// none.
    pub fn push_mentions(&self, alloc: Global, found: &mut Vec<Mention>) -> Result<(), NoMemory>
        ensures { OnOk result (found.new.items ≡ found.old.items ++ spec.mentions_of self.now) }
    {
        match self {
            Form::BlockData { name, .. } => push_if_named(alloc, *name, Role::Opens, found),
            Form::Program { name } | Form::Module { name } => {
                push_name(alloc, *name, Role::Opens, found)
            }
            Form::ModuleProcedure { names } => {
                push_names(alloc, names.as_slice(), Role::Specific, found)
            }
            Form::Subroutine { name, dummies } => {
                push_name(alloc, *name, Role::Opens, found)?;
                push_if_names(alloc, dummies, Role::Dummy, found)
            }
            Form::Function {
                ty,
                name,
                dummies,
                result,
            } => push_function(alloc, ty, *name, dummies.as_slice(), *result, found),
            Form::Interface { name } => push_if_named(alloc, *name, Role::Generic, found),
            Form::End { of } => push_ending(alloc, *of, found),
            Form::UseAll { module, renames } => {
                push_name(alloc, *module, Role::Module, found)?;
                push_renames(alloc, renames.as_slice(), found)
            }
            Form::UseOnly { module, items } => {
                push_name(alloc, *module, Role::Module, found)?;
                push_only_items(alloc, items.as_slice(), found)
            }
            Form::Implicit { .. } => Ok(()),
            _ => push_declared(alloc, self, found),
        }
    }
}

fn push_declared(alloc: Global, form: &Form, found: &mut Vec<Mention>) -> Result<(), NoMemory>
    ensures { OnOk result (found.new.items ≡ found.old.items ++ spec.declared_mentions_at (out-Form form.now)) }
{
    match form {
        Form::Declare {
            ty,
            attributes,
            entities,
            ..
        } => push_declaration(alloc, ty, attributes.as_slice(), entities.as_slice(), found),
        Form::Dimension { arrays, .. } => push_arrays(alloc, arrays.as_slice(), found),
        Form::Parameter { constants } => push_constants(alloc, constants.as_slice(), found),
        Form::Data { groups } => push_data_groups(alloc, groups.as_slice(), found),
        Form::Save { items, .. } => push_saved(alloc, items.as_slice(), found),
        Form::Access { word, names, .. } => {
            push_names(alloc, names.as_slice(), access_role(*word), found)
        }
        Form::External { word, names } => {
            push_names(alloc, names.as_slice(), procedure_role(*word), found)
        }
        Form::Intent { mode, names, .. } => {
            push_names(alloc, names.as_slice(), intent_role(*mode), found)
        }
        Form::Common { groups } => push_groups(alloc, groups.as_slice(), found),
        Form::Equivalence { sets } => push_sets(alloc, sets.as_slice(), found),
        _ => push_executable(alloc, form, found),
    }
}

fn push_executable(alloc: Global, form: &Form, found: &mut Vec<Mention>) -> Result<(), NoMemory>
    ensures { OnOk result (found.new.items ≡ found.old.items ++ spec.executable_mentions_at (out-Form form.now)) }
{
    match form {
        Form::IfThen { condition } | Form::ElseIf { condition, .. } => {
            condition.push_mentions(alloc, found)
        }
        Form::If {
            condition,
            inner,
            ..
        } => {
            condition.push_mentions(alloc, found)?;
            push_action(alloc, inner.get(), found)
        }
        Form::Do { label, control } => {
            push_if_named(alloc, *label, Role::Label, found)?;
            push_if_control(alloc, control, found)
        }
        Form::DoWhile {
            label,
            condition,
            ..
        } => {
            push_if_named(alloc, *label, Role::Label, found)?;
            condition.push_mentions(alloc, found)
        }
        Form::Select { selector, .. } => selector.push_mentions(alloc, found),
        Form::Case { ranges } => push_case(alloc, ranges, found),
        _ => push_action(alloc, form, found),
    }
}

fn push_action(alloc: Global, form: &Form, found: &mut Vec<Mention>) -> Result<(), NoMemory>
    ensures { OnOk result (found.new.items ≡ found.old.items ++ spec.action_mentions form.now) }
{
    match form {
        Form::Assign { target, value } => {
            target.push_mentions(alloc, found)?;
            value.push_mentions(alloc, found)
        }
        Form::Call { name, args } => {
            push_name(alloc, *name, Role::Called, found)?;
            push_if_args(alloc, args, found)
        }
        Form::Exit { label, .. } => push_if_named(alloc, *label, Role::Leaves, found),
        Form::Print { items, .. } | Form::Read { items, .. } => {
            push_exprs(alloc, items.as_slice(), found)
        }
        _ => Ok(()),
    }
}

fn push_case(
    alloc: Global,
    ranges: &Option<Items<CaseRange>>,
    found: &mut Vec<Mention>,
) -> Result<(), NoMemory>
    ensures { OnOk result (found.new.items ≡ found.old.items ++ spec.case_mentions ranges.now) }
{
    match ranges {
        Some(ranges) => push_ranges(alloc, ranges.as_slice(), found),
        None => Ok(()),
    }
}

fn push_ending(alloc: Global, of: Option<Ending>, found: &mut Vec<Mention>) -> Result<(), NoMemory>
    ensures { OnOk result (found.new.items ≡ found.old.items ++ spec.end_mentions of) }
{
    match of {
        Some(ending) => push_if_named(alloc, ending.name, Role::Ends, found),
        None => Ok(()),
    }
}

fn push_declaration(
    alloc: Global,
    ty: &TypeSpec,
    attributes: &[Attribute],
    entities: &[EntityDecl],
    found: &mut Vec<Mention>,
) -> Result<(), NoMemory>
    ensures { OnOk result (found.new.items ≡ found.old.items ++ (parts.in_type ty.now ++ (parts.in_attributes attributes.now ++ parts.in_entities (parts.given_by attributes.now) entities.now))) }
{
    let said = given_by(alloc, attributes)?;
    push_type(alloc, ty, found)?;
    push_attributes(alloc, attributes, found)?;
    push_entities(alloc, said.as_slice(), entities, found)
}

fn typed(alloc: Global, ty: &Option<TypeSpec>) -> Result<Items<Role>, NoMemory>
    ensures { IfOk result (λ also. also ≡ parts.where_written role.Typed ty.now) }
{
    let mut also = Items::new(alloc);
    if ty.is_some() {
        also.push(Role::Typed)?;
    }
    Ok(also)
}

fn result_roles(alloc: Global, ty: &Option<TypeSpec>) -> Result<Items<Role>, NoMemory>
    ensures { IfOk result (λ also. also ≡ role.Answer ∷ parts.where_written role.Typed ty.now) }
{
    let mut also = Items::new(alloc);
    also.push(Role::Answer)?;
    if ty.is_some() {
        also.push(Role::Typed)?;
    }
    Ok(also)
}

fn push_prefix(
    alloc: Global,
    ty: &Option<TypeSpec>,
    found: &mut Vec<Mention>,
) -> Result<(), NoMemory>
    ensures { OnOk result (found.new.items ≡ found.old.items ++ spec.in_prefix ty.now) }
{
    match ty {
        Some(ty) => push_type(alloc, ty, found),
        None => Ok(()),
    }
}

fn push_function_name(
    alloc: Global,
    ty: &Option<TypeSpec>,
    name: u32,
    answer: Option<u32>,
    found: &mut Vec<Mention>,
) -> Result<(), NoMemory>
    ensures { OnOk result (found.new.items ≡ found.old.items ++ spec.function_mention ty.now name answer ∷ []) }
{
    match answer {
        Some(_) => push_name(alloc, name, Role::Opens, found),
        None => push_mention(name, Role::Opens, result_roles(alloc, ty)?, found),
    }
}

fn push_answer(
    alloc: Global,
    ty: &Option<TypeSpec>,
    answer: Option<u32>,
    found: &mut Vec<Mention>,
) -> Result<(), NoMemory>
    ensures { OnOk result (found.new.items ≡ found.old.items ++ spec.answer_mentions ty.now answer) }
{
    match answer {
        Some(answer) => push_mention(answer, Role::Answer, typed(alloc, ty)?, found),
        None => Ok(()),
    }
}

fn push_function(
    alloc: Global,
    ty: &Option<TypeSpec>,
    name: u32,
    dummies: &[u32],
    answer: Option<u32>,
    found: &mut Vec<Mention>,
) -> Result<(), NoMemory>
    ensures { OnOk result (found.new.items ≡ found.old.items ++ spec.function_mentions ty.now name dummies.now answer) }
{
    push_prefix(alloc, ty, found)?;
    push_function_name(alloc, ty, name, answer, found)?;
    push_names(alloc, dummies, Role::Dummy, found)?;
    push_answer(alloc, ty, answer, found)
}
