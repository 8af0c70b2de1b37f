//! What attributes say (Fortran 90, 5.1.2).

ghost use Rattle.std.specs.Prelude.{◌≡◌, IfOk, count_by};
ghost use Rattle.std.specs.List.{list_any};
ghost use Rattle.ftn_tree.specs.PartMentions as spec;

use crate::mention::Role;
use crate::parts::{AccessWord, Attribute, AttributeKind, IntentMode, ProcedureWord};
use ftn_base::NoMemory;
use sqlite_items::Items;
use std::alloc::Global;

pub(crate) fn access_role(word: AccessWord) -> Role
    ensures { result ≡ spec.access_role word }
{
    match word {
        AccessWord::Public => Role::Public,
        AccessWord::Private => Role::Private,
    }
}

pub(crate) fn procedure_role(word: ProcedureWord) -> Role
    ensures { result ≡ spec.procedure_role word }
{
    match word {
        ProcedureWord::External => Role::External,
        ProcedureWord::Intrinsic => Role::Intrinsic,
    }
}

pub(crate) fn intent_role(mode: IntentMode) -> Role
    ensures { result ≡ spec.intent_role mode }
{
    match mode {
        IntentMode::In => Role::IntentIn,
        IntentMode::Out => Role::IntentOut,
        IntentMode::InOut { .. } => Role::IntentInOut,
    }
}

fn attribute_role(kind: &AttributeKind) -> Role
    ensures { result ≡ spec.attribute_role kind.now }
{
    match kind {
        AttributeKind::Parameter => Role::Parameter,
        AttributeKind::Save => Role::Saved,
        AttributeKind::Access(word) => access_role(*word),
        AttributeKind::Procedure(word) => procedure_role(*word),
        AttributeKind::Intent(mode) => intent_role(*mode),
        AttributeKind::Dimension(_) => Role::DimensionAttribute,
    }
}

fn gives(attribute: &Attribute, role: Role) -> bool
    ensures { result ≡ spec.gives role attribute.now }
{
    attribute_role(&attribute.kind).is(role)
}

fn is_given(attributes: &[Attribute], role: Role) -> bool
    ensures { result ≡ list_any (spec.gives role) attributes.now }
{
    attributes.iter().any(|attribute| gives(attribute, role))
}

fn count_given(attributes: &[Attribute], role: Role) -> usize
    ensures { result ≡ count_by (spec.gives role) attributes.now }
{
    attributes
        .iter()
        .filter(|attribute| gives(attribute, role))
        .count()
}

fn is_twice(attributes: &[Attribute]) -> bool
    ensures { result ≡ spec.is_twice attributes.now }
{
    2 <= count_given(attributes, Role::DimensionAttribute)
}

const ATTRIBUTE_ROLES: [Role; 10] = [
    Role::Parameter,
    Role::Saved,
    Role::Public,
    Role::Private,
    Role::External,
    Role::Intrinsic,
    Role::IntentIn,
    Role::IntentOut,
    Role::IntentInOut,
    Role::DimensionAttribute,
];

fn given_of(
    alloc: Global,
    roles: &[Role],
    attributes: &[Attribute],
) -> Result<Items<Role>, NoMemory>
    ensures { IfOk result (λ given. given ≡ spec.given_of roles.now attributes.now) }
{
    let mut given = Items::new(alloc);
    for role in roles {
        if is_given(attributes, *role) {
            given.push(*role)?;
        }
    }
    Ok(given)
}

/// What the attributes say of each entity of their declaration, each once.
pub(crate) fn given_by(alloc: Global, attributes: &[Attribute]) -> Result<Items<Role>, NoMemory>
    ensures { IfOk result (λ given. given ≡ spec.given_by attributes.now) }
{
    let mut given = given_of(alloc, &ATTRIBUTE_ROLES, attributes)?;
    if is_twice(attributes) {
        given.push(Role::DimensionTwice)?;
    }
    Ok(given)
}
