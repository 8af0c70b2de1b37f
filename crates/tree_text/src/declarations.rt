//! Parts of specification statements.

use crate::expressions::{put_arguments, put_expr};
use crate::line::{join, put, put_comma, put_names, put_token};
use ftn_base::NoMemory;
use ftn_tree::{
    AccessWord, ArrayDecl, Attribute, AttributeKind, BlockName, BoundPair, CharLength, CommonGroup,
    CommonMember, Designator, EntityDecl, IntentMode, LengthSelector, LengthValue, NamedConstant,
    ProcedureWord, SaveItem, Tokens, TypeSpec,
};
use sqlite_items::Items;

fn put_length(out: &mut Vec<u8>, tokens: &Tokens, length: &LengthValue) -> Result<(), NoMemory> {
    match length {
        LengthValue::Assumed => put(out, b"*"),
        LengthValue::Given(value) => put_expr(out, tokens, value),
    }
}

fn put_star(out: &mut Vec<u8>, tokens: &Tokens, length: &CharLength) -> Result<(), NoMemory> {
    put(out, b"*")?;
    match length {
        CharLength::Whole { token, .. } => put_token(out, tokens, *token),
        CharLength::Paren(length) => {
            put(out, b"(")?;
            put_length(out, tokens, length)?;
            put(out, b")")
        }
    }
}

fn put_selector(
    out: &mut Vec<u8>,
    tokens: &Tokens,
    selector: &LengthSelector,
) -> Result<(), NoMemory> {
    match selector {
        LengthSelector::Star(length) => put_star(out, tokens, length),
        LengthSelector::Paren { has_word, length } => {
            put(out, if *has_word { b"(LEN =" } else { b"(" })?;
            put_length(out, tokens, length)?;
            put(out, b")")
        }
    }
}

/// Adds a type.
pub fn put_type(out: &mut Vec<u8>, tokens: &Tokens, ty: &TypeSpec) -> Result<(), NoMemory> {
    match ty {
        TypeSpec::Integer => put(out, b"INTEGER"),
        TypeSpec::Logical => put(out, b"LOGICAL"),
        TypeSpec::Character(None) => put(out, b"CHARACTER"),
        TypeSpec::Character(Some(length)) => {
            put(out, b"CHARACTER")?;
            put_selector(out, tokens, length)
        }
    }
}

fn put_pair(out: &mut Vec<u8>, tokens: &Tokens, pair: &BoundPair) -> Result<(), NoMemory> {
    if let Some(low) = &pair.low {
        put_expr(out, tokens, low)?;
        put(out, b":")?;
    }
    match &pair.high {
        Some(high) => put_expr(out, tokens, high),
        None => put(out, b"*"),
    }
}

fn put_bounds(out: &mut Vec<u8>, tokens: &Tokens, pairs: &[BoundPair]) -> Result<(), NoMemory> {
    join(out, b"(")?;
    for (at, pair) in pairs.iter().enumerate() {
        put_comma(out, at)?;
        put_pair(out, tokens, pair)?;
    }
    join(out, b")")
}

fn put_own_bounds(
    out: &mut Vec<u8>,
    tokens: &Tokens,
    pairs: &Option<Items<BoundPair>>,
) -> Result<(), NoMemory> {
    match pairs {
        Some(pairs) => put_bounds(out, tokens, pairs.as_slice()),
        None => Ok(()),
    }
}

/// Adds PUBLIC or PRIVATE.
pub fn put_access(out: &mut Vec<u8>, word: AccessWord) -> Result<(), NoMemory> {
    match word {
        AccessWord::Public => put(out, b"PUBLIC"),
        AccessWord::Private => put(out, b"PRIVATE"),
    }
}

/// Adds EXTERNAL or INTRINSIC.
pub fn put_procedure(out: &mut Vec<u8>, word: ProcedureWord) -> Result<(), NoMemory> {
    match word {
        ProcedureWord::External => put(out, b"EXTERNAL"),
        ProcedureWord::Intrinsic => put(out, b"INTRINSIC"),
    }
}

/// Adds INTENT and its mode.
pub fn put_intent(out: &mut Vec<u8>, mode: IntentMode) -> Result<(), NoMemory> {
    match mode {
        IntentMode::In => put(out, b"INTENT (IN)"),
        IntentMode::Out => put(out, b"INTENT (OUT)"),
        IntentMode::InOut { joined: true } => put(out, b"INTENT (INOUT)"),
        IntentMode::InOut { joined: false } => put(out, b"INTENT (IN OUT)"),
    }
}

fn put_attribute(
    out: &mut Vec<u8>,
    tokens: &Tokens,
    attribute: &AttributeKind,
) -> Result<(), NoMemory> {
    match attribute {
        AttributeKind::Parameter => put(out, b"PARAMETER"),
        AttributeKind::Save => put(out, b"SAVE"),
        AttributeKind::Access(word) => put_access(out, *word),
        AttributeKind::Procedure(word) => put_procedure(out, *word),
        AttributeKind::Intent(mode) => put_intent(out, *mode),
        AttributeKind::Dimension(pairs) => {
            put(out, b"DIMENSION")?;
            put_bounds(out, tokens, pairs.as_slice())
        }
    }
}

/// Adds attributes, each after a comma.
pub fn put_attributes(
    out: &mut Vec<u8>,
    tokens: &Tokens,
    attributes: &[Attribute],
) -> Result<(), NoMemory> {
    for attribute in attributes {
        join(out, b",")?;
        put_attribute(out, tokens, &attribute.kind)?;
    }
    Ok(())
}

/// Adds `::` where it is written.
pub fn put_colons(out: &mut Vec<u8>, colons: bool) -> Result<(), NoMemory> {
    if colons { put(out, b"::") } else { Ok(()) }
}

/// Adds `::` where it is written, and names.
pub fn put_listed(
    out: &mut Vec<u8>,
    tokens: &Tokens,
    colons: bool,
    names: &[u32],
) -> Result<(), NoMemory> {
    put_colons(out, colons)?;
    put_names(out, tokens, names)
}

fn put_entity(out: &mut Vec<u8>, tokens: &Tokens, entity: &EntityDecl) -> Result<(), NoMemory> {
    put_token(out, tokens, entity.name)?;
    put_own_bounds(out, tokens, &entity.bounds)?;
    if let Some(length) = &entity.length {
        put_star(out, tokens, length)?;
    }
    if let Some(value) = &entity.value {
        put(out, b"=")?;
        put_expr(out, tokens, value)?;
    }
    Ok(())
}

/// Adds the entities of a type declaration.
pub fn put_entities(
    out: &mut Vec<u8>,
    tokens: &Tokens,
    entities: &[EntityDecl],
) -> Result<(), NoMemory> {
    for (at, entity) in entities.iter().enumerate() {
        put_comma(out, at)?;
        put_entity(out, tokens, entity)?;
    }
    Ok(())
}

/// Adds names with their bounds.
pub fn put_arrays(
    out: &mut Vec<u8>,
    tokens: &Tokens,
    arrays: &[ArrayDecl],
) -> Result<(), NoMemory> {
    for (at, array) in arrays.iter().enumerate() {
        put_comma(out, at)?;
        put_token(out, tokens, array.name)?;
        put_bounds(out, tokens, array.bounds.as_slice())?;
    }
    Ok(())
}

/// Adds names and their values, in parentheses.
pub fn put_constants(
    out: &mut Vec<u8>,
    tokens: &Tokens,
    constants: &[NamedConstant],
) -> Result<(), NoMemory> {
    put(out, b"(")?;
    for (at, constant) in constants.iter().enumerate() {
        put_comma(out, at)?;
        put_token(out, tokens, constant.name)?;
        put(out, b"=")?;
        put_expr(out, tokens, &constant.value)?;
    }
    put(out, b")")
}

fn put_save_item(out: &mut Vec<u8>, tokens: &Tokens, item: SaveItem) -> Result<(), NoMemory> {
    match item {
        SaveItem::Variable(name) => put_token(out, tokens, name),
        SaveItem::Block(name) => {
            put(out, b"/")?;
            put_token(out, tokens, name)?;
            put(out, b"/")
        }
    }
}

/// Adds the items of SAVE.
pub fn put_save_items(
    out: &mut Vec<u8>,
    tokens: &Tokens,
    items: &[SaveItem],
) -> Result<(), NoMemory> {
    for (at, item) in items.iter().enumerate() {
        put_comma(out, at)?;
        put_save_item(out, tokens, *item)?;
    }
    Ok(())
}

fn put_block(out: &mut Vec<u8>, tokens: &Tokens, block: BlockName) -> Result<(), NoMemory> {
    match block {
        BlockName::Unwritten => Ok(()),
        BlockName::Blank { joined: true, .. } => put(out, b"//"),
        BlockName::Blank { joined: false, .. } => put(out, b"/ /"),
        BlockName::Named { name, .. } => {
            put(out, b"/")?;
            put_token(out, tokens, name)?;
            put(out, b"/")
        }
    }
}

fn put_members(
    out: &mut Vec<u8>,
    tokens: &Tokens,
    members: &[CommonMember],
) -> Result<(), NoMemory> {
    for (at, member) in members.iter().enumerate() {
        put_comma(out, at)?;
        put_token(out, tokens, member.name)?;
        put_own_bounds(out, tokens, &member.bounds)?;
    }
    Ok(())
}

/// Adds the groups of COMMON.
pub fn put_groups(
    out: &mut Vec<u8>,
    tokens: &Tokens,
    groups: &[CommonGroup],
) -> Result<(), NoMemory> {
    for group in groups {
        if group.comma {
            join(out, b",")?;
        }
        put_block(out, tokens, group.block)?;
        put_members(out, tokens, group.members.as_slice())?;
    }
    Ok(())
}

/// Adds variables and array elements with commas between them.
pub fn put_designators(
    out: &mut Vec<u8>,
    tokens: &Tokens,
    list: &[Designator],
) -> Result<(), NoMemory> {
    for (at, designator) in list.iter().enumerate() {
        put_comma(out, at)?;
        put_token(out, tokens, designator.name)?;
        if let Some(subscripts) = &designator.subscripts {
            put_arguments(out, tokens, subscripts.as_slice())?;
        }
    }
    Ok(())
}

/// Adds the sets of EQUIVALENCE.
pub fn put_sets(
    out: &mut Vec<u8>,
    tokens: &Tokens,
    sets: &[Items<Designator>],
) -> Result<(), NoMemory> {
    for (at, set) in sets.iter().enumerate() {
        put_comma(out, at)?;
        put(out, b"(")?;
        put_designators(out, tokens, set.as_slice())?;
        put(out, b")")?;
    }
    Ok(())
}
