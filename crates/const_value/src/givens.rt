//! The values that entities have at the start of a run: by their declarations and by DATA (Fortran 90, 5.1, 5.2.9).

ghost use Rattle.std.specs.Prelude.{◌≡◌, ◌++◌, ◌≤◌, ◌<◌, true, [], length, map, IfOk, OnOk};
ghost use Rattle.std.specs.List.{cons_option, filter_map, flat_map, list_all};
ghost use Rattle.std.specs.Option.{option_copied, option_map, option_and_then};
ghost use Rattle.ftn_tree.specs.declared.form.Form.{out-Form};
ghost use Rattle.ftn_tree.specs.Constants.{at_least_none};
ghost use Rattle.ftn_tree.specs.DataTypes as types;
ghost use Rattle.ftn_tree.specs.Givens as spec;
ghost use Rattle.ftn_tree.specs.Sorts as sorts;
ghost use Rattle.const_value.specs.steps.Giving as steps;
ghost use Rattle.const_value.specs.steps.GivingSeen.{object_seen, supply_seen, ArePast};
ghost use Rattle.const_value.specs.steps.Projects.{sort_seen};
ghost use Rattle.const_value.specs.steps.Shaping as shaping;
ghost use Rattle.const_value.specs.steps.Telling.{sight_of};
ghost use Rattle.const_value.specs.steps.Measuring.{given};

use crate::given_runs::{Run, capped, elements_of, place_in, units_of};
use crate::measured::Measured;
use crate::measuring::{value_of, whole_in, with_length};
use crate::project::{Project, Sort};
use crate::view::View;
use decl_table::forms::span_of;
use ftn_base::{Bounds, EntityId, NoMemory, Ty};
use ftn_tree::{
    DataConstant, DataGroup, DataValue, Designator, EntityDecl, EntityKind, Expr, Form, Given,
    Repeat, Sign, Value,
};
use sqlite_items::Items;
use std::alloc::Global;

/// What is known of the name of an entity.
fn known_of<'a>(view: &View<'a>, entity: u32) -> Option<&'a Measured>
    ensures { option_copied result ≡ steps.known_of (sight_of view.now) entity }
{
    match view.project.name_of(entity as usize) {
        Some(name) => view.known.get(name),
        None => None,
    }
}

fn is_variable_kind(kind: EntityKind) -> bool
    ensures { result ≡ types.is_plain_variable kind }
{
    matches!(kind, EntityKind::Variable)
}

/// Whether it is a variable other than a dummy argument or a result.
fn is_variable(project: &Project<'_>, entity: u32) -> bool
    ensures { result ≡ steps.is_variable project.now entity }
{
    match project.entity(entity as usize) {
        Some(entity) => is_variable_kind(entity.kind),
        None => false,
    }
}

/// So many elements of an entity, from that unit of its own on, have the value.
fn given_to(view: &View<'_>, entity: u32, token: u32, first: u32, count: u32, value: Value) -> Given
    ensures { result ≡ steps.given_to (sight_of view.now) entity token first count value }
{
    Given {
        entity: EntityId(entity),
        first,
        count,
        value,
        span: span_of(view.project.files, view.file, token),
    }
}

fn push_if(given: Option<Given>, found: &mut Vec<Given>) -> Result<(), NoMemory>
    ensures { OnOk result (found.new.items ≡ found.old.items ++ cons_option given []) }
{
    if let Some(given) = given {
        found.push(given)?;
    }
    Ok(())
}

// ---- declarations: an initial value fills an array

/// Whether the names of a project reach so far.
fn is_kept(project: &Project<'_>, name: usize) -> bool
    ensures { result ≡ shaping.is_kept project.now name }
{
    name < project.names.len() && name < project.written.len()
}

/// The value that is written for a name, with what is known in the name's own file.
fn own_value(
    alloc: Global,
    view: &View<'_>,
    name: usize,
    ty: Option<Ty>,
) -> Result<Option<Value>, NoMemory>
    requires names { name < length view.now.project.now.names.items }
    requires written { name < length view.now.project.now.written.items }
    ensures { IfOk result (λ made. made ≡ steps.value_of (sight_of view.now) name ty) }
{
    let file = view.project.names[name].file;
    let own = View::of(view.project, view.known, view.names.namings, file);
    let value = value_of(alloc, &own, name, ty)?;
    Ok(value)
}

/// What a declaration gives the whole of an entity with these bounds.
fn whole_with(
    alloc: Global,
    view: &View<'_>,
    entity: u32,
    token: u32,
    name: usize,
    ty: Option<Ty>,
    bounds: &Bounds,
) -> Result<Option<Given>, NoMemory>
    requires names { name < length view.now.project.now.names.items }
    requires written { name < length view.now.project.now.written.items }
    ensures { IfOk result (λ made. made ≡ steps.whole_with (sight_of view.now) entity token name ty bounds.now) }
{
    match own_value(alloc, view, name, ty)? {
        Some(value) => {
            let count = capped(elements_of(bounds));
            Ok(Some(given_to(view, entity, token, 0, count, value)))
        }
        None => Ok(None),
    }
}

/// The same, by what is known of its name.
fn whole_by(
    alloc: Global,
    view: &View<'_>,
    entity: u32,
    token: u32,
    name: usize,
    known: &Measured,
) -> Result<Option<Given>, NoMemory>
    ensures { IfOk result (λ made. made ≡ steps.whole_by (sight_of view.now) entity token name known.now) }
{
    if known.ty.is_some() && is_kept(view.project, name) {
        match &known.bounds {
            Some(bounds) => whole_with(alloc, view, entity, token, name, known.ty, bounds),
            None => Ok(None),
        }
    } else {
        Ok(None)
    }
}

fn name_whole(
    alloc: Global,
    view: &View<'_>,
    entity: u32,
    token: u32,
    name: usize,
) -> Result<Option<Given>, NoMemory>
    ensures { IfOk result (λ made. made ≡ steps.name_whole (sight_of view.now) entity token name) }
{
    match view.known.get(name) {
        Some(known) => whole_by(alloc, view, entity, token, name, known),
        None => Ok(None),
    }
}

fn entity_whole(
    alloc: Global,
    view: &View<'_>,
    token: u32,
    entity: u32,
) -> Result<Option<Given>, NoMemory>
    ensures { IfOk result (λ made. made ≡ steps.entity_whole (sight_of view.now) token entity) }
{
    if is_variable(view.project, entity) {
        match view.project.name_of(entity as usize) {
            Some(name) => name_whole(alloc, view, entity, token, name),
            None => Ok(None),
        }
    } else {
        Ok(None)
    }
}

/// What the declaration of an entity gives it.
fn declared_by(
    alloc: Global,
    view: &View<'_>,
    declared: &EntityDecl,
) -> Result<Option<Given>, NoMemory>
    ensures { IfOk result (λ made. made ≡ steps.declared_by (sight_of view.now) declared.now) }
{
    if declared.value.is_some() {
        match view.names.entity(declared.name) {
            Some(entity) => entity_whole(alloc, view, declared.name, entity),
            None => Ok(None),
        }
    } else {
        Ok(None)
    }
}

fn push_declared(
    alloc: Global,
    view: &View<'_>,
    entities: &[EntityDecl],
    found: &mut Vec<Given>,
) -> Result<(), NoMemory>
    ensures { OnOk result (found.new.items ≡ found.old.items ++ filter_map (steps.declared_by (sight_of view.now)) entities.now) }
{
    for declared in entities {
        let given = declared_by(alloc, view, declared)?;
        push_if(given, found)?;
    }
    Ok(())
}

// ---- DATA: objects

/// An object that gets values: its entity, its type and first element where its shape is known, and its run.
#[derive(Clone, Copy)]
struct Object {
    entity: u32,
    token: u32,
    ty: Option<Ty>,
    start: Option<u64>,
    run: Run,
}

/// Whether it is a variable of the scoping unit, no member of blank common, and of a named block only in a BLOCK DATA.
fn is_object(project: &Project<'_>, scope: u32, entity: u32) -> bool
    ensures { result ≡ steps.is_object project.now scope entity }
{
    if is_variable(project, entity) {
        match project.name_of(entity as usize) {
            Some(name) => match project.names.get(name) {
                Some(owned) => owned.scope == scope as usize && !owned.said.barred,
                None => false,
            },
            None => false,
        }
    } else {
        false
    }
}

fn wholes_of(
    alloc: Global,
    view: &View<'_>,
    subscripts: &[Expr],
) -> Result<Option<Vec<i32>>, NoMemory>
    ensures { IfOk result (λ made. option_map (λ zs. zs.items) made ≡ steps.wholes_by (given view.now) subscripts.now) }
{
    let mut found = Vec::new(alloc);
    for subscript in subscripts {
        match whole_in(alloc, view, subscript)? {
            Some(z) => found.push(z)?,
            None => return Ok(None),
        }
    }
    Ok(Some(found))
}

fn place_of(bounds: &Bounds, wholes: &Option<Vec<i32>>) -> Option<u64>
    ensures { result ≡ option_and_then (steps.place_by bounds.now) (option_map (λ zs. zs.items) wholes.now) }
{
    match wholes {
        Some(wholes) => place_in(bounds.pairs(), wholes),
        None => None,
    }
}

/// The element with which an object begins, from 0.
fn start_by(
    alloc: Global,
    view: &View<'_>,
    bounds: &Bounds,
    subscripts: &Option<Items<Expr>>,
) -> Result<Option<u64>, NoMemory>
    ensures { IfOk result (λ start. start ≡ steps.start_by (sight_of view.now) bounds.now subscripts.now) }
{
    match subscripts {
        None => Ok(Some(0)),
        Some(subscripts) => {
            let wholes = wholes_of(alloc, view, subscripts.as_slice())?;
            Ok(place_of(bounds, &wholes))
        }
    }
}

fn start_of(
    alloc: Global,
    view: &View<'_>,
    known: Option<&Measured>,
    subscripts: &Option<Items<Expr>>,
) -> Result<Option<u64>, NoMemory>
    ensures { IfOk result (λ start. start ≡ option_and_then (steps.start_of (sight_of view.now) subscripts.now) (option_copied known.entry)) }
{
    match known {
        Some(known) => match &known.bounds {
            Some(bounds) => start_by(alloc, view, bounds, subscripts),
            None => Ok(None),
        },
        None => Ok(None),
    }
}

fn type_of(known: Option<&Measured>) -> Option<Ty>
    ensures { result ≡ option_and_then (λ m. m.ty) (option_copied known.entry) }
{
    match known {
        Some(known) => known.ty,
        None => None,
    }
}

fn count_by(known: &Measured) -> u64
    ensures { result ≡ steps.count_by known.now }
{
    match &known.bounds {
        Some(bounds) => {
            if known.ty.is_some() {
                elements_of(bounds)
            } else {
                0
            }
        }
        None => 0,
    }
}

/// How many elements an object has, where its shape is known.
fn count_of(known: Option<&Measured>, subscripts: &Option<Items<Expr>>) -> u64
    ensures { result ≡ steps.count_of (option_copied known.entry) subscripts.now }
{
    match subscripts {
        Some(_) => 1,
        None => match known {
            Some(known) => count_by(known),
            None => 0,
        },
    }
}

/// The object that a designator is, where it is one, from that position of the group on.
fn object_of(
    alloc: Global,
    view: &View<'_>,
    scope: u32,
    designator: &Designator,
    from: u64,
) -> Result<Option<Object>, NoMemory>
    ensures { IfOk result (λ made. option_map object_seen made ≡ steps.object_of (sight_of view.now) scope designator.now from) }
{
    let Some(entity) = view.names.entity(designator.name) else {
        return Ok(None);
    };
    if !is_object(view.project, scope, entity) {
        return Ok(None);
    }
    let known = known_of(view, entity);
    let start = start_of(alloc, view, known, &designator.subscripts)?;
    Ok(Some(Object {
        entity,
        token: designator.name,
        ty: type_of(known),
        start,
        run: Run {
            from,
            count: count_of(known, &designator.subscripts),
        },
    }))
}

// ---- DATA: values

/// The number of the name under which is declared what stands at a token.
fn name_at(view: &View<'_>, token: u32) -> Option<usize>
    ensures { result ≡ steps.name_at (sight_of view.now) token }
{
    match view.names.entity(token) {
        Some(entity) => view.project.name_of(entity as usize),
        None => None,
    }
}

fn scalar_sort(project: &Project<'_>, name: usize) -> Option<Sort>
    ensures { option_map sort_seen result ≡ steps.scalar_sort project.now name }
{
    if is_kept(project, name) && project.rank_of(name) == 0 {
        project.sort_of(name)
    } else {
        None
    }
}

fn sort_named(view: &View<'_>, token: u32) -> Option<Sort>
    ensures { option_map sort_seen result ≡ steps.sort_named (sight_of view.now) token }
{
    match name_at(view, token) {
        Some(name) => scalar_sort(view.project, name),
        None => None,
    }
}

fn value_named<'a>(view: &View<'a>, token: u32) -> Option<&'a Value>
    ensures { option_copied result ≡ steps.value_named (sight_of view.now) token }
{
    match name_at(view, token) {
        Some(name) => match view.known.get(name) {
            Some(known) => known.value.as_ref(),
            None => None,
        },
        None => None,
    }
}

fn count_in(value: i32) -> u64
    ensures { result ≡ at_least_none value }
{
    if value < 0 { 0 } else { value as u64 }
}

fn whole_count(value: Option<&Value>) -> u64
    ensures { result ≡ steps.whole_count (option_copied value.entry) }
{
    match value {
        Some(Value::Whole(value)) => count_in(*value),
        Some(Value::Truth(_)) | Some(Value::Chars(_)) => 0,
        None => 0,
    }
}

fn is_whole(sort: Option<Sort>) -> bool
    ensures { result ≡ sorts.is_sort sorts.Whole (option_map sort_seen sort) }
{
    matches!(sort, Some(Sort::Whole))
}

/// How often a value is given; what is no count of them gives none.
fn repeat_by(view: &View<'_>, repeat: &Option<Repeat>) -> u64
    ensures { result ≡ steps.repeat_by (sight_of view.now) repeat.now }
{
    match repeat {
        None => 1,
        Some(Repeat::Whole { value, .. }) => count_in(*value),
        Some(Repeat::Named(token)) => {
            if is_whole(sort_named(view, *token)) {
                whole_count(value_named(view, *token))
            } else {
                0
            }
        }
    }
}

/// The number with its sign. It fails where that has no 32 bits, which no tree tells.
fn signed(sign: Option<Sign>, value: i32) -> Result<i32, NoMemory>
    ensures { IfOk result (λ z. z ≡ spec.signed sign value) }
{
    match sign {
        Some(Sign::Minus) => match value.checked_neg() {
            Some(value) => Ok(value),
            None => Err(NoMemory),
        },
        Some(Sign::Plus) | None => Ok(value),
    }
}

fn copied(alloc: Global, value: Option<&Value>) -> Result<Option<Value>, NoMemory>
    ensures { IfOk result (λ made. made ≡ option_copied value.entry) }
{
    match value {
        Some(value) => Ok(Some(value.copy(alloc)?)),
        None => Ok(None),
    }
}

fn constant_by(
    alloc: Global,
    view: &View<'_>,
    constant: &DataConstant,
) -> Result<Option<Value>, NoMemory>
    ensures { IfOk result (λ made. made ≡ steps.constant_by (sight_of view.now) constant.now) }
{
    match constant {
        DataConstant::Whole { sign, value, .. } => {
            Ok(Some(Value::Whole(signed(*sign, *value)?)))
        }
        DataConstant::Truth { value, .. } => Ok(Some(Value::Truth(*value))),
        DataConstant::Quoted { value, .. } => Ok(Some(Value::Chars(value.copy(alloc)?))),
        DataConstant::Named(token) => copied(alloc, value_named(view, *token)),
    }
}

/// A constant, so often, from a position of the group on.
#[derive(Clone, Copy)]
struct Supply<'a> {
    constant: &'a DataConstant,
    run: Run,
}

/// The constants of a group, each from where the one before it ends. It fails where there are 2^64 of them.
fn supplies_of<'a>(
    alloc: Global,
    view: &View<'_>,
    values: &'a [DataValue],
) -> Result<Vec<Supply<'a>>, NoMemory>
    ensures same { IfOk result (λ supplies. map supply_seen supplies.items ≡ steps.supplies_from (sight_of view.now) 0 values.now) }
    ensures rowed { IfOk result (λ supplies. steps.AreRowed 0 (map supply_seen supplies.items)) }
    ensures fits { IfOk result (λ supplies. steps.fits_from (sight_of view.now) 0 values.now ≡ true) }
{
    let mut supplies = Vec::new(alloc);
    let mut from: u64 = 0;
    for value in values {
        let count = repeat_by(view, &value.repeat);
        let Some(end) = from.checked_add(count) else {
            return Err(NoMemory);
        };
        supplies.push(Supply {
            constant: &value.constant,
            run: Run { from, count },
        })?;
        from = end;
    }
    Ok(supplies)
}

// ---- DATA: what a run of one value gives an object

/// The positions of both.
fn meeting(one: &Run, other: &Run) -> Option<Run>
    ensures { result ≡ steps.meeting one.now other.now }
{
    let low = one.from.max(other.from);
    let high = one.end().min(other.end());
    if low < high {
        Some(Run {
            from: low,
            count: high - low,
        })
    } else {
        None
    }
}

fn part_given(
    alloc: Global,
    view: &View<'_>,
    object: &Object,
    ty: Ty,
    start: u64,
    part: &Run,
    value: Value,
) -> Result<Given, NoMemory>
    requires { object.now.run.from ≤ part.now.from }
    ensures { IfOk result (λ made. made ≡ steps.part_given (sight_of view.now) (object_seen object.now) ty start part.now value) }
{
    let element = start.saturating_add(part.from - object.run.from);
    let first = capped(element.saturating_mul(units_of(ty)));
    let value = with_length(alloc, Some(ty), value)?;
    Ok(given_to(
        view,
        object.entity,
        object.token,
        first,
        capped(part.count),
        value,
    ))
}

fn part_by(
    alloc: Global,
    view: &View<'_>,
    object: &Object,
    constant: &DataConstant,
    part: &Run,
) -> Result<Option<Given>, NoMemory>
    requires { object.now.run.from ≤ part.now.from }
    ensures { IfOk result (λ made. made ≡ steps.part_by (sight_of view.now) (object_seen object.now) constant.now part.now) }
{
    let Some(ty) = object.ty else {
        return Ok(None);
    };
    let Some(start) = object.start else {
        return Ok(None);
    };
    match constant_by(alloc, view, constant)? {
        Some(value) => Ok(Some(part_given(alloc, view, object, ty, start, part, value)?)),
        None => Ok(None),
    }
}

fn shared_by(
    alloc: Global,
    view: &View<'_>,
    object: &Object,
    supply: &Supply<'_>,
) -> Result<Option<Given>, NoMemory>
    ensures { IfOk result (λ made. made ≡ steps.shared_by (sight_of view.now) (object_seen object.now) (supply_seen supply.now)) }
{
    match meeting(&object.run, &supply.run) {
        Some(part) => part_by(alloc, view, object, supply.constant, &part),
        None => Ok(None),
    }
}

/// Adds what the values give an object, from that one on, and gives the one at which the next object begins: none before it goes beyond
/// the end of the object.
fn push_object(
    alloc: Global,
    view: &View<'_>,
    object: &Object,
    supplies: &[Supply<'_>],
    start: usize,
    found: &mut Vec<Given>,
) -> Result<usize, NoMemory>
    requires rowed { steps.AreRowed 0 (map supply_seen supplies.now) }
    requires past { ArePast object.now.run.from start (map supply_seen supplies.now) }
    ensures given { IfOk result (λ next. found.new.items ≡ found.old.items ++ steps.object_given (sight_of view.now) (object_seen object.now) (map supply_seen supplies.now)) }
    ensures past { IfOk result (λ next. ArePast (steps.end_of object.now.run) next (map supply_seen supplies.now)) }
{
    let end = object.run.end();
    let mut at = start;
    'values: while at < supplies.len() {
        let supply = supplies[at];
        if supply.run.from >= end {
            return Ok(at);
        }
        let given = shared_by(alloc, view, object, &supply)?;
        push_if(given, found)?;
        if supply.run.end() > end {
            return Ok(at);
        }
        at += 1;
    }
    Ok(at)
}

/// Adds what the values give a designator, from a position of the group on, and gives where the next one begins.
fn push_designator(
    alloc: Global,
    view: &View<'_>,
    scope: u32,
    designator: &Designator,
    supplies: &[Supply<'_>],
    from: u64,
    at: usize,
    found: &mut Vec<Given>,
) -> Result<(u64, usize), NoMemory>
    requires rowed { steps.AreRowed 0 (map supply_seen supplies.now) }
    requires past { ArePast from at (map supply_seen supplies.now) }
    ensures given { IfOk result (λ next. found.new.items ≡ found.old.items ++ steps.given_if (sight_of view.now) (steps.object_of (sight_of view.now) scope designator.now from) (map supply_seen supplies.now)) }
    ensures from { IfOk result (λ next. next.0 ≡ steps.next_from (steps.object_of (sight_of view.now) scope designator.now from) from) }
    ensures past { IfOk result (λ next. ArePast next.0 next.1 (map supply_seen supplies.now)) }
{
    match object_of(alloc, view, scope, designator, from)? {
        Some(object) => {
            let next = push_object(alloc, view, &object, supplies, at, found)?;
            Ok((object.run.end(), next))
        }
        None => Ok((from, at)),
    }
}

/// Adds what the values give the objects of a group.
fn push_objects(
    alloc: Global,
    view: &View<'_>,
    scope: u32,
    designators: &[Designator],
    supplies: &[Supply<'_>],
    found: &mut Vec<Given>,
) -> Result<(), NoMemory>
    requires rowed { steps.AreRowed 0 (map supply_seen supplies.now) }
    ensures { OnOk result (found.new.items ≡ found.old.items ++ steps.objects_given (sight_of view.now) scope (map supply_seen supplies.now) 0 designators.now) }
{
    let mut from: u64 = 0;
    let mut at = 0;
    for designator in designators {
        let (next, start) = push_designator(
            alloc, view, scope, designator, supplies, from, at, found,
        )?;
        from = next;
        at = start;
    }
    Ok(())
}

fn push_group(
    alloc: Global,
    view: &View<'_>,
    scope: u32,
    group: &DataGroup,
    found: &mut Vec<Given>,
) -> Result<(), NoMemory>
    ensures given { OnOk result (found.new.items ≡ found.old.items ++ steps.group_given (sight_of view.now) scope group.now) }
    ensures fits { OnOk result (steps.group_fits (sight_of view.now) group.now ≡ true) }
{
    let supplies = supplies_of(alloc, view, group.values.as_slice())?;
    push_objects(
        alloc,
        view,
        scope,
        group.objects.as_slice(),
        &supplies,
        found,
    )?;
    Ok(())
}

fn push_groups(
    alloc: Global,
    view: &View<'_>,
    scope: u32,
    groups: &[DataGroup],
    found: &mut Vec<Given>,
) -> Result<(), NoMemory>
    ensures given { OnOk result (found.new.items ≡ found.old.items ++ flat_map (steps.group_given (sight_of view.now) scope) groups.now) }
    ensures fits { OnOk result (list_all (steps.group_fits (sight_of view.now)) groups.now ≡ true) }
{
    for group in groups {
        push_group(alloc, view, scope, group, found)?;
    }
    Ok(())
}

// ---- statements

/// Adds what a statement of a scoping unit gives.
pub(crate) fn push_form(
    alloc: Global,
    view: &View<'_>,
    scope: u32,
    form: &Form,
    found: &mut Vec<Given>,
) -> Result<(), NoMemory>
    ensures given { OnOk result (found.new.items ≡ found.old.items ++ steps.form_by (sight_of view.now) scope (out-Form form.now)) }
    ensures fits { OnOk result (steps.form_fits (sight_of view.now) (out-Form form.now) ≡ true) }
{
    match form {
        Form::Declare { entities, .. } => { push_declared(alloc, view, entities.as_slice(), found) }
        Form::Data { groups } => push_groups(alloc, view, scope, groups.as_slice(), found),
        _ => Ok(()),
    }
}
