//! References in constant expressions: intrinsic functions, constants, their elements and substrings (Fortran 90, 6.1.1, 6.2.2, 7.1.6.1).

ghost use Rattle.std.specs.Prelude.{◌≡◌, ◌++◌, ◌∷◌, [], pos, length, Option, Some, None, List, IfOk};
ghost use Rattle.std.specs.Option.{option_map};
ghost use Rattle.ftn_tree.specs.Arrays as arrays;
ghost use Rattle.ftn_tree.specs.declared.value.Value.TheVariants as values;
ghost use Rattle.const_expr.specs.steps.Subscripts as subscripts;
ghost use Rattle.ftn_tree.specs.declared.value.Value.{Value as ValueOf};
ghost use Rattle.ftn_tree.specs.Evaluations as spec;
ghost use Rattle.const_expr.specs.Seen.{seen};
ghost use Rattle.const_expr.specs.steps.Parts.{told_in_parts, range_seen, values_with, IsParts, AreParts, looked_up};
ghost use Rattle.value_ops.specs.Answers.{Makes};

use crate::evaluated::Evaluated;
use crate::operating::{operation, without_value};
use crate::texts::substring;
use crate::told::Told;
use ftn_base::{Bounds, Bytes, NoMemory};
use ftn_tree::{Intrinsic, Value, ValueFault};
use std::alloc::Global;
use value_ops::{Failure, intrinsic};

/// The values of arguments or subscripts, where each has one, and what is told of them.
#[derive(Drop)]
pub(crate) struct Parts {
    pub values: Option<Vec<Value>>,
    pub told: Told,
}

/// The ends of a substring range, as far as they are written.
#[derive(Drop)]
pub(crate) struct Range {
    pub low: Option<Evaluated>,
    pub high: Option<Evaluated>,
}

/// Whether there is an element.
#[derive(Clone, Copy)]
pub(crate) enum Lookup {
    /// That isn't known.
    Unknown,
    /// There is none.
    Fault(ValueFault),
    /// There is.
    There,
}

impl Parts {
    /// Of none.
    pub fn none(alloc: Global) -> Parts
        ensures { IsParts [] result }
    {
        Parts {
            values: Some(Vec::new(alloc)),
            told: Told::nothing(),
        }
    }

    /// With one more.
    pub fn with(self, next: Evaluated) -> Result<Parts, NoMemory>
        ensures { (es : List spec.Evaluated) (e : spec.Evaluated) → IsParts es self → next ≡ seen e → IfOk result (IsParts (es ++ e ∷ [])) }
    {
        let Parts { values, told } = self;
        let told = told.joined(&next.told);
        let values = with_value(values, next.value)?;
        Ok(Parts { values, told })
    }
}

fn with_value(
    values: Option<Vec<Value>>,
    next: Option<Value>,
) -> Result<Option<Vec<Value>>, NoMemory>
    ensures { IfOk result (λ made. option_map (λ vs. vs.items) made ≡ values_with (option_map (λ vs. vs.items) values) next) }
{
    match values {
        Some(mut values) => match next {
            Some(next) => {
                values.push(next)?;
                Ok(Some(values))
            }
            None => Ok(None),
        },
        None => Ok(None),
    }
}

fn told_of_end(end: &Option<Evaluated>) -> Told
    ensures { (e : Option spec.Evaluated) → end.now ≡ option_map seen e → result ≡ told_in_parts (spec.ends_of (Some (e, None))) }
{
    match end {
        Some(end) => end.told,
        None => Told::nothing(),
    }
}

fn told_of_range(range: &Option<Range>) -> Told
    ensures { (r : Option (Option spec.Evaluated × Option spec.Evaluated)) → range.now ≡ range_seen r → result ≡ told_in_parts (spec.ends_of r) }
{
    match range {
        Some(range) => told_of_end(&range.low).joined(&told_of_end(&range.high)),
        None => Told::nothing(),
    }
}

/// An intrinsic function of these arguments. No range stands behind one.
pub(crate) fn call(
    alloc: Global,
    name: u32,
    function: Intrinsic,
    args: Parts,
    range: &Option<Range>,
) -> Result<Evaluated, NoMemory>
    ensures { (es : List spec.Evaluated) (r : Option (Option spec.Evaluated × Option spec.Evaluated)) → IsParts es args → range.now ≡ range_seen r
        → IfOk result (λ done. done ≡ seen (spec.reference name (spec.Intrinsic function) (Some es) r)) }
{
    let Parts { values, told } = args;
    let told = told.joined(&told_of_range(range));
    match range {
        Some(_) => Ok(without_value(name, told)),
        None => match values {
            Some(values) => operation(name, told, intrinsic(alloc, function, &values)),
            None => Ok(without_value(name, told)),
        },
    }
}

fn is_whole(value: &Value) -> bool
    ensures { result ≡ subscripts.is_whole value.now }
{
    matches!(value, Value::Whole(_))
}

fn are_whole(values: &[Value]) -> bool
    ensures { result ≡ subscripts.are_whole values.now }
{
    match values {
        [] => true,
        [value, rest @ ..] => is_whole(value) && are_whole(rest),
    }
}

fn is_within(value: &Value, pair: (i32, i32)) -> bool
    ensures { result ≡ subscripts.is_within value.now pair }
{
    match value {
        Value::Whole(z) => !(*z < pair.0) && !(pair.1 < *z),
        _ => false,
    }
}

/// Whether each is an integer in the bounds of its dimension, as far as there are both.
fn are_within(values: &[Value], bounds: &[(i32, i32)]) -> bool
    ensures { result ≡ subscripts.are_within values.now bounds.now }
{
    match values {
        [] => true,
        [value, more @ ..] => match bounds {
            [] => true,
            [pair, rest @ ..] => is_within(value, *pair) && are_within(more, rest),
        },
    }
}

fn in_bounds(bounds: &Option<Bounds>, values: &[Value]) -> Lookup
    ensures { result ≡ subscripts.in_bounds values.now bounds.now }
{
    match bounds {
        Some(bounds) => {
            if are_within(values, bounds.pairs()) {
                Lookup::There
            } else {
                Lookup::Fault(ValueFault::OutOfRange)
            }
        }
        None => Lookup::Unknown,
    }
}

fn look_up(rank: usize, bounds: &Option<Bounds>, values: &[Value]) -> Lookup
    ensures { result ≡ subscripts.look_up rank bounds.now values.now }
{
    if rank == 0 || values.len() != rank || !are_whole(values) {
        return Lookup::Fault(ValueFault::IllTyped);
    }
    in_bounds(bounds, values)
}

fn element(rank: usize, bounds: &Option<Bounds>, args: &Option<Parts>) -> Lookup
    ensures { result ≡ subscripts.element_by rank bounds.now args.now }
{
    match args {
        None => {
            if rank == 0 {
                Lookup::There
            } else {
                Lookup::Fault(ValueFault::IllTyped)
            }
        }
        Some(parts) => match &parts.values {
            Some(values) => look_up(rank, bounds, values),
            None => Lookup::Unknown,
        },
    }
}

fn cut(alloc: Global, text: &[u8], low: i64, high: i64) -> Result<Value, Failure>
    ensures { Makes (spec.cut text.now (arrays.substring (length text.now) low high)) result }
{
    match substring(text.len(), low, high) {
        Some((from, count)) => Ok(Value::Chars(Bytes::from_slice(
            alloc,
            &text[from..from + count],
        )?)),
        None => Err(Failure::Fault(ValueFault::OutOfRange)),
    }
}

/// Of a text the characters from one to another.
fn part_of(alloc: Global, value: &Value, low: &Value, high: &Value) -> Result<Value, Failure>
    ensures { Makes (spec.part_of value.now low.now high.now) result }
{
    match value {
        Value::Chars(text) => match low {
            Value::Whole(low) => match high {
                Value::Whole(high) => cut(alloc, text.bytes(), i64::from(*low), i64::from(*high)),
                _ => Err(Failure::Fault(ValueFault::IllTyped)),
            },
            _ => Err(Failure::Fault(ValueFault::IllTyped)),
        },
        _ => Err(Failure::Fault(ValueFault::IllTyped)),
    }
}

/// The same up to the last one.
fn part_from(alloc: Global, value: &Value, low: &Value) -> Result<Value, Failure>
    ensures { Makes (spec.part_of value.now low.now (spec.last_of value.now)) result }
{
    match value {
        Value::Chars(text) => match low {
            Value::Whole(low) => {
                let text = text.bytes();
                cut(alloc, text, i64::from(*low), text.len() as i64)
            }
            _ => Err(Failure::Fault(ValueFault::IllTyped)),
        },
        _ => Err(Failure::Fault(ValueFault::IllTyped)),
    }
}

/// The value of a lower end; one that isn't written is the first character.
fn low_of(end: Option<Evaluated>) -> Option<Value>
    ensures { (e : Option spec.Evaluated) → end ≡ option_map seen e → result ≡ spec.bound_or (values.Whole (pos 1)) e }
{
    match end {
        Some(end) => end.value,
        None => Some(Value::Whole(1)),
    }
}

/// A substring of a value.
fn substring_of(
    alloc: Global,
    name: u32,
    told: Told,
    value: &Value,
    range: Range,
) -> Result<Evaluated, NoMemory>
    ensures { (parts : List spec.Evaluated) (low high : Option spec.Evaluated) → told ≡ told_in_parts parts → Some range ≡ range_seen (Some (low, high))
        → IfOk result (λ done. done ≡ seen (spec.operation name parts (spec.substring_of (Some (low, high)) value.now))) }
{
    let Range { low, high } = range;
    let Some(low) = low_of(low) else {
        return Ok(without_value(name, told));
    };
    match high {
        None => operation(name, told, part_from(alloc, value, &low)),
        Some(high) => match high.value {
            Some(high) => operation(name, told, part_of(alloc, value, &low, &high)),
            None => Ok(without_value(name, told)),
        },
    }
}

/// A constant that has a value, or an element of it, or a substring of that.
fn named(
    alloc: Global,
    name: u32,
    told: Told,
    value: &Value,
    found: Lookup,
    range: Option<Range>,
) -> Result<Evaluated, NoMemory>
    ensures { (parts : List spec.Evaluated) (r : Option (Option spec.Evaluated × Option spec.Evaluated)) → told ≡ told_in_parts parts → range ≡ range_seen r
        → IfOk result (λ done. done ≡ seen (spec.operation name parts (spec.then_part r (looked_up found value.now)))) }
{
    match found {
        Lookup::Unknown => Ok(without_value(name, told)),
        Lookup::Fault(fault) => operation(name, told, Err(Failure::Fault(fault))),
        Lookup::There => match range {
            None => operation(name, told, Ok(value.copy(alloc)?)),
            Some(range) => substring_of(alloc, name, told, value, range),
        },
    }
}

fn told_of_parts(args: &Option<Parts>) -> Told
    ensures { (es : Option (List spec.Evaluated)) → AreParts es args.now → result ≡ told_in_parts (spec.parts_of es None) }
{
    match args {
        Some(parts) => parts.told,
        None => Told::nothing(),
    }
}

/// A constant, an element of it, or a substring of one.
pub(crate) fn constant(
    alloc: Global,
    name: u32,
    value: &Option<Value>,
    rank: usize,
    bounds: &Option<Bounds>,
    args: Option<Parts>,
    range: Option<Range>,
) -> Result<Evaluated, NoMemory>
    ensures { (es : Option (List spec.Evaluated)) (r : Option (Option spec.Evaluated × Option spec.Evaluated)) → AreParts es args → range ≡ range_seen r
        → IfOk result (λ done. done ≡ seen (spec.reference name (spec.Constant value.now rank bounds.now) es r)) }
{
    let told = told_of_parts(&args).joined(&told_of_range(&range));
    match value {
        Some(value) => named(
            alloc,
            name,
            told,
            value,
            element(rank, bounds, &args),
            range,
        ),
        None => Ok(without_value(name, told)),
    }
}
