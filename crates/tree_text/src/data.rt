//! Groups of DATA (Fortran 90, 5.2.9).

use crate::declarations::put_designators;
use crate::line::{join, put, put_comma, put_quoted, put_token};
use ftn_base::NoMemory;
use ftn_tree::{DataConstant, DataGroup, DataValue, Repeat, Sign, Tokens};

fn put_sign(out: &mut Vec<u8>, sign: Option<Sign>) -> Result<(), NoMemory> {
    match sign {
        Some(Sign::Plus) => put(out, b"+"),
        Some(Sign::Minus) => put(out, b"-"),
        None => Ok(()),
    }
}

fn put_constant(
    out: &mut Vec<u8>,
    tokens: &Tokens,
    constant: &DataConstant,
) -> Result<(), NoMemory> {
    match constant {
        DataConstant::Whole { sign, token, .. } => {
            put_sign(out, *sign)?;
            put_token(out, tokens, *token)
        }
        DataConstant::Truth { token, .. } => put_token(out, tokens, *token),
        DataConstant::Quoted { value, .. } => put_quoted(out, value.bytes()),
        DataConstant::Named(name) => put_token(out, tokens, *name),
    }
}

fn put_repeat(out: &mut Vec<u8>, tokens: &Tokens, repeat: Repeat) -> Result<(), NoMemory> {
    match repeat {
        Repeat::Whole { token, .. } | Repeat::Named(token) => put_token(out, tokens, token)?,
    }
    put(out, b"*")
}

fn put_value(out: &mut Vec<u8>, tokens: &Tokens, value: &DataValue) -> Result<(), NoMemory> {
    if let Some(repeat) = value.repeat {
        put_repeat(out, tokens, repeat)?;
    }
    put_constant(out, tokens, &value.constant)
}

fn put_values(out: &mut Vec<u8>, tokens: &Tokens, values: &[DataValue]) -> Result<(), NoMemory> {
    put(out, b"/")?;
    for (at, value) in values.iter().enumerate() {
        put_comma(out, at)?;
        put_value(out, tokens, value)?;
    }
    put(out, b"/")
}

/// Adds the groups of DATA: objects, and the values between slashes that they get.
pub fn put_data(out: &mut Vec<u8>, tokens: &Tokens, groups: &[DataGroup]) -> Result<(), NoMemory> {
    for group in groups {
        if group.comma {
            join(out, b",")?;
        }
        put_designators(out, tokens, group.objects.as_slice())?;
        put_values(out, tokens, group.values.as_slice())?;
    }
    Ok(())
}
