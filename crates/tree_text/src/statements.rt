//! Statements: the words of the language in capitals, all names in small letters. Each function takes what the one before it leaves.

use crate::actions::{
    put_assignment, put_call, put_code, put_condition, put_control, put_items, put_label,
    put_ranges,
};
use crate::data::put_data;
use crate::declarations::{
    put_access, put_arrays, put_attributes, put_colons, put_constants, put_entities, put_groups,
    put_intent, put_listed, put_procedure, put_save_items, put_sets, put_type,
};
use crate::headings::{
    block_data_text, put_dummies, put_ending, put_implicit, put_only, put_renames, put_result,
    put_result_type, put_subroutine,
};
use crate::line::{join, place_of, put, put_maybe, put_names, put_place, put_token};
use ftn_base::NoMemory;
use ftn_tree::{Form, IoStyle, LeaveWord, Statement, Tokens};
use std::alloc::Global;

/// Adds a word and the name after it.
fn put_named(out: &mut Vec<u8>, tokens: &Tokens, word: &[u8], name: u32) -> Result<(), NoMemory> {
    put(out, word)?;
    put_token(out, tokens, name)
}

/// Adds a word and the name after it, where one is written.
fn put_unnamed(
    out: &mut Vec<u8>,
    tokens: &Tokens,
    word: &[u8],
    name: Option<u32>,
) -> Result<(), NoMemory> {
    put(out, word)?;
    put_maybe(out, tokens, name)
}

/// Adds a statement that gives bounds, values or storage (5.2.5, 5.2.9, 5.2.10, 5.5).
fn put_storage(out: &mut Vec<u8>, tokens: &Tokens, form: &Form) -> Result<(), NoMemory> {
    match form {
        Form::Dimension { colons, arrays } => {
            put(out, b"DIMENSION")?;
            put_colons(out, *colons)?;
            put_arrays(out, tokens, arrays.as_slice())
        }
        Form::Parameter { constants } => {
            put(out, b"PARAMETER")?;
            put_constants(out, tokens, constants.as_slice())
        }
        Form::Data { groups } => {
            put(out, b"DATA")?;
            put_data(out, tokens, groups.as_slice())
        }
        Form::Common { groups } => {
            put(out, b"COMMON")?;
            put_groups(out, tokens, groups.as_slice())
        }
        Form::Equivalence { sets } => {
            put(out, b"EQUIVALENCE")?;
            put_sets(out, tokens, sets.as_slice())
        }
        _ => put(out, b"?"),
    }
}

/// Adds a statement that lists names alone (5.2.1, 5.2.3, 12.3.2.2, 12.3.2.3).
fn put_naming(out: &mut Vec<u8>, tokens: &Tokens, form: &Form) -> Result<(), NoMemory> {
    match form {
        Form::Access {
            word,
            colons,
            names,
        } => {
            put_access(out, *word)?;
            put_listed(out, tokens, *colons, names.as_slice())
        }
        Form::External { word, names } => {
            put_procedure(out, *word)?;
            put_names(out, tokens, names.as_slice())
        }
        Form::Intent {
            mode,
            colons,
            names,
        } => {
            put_intent(out, *mode)?;
            put_listed(out, tokens, *colons, names.as_slice())
        }
        _ => put_storage(out, tokens, form),
    }
}

/// Adds a type declaration or SAVE (5.1, 5.2.4).
fn put_declaration(out: &mut Vec<u8>, tokens: &Tokens, form: &Form) -> Result<(), NoMemory> {
    match form {
        Form::Declare {
            ty,
            attributes,
            colons,
            entities,
        } => {
            put_type(out, tokens, ty)?;
            put_attributes(out, tokens, attributes.as_slice())?;
            put_colons(out, *colons)?;
            put_entities(out, tokens, entities.as_slice())
        }
        Form::Save { colons, items } => {
            put(out, b"SAVE")?;
            put_colons(out, *colons)?;
            put_save_items(out, tokens, items.as_slice())
        }
        _ => put_naming(out, tokens, form),
    }
}

/// Adds USE or IMPLICIT (5.3, 11.3.2).
fn put_use(out: &mut Vec<u8>, tokens: &Tokens, form: &Form) -> Result<(), NoMemory> {
    match form {
        Form::UseAll { module, renames } => {
            put_named(out, tokens, b"USE", *module)?;
            put_renames(out, tokens, renames.as_slice())
        }
        Form::UseOnly { module, items } => {
            put_named(out, tokens, b"USE", *module)?;
            put_only(out, tokens, items.as_slice())
        }
        Form::Implicit { groups } => {
            put(out, b"IMPLICIT")?;
            put_implicit(out, tokens, groups)
        }
        _ => put_declaration(out, tokens, form),
    }
}

/// Adds a statement that begins or ends a program unit or a part of one (Fortran 90, 11, 12.3.2.1, 12.5.2).
fn put_heading(out: &mut Vec<u8>, tokens: &Tokens, form: &Form) -> Result<(), NoMemory> {
    match form {
        Form::Program { name } => put_named(out, tokens, b"PROGRAM", *name),
        Form::Module { name } => put_named(out, tokens, b"MODULE", *name),
        Form::BlockData { joined, name } => {
            put_unnamed(out, tokens, block_data_text(*joined), *name)
        }
        Form::Subroutine { name, dummies } => put_subroutine(out, tokens, *name, dummies),
        Form::Function {
            ty,
            name,
            dummies,
            result,
        } => {
            put_result_type(out, tokens, ty)?;
            put_named(out, tokens, b"FUNCTION", *name)?;
            put_dummies(out, tokens, dummies.as_slice())?;
            put_result(out, tokens, *result)
        }
        Form::Interface { name } => put_unnamed(out, tokens, b"INTERFACE", *name),
        Form::ModuleProcedure { names } => {
            put(out, b"MODULE PROCEDURE")?;
            put_names(out, tokens, names.as_slice())
        }
        Form::Contains => put(out, b"CONTAINS"),
        Form::End { of } => put_ending(out, tokens, *of),
        _ => put_use(out, tokens, form),
    }
}

/// Adds a statement of an IF or SELECT CASE construct (8.1.2, 8.1.3).
fn put_choice(out: &mut Vec<u8>, tokens: &Tokens, form: &Form) -> Result<(), NoMemory> {
    match form {
        Form::IfThen { condition } => {
            put(out, b"IF")?;
            put_condition(out, tokens, condition)?;
            put(out, b"THEN")
        }
        Form::ElseIf { joined, condition } => {
            put(out, if *joined { b"ELSEIF" } else { b"ELSE IF" })?;
            put_condition(out, tokens, condition)?;
            put(out, b"THEN")
        }
        Form::Else => put(out, b"ELSE"),
        Form::Select { joined, selector } => {
            put(
                out,
                if *joined {
                    b"SELECTCASE"
                } else {
                    b"SELECT CASE"
                },
            )?;
            put_condition(out, tokens, selector)
        }
        Form::Case { ranges } => {
            put(out, b"CASE")?;
            put_ranges(out, tokens, ranges)
        }
        _ => put_heading(out, tokens, form),
    }
}

/// Adds the opening of a DO construct (8.1.4).
fn put_loop(out: &mut Vec<u8>, tokens: &Tokens, form: &Form) -> Result<(), NoMemory> {
    match form {
        Form::Do { label, control } => {
            put_label(out, tokens, *label)?;
            put(out, b"DO")?;
            put_control(out, tokens, control)
        }
        Form::DoWhile {
            label,
            comma,
            condition,
        } => {
            put_label(out, tokens, *label)?;
            put(out, if *comma { b"DO, WHILE" } else { b"DO WHILE" })?;
            put_condition(out, tokens, condition)
        }
        _ => put_choice(out, tokens, form),
    }
}

/// Adds a statement that may stand in an IF statement (7.5.1, 8, 9.4, 12.4.3, 12.5.2.5).
fn put_action(out: &mut Vec<u8>, tokens: &Tokens, form: &Form) -> Result<(), NoMemory> {
    match form {
        Form::Assign { target, value } => put_assignment(out, tokens, target, value),
        Form::Call { name, args } => put_call(out, tokens, *name, args),
        Form::Exit { word, label } => match word {
            LeaveWord::Exit => put_unnamed(out, tokens, b"EXIT", *label),
            LeaveWord::Cycle => put_unnamed(out, tokens, b"CYCLE", *label),
        },
        Form::Stop { code } => {
            put(out, b"STOP")?;
            put_code(out, tokens, *code)
        }
        Form::Return => put(out, b"RETURN"),
        Form::Continue => put(out, b"CONTINUE"),
        Form::Print { style, items } => {
            match style {
                IoStyle::Star => put(out, b"PRINT")?,
                IoStyle::Paren => put(out, b"WRITE")?,
            }
            put_items(out, tokens, *style, items.as_slice())
        }
        Form::Read { style, items } => {
            put(out, b"READ")?;
            put_items(out, tokens, *style, items.as_slice())
        }
        _ => put_loop(out, tokens, form),
    }
}

/// Adds a statement with all that its form records. The statement in an IF stands after the condition.
fn put_form(out: &mut Vec<u8>, tokens: &Tokens, form: &Form) -> Result<(), NoMemory> {
    match form {
        Form::If {
            condition,
            inner,
            ..
        } => {
            put(out, b"IF")?;
            put_condition(out, tokens, condition)?;
            put_action(out, tokens, inner.get())
        }
        other => put_action(out, tokens, other),
    }
}

/// Adds a line for each statement: its place, and what it says.
pub fn put_statements(
    alloc: Global,
    out: &mut Vec<u8>,
    tokens: &Tokens,
    statements: &[Statement],
) -> Result<(), NoMemory> {
    for statement in statements {
        put_place(alloc, out, place_of(tokens, statement.tokens.start))?;
        put_form(out, tokens, &statement.form)?;
        join(out, b"\n")?;
    }
    Ok(())
}
