//! Parts of statements that begin or end units, and of USE and IMPLICIT.

use crate::declarations::put_type;
use crate::line::{join, put, put_comma, put_maybe, put_names, put_token};
use ftn_base::NoMemory;
use ftn_tree::{
    EndWord, Ending, ImplicitType, LetterGroup, LetterRange, OnlyItem, Rename, Tokens, TypeSpec,
};
use sqlite_items::Items;

/// The words BLOCK DATA, as they are written.
pub fn block_data_text(joined: bool) -> &'static [u8] {
    if joined { b"BLOCKDATA" } else { b"BLOCK DATA" }
}

fn text_of(word: EndWord) -> &'static [u8] {
    match word {
        EndWord::Program => b"PROGRAM",
        EndWord::Module => b"MODULE",
        EndWord::BlockData { joined } => block_data_text(joined),
        EndWord::Subroutine => b"SUBROUTINE",
        EndWord::Function => b"FUNCTION",
        EndWord::Interface => b"INTERFACE",
        EndWord::If => b"IF",
        EndWord::Do => b"DO",
        EndWord::Select => b"SELECT",
    }
}

/// Adds END and what stands after it. END and its word are one word where they are written so.
pub fn put_ending(out: &mut Vec<u8>, tokens: &Tokens, of: Option<Ending>) -> Result<(), NoMemory> {
    put(out, b"END")?;
    let Some(ending) = of else {
        return Ok(());
    };
    let word = text_of(ending.word);
    if ending.joined {
        join(out, word)?;
    } else {
        put(out, word)?;
    }
    put_maybe(out, tokens, ending.name)
}

/// Adds dummy arguments in parentheses, right after the name.
pub fn put_dummies(out: &mut Vec<u8>, tokens: &Tokens, names: &[u32]) -> Result<(), NoMemory> {
    join(out, b"(")?;
    put_names(out, tokens, names)?;
    join(out, b")")
}

/// Adds what stands after SUBROUTINE.
pub fn put_subroutine(
    out: &mut Vec<u8>,
    tokens: &Tokens,
    name: u32,
    dummies: &Option<Items<u32>>,
) -> Result<(), NoMemory> {
    put(out, b"SUBROUTINE")?;
    put_token(out, tokens, name)?;
    match dummies {
        Some(names) => put_dummies(out, tokens, names.as_slice()),
        None => Ok(()),
    }
}

/// Adds the type before FUNCTION, where one is written.
pub fn put_result_type(
    out: &mut Vec<u8>,
    tokens: &Tokens,
    ty: &Option<TypeSpec>,
) -> Result<(), NoMemory> {
    match ty {
        Some(ty) => put_type(out, tokens, ty),
        None => Ok(()),
    }
}

/// Adds RESULT and its name, where it is written.
pub fn put_result(out: &mut Vec<u8>, tokens: &Tokens, name: Option<u32>) -> Result<(), NoMemory> {
    let Some(name) = name else {
        return Ok(());
    };
    put(out, b"RESULT (")?;
    put_token(out, tokens, name)?;
    put(out, b")")
}

/// Adds the renames of USE, each after a comma.
pub fn put_renames(out: &mut Vec<u8>, tokens: &Tokens, renames: &[Rename]) -> Result<(), NoMemory> {
    for rename in renames {
        join(out, b",")?;
        put_token(out, tokens, rename.local)?;
        put(out, b"=>")?;
        put_token(out, tokens, rename.source)?;
    }
    Ok(())
}

fn put_item(out: &mut Vec<u8>, tokens: &Tokens, item: OnlyItem) -> Result<(), NoMemory> {
    if let Some(local) = item.local {
        put_token(out, tokens, local)?;
        put(out, b"=>")?;
    }
    put_token(out, tokens, item.source)
}

/// Adds ONLY and its items.
pub fn put_only(out: &mut Vec<u8>, tokens: &Tokens, items: &[OnlyItem]) -> Result<(), NoMemory> {
    join(out, b", ONLY :")?;
    for (at, item) in items.iter().enumerate() {
        put_comma(out, at)?;
        put_item(out, tokens, *item)?;
    }
    Ok(())
}

fn put_range(out: &mut Vec<u8>, tokens: &Tokens, range: LetterRange) -> Result<(), NoMemory> {
    put_token(out, tokens, range.first)?;
    if range.last.is_some() {
        put(out, b"-")?;
    }
    put_maybe(out, tokens, range.last)
}

fn put_letters(out: &mut Vec<u8>, tokens: &Tokens, ranges: &[LetterRange]) -> Result<(), NoMemory> {
    put(out, b"(")?;
    for (at, range) in ranges.iter().enumerate() {
        put_comma(out, at)?;
        put_range(out, tokens, *range)?;
    }
    put(out, b")")
}

fn put_letter_type(out: &mut Vec<u8>, tokens: &Tokens, ty: &ImplicitType) -> Result<(), NoMemory> {
    match ty {
        ImplicitType::Real => put(out, b"REAL"),
        ImplicitType::Known(ty) => put_type(out, tokens, ty),
    }
}

/// Adds NONE, or the types of IMPLICIT and their letters.
pub fn put_implicit(
    out: &mut Vec<u8>,
    tokens: &Tokens,
    groups: &Option<Items<LetterGroup>>,
) -> Result<(), NoMemory> {
    let Some(groups) = groups else {
        return put(out, b"NONE");
    };
    for (at, group) in groups.as_slice().iter().enumerate() {
        put_comma(out, at)?;
        put_letter_type(out, tokens, &group.ty)?;
        put_letters(out, tokens, group.ranges.as_slice())?;
    }
    Ok(())
}
