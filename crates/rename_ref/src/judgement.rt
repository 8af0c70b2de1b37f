//! The conditions of a rename, and the text that it makes.

ghost use Rattle.std.specs.Prelude.{◌≡◌, ◌+◌, ◌<◌, ◌^◌, length, Some, IfOk};
ghost use Rattle.free_scan.specs.Tokens.{tokens_of};
ghost use Rattle.rename_ref.specs.Conditions as spec;
ghost use Rattle.rename_ref.specs.Conditions.{judged, name_of, renamed_text};
ghost use Rattle.rename_ref.specs.Names.{denoting};

use crate::conditions::{chosen, first_of, is_reserved, line_lengths, on_long_line, replacing};
use crate::edits::apply;
use crate::rename::Rename;
use ftn_base::{Bytes, Edition, FileName, NoMemory, folded, is_name};
use ftn_tree::Token;
use std::alloc::Global;

/// A condition of a refactoring that may fail. The names are those that are printed.
#[derive(Clone, Copy)]
pub enum Cond {
    /// No name token covers the place.
    NoName,
    /// The new name is no name (3.2.1).
    BadName,
    /// The new name is a word of statements or names an intrinsic function.
    Keyword,
    /// The new name occurs where the entity is visible.
    Captured,
    /// A line would have more than 132 bytes (3.3.1).
    LongLine,
}

impl Cond {
    /// The name that is printed.
    pub fn name(self) -> &'static str
        ensures { result.now ≡ name_of self }
    {
        match self {
            Cond::NoName => "NoName",
            Cond::BadName => "BadName",
            Cond::Keyword => "Keyword",
            Cond::Captured => "Captured",
            Cond::LongLine => "LongLine",
        }
    }
}

/// What becomes of an order.
#[derive(Drop)]
pub enum Judgement {
    /// A condition fails.
    Refuse {
        /// The first condition that fails.
        cond: Cond,
        /// The offset of its least place, in bytes, if it has one.
        at: Option<u32>,
    },
    /// No condition fails, and this is the new text.
    Accept(Bytes),
}

fn refused(cond: Cond, token: &Token) -> Judgement
    ensures { result ≡ spec.refused cond (Some token.now) }
{
    Judgement::Refuse {
        cond,
        at: Some(token.range.start),
    }
}

/// What becomes of an order whose new name may be given: the new text is made, and its lines are measured.
fn judge_lines(
    alloc: Global,
    old: &[u8],
    new: &[u8],
    text: &[u8],
    tokens: &[Token],
) -> Result<Judgement, NoMemory>
    requires { tokens_of text.now ≡ Some tokens.now }
    ensures { IfOk result (λ judgement. judgement
        ≡ spec.judged_lines (renamed_text old.now new.now tokens.now text.now) (denoting old.now tokens.now)) }
{
    let edits = replacing(alloc, old, new, tokens)?;
    let made = apply(alloc, text, &edits)?;
    let lengths = line_lengths(alloc, &made)?;
    match on_long_line(&lengths, old, tokens) {
        None => Ok(Judgement::Accept(Bytes::from_vec(made))),
        Some(token) => Ok(refused(Cond::LongLine, token)),
    }
}

/// What becomes of an order to rename the entity of the old name.
fn judge_new(
    alloc: Global,
    old: &[u8],
    new: &[u8],
    text: &[u8],
    tokens: &[Token],
) -> Result<Judgement, NoMemory>
    requires { tokens_of text.now ≡ Some tokens.now }
    ensures { IfOk result (λ judgement. judgement ≡ spec.judged_new old.now new.now text.now tokens.now) }
{
    if !is_name(new, Edition::F90) {
        return Ok(Judgement::Refuse {
            cond: Cond::BadName,
            at: None,
        });
    }
    let value = folded(alloc, new)?;
    if is_reserved(&value) {
        return Ok(Judgement::Refuse {
            cond: Cond::Keyword,
            at: None,
        });
    }
    match first_of(&value, tokens) {
        None => judge_lines(alloc, old, new, text, tokens),
        Some(token) => Ok(refused(Cond::Captured, token)),
    }
}

/// Judges a rename in the one file of a project in first form, which has this name, text and tokens.
pub fn judge(
    alloc: Global,
    order: &Rename,
    name: &FileName,
    text: &[u8],
    tokens: &[Token],
) -> Result<Judgement, NoMemory>
    requires size { length text.now + 2 < 2 ^ 32 }
    requires tokens { tokens_of text.now ≡ Some tokens.now }
    ensures { IfOk result (λ judgement. judgement ≡ judged order.now name.now text.now tokens.now) }
{
    match chosen(order, name, text, tokens) {
        None => Ok(Judgement::Refuse {
            cond: Cond::NoName,
            at: None,
        }),
        Some(token) => judge_new(alloc, token.value.bytes(), order.new.bytes(), text, tokens),
    }
}
