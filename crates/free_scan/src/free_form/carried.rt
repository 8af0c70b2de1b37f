//! How one line goes on in the next (Fortran 90, 3.3.1.3).

ghost use Rattle.std.specs.Prelude.{◌≡◌, ◌&&◌, not, ◌+◌, ◌≤◌, ◌^◌, ◌<◌, drop, length, IfSome};
ghost use Rattle.ftn_tree.specs.Logical as logical;

use crate::free_form::line::{code_of, indent, is_lone, is_outside, leads};
use std::marker::Model;

/// What a line that goes on carries over to the next one. Contracts see its parts.
#[derive(Drop)]
pub(crate) struct Carried {
    /// The quote that is open.
    pub(crate) quote: Option<u8>,
    /// How many lines its statement has been continued by.
    pub(crate) count: u32,
    /// The offset of its `&`.
    pub(crate) mark: u32,
}

impl Model for Carried {
    ghost use Rattle.ftn_tree.specs.Logical as logical;

    ghost Value = { logical.Carried };

    ghost view = { λ a. record { within = a.quote; count = a.count; mark = a.mark } };
}

/// The quote that is open where a line begins.
fn open_in(before: &Option<Carried>) -> Option<u8>
    ensures { result ≡ logical.open_in before.now }
{
    match before {
        None => None,
        Some(carried) => carried.quote,
    }
}

/// Whether the line's only `&` is neither the end of the line before nor the start of the next.
pub(crate) fn stands_alone(before: &Option<Carried>, body: &[u8]) -> bool
    ensures { result ≡ logical.stands_alone before.now body.now }
{
    is_outside(open_in(before)) && is_lone(body)
}

/// Whether the text goes on right after the line's leading `&`.
fn joins(before: &Option<Carried>, body: &[u8]) -> bool
    ensures { result ≡ logical.joins before.now body.now }
{
    before.is_some() && leads(body) && !stands_alone(before, body)
}

/// Whether no token goes on into a line that continues the one before.
pub(crate) fn is_gap(before: &Option<Carried>, body: &[u8]) -> bool
    ensures { result ≡ (logical.is_carried before.now && not (logical.joins before.now body.now)) }
{
    before.is_some() && !joins(before, body)
}

/// How many bytes of a line come before what it says.
pub(crate) fn skipped(before: &Option<Carried>, body: &[u8]) -> usize
    ensures count { result ≡ logical.skipped before.now body.now }
    ensures fits { result ≤ length body.now }
{
    if stands_alone(before, body) {
        body.len()
    } else if joins(before, body) {
        indent(body) + 1
    } else {
        0
    }
}

/// The quote that is open where what a line says begins.
pub(crate) fn open_at(before: &Option<Carried>, body: &[u8]) -> Option<u8>
    ensures { result ≡ logical.open_at before.now body.now }
{
    if joins(before, body) {
        open_in(before)
    } else {
        None
    }
}

/// What a line says: its code, without a leading `&`.
pub(crate) fn said<'a>(before: &Option<Carried>, body: &'a [u8]) -> &'a [u8]
    ensures said { result.now ≡ logical.said before.now body.now }
    ensures fits { logical.skipped before.now body.now + length result.now ≤ length body.now }
{
    code_of(open_at(before, body), &body[skipped(before, body)..])
}

/// How many lines have continued the statement with which a line begins.
pub(crate) fn count_at(before: &Option<Carried>) -> u32
    requires { IfSome before.now (λ carried. carried.count + 1 < 2 ^ 32) }
    ensures { result ≡ logical.count_at before.now }
{
    match before {
        None => 0,
        Some(carried) => carried.count + 1,
    }
}
