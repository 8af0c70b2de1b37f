//! The bytes of tokens, and those between them.

ghost use Rattle.std.specs.Prelude.{◌≡◌, ◌+◌, ◌^◌, ◌<◌, ◌≤◌, length, nat_le, slice_get, slice_range, Some};
ghost use Rattle.std.specs.List.Sorted.{IsPartitionedBy};
ghost use Rattle.std.specs.List.{prefix_len};
ghost use Rattle.ftn_tree.specs.Reading.{tokens_of};
ghost use Rattle.lossless_tree.specs.steps.Edges as edges;
ghost use Rattle.lossless_tree.specs.Texts.{gap_texts, line_at, token_at, token_texts};

use ftn_tree::{Token, Tokens};
use std::marker::Model;

/// A text with its tokens, both lent. Contracts see the text alone, since its tokens are the ones that it has.
#[derive(Drop)]
pub struct Text<'a> {
    text: &'a [u8],
    tokens: &'a Tokens,
}

impl<'a> Model for Text<'a> {
    ghost use Rattle.std.specs.Prelude.{◌≡◌, ℕ, ◌+◌, ◌^◌, ◌<◌, List, length};
    ghost use Rattle.ftn_tree.specs.Reading.{tokens_of};

    ghost Value = { List ℕ };

    ghost view = { λ a. a.text.now };

    ghost invariant = { λ a. (a.tokens.now ≡ tokens_of a.text.now) × (length a.text.now + 1 < 2 ^ 32) };
}

/// Where the token before the `i`th ends, or 0.
fn end_before(tokens: &[Token], i: u32) -> u32
    requires { i ≤ length tokens.now }
    ensures { result ≡ edges.end_before 0 tokens.now i }
{
    if i == 0 {
        return 0;
    }
    tokens[i as usize - 1].range.end
}

/// Where the `i`th token starts, or `size` where there is none.
fn start_of(size: u32, tokens: &[Token], i: u32) -> u32
    ensures { result ≡ edges.start_of size tokens.now i }
{
    if i as usize >= tokens.len() {
        return size;
    }
    tokens[i as usize].range.start
}

/// The bytes from one offset up to another.
fn part(text: &[u8], start: u32, end: u32) -> &[u8]
    requires order { start ≤ end }
    requires within { end ≤ length text.now }
    ensures { result.now ≡ slice_range text.now start end }
{
    &text[start as usize..end as usize]
}

impl<'a> Text<'a> {
    /// The text, with its own tokens (Fortran 90, 3.2 and 3.3). It takes no memory.
    pub fn new(text: &'a [u8], tokens: &'a Tokens) -> Text<'a>
        requires tokens { tokens.now ≡ tokens_of text.now }
        requires fits { length text.now + 1 < 2 ^ 32 }
        ensures { result ≡ text.now }
    {
        Text { text, tokens }
    }

    /// The bytes of the `i`th token, counted from 0: from its first byte to its last one, with what a continuation puts
    /// between them (3.3.1.3).
    pub fn token(&self, i: u32) -> &'a [u8]
        requires { i < length (tokens_of self.now).items }
        ensures { slice_get (token_texts self.now) i ≡ Some result.now }
    {
        let range = self.tokens.items.as_slice()[i as usize].range;
        part(self.text, range.start, range.end)
    }

    /// The bytes before the `i`th token, counted from 0: those after the token in front of it, or from the text's start.
    /// At the count of tokens they are those after the last one. Blanks, comments, ends of lines, each `;` and each `&`
    /// that is in no token stand there (3.3.1).
    pub fn gap(&self, i: u32) -> &'a [u8]
        requires { i ≤ length (tokens_of self.now).items }
        ensures { slice_get (gap_texts self.now) i ≡ Some result.now }
    {
        let tokens = self.tokens.items.as_slice();
        let start = end_before(tokens, i);
        let end = start_of(self.text.len() as u32, tokens, i);
        part(self.text, start, end)
    }

    /// The line of an offset in bytes, from 1: one more than the LFs before it (3.3.1). It searches the lines, so it takes
    /// time in the logarithm of their count.
    pub fn line_of(&self, at: u32) -> u32
        requires { at ≤ length self.now }
        ensures { result ≡ line_at self.now at }
    {
        count_up_to(self.tokens.line_starts.as_slice(), at) as u32
    }

    /// The number of the token that the byte at that offset is in, counted from 0, or nothing where it is in none. A byte that a
    /// continuation puts inside a token is in it. It searches the tokens, so it takes time in the logarithm of their count.
    pub fn token_at(&self, at: u32) -> Option<u32>
        ensures { result ≡ token_at self.now at }
    {
        let tokens = self.tokens.items.as_slice();
        let count = ended(tokens, at);
        begun_at(tokens, count, at)
    }
}

/// How many tokens, which don't overlap, end at that offset or before it.
fn ended(tokens: &[Token], at: u32) -> usize
    requires { IsPartitionedBy (edges.has_ended at) tokens.now }
    ensures { result ≡ prefix_len (edges.has_ended at) tokens.now }
{
    tokens.partition_point(
        |token: &Token| -> bool
            ensures { result ≡ edges.has_ended at token.now }
        { token.range.end <= at },
    )
}

/// That number, where there is a token and it begins at the offset at the latest.
fn begun_at(tokens: &[Token], count: usize, at: u32) -> Option<u32>
    requires { length tokens.now < 2 ^ 32 }
    ensures { result ≡ edges.begun_at at count (slice_get tokens.now count) }
{
    let Some(token) = tokens.get(count) else {
        return None;
    };
    if token.range.start <= at {
        Some(count as u32)
    } else {
        None
    }
}

/// How many starts, which don't fall, are that offset at most.
fn count_up_to(starts: &[u32], at: u32) -> usize
    requires { IsPartitionedBy (λ start. nat_le start at) starts.now }
    ensures { result ≡ prefix_len (λ start. nat_le start at) starts.now }
{
    starts.partition_point(
        |start: &u32| -> bool
            ensures { result ≡ nat_le start.now at }
        { *start <= at },
    )
}
