//! Pieces of a text, of which tokens are made.

use crate::token::TokenKind;

/// What a piece of a text is.
#[derive(Clone, Copy)]
pub enum PieceKind {
    /// A blank.
    Blank,
    /// A byte that begins no token.
    Stray,
    /// A character constant that no quote closes.
    Unclosed,
    /// A token.
    Token(TokenKind),
}

/// Where a byte stands.
#[derive(Clone, Copy)]
pub struct Spot {
    /// Its offset in bytes.
    pub at: u32,
    /// Its line, from 1.
    pub line: u32,
}
