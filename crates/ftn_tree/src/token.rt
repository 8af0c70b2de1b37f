//! Tokens.

use ftn_base::{Range, ShortBytes};
use sqlite_items::Items;

/// What a token is (Fortran 90, 3.2).
#[derive(Clone, Copy)]
pub enum TokenKind {
    /// A letter and the letters, digits and underscores after it: a name or a word of a statement (3.2.1, 3.2.4).
    Word,
    /// A row of digits (3.2.2).
    Whole,
    /// A number with a point, or one with a kind (4.3.1.2, 4.3.1.1). The profile has none.
    RealForm,
    /// A character constant with its quotes (4.3.2.1).
    Quoted,
    /// Letters between two points: an operator or a logical constant (3.2.3, 4.3.2.2).
    Dotted,
    /// An operator or another mark, of one byte or two (3.2.3, 3.2.6).
    Mark,
}

/// A token with its place.
#[derive(Drop)]
pub struct Token {
    /// What it is.
    pub kind: TokenKind,
    /// From its first byte to its last one, in bytes of the file.
    pub range: Range,
    /// The line of its first byte, from 1.
    pub line: u32,
    /// Whether a continuation stands within it (3.3.1.3), so that its bytes don't all adjoin in the file.
    pub split: bool,
    /// A word or a dotted token in lower case, the bytes that a character constant stands for, or else the token's
    /// bytes. What a continuation puts between them is left out.
    pub value: ShortBytes,
}

/// The tokens of a text.
#[derive(Drop)]
pub struct Tokens {
    /// The tokens in their order.
    pub items: Items<Token>,
    /// For each statement the numbers of its tokens, from the first up to the one after the last. None is empty.
    pub statements: Items<Range>,
    /// Where each line begins, in bytes: 0, and each place after an LF. So a text that ends with LF has one more entry than
    /// lines.
    pub line_starts: Items<u32>,
}
