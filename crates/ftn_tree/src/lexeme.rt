//! What tokens are in the grammar.

ghost use Rattle.std.specs.Prelude.{◌≡◌, ◌≢◌, true, false};
ghost use Rattle.ftn_tree.specs.Lexemes as spec;

use crate::token::{Token, TokenKind};

/// What a token is in the grammar (Fortran 90, 3.2). Two spellings of one operator are one (7.1.3).
#[derive(Clone, Copy)]
pub enum Lexeme {
    /// A name or a word of a statement.
    Word,
    /// A row of digits.
    Whole,
    /// A character constant.
    Quoted,
    /// `.TRUE.`.
    True,
    /// `.FALSE.`.
    False,
    /// `**`.
    Power,
    /// `*`.
    Times,
    /// `/`.
    Divide,
    /// `+`, between operands or before one.
    Plus,
    /// `-`, between operands or before one.
    Minus,
    /// `//`.
    Concat,
    /// `==` or `.EQ.`.
    Eq,
    /// `/=` or `.NE.`.
    Ne,
    /// `<` or `.LT.`.
    Lt,
    /// `<=` or `.LE.`.
    Le,
    /// `>` or `.GT.`.
    Gt,
    /// `>=` or `.GE.`.
    Ge,
    /// `.NOT.`, before an operand.
    Not,
    /// `.AND.`.
    And,
    /// `.OR.`.
    Or,
    /// `.EQV.`.
    Eqv,
    /// `.NEQV.`.
    Neqv,
    /// `(`.
    Open,
    /// `)`.
    Close,
    /// `,`.
    Comma,
    /// `:`.
    Colon,
    /// `::`.
    Colons,
    /// `=`.
    Equals,
    /// `=>`.
    Arrow,
    /// A token that the profile has in no statement: a real form, `%`, `(/`, `/)`, or another dotted token.
    Foreign,
}

impl Lexeme {
    /// Whether both are the same.
    #[tactic(auto, unfolding(crate::specs::Lexemes::same_lexeme))]
    pub fn is(self, other: Lexeme) -> bool
        ensures value { result ≡ spec.same_lexeme self other }
        ensures same { result ≡ true → self ≡ other }
        ensures other { result ≡ false → self ≢ other }
    {
        self == other
    }
}

impl Token {
    /// What the token is in the grammar.
    pub fn lexeme(&self) -> Lexeme
        ensures { result ≡ spec.lexeme_of self.now }
    {
        match self.kind {
            TokenKind::Word => Lexeme::Word,
            TokenKind::Whole => Lexeme::Whole,
            TokenKind::Quoted => Lexeme::Quoted,
            TokenKind::RealForm => Lexeme::Foreign,
            TokenKind::Dotted => dotted(self.value.bytes()),
            TokenKind::Mark => mark(self.value.bytes()),
        }
    }

    /// Whether it is that word, given in lower case.
    pub fn is_word(&self, text: &[u8]) -> bool
        ensures { result ≡ spec.is_word text.now self.now }
    {
        self.kind == TokenKind::Word && self.value.bytes() == text
    }
}

fn is_text(value: &[u8], text: &[u8]) -> bool
    ensures { result ≡ spec.is_text value.now text.now }
{
    value == text
}

fn dotted(value: &[u8]) -> Lexeme
    ensures { result ≡ spec.dotted value.now }
{
    if is_text(value, b".eq.") {
        Lexeme::Eq
    } else if is_text(value, b".ne.") {
        Lexeme::Ne
    } else if is_text(value, b".lt.") {
        Lexeme::Lt
    } else if is_text(value, b".le.") {
        Lexeme::Le
    } else if is_text(value, b".gt.") {
        Lexeme::Gt
    } else if is_text(value, b".ge.") {
        Lexeme::Ge
    } else {
        logical(value)
    }
}

fn logical(value: &[u8]) -> Lexeme
    ensures { result ≡ spec.logical value.now }
{
    if is_text(value, b".and.") {
        Lexeme::And
    } else if is_text(value, b".or.") {
        Lexeme::Or
    } else if is_text(value, b".not.") {
        Lexeme::Not
    } else if is_text(value, b".true.") {
        Lexeme::True
    } else if is_text(value, b".false.") {
        Lexeme::False
    } else if is_text(value, b".eqv.") {
        Lexeme::Eqv
    } else if is_text(value, b".neqv.") {
        Lexeme::Neqv
    } else {
        Lexeme::Foreign
    }
}

fn mark(value: &[u8]) -> Lexeme
    ensures { result ≡ spec.mark value.now }
{
    match value {
        [byte] => one_byte(*byte),
        [first, second] => two_bytes(*first, *second),
        _ => Lexeme::Foreign,
    }
}

fn one_byte(byte: u8) -> Lexeme
    ensures { result ≡ spec.one_byte byte }
{
    match byte {
        b'(' => Lexeme::Open,
        b')' => Lexeme::Close,
        b',' => Lexeme::Comma,
        b':' => Lexeme::Colon,
        b'=' => Lexeme::Equals,
        b'*' => Lexeme::Times,
        b'/' => Lexeme::Divide,
        b'+' => Lexeme::Plus,
        b'-' => Lexeme::Minus,
        b'<' => Lexeme::Lt,
        b'>' => Lexeme::Gt,
        _ => Lexeme::Foreign,
    }
}

fn two_bytes(first: u8, second: u8) -> Lexeme
    ensures { result ≡ spec.two_bytes first second }
{
    match (first, second) {
        (b'*', b'*') => Lexeme::Power,
        (b'/', b'/') => Lexeme::Concat,
        (b'=', b'=') => Lexeme::Eq,
        (b'/', b'=') => Lexeme::Ne,
        (b'<', b'=') => Lexeme::Le,
        (b'>', b'=') => Lexeme::Ge,
        (b':', b':') => Lexeme::Colons,
        (b'=', b'>') => Lexeme::Arrow,
        _ => Lexeme::Foreign,
    }
}
