//! Operators.

ghost use Rattle.std.specs.Prelude.{◌≡◌};
ghost use Rattle.ftn_tree.specs.Operators as spec;

use crate::lexeme::Lexeme;
use crate::token::Token;

/// An operator (Fortran 90, 7.1.1). Two spellings of one operator are one.
#[derive(Clone, Copy)]
pub enum Operator {
    /// `**`.
    Power,
    /// `*`.
    Times,
    /// `/`.
    Divide,
    /// `+`, between operands or before one.
    Plus,
    /// `-`, between operands or before one.
    Minus,
    /// `//`.
    Concat,
    /// `==` or `.EQ.`.
    Eq,
    /// `/=` or `.NE.`.
    Ne,
    /// `<` or `.LT.`.
    Lt,
    /// `<=` or `.LE.`.
    Le,
    /// `>` or `.GT.`.
    Gt,
    /// `>=` or `.GE.`.
    Ge,
    /// `.NOT.`, before an operand.
    Not,
    /// `.AND.`.
    And,
    /// `.OR.`.
    Or,
    /// `.EQV.`.
    Eqv,
    /// `.NEQV.`.
    Neqv,
}

impl Lexeme {
    /// The operator that it is, or nothing where it is none.
    pub fn operator(self) -> Option<Operator>
        ensures { result ≡ spec.operator_by self }
    {
        match self {
            Lexeme::Power => Some(Operator::Power),
            Lexeme::Times => Some(Operator::Times),
            Lexeme::Divide => Some(Operator::Divide),
            Lexeme::Plus => Some(Operator::Plus),
            Lexeme::Minus => Some(Operator::Minus),
            Lexeme::Concat => Some(Operator::Concat),
            Lexeme::Eq => Some(Operator::Eq),
            Lexeme::Ne => Some(Operator::Ne),
            Lexeme::Lt => Some(Operator::Lt),
            Lexeme::Le => Some(Operator::Le),
            Lexeme::Gt => Some(Operator::Gt),
            Lexeme::Ge => Some(Operator::Ge),
            Lexeme::Not => Some(Operator::Not),
            Lexeme::And => Some(Operator::And),
            Lexeme::Or => Some(Operator::Or),
            Lexeme::Eqv => Some(Operator::Eqv),
            Lexeme::Neqv => Some(Operator::Neqv),
            _ => None,
        }
    }
}

impl Token {
    /// The operator that the token is, or nothing where it is none. `*` and `/` are operators here also where they mean a length, a
    /// unit or a common block.
    pub fn operator(&self) -> Option<Operator>
        ensures { result ≡ spec.operator_of self.now }
    {
        self.lexeme().operator()
    }
}
