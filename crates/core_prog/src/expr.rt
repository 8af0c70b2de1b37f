//! Expressions of resolved programs.

use crate::site::Site;
use ftn_base::Bounds;
use ftn_tree::{Intrinsic, Operator, Value};
use sqlite_items::Boxed;

/// A scalar expression (7.1) with each name resolved. Variables and procedures are told by their numbers in the [`crate::Core`].
#[cycle(expr)]
#[derive(Drop)]
pub enum Expr {
    /// A constant that is written out.
    Literal(Value),
    /// An expression in parentheses.
    Paren(Boxed<Expr>),
    /// An operator before its operand.
    Unary {
        /// The operator.
        at: Site,
        /// Which one it is.
        operator: Operator,
        /// The operand.
        arg: Boxed<Expr>,
    },
    /// An operator between its operands.
    Binary {
        /// The operator.
        at: Site,
        /// Which one it is.
        operator: Operator,
        /// The operand before it.
        left: Boxed<Expr>,
        /// The operand after it.
        right: Boxed<Expr>,
    },
    /// A scalar variable, an array element or a substring of one.
    Variable(Boxed<VariableRef>),
    /// A scalar named constant, an element of one or a substring of one.
    Constant(Boxed<ConstantRef>),
    /// A reference of an intrinsic function.
    Intrinsic {
        /// The name.
        at: Site,
        /// The function.
        function: Intrinsic,
        /// The actual arguments.
        args: Boxed<Exprs>,
    },
    /// A reference of a function of the project. A generic name is resolved to its specific function.
    Call {
        /// The name.
        at: Site,
        /// The number of the procedure.
        procedure: u32,
        /// The actual arguments.
        args: Boxed<Actuals>,
    },
}

/// Expressions in their order.
#[cycle(expr)]
#[derive(Drop)]
pub enum Exprs {
    /// None.
    End,
    /// One, and those after it.
    More(Boxed<Expr>, Boxed<Exprs>),
}

/// A designator of a variable (6): the variable, an element or a substring.
#[cycle(expr)]
#[derive(Drop)]
pub struct VariableRef {
    /// The name.
    pub at: Site,
    /// The number of the variable.
    pub variable: u32,
    /// The subscripts. A scalar and a whole array have none.
    pub subscripts: Boxed<Exprs>,
    /// The substring range.
    pub range: Option<Boxed<Substring>>,
}

/// A designator of a named constant (5.2.10): the constant, an element or a substring.
#[cycle(expr)]
#[derive(Drop)]
pub struct ConstantRef {
    /// The name.
    pub at: Site,
    /// Its value. Of an array, the value of each element.
    pub value: Value,
    /// The bounds of an array. A scalar has none.
    pub bounds: Bounds,
    /// The subscripts. A scalar and a whole array have none.
    pub subscripts: Boxed<Exprs>,
    /// The substring range.
    pub range: Option<Boxed<Substring>>,
}

/// A substring range (6.1.1).
#[cycle(expr)]
#[derive(Drop)]
pub struct Substring {
    /// The position of its first character, where it is written.
    pub low: Option<Boxed<Expr>>,
    /// The position of its last character, where it is written.
    pub high: Option<Boxed<Expr>>,
}

/// The actual arguments of a procedure of the project, in their order (12.4.1).
#[cycle(expr)]
#[derive(Drop)]
pub enum Actuals {
    /// None.
    NoActuals,
    /// A value, passed in a place of its own.
    Value(Boxed<Expr>, Boxed<Actuals>),
    /// A variable, an element or a substring, passed by reference to a scalar dummy argument.
    Alone(Boxed<VariableRef>, Boxed<Actuals>),
    /// A whole array or an element, passed by reference to a dummy array: the array from there to its end.
    Onward(Boxed<VariableRef>, Boxed<Actuals>),
    /// An array that is a named constant, or an element of one, passed to a dummy array: its elements from there to its end, in a
    /// place of their own.
    Constants(Boxed<ConstantRef>, Boxed<Actuals>),
}
