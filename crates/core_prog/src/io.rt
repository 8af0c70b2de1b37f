//! Items of input and output.

use crate::expr::{Expr, VariableRef};
use crate::site::Site;
use ftn_base::Bounds;
use ftn_tree::Value;
use sqlite_items::Boxed;

/// Items of PRINT and WRITE in their order (Fortran 90, 9.4.2).
#[cycle(outputs)]
#[derive(Drop)]
pub enum Outputs {
    /// None.
    End,
    /// A scalar.
    Scalar(Expr, Boxed<Outputs>),
    /// A whole array that is a variable.
    Array {
        /// The name.
        at: Site,
        /// The number of the variable.
        variable: u32,
        /// The items after it.
        rest: Boxed<Outputs>,
    },
    /// A whole array that is a named constant.
    Constants {
        /// The value of each element.
        value: Value,
        /// Its bounds.
        bounds: Bounds,
        /// The items after it.
        rest: Boxed<Outputs>,
    },
}

/// Items of READ in their order (9.4.2).
#[cycle(inputs)]
#[derive(Drop)]
pub enum Inputs {
    /// None.
    End,
    /// A scalar variable, an array element or a substring.
    Scalar(VariableRef, Boxed<Inputs>),
    /// A whole array.
    Array {
        /// The name.
        at: Site,
        /// The number of the variable.
        variable: u32,
        /// The items after it.
        rest: Boxed<Inputs>,
    },
}
