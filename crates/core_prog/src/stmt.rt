//! Executable statements and constructs of resolved programs.

use crate::expr::{Actuals, Expr, VariableRef};
use crate::io::{Inputs, Outputs};
use crate::site::Site;
use sqlite_items::{Boxed, Items};

/// The values of one range of CASE (Fortran 90, 8.1.3): those from `low` to `high`.
#[derive(Clone, Copy)]
pub struct CaseValues {
    /// The least value, where there is one.
    pub low: Option<i32>,
    /// The greatest value, where there is one.
    pub high: Option<i32>,
}

/// An action statement (2.1): one without a block. PRINT and WRITE are one statement.
#[derive(Drop)]
pub enum Action {
    /// An assignment to a scalar variable, an array element or a substring (7.5.1).
    Assign {
        /// What gets the value.
        target: VariableRef,
        /// The right side.
        value: Expr,
    },
    /// An assignment of a scalar to each element of a whole array (7.5.1).
    Fill {
        /// The number of the array.
        variable: u32,
        /// The right side.
        value: Expr,
    },
    /// CALL (12.4). A generic name is resolved to its specific subroutine.
    Call {
        /// The name.
        at: Site,
        /// The number of the procedure.
        procedure: u32,
        /// The actual arguments.
        args: Actuals,
    },
    /// EXIT (8.1.4.4.4) from the DO construct that has so many others between itself and the statement.
    Exit(u32),
    /// CYCLE (8.1.4.4.3) of the DO construct that has so many others between itself and the statement.
    Cycle(u32),
    /// RETURN (12.5.2).
    Return,
    /// STOP (8.4), with or without a code.
    Stop,
    /// CONTINUE (8.3).
    Continue,
    /// PRINT or WRITE (9.4).
    Print(Outputs),
    /// READ (9.4).
    Read {
        /// The statement's first token.
        at: Site,
        /// What is read.
        items: Inputs,
    },
}

/// An action statement or a construct (8.1). An IF statement is an IF construct with one arm. A block (8.1.1) is a list of them.
#[cycle(stmt)]
#[derive(Drop)]
pub enum Stmt {
    /// A statement without a block.
    Action(Action),
    /// IF (8.1.2).
    If {
        /// IF and each ELSE IF with its block, in their order.
        arms: Items<Arm>,
        /// The block of ELSE.
        otherwise: Items<Boxed<Stmt>>,
    },
    /// SELECT CASE (8.1.3).
    Select {
        /// The integer that is looked up.
        selector: Expr,
        /// Each CASE but CASE DEFAULT, in their order.
        cases: Items<Case>,
        /// The block of CASE DEFAULT.
        otherwise: Items<Boxed<Stmt>>,
    },
    /// DO with a variable (8.1.4.1.1).
    Count {
        /// The name of the variable.
        at: Site,
        /// The number of the variable.
        variable: u32,
        /// Its first value.
        from: Expr,
        /// What it goes to.
        to: Expr,
        /// What it grows by, where that is written.
        by: Option<Expr>,
        /// The block.
        body: Items<Boxed<Stmt>>,
    },
    /// DO WHILE (8.1.4.1.1).
    While {
        /// The condition.
        condition: Expr,
        /// The block.
        body: Items<Boxed<Stmt>>,
    },
    /// DO without control.
    Forever(Items<Boxed<Stmt>>),
}

/// IF or ELSE IF with its block.
#[cycle(stmt)]
#[derive(Drop)]
pub struct Arm {
    /// The condition.
    pub condition: Expr,
    /// The block.
    pub body: Items<Boxed<Stmt>>,
}

/// A CASE statement with values, and its block.
#[cycle(stmt)]
#[derive(Drop)]
pub struct Case {
    /// The values.
    pub values: Items<CaseValues>,
    /// The block.
    pub body: Items<Boxed<Stmt>>,
}
