//! Statement forms.

use crate::expr::Expr;
use crate::parts::{
    AccessWord, ArrayDecl, Attribute, BoundPair, CaseRange, CommonGroup, DataGroup, Designator,
    DoControl, Ending, EntityDecl, IntentMode, IoStyle, LeaveWord, LetterGroup, NamedConstant,
    OnlyItem, ProcedureWord, Rename, SaveItem, TypeSpec,
};
use sqlite_items::{Boxed, Items};

/// A statement as it is written. Each `u32` is the number of a token in the file, from 0. What may be written in two ways or
/// left out is recorded, so that the form gives the tokens of its statement.
#[derive(Drop)]
pub enum Form {
    /// `target = value` (7.5.1).
    Assign {
        /// The variable, an [`Expr::Refer`].
        target: Expr,
        /// The right side.
        value: Expr,
    },
    /// `BLOCK DATA [name]` (11.4).
    BlockData {
        /// Whether BLOCK and DATA are written as one word.
        joined: bool,
        /// The name.
        name: Option<u32>,
    },
    /// `PROGRAM name` (11.1).
    Program {
        /// The name.
        name: u32,
    },
    /// `MODULE PROCEDURE name, ..` (12.3.2.1).
    ModuleProcedure {
        /// The names, one at least.
        names: Items<u32>,
    },
    /// `MODULE name` (11.3).
    Module {
        /// The name.
        name: u32,
    },
    /// `SUBROUTINE name [( [dummy, ..] )]` (12.5.2.3).
    Subroutine {
        /// The name.
        name: u32,
        /// The names of the dummy arguments, if parentheses are written.
        dummies: Option<Items<u32>>,
    },
    /// `[type] FUNCTION name ( [dummy, ..] ) [RESULT ( name )]` (12.5.2.2).
    Function {
        /// The type before it.
        ty: Option<TypeSpec>,
        /// The name.
        name: u32,
        /// The names of the dummy arguments.
        dummies: Items<u32>,
        /// The name after RESULT.
        result: Option<u32>,
    },
    /// `CONTAINS` (12.5.2.6).
    Contains,
    /// `END [word [name]]` (11.1, 11.3, 11.4, 12.3.2.1, 12.5.2, 8.1).
    End {
        /// What stands after END.
        of: Option<Ending>,
    },
    /// `USE module [, local => source, ..]` (11.3.2).
    UseAll {
        /// The module's name.
        module: u32,
        /// The renames.
        renames: Items<Rename>,
    },
    /// `USE module, ONLY : [item, ..]` (11.3.2).
    UseOnly {
        /// The module's name.
        module: u32,
        /// The items.
        items: Items<OnlyItem>,
    },
    /// `IMPLICIT NONE` or `IMPLICIT type ( letters ), ..` (5.3).
    Implicit {
        /// The groups, one at least, or nothing for NONE.
        groups: Option<Items<LetterGroup>>,
    },
    /// `INTERFACE [name]` (12.3.2.1).
    Interface {
        /// The generic name.
        name: Option<u32>,
    },
    /// `type [, attribute, ..] [::] entity, ..` (5.1).
    Declare {
        /// The type.
        ty: TypeSpec,
        /// The attributes.
        attributes: Items<Attribute>,
        /// Whether `::` is written.
        colons: bool,
        /// The entities, one at least.
        entities: Items<EntityDecl>,
    },
    /// `DIMENSION [::] name ( bounds ), ..` (5.2.5).
    Dimension {
        /// Whether `::` is written.
        colons: bool,
        /// The arrays, one at least.
        arrays: Items<ArrayDecl>,
    },
    /// `PARAMETER ( name = value, .. )` (5.2.10).
    Parameter {
        /// The constants, one at least.
        constants: Items<NamedConstant>,
    },
    /// `DATA object, .. / value, .. / [[,] object, .. / value, .. /] ..` (5.2.9).
    Data {
        /// The groups, one at least.
        groups: Items<DataGroup>,
    },
    /// `SAVE [[::] item, ..]` (5.2.4).
    Save {
        /// Whether `::` is written.
        colons: bool,
        /// The items; none of them saves all.
        items: Items<SaveItem>,
    },
    /// `PUBLIC [[::] name, ..]` or `PRIVATE [[::] name, ..]` (5.2.3).
    Access {
        /// Which of the two it is.
        word: AccessWord,
        /// Whether `::` is written.
        colons: bool,
        /// The names; none of them speaks of all others.
        names: Items<u32>,
    },
    /// `EXTERNAL name, ..` or `INTRINSIC name, ..` (12.3.2.2, 12.3.2.3).
    External {
        /// Which of the two it is.
        word: ProcedureWord,
        /// The names, one at least.
        names: Items<u32>,
    },
    /// `INTENT ( mode ) [::] name, ..` (5.2.1).
    Intent {
        /// The mode.
        mode: IntentMode,
        /// Whether `::` is written.
        colons: bool,
        /// The names, one at least.
        names: Items<u32>,
    },
    /// `COMMON [/ [name] /] member, .. [[,] / [name] / member, ..] ..` (5.5.2).
    Common {
        /// The groups, one at least.
        groups: Items<CommonGroup>,
    },
    /// `EQUIVALENCE ( designator, designator, .. ), ..` (5.5.1).
    Equivalence {
        /// The sets, one at least, each of two designators at least.
        sets: Items<Items<Designator>>,
    },
    /// `CALL name [( [argument, ..] )]` (12.4.3).
    Call {
        /// The name.
        name: u32,
        /// The arguments, if parentheses are written.
        args: Option<Items<Expr>>,
    },
    /// `IF ( condition ) THEN` (8.1.2).
    IfThen {
        /// The condition.
        condition: Expr,
    },
    /// `ELSE IF ( condition ) THEN` (8.1.2).
    ElseIf {
        /// Whether ELSE and IF are written as one word.
        joined: bool,
        /// The condition.
        condition: Expr,
    },
    /// `ELSE` (8.1.2).
    Else,
    /// `IF ( condition ) statement` (8.1.2.4).
    If {
        /// The condition.
        condition: Expr,
        /// The first token of the statement in it.
        at: u32,
        /// The statement in it: Assign, Call, Exit, Stop, Return, Continue, Print or Read.
        inner: Boxed<Form>,
    },
    /// `[label :] DO [[,] variable = from, to [, step]]` (8.1.4.1).
    Do {
        /// The construct name before it.
        label: Option<u32>,
        /// The control of a counted loop.
        control: Option<DoControl>,
    },
    /// `[label :] DO [,] WHILE ( condition )` (8.1.4.1).
    DoWhile {
        /// The construct name before it.
        label: Option<u32>,
        /// Whether a comma stands before WHILE.
        comma: bool,
        /// The condition.
        condition: Expr,
    },
    /// `EXIT [label]` or `CYCLE [label]` (8.1.4.4).
    Exit {
        /// Which of the two it is.
        word: LeaveWord,
        /// The construct name after it.
        label: Option<u32>,
    },
    /// `SELECT CASE ( selector )` (8.1.3).
    Select {
        /// Whether SELECT and CASE are written as one word.
        joined: bool,
        /// The selector.
        selector: Expr,
    },
    /// `CASE ( range, .. )` or `CASE DEFAULT` (8.1.3).
    Case {
        /// The ranges, one at least, or nothing for DEFAULT.
        ranges: Option<Items<CaseRange>>,
    },
    /// `STOP [code]` (8.3).
    Stop {
        /// The whole number or the character constant after it.
        code: Option<u32>,
    },
    /// `RETURN` (12.5.2.5).
    Return,
    /// `CONTINUE` (8.4).
    Continue,
    /// `PRINT * [, item, ..]` or `WRITE ( *, * ) [item, ..]` (9.4).
    Print {
        /// Which of the two it is.
        style: IoStyle,
        /// The items.
        items: Items<Expr>,
    },
    /// `READ * [, variable, ..]` or `READ ( *, * ) [variable, ..]` (9.4).
    Read {
        /// Which of the two it is.
        style: IoStyle,
        /// The variables, each an [`Expr::Refer`].
        items: Items<Expr>,
    },
}
