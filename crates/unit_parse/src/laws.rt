//! Laws of statements and their nesting.

ghost use Rattle.std.specs.Prelude.{◌≡◌, ℕ, List};
ghost use Rattle.ftn_base.specs.declared.name.Edition.{Edition};
ghost use Rattle.ftn_tree.specs.declared.form.Form.{Form};
ghost use Rattle.ftn_tree.specs.declared.token.Token.{Token};
ghost use Rattle.ftn_tree.specs.declared.token.Tokens.{Tokens};
ghost use Rattle.ftn_tree.specs.ExecutableForms.{is_executable};
ghost use Rattle.ftn_tree.specs.FileFaults.{is_statement};
ghost use Rattle.ftn_tree.specs.Specifications.{is_specification};
ghost use Rattle.unit_parse.specs.Decided.{HasOneAnswer, NestingIsDecided, TextHasOneAnswer};
ghost use Rattle.unit_parse.specs.Tiling.{UnitsTile};

/// The law that no statement is both an executable one and another one: no tokens have forms of both kinds (2.1).
pub fn statements_are_apart()
    ensures { (one other : Form) (at : ℕ) (row : List Token) → is_specification one at row → is_executable other at row → ⊥ }
{}

/// The law that statements nest as one list of units, or have one first fault, and never both.
pub fn nesting_is_decided()
    ensures { NestingIsDecided }
{}

/// The law that no tokens are two statements: whatever row of tokens, it has one form at most (2.1).
pub fn one_statement()
    ensures { (one other : Form) (at : ℕ) (row : List Token) → is_statement one at row → is_statement other at row → one ≡ other }
{}

/// The law that the tokens of a file have one tree at most, and one first fault at most (its kind, and the bytes that it stands at), and
/// never both.
pub fn one_answer_per_file()
    ensures { (tokens : Tokens) → HasOneAnswer tokens }
{}

/// The law that a text has one tree at most in an edition, and one first fault at most, and never both: breaches of source form (3.3)
/// are among its faults.
pub fn one_answer_per_text()
    ensures { (edition : Edition) (text : List ℕ) → TextHasOneAnswer edition text }
{}

/// The law that the units of a file hold each of its statements once, and no other number, and that a unit is around each statement
/// (2.2).
pub fn units_hold_each_statement_once()
    ensures { UnitsTile }
{}
