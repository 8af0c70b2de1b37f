//! Laws of the statements that are read here.

ghost use Rattle.std.specs.Prelude.{◌≡◌, ℕ, List};
ghost use Rattle.ftn_tree.specs.declared.form.Form.{Form};
ghost use Rattle.ftn_tree.specs.declared.token.Token.{Token};
ghost use Rattle.ftn_tree.specs.Specifications.{is_specification};

/// The law that no tokens are two such statements: whatever row of tokens, it has one form at most (Fortran 90, 5, 11, 12).
pub fn one_specification()
    ensures { (one other : Form) (at : ℕ) (row : List Token) → is_specification one at row → is_specification other at row → one ≡ other }
{}
