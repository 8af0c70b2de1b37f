//! Laws of the statements that are read here.

ghost use Rattle.std.specs.Prelude.{◌≡◌, ℕ, List};
ghost use Rattle.ftn_tree.specs.declared.form.Form.{Form};
ghost use Rattle.ftn_tree.specs.declared.token.Token.{Token};
ghost use Rattle.ftn_tree.specs.ExecutableForms.{is_executable};

/// The law that no tokens are two executable statements: whatever row of tokens, it has one form at most (Fortran 90, 7.5.1, 8, 9.4,
/// 12.4.3, 12.5.2.5).
pub fn one_executable()
    ensures { (one other : Form) (at : ℕ) (row : List Token) → is_executable one at row → is_executable other at row → one ≡ other }
{}
