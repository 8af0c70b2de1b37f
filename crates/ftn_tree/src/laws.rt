//! What holds of each token, and of the names in each statement.

ghost use Rattle.std.specs.Prelude.{◌≡◌, Some, List, ℕ};
ghost use Rattle.std.specs.List.{All};
ghost use Rattle.ftn_tree.specs.declared.form.Form.{Form};
ghost use Rattle.ftn_tree.specs.declared.lexeme.Lexeme.{Lexeme};
ghost use Rattle.ftn_tree.specs.declared.token.Token.{Token};
ghost use Rattle.ftn_tree.specs.FileFaults.{is_statement};
ghost use Rattle.ftn_tree.specs.Levels.{Binding, Prefix, between, before};
ghost use Rattle.ftn_tree.specs.Operators.{operator_by};
ghost use Rattle.ftn_tree.specs.RowNames.{AreNames, IsWordOf, OthersArePlain, Respelled, Rise, has_letters, names_in};

/// A token that binds between operands, or before one, is the operator that its binding names. So the operator that stands in a tree
/// of an expression is that of its token.
pub fn operators_are_those_of_tokens()
    ensures binary { (kind : Lexeme) (how : Binding) → between kind ≡ Some how → operator_by kind ≡ Some how.operator }
    ensures unary { (kind : Lexeme) (how : Prefix) → before kind ≡ Some how → operator_by kind ≡ Some how.operator }
{}

/// The names that [`Form::push_mentions`](crate::Form::push_mentions) gives are those in the tokens of the statement. Where `row` is a
/// statement, and its first token has the number `at`, the numbers of the names rise, each is that of a word in the row, and each other word
/// in the row is a word of the grammar or, in IMPLICIT, a single letter (5.3). None of them is a word that the grammar wants where it
/// stands: with any other words in the places of the names, the row is the same statement.
pub fn names_are_those_of_tokens()
    ensures names { (form : Form) (at : ℕ) (row : List Token) → is_statement form at row → AreNames (has_letters form) at row (names_in form) }
    ensures rise { (form : Form) (at : ℕ) (row : List Token) → is_statement form at row → Rise (names_in form) }
    ensures inside { (form : Form) (at : ℕ) (row : List Token) → is_statement form at row → All (IsWordOf at row) (names_in form) }
    ensures others { (form : Form) (at : ℕ) (row : List Token) → is_statement form at row → OthersArePlain (has_letters form) at row (names_in form) }
    ensures free { (form : Form) (at : ℕ) (row other : List Token) → is_statement form at row → Respelled (names_in form) at row other → is_statement form at other }
{}
