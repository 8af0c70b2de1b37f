//! What holds of each text.

ghost use Rattle.std.specs.Prelude.{◌≡◌, ℕ, ◌+◌, ◌≤◌, ◌<◌, List, All, Some, length, slice_get};
ghost use Rattle.ftn_tree.specs.declared.token.Token.{Token};
ghost use Rattle.ftn_tree.specs.Reading.{tokens_of};
ghost use Rattle.lossless_tree.specs.Texts.{Rise, gap_texts, in_turn, token_texts};

/// The tokens of each text stand in its order and within it, and no two of them overlap (Fortran 90, 3.2). There is one
/// gap more than tokens, and gaps and tokens joined in turn are the text. No token is empty. Each token ends at or before the start of
/// each later one.
pub fn tokens_and_gaps_are_the_text()
    ensures rising { (text : List ℕ) → Rise 0 (tokens_of text).items (length text) }
    ensures counted { (text : List ℕ) → length (gap_texts text) ≡ length (token_texts text) + 1 }
    ensures joined { (text : List ℕ) → in_turn (gap_texts text) (token_texts text) ≡ text }
    ensures some { (text : List ℕ) → All (λ bytes. 1 ≤ length bytes) (token_texts text) }
    ensures apart { (text : List ℕ) (i j : ℕ) (one other : Token) → i < j → slice_get (tokens_of text).items i ≡ Some one → slice_get (tokens_of text).items j ≡ Some other → one.range.end ≤ other.range.start }
{}
