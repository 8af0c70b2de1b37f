//! A text as its tokens and what stands between them, none of its bytes left out (Fortran 90, 3.2 and 3.3).
//!
//! `Text` lends the bytes of each token and of each gap, tells the line of an offset, and finds the token that covers a byte. By the law
//! `tokens_and_gaps_are_the_text`, tokens rise and don't overlap, and gaps and tokens joined in turn are the text. To be trusted is `Texts`, and `Reading` of `ftn_tree`; `steps` serves
//! proofs alone. What tokens mean isn't said here.
#![tactic(auto)]

mod laws;
mod text;

pub use laws::tokens_and_gaps_are_the_text;
pub use text::Text;
