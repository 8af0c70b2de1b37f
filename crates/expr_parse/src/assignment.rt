//! Statements that are assignments by their shape.

ghost use Rattle.std.specs.Prelude.{◌≡◌, ◌<◌, ◌-◌, ◌^◌, true};
ghost use Rattle.ftn_tree.specs.Assignments as spec;
ghost use Rattle.ftn_tree.specs.Assignments.{IsAssignment};
ghost use Rattle.ftn_tree.specs.Misfits as misfits;

use ftn_tree::{Lexeme, Token};

/// Whether a statement of these tokens is an assignment, whatever its words: it begins with a name, groups in parentheses may
/// follow, and then comes `=` (Fortran 90, 7.5.1). No token after this `=` is looked at.
#[tactic(auto, using(ftn_tree::proofs::AssignmentLaws::assignment_told, ftn_tree::proofs::AssignmentLaws::told_assignment))]
pub fn is_assignment(tokens: &[Token]) -> bool
    ensures value { result ≡ spec.is_assignment tokens.now }
    ensures told { result ≡ true → IsAssignment tokens.now }
    ensures other { IsAssignment tokens.now → result ≡ true }
{
    begins_with_target(tokens)
}

#[tactic(auto, unfolding(ftn_tree::specs::Assignments::is_assignment))]
fn begins_with_target(tokens: &[Token]) -> bool
    ensures { result ≡ spec.is_assignment tokens.now }
{
    match tokens {
        [first, rest @ ..] => first.lexeme().is(Lexeme::Word) && leads_to_equals(rest),
        [] => false,
    }
}

fn leads_to_equals(tokens: &[Token]) -> bool
    ensures { result ≡ spec.leads_to_equals 0 tokens.now }
{
    let mut depth: usize = 0;
    for token in tokens {
        let kind = token.lexeme();
        if depth == 0 && !is_open(kind) {
            return is_equals(kind);
        }
        depth = depth_after(depth, kind);
    }
    false
}

fn is_open(kind: Lexeme) -> bool
    ensures { result ≡ misfits.is_open_at kind }
{
    matches!(kind, Lexeme::Open)
}

fn is_equals(kind: Lexeme) -> bool
    ensures { result ≡ misfits.is_equals_at kind }
{
    matches!(kind, Lexeme::Equals)
}

fn depth_after(depth: usize, kind: Lexeme) -> usize
    requires { depth < 2 ^ 64 - 1 }
    ensures { result ≡ misfits.depth_at depth kind }
{
    match kind {
        Lexeme::Open => depth + 1,
        Lexeme::Close => depth.saturating_sub(1),
        _ => depth,
    }
}
