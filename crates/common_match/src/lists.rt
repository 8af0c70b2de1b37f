//! Lists of shapes, compared from their first entry on.

ghost use Rattle.std.specs.Prelude.{◌≡◌, ◌≢◌, ◌<◌, ◌≤◌, ◌^◌, ◌↔◌, ℕ, length, slice_get, IfErr, IsOk};
ghost use Rattle.std.specs.Bool.{Decides};
ghost use Rattle.common_match.specs.Differences.{IsFirstDifference};

use ftn_base::{Bounds, Shape};

/// Where two lists of shapes differ.
#[derive(Clone, Copy)]
pub struct Mismatch {
    /// The first position, from 0 on, at which the shapes differ or that one of the lists lacks.
    pub at: u32,
}

// whether both have the same bounds in each dimension
fn is_bounded_alike(a: &Bounds, b: &Bounds) -> bool
    ensures { Decides result (a.now ≡ b.now) }
{
    a.pairs() == b.pairs()
}

// whether both have the same type, length of characters and bounds
fn is_alike(a: &Shape, b: &Shape) -> bool
    ensures { Decides result (a.now ≡ b.now) }
{
    a.ty == b.ty && is_bounded_alike(&a.bounds, &b.bounds)
}

// how many shapes both lists have alike from the first on
fn alike_front(a: &[Shape], b: &[Shape]) -> usize
    ensures within_a { result ≤ length a.now }
    ensures within_b { result ≤ length b.now }
    ensures alike { (before : ℕ) → before < result → slice_get a.now before ≡ slice_get b.now before }
    ensures whole { result ≡ length a.now → result ≡ length b.now → a.now ≡ b.now }
    ensures differs { result < length a.now → result < length b.now → slice_get a.now result ≢ slice_get b.now result }
{
    let both = a.len().min(b.len());
    for at in 0..both {
        if !is_alike(&a[at], &b[at]) {
            return at;
        }
    }
    both
}

/// Whether two lists of shapes are the same: as long, and with the same type, length of characters and bounds at
/// each position. Members at one position of two such lists of a common block have one storage (5.5.2.3). It takes
/// no memory.
///
/// # Errors
///
/// The first position at which they differ or that one of them lacks.
pub fn same_shape(a: &[Shape], b: &[Shape]) -> Result<(), Mismatch>
    requires few_a { length a.now < 2 ^ 32 }
    requires few_b { length b.now < 2 ^ 32 }
    ensures same { IsOk result ↔ (a.now ≡ b.now) }
    ensures first { IfErr result (λ mismatch. IsFirstDifference a.now b.now mismatch.at) }
{
    let at = alike_front(a, b);
    if at < a.len() || at < b.len() {
        return Err(Mismatch { at: at as u32 });
    }
    Ok(())
}
