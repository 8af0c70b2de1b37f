//! Openings that have no ending yet.

ghost use Rattle.std.specs.Prelude.{◌≡◌, ◌≤◌, ◌&&◌, length, reverse};
ghost use Rattle.ftn_tree.specs.declared.parts.EndWord.TheVariants as word;
ghost use Rattle.ftn_tree.specs.Marks.{same_word};
ghost use Rattle.ftn_tree.specs.Regions as regions;
ghost use Rattle.ftn_tree.specs.NestFaults as faults;
ghost use Rattle.unit_parse.specs.Taking as spec;

use crate::level::Level;
use crate::words::{fits_name, is_construct, same_word};
use ftn_tree::{EndWord, Title, Tokens};

/// An opening without an ending.
#[derive(Drop)]
pub struct Frame {
    /// The number of its statement.
    pub opening: u32,
    /// What it opens.
    pub what: Title,
    /// What stands around it.
    pub outside: Level,
}

/// How many constructs are open in the innermost unit, the last frame being the innermost one.
#[tactic(auto, using(crate::proofs::Paths::path_from_last))]
pub fn depth(frames: &[Frame]) -> usize
    ensures is { result ≡ regions.depth (spec.path_of (reverse frames.now)) }
    ensures fits { result ≤ length frames.now }
{
    let mut count = 0;
    let mut rest = frames;
    while let Some((frame, outer)) = rest.split_last() {
        if !is_construct(frame.what.word) {
            break;
        }
        count += 1;
        rest = outer;
    }
    count
}

/// Whether the innermost unit is a main program.
#[tactic(auto, using(crate::proofs::Paths::path_from_last))]
pub fn in_main(frames: &[Frame]) -> bool
    ensures { result ≡ regions.in_main (spec.path_of (reverse frames.now)) }
{
    let mut rest = frames;
    while let Some((frame, outer)) = rest.split_last() {
        if !is_construct(frame.what.word) {
            return same_word(frame.what.word, EndWord::Program);
        }
        rest = outer;
    }
    false
}

fn is_loop(tokens: &Tokens, name: Option<u32>, what: Title) -> bool
    ensures { result ≡ (same_word what.word word.Do && regions.fits_name (faults.same_name tokens.now) name what.name) }
{
    same_word(what.word, EndWord::Do) && fits_name(tokens, name, what.name)
}

/// Whether an EXIT or CYCLE with that name, or without one, stands in a DO that it may leave (8.1.4.4).
#[tactic(auto, using(crate::proofs::Paths::path_from_last))]
pub fn in_loop(tokens: &Tokens, name: Option<u32>, frames: &[Frame]) -> bool
    ensures { result ≡ regions.in_loop (faults.same_name tokens.now) name (spec.path_of (reverse frames.now)) }
{
    let mut rest = frames;
    while let Some((frame, outer)) = rest.split_last() {
        if is_loop(tokens, name, frame.what) {
            return true;
        }
        if !is_construct(frame.what.word) {
            return false;
        }
        rest = outer;
    }
    false
}
