//! The lists of modules, and entries of them.

ghost use Rattle.std.specs.Prelude.{◌≡◌, ◌<◌, [], length, take, All, IfNone, IfOk, IfSome, slice_index};
ghost use Rattle.ftn_base.specs.ModuleUses.{used_by};
ghost use Rattle.module_graph.specs.Uses.{used_lists};
ghost use Rattle.module_graph.specs.steps.Marks.{IsMarked, IsUnmarked};

use ftn_base::NoMemory;
use std::alloc::Global;

/// An entry of the list of modules that a module uses. The modules before it have marks.
#[derive(Clone, Copy)]
pub(crate) struct Entry {
    pub(crate) user: u32,
    pub(crate) at: usize,
}

/// The modules that this one uses.
#[tactic(auto, using(crate::proofs::Listing::lists_length, crate::proofs::Listing::list_at))]
pub(crate) fn list_of(uses: &[Vec<u32>], user: u32) -> &[u32]
    requires { user < length uses.now }
    ensures { result.now ≡ used_by (used_lists uses.now) user }
{
    &uses[user as usize]
}

/// The next entry, from that one on, of a module that has no mark.
pub(crate) fn next_open(list: &[u32], start: usize, marks: &[bool]) -> Option<usize>
    requires known { All (λ number. number < length marks.now) list.now }
    requires front { All (IsMarked marks.now) (take start list.now) }
    ensures entry { IfSome result (λ at. at < length list.now) }
    ensures no_mark { IfSome result (λ at. IsUnmarked marks.now (slice_index list.now at)) }
    ensures front { IfSome result (λ at. All (IsMarked marks.now) (take at list.now)) }
    ensures shut { IfNone result (All (IsMarked marks.now) list.now) }
{
    let mut at = start;
    'entries: while at < list.len() {
        if !marks[list[at] as usize] {
            return Some(at);
        }
        at += 1;
    }
    None
}

/// As many empty lists.
pub(crate) fn empty_lists<T: Drop>(alloc: Global, count: usize) -> Result<Vec<Vec<T>>, NoMemory>
    ensures size { IfOk result (λ lists. length lists.items ≡ count) }
    ensures none { IfOk result (λ lists. All (λ list. list.items ≡ []) lists.items) }
{
    let mut lists = Vec::new(alloc);
    for _place in 0..count {
        lists.push(Vec::new(alloc))?;
    }
    Ok(lists)
}
