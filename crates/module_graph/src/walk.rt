//! Walks along uses, depth first.

ghost use Rattle.std.specs.Prelude.{◌≡◌, ◌<◌, length, All, IfOk, IfSome, OnOk};
ghost use Rattle.ftn_base.specs.ModuleUses.{AreKnown};
ghost use Rattle.module_graph.specs.Uses.{used_lists};
ghost use Rattle.module_graph.specs.steps.Marks.{IsEntry, to_do};
ghost use Rattle.module_graph.specs.steps.Walks.{IsStep};

use crate::entries::{Entry, list_of, next_open};
use ftn_base::NoMemory;

/// Goes on from the last module of the path to one without a mark, which gets one, or back where there is none.
/// It gives the module that was left.
pub(crate) fn walk_on(
    uses: &[Vec<u32>],
    marks: &mut [bool],
    path: &mut Vec<Entry>,
) -> Result<Option<u32>, NoMemory>
    requires known { AreKnown (used_lists uses.now) }
    requires sized { length marks.old ≡ length uses.now }
    requires begun { 0 < length path.old.items }
    requires entries { All (IsEntry (used_lists uses.now) marks.old) path.old.items }
    ensures step { IfOk result (λ left. IsStep (used_lists uses.now) marks.old path.old.items marks.new path.new.items left) }
    ensures entries { OnOk result (All (IsEntry (used_lists uses.now) marks.new) path.new.items) }
    ensures left { IfOk result (λ left. IfSome left (λ number. number < length uses.now)) }
    ensures nearer { OnOk result (to_do marks.new path.new.items < to_do marks.old path.old.items) }
{
    let last = path.len() - 1;
    let entry = path[last];
    let list = list_of(uses, entry.user);
    match next_open(list, entry.at, marks) {
        Some(at) => {
            let next = list[at];
            marks[next as usize] = true;
            path[last] = Entry {
                user: entry.user,
                at,
            };
            path.push(Entry { user: next, at: 0 })?;
            Ok(None)
        }
        None => {
            let _left = path.pop();
            Ok(Some(entry.user))
        }
    }
}
