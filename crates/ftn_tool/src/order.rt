//! Names in byte order, each once.

ghost use Rattle.std.specs.List.{Contains};
ghost use Rattle.std.specs.Prelude.{◌≡◌, ℕ, List, IsTrue};
ghost use Rattle.ftn_tool.specs.Rising.{rising};

use ftn_base::FileName;

/// Whether each of these names is below the next one in byte order.
#[tactic(auto, using(crate::proofs::Rising::falls_here, crate::proofs::Rising::rises_here))]
fn are_rising(names: &[FileName]) -> bool
    ensures { result ≡ rising names.now }
{
    let mut at = 0;
    'pairs: while at + 1 < names.len() {
        if !names[at].cmp(&names[at + 1]).is_lt() {
            return false;
        }
        at += 1;
    }
    true
}

/// Puts names in byte order, each once. Names that are so already stay as they are.
pub fn put_in_order(names: &mut Vec<FileName>)
    ensures in_order { IsTrue (rising names.new.items) }
    ensures same { IsTrue (rising names.old.items) → names.new.items ≡ names.old.items }
    ensures kept { (name : List ℕ) → Contains names.old.items name → Contains names.new.items name }
    ensures no_more { (name : List ℕ) → Contains names.new.items name → Contains names.old.items name }
{
    if are_rising(names) {
        return;
    }
    names.sort_unstable();
    names.dedup();
}
