//! Common blocks that ties extend before their first unit.

ghost use Rattle.std.specs.Prelude.{◌≡◌, ◌<◌, ◌≤◌, true, false, length, slice_index, All, Any};

use ftn_base::Tie;

/// Whether a member begins farther from the first unit that its ties reach than from the first unit of its block.
pub(crate) fn extends_before(members: &[Tie], offset: &[u32]) -> bool
    requires { All (λ tie. tie.b < length offset.now) members.now }
    ensures yes { result ≡ true → Any (λ tie. tie.at_a < slice_index offset.now tie.b) members.now }
    ensures no { result ≡ false → All (λ tie. slice_index offset.now tie.b ≤ tie.at_a) members.now }
{
    for tie in members {
        if tie.at_a < offset[tie.b as usize] {
            return true;
        }
    }
    false
}
