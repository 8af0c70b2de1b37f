//! How far objects of one sort reach, by the groups that they belong to.

ghost use Rattle.std.specs.Prelude.{◌≡◌, ◌≤◌, ℕ, max, nat_eq, if◌then◌else◌};
ghost use Rattle.storage_layout.specs.steps.Beside.{beside_of};

/// How far the objects seen so far reach, and how far those do that are not of the group that reaches farthest.
#[derive(Clone, Copy)]
pub(crate) struct Reach {
    pub(crate) group: u32,
    pub(crate) end: u64,
    pub(crate) other: u64,
    pub(crate) ghost ordered: { other ≤ end },
}

impl Reach {
    /// No object.
    pub(crate) fn new() -> Reach
        ensures { (group : ℕ) → beside_of result.group result.end result.other group ≡ 0 }
    {
        Reach {
            group: 0,
            end: 0,
            other: 0,
        }
    }

    /// How far the objects of other groups reach.
    pub(crate) fn beside(self, group: u32) -> u64
        ensures { result ≡ beside_of self.group self.end self.other group }
    {
        if self.group == group {
            self.other
        } else {
            self.end
        }
    }

    /// With one object more, which ends there.
    pub(crate) fn with(self, group: u32, end: u64) -> Reach
        ensures { (asked : ℕ) → beside_of result.group result.end result.other asked ≡ (if nat_eq group asked then beside_of self.group self.end self.other asked else max (beside_of self.group self.end self.other asked) end) }
    {
        if self.group == group {
            Reach {
                group,
                end: self.end.max(end),
                other: self.other,
            }
        } else if self.end < end {
            Reach {
                group,
                end,
                other: self.end,
            }
        } else {
            Reach {
                group: self.group,
                end: self.end,
                other: self.other.max(end),
            }
        }
    }
}
