//! How far the numeric and the character objects of one class reach.

ghost use Rattle.std.specs.Prelude.{◌≡◌, ℕ};
ghost use Rattle.ftn_base.specs.declared.entity.Sort as sorts;
ghost use Rattle.storage_layout.specs.steps.Reaching.{against_of, further};

use crate::reach::Reach;
use ftn_base::Sort;

/// How far the numeric and the character objects of one class reach.
#[derive(Clone, Copy)]
pub(crate) struct Reaches {
    pub(crate) numeric: Reach,
    pub(crate) character: Reach,
}

impl Reaches {
    /// No object.
    pub(crate) fn new() -> Reaches
        ensures { (asked : sorts.Sort) (beside : ℕ) → against_of result asked beside ≡ 0 }
    {
        Reaches {
            numeric: Reach::new(),
            character: Reach::new(),
        }
    }

    /// How far the objects of the other sort and of other groups reach.
    pub(crate) fn against(self, sort: Sort, group: u32) -> u64
        ensures { result ≡ against_of self sort group }
    {
        match sort {
            Sort::Numeric => self.character.beside(group),
            Sort::Character => self.numeric.beside(group),
        }
    }

    /// With one object more, which ends there.
    pub(crate) fn with(self, sort: Sort, group: u32, end: u64) -> Reaches
        ensures { (asked : sorts.Sort) (beside : ℕ) → against_of result asked beside ≡ further sort group end asked beside (against_of self asked beside) }
    {
        match sort {
            Sort::Numeric => Reaches {
                numeric: self.numeric.with(group, end),
                character: self.character,
            },
            Sort::Character => Reaches {
                numeric: self.numeric,
                character: self.character.with(group, end),
            },
        }
    }
}
