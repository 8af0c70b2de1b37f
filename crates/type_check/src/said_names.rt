//! The names of which something is said, each once.

ghost use Rattle.std.specs.Prelude.{◌≡◌, ◌||◌, [], map, IfOk, OnOk};
ghost use Rattle.std.specs.Str.{bytes_eq};
ghost use Rattle.ftn_tree.specs.DeclaredEntities.{names_after};
ghost use Rattle.decl_table.specs.steps.Seen.{has_come};
ghost use Rattle.type_check.specs.steps.SaidNames as steps;

use decl_table::saying::Saying;
use decl_table::seen::{Seen, is_first};
use ftn_base::NoMemory;
use indexmap::IndexSet;
use std::alloc::Global;

/// Adds a name that comes for the first time.
fn push_first<'a>(
    seen: &mut Seen<'a>,
    names: &mut Vec<&'a [u8]>,
    name: &'a [u8],
) -> Result<(), NoMemory>
    ensures names { OnOk result (steps.lent names.new.items ≡ steps.with_first (has_come seen.old name.now) name.now (steps.lent names.old.items)) }
    ensures put { OnOk result ((other : _) → has_come seen.new other ≡ (bytes_eq name.now other || has_come seen.old other)) }
{
    if is_first(seen, name)? {
        names.push(name)?;
    }
    Ok(())
}

/// The names of these sayings, each at its first place.
pub fn said_names<'a>(alloc: Global, said: &[Saying<'a>]) -> Result<Vec<&'a [u8]>, NoMemory>
    ensures { IfOk result (λ names. steps.lent names.items ≡ names_after [] said.now) }
{
    let mut seen: Seen<'a> = IndexSet::new(alloc);
    let mut names = Vec::new(alloc);
    for s in said {
        push_first(&mut seen, &mut names, s.name)?;
    }
    Ok(names)
}
