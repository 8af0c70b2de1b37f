//! What is said of the names of one scoping unit.

ghost use Rattle.std.specs.Prelude.{◌≡◌, ◌||◌, map, IfOk, OnOk, ℕ, List, Bool, false};
ghost use Rattle.std.specs.List.{list_any};
ghost use Rattle.ftn_tree.specs.DeclaredEntities.{own_mentions};
ghost use Rattle.ftn_tree.specs.Meanings as meanings;
ghost use Rattle.ftn_tree.specs.Sayings.{sayings};
ghost use Rattle.decl_table.specs.steps.Seen.{has_come};
ghost use Rattle.scope_bind.specs.steps.Known as steps;

use crate::told::{Telling, tell};
use decl_table::forms::name_at;
use decl_table::heard::{Sayings, hear};
use decl_table::noted::{Occurring, note};
use decl_table::saying::Saying;
use decl_table::seen::{Seen, is_first};
use ftn_base::NoMemory;
use ftn_tree::{Extent, FileTree, Mention, Role};
use indexmap::IndexSet;
use std::alloc::Global;

/// What is said of the names of one scoping unit.
#[derive(Drop)]
pub(crate) struct Names<'a> {
    /// What they declare.
    pub heard: Sayings<'a>,
    /// Where they occur in its own statements.
    pub noted: Occurring<'a>,
    /// Where they begin, and which are external.
    pub told: Telling<'a>,
    /// Those that stand somewhere as names that a letter may type (Fortran 90, 5.3).
    pub plain: Seen<'a>,
}

/// Whether the name stands without parentheses, and not only where its place alone tells what it is (5.3).
fn is_plain(m: &Mention) -> bool
    ensures { result ≡ meanings.is_plain m.now }
{
    !(m.role.is_special() || m.says(Role::Called) || m.says(Role::Parenthesised))
}

/// Adds the name where it stands plain.
fn put_plain<'a>(
    files: &'a [FileTree],
    file: u32,
    m: &Mention,
    seen: &mut Seen<'a>,
) -> Result<(), NoMemory>
    ensures { OnOk result ((name : List ℕ) → has_come seen.new name ≡ (steps.is_plain_of files.now file name m.now || has_come seen.old name)) }
{
    if is_plain(m) {
        is_first(seen, name_at(files, file, m.token))?;
    }
    Ok(())
}

/// The names that stand plain somewhere among these mentions of a file.
fn plain_names<'a>(
    alloc: Global,
    files: &'a [FileTree],
    file: u32,
    own: &[Mention],
) -> Result<Seen<'a>, NoMemory>
    ensures { IfOk result (λ seen. (name : List ℕ) → has_come seen name ≡ list_any (steps.is_plain_of files.now file name) own.now) }
{
    let mut seen: Seen<'a> = IndexSet::new(alloc);
    let mut at = own.len();
    while at > 0 {
        at -= 1;
        put_plain(files, file, &own[at], &mut seen)?;
    }
    Ok(seen)
}

/// What is said of the names of a scoping unit, by all that is said in it and the names in its own statements.
pub(crate) fn names_of<'a>(
    alloc: Global,
    files: &'a [FileTree],
    unit: Extent,
    said: &[Saying<'a>],
    own: &[Mention],
) -> Result<Names<'a>, NoMemory>
    requires said { said.now ≡ sayings files.now unit }
    requires own { own.now ≡ own_mentions files.now unit }
    ensures { IfOk result (steps.AreNames files.now unit) }
{
    Ok(Names {
        heard: hear(alloc, said)?,
        noted: note(alloc, files, unit.file, own)?,
        told: tell(alloc, said)?,
        plain: plain_names(alloc, files, unit.file, own)?,
    })
}
