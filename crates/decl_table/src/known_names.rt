//! What is known of names, by name.

ghost use Rattle.std.specs.Prelude.{◌≡◌, OnOk, if◌then◌else◌};
ghost use Rattle.std.specs.Str.{bytes_eq};
ghost use Rattle.decl_table.specs.steps.KnownNames.{known};

use crate::firsts::Firsts;
use ftn_base::NoMemory;
use indexmap::IndexMap;

/// What was said of each name.
pub(crate) type Known<'a> = IndexMap<&'a [u8], Firsts>;

/// What was said of that name.
pub(crate) fn known(names: &Known<'_>, name: &[u8]) -> Firsts
    ensures { result ≡ known names.now name.now }
{
    match names.get(name) {
        Some(firsts) => *firsts,
        None => Firsts::none(),
    }
}

/// Puts what was said of that name.
pub(crate) fn put<'a>(names: &mut Known<'a>, name: &'a [u8], firsts: Firsts) -> Result<(), NoMemory>
    ensures { OnOk result ((other : _) → known names.new other ≡ (if bytes_eq name.now other then firsts else known names.old other)) }
{
    names.insert(name, firsts)?;
    Ok(())
}
