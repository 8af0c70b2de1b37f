//! Names that have come before.

ghost use Rattle.std.specs.Prelude.{◌≡◌, ◌||◌, not, IfOk, OnOk};
ghost use Rattle.std.specs.Str.{bytes_eq};
ghost use Rattle.decl_table.specs.steps.Seen.{has_come};

use ftn_base::NoMemory;
use indexmap::IndexSet;

/// Names, each once.
pub type Seen<'a> = IndexSet<&'a [u8]>;

/// Puts a name, and says whether it is the first time.
pub fn is_first<'a>(seen: &mut Seen<'a>, name: &'a [u8]) -> Result<bool, NoMemory>
    ensures first { IfOk result (λ first. first ≡ not (has_come seen.old name.now)) }
    ensures put { OnOk result ((other : _) → has_come seen.new other ≡ (bytes_eq name.now other || has_come seen.old other)) }
{
    Ok(seen.insert(name)?)
}
