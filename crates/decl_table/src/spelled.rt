//! Names that tokens spell (Fortran 90, 3.2.1).

ghost use Rattle.std.specs.Prelude.{◌≡◌, IfOk};
ghost use Rattle.decl_table.specs.steps.Spelled.{IsSpelled};

use ftn_base::{Edition, Name, NameFault, NoMemory};
use std::alloc::Global;

/// The name that these bytes are, which are a name in lower case.
#[tactic(auto, using(crate::proofs::SpelledNames::spelled_is))]
pub fn name_of(alloc: Global, bytes: &[u8]) -> Result<Name, NoMemory>
    requires { IsSpelled bytes.now }
    ensures { IfOk result (λ name. name ≡ bytes.now) }
{
    match Name::new(alloc, bytes, Edition::F2003) {
        Ok(name) => Ok(name),
        Err(NameFault::NoMemory) => Err(NoMemory),
        Err(NameFault::NotAName) => unreachable!(),
    }
}
