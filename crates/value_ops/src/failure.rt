//! Why an operation has no value.

ghost use Rattle.std.specs.Prelude.{◌≡◌};
ghost use Rattle.value_ops.specs.declared.failure.Failure.TheVariants as failures;

use ftn_base::NoMemory;
use ftn_tree::ValueFault;

/// Why an operation gives no value.
#[derive(Clone, Copy)]
pub enum Failure {
    /// It has none for these operands.
    Fault(ValueFault),
    /// An allocation was refused.
    NoMemory,
}

impl From<NoMemory> for Failure {
    ghost from_gives = { λ _ failure. failure ≡ failures.NoMemory };

    fn from(_error: NoMemory) -> Failure {
        Failure::NoMemory
    }
}
