//! Why USE statements make nothing accessible.

ghost use Rattle.std.specs.Prelude.{◌≡◌};
ghost use Rattle.use_assoc.specs.declared.fault.UseFault.TheVariants as faults;

use ftn_base::NoMemory;
use thiserror::Error;

/// Why USE statements make nothing accessible.
#[derive(Clone, Copy, Debug, Error)]
pub enum UseFault {
    /// An item whose source its module doesn't export, by the numbers of its list and in it of the item.
    #[error("NotPublic")]
    NotPublic {
        /// The number of the list.
        list: u32,
        /// The number of the item in its list.
        item: u32,
    },
    /// An allocation was refused.
    #[error("NoMemory")]
    NoMemory,
}

impl From<NoMemory> for UseFault {
    ghost from_gives = { λ _ fault. fault ≡ faults.NoMemory };

    fn from(_fault: NoMemory) -> UseFault {
        UseFault::NoMemory
    }
}
