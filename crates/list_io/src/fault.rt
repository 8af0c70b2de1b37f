//! Why no item was read.

ghost use Rattle.std.specs.Prelude.{◌≡◌};
ghost use Rattle.list_io.specs.declared.fault.ItemFault.TheVariants.{NoMemory as no_memory};

use ftn_base::NoMemory;
use thiserror::Error;

/// Why no value was made of the bytes of an item.
#[derive(Clone, Copy, Debug, Error)]
pub enum ItemFault {
    /// The bytes are no item of the type.
    #[error("BadItem")]
    BadItem,
    /// An allocation was refused.
    #[error("NoMemory")]
    NoMemory,
}

impl From<NoMemory> for ItemFault {
    ghost from_gives = { λ _ fault. fault ≡ no_memory };

    fn from(_error: NoMemory) -> ItemFault {
        ItemFault::NoMemory
    }
}
