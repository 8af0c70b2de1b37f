//! Why modules have no order.

ghost use Rattle.std.specs.Prelude.{◌≡◌};
ghost use Rattle.module_graph.specs.declared.fault.GraphFault.TheVariants as fault;

use ftn_base::NoMemory;
use std::alloc::AllocError;

/// Why there is no order of modules.
#[derive(Drop)]
pub enum GraphFault {
    /// A cycle: each module of the list uses the next, and the last uses the first. It begins with the least
    /// module that lies on any cycle.
    Cycle(Vec<u32>),
    /// There was no memory for the answer.
    NoMemory,
}

impl From<NoMemory> for GraphFault {
    ghost from_gives = { λ _ made. made ≡ fault.NoMemory };

    fn from(_error: NoMemory) -> GraphFault {
        GraphFault::NoMemory
    }
}

impl From<AllocError> for GraphFault {
    ghost from_gives = { λ _ made. made ≡ fault.NoMemory };

    fn from(_error: AllocError) -> GraphFault {
        GraphFault::NoMemory
    }
}
