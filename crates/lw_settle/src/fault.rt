// What keeps matches from being stored.
use std::alloc::AllocError;

/// Why there is no store.
#[derive(Clone, Copy, Debug, PartialEq, Eq)]
pub enum StoreFault {
    /// The classes have more than 8,388,608 matches together.
    TooMany,
    /// Out of memory.
    Memory,
}

impl From<AllocError> for StoreFault {
    ghost use Rattle.std.specs.Prelude.{◌≡◌};
    ghost use Rattle.lw_settle.specs.declared.fault.StoreFault.TheVariants.{Memory};

    ghost from_gives = { λ e fault. fault ≡ Memory };

    // Running out of memory is the fault `Memory`.
    fn from(_: AllocError) -> Self {
        StoreFault::Memory
    }
}
