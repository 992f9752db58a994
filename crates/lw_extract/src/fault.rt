// Why labels give no netlist.
use std::alloc::AllocError;

/// Why there is no netlist.
#[derive(Clone, Copy, PartialEq, Eq)]
pub enum ExtractFault {
    /// The class of the output with this number, from 0, has no cover. It is the first such output.
    NoCover(u32),
    /// Out of memory.
    Memory,
}

impl From<AllocError> for ExtractFault {
    ghost use Rattle.std.specs.Prelude.{◌≡◌};
    ghost use Rattle.lw_extract.specs.declared.fault.ExtractFault.TheVariants.{Memory};

    ghost from_gives = { λ e fault. fault ≡ Memory };

    // Running out of memory is the fault `Memory`.
    fn from(_: AllocError) -> Self {
        ExtractFault::Memory
    }
}
