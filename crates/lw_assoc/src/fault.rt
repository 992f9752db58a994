use std::alloc::AllocError;

/// Why there is no graph of some forms.
#[derive(Clone, Copy, PartialEq, Eq)]
pub enum GraphFault {
    /// There are more than 16,777,216 splits.
    Limit,
    /// Out of memory.
    Memory,
}

impl From<AllocError> for GraphFault {
    ghost use Rattle.std.specs.Prelude.{◌≡◌};
    ghost use Rattle.lw_assoc.specs.declared.fault.GraphFault.TheVariants.{Memory};

    ghost from_gives = { λ e fault. fault ≡ Memory };

    fn from(_: AllocError) -> Self {
        GraphFault::Memory
    }
}
