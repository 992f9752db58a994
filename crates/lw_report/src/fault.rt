// What keeps lines from being a list of vectors.
use std::alloc::AllocError;
use thiserror::Error;

/// Why lines are no list of vectors.
#[derive(Clone, Copy, Debug, PartialEq, Eq, Error)]
pub enum VectorFault {
    /// The number of the first line that is no vector.
    #[error("line {0}")]
    Line(u32),
    /// Out of memory.
    #[error("out of memory")]
    Memory,
}

impl From<AllocError> for VectorFault {
    ghost use Rattle.std.specs.Prelude.{◌≡◌};
    ghost use Rattle.lw_report.specs.declared.fault.VectorFault.TheVariants.{Memory};

    ghost from_gives = { λ e fault. fault ≡ Memory };

    fn from(_: AllocError) -> Self {
        VectorFault::Memory
    }
}
