use lw_pool::Name;
use std::alloc::AllocError;
use thiserror::Error;

/// Why a draft is no network.
#[derive(Debug, Drop, Error)]
pub enum NetFault {
    /// Nothing drives this fan-in or output.
    #[error("undefined signal")]
    Undefined(Name),
    /// This node reaches itself through fan-ins.
    #[error("cycle")]
    Cycle(Name),
    /// Out of memory.
    #[error("out of memory")]
    Memory,
}

impl From<AllocError> for NetFault {
    ghost use Rattle.std.specs.Prelude.{◌≡◌};
    ghost use Rattle.lw_net.specs.declared.fault.NetFault.TheVariants.{Memory};

    ghost from_gives = { λ e fault. fault ≡ Memory };

    fn from(_: AllocError) -> Self {
        NetFault::Memory
    }
}
