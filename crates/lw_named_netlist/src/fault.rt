// What keeps a draft from being closed.
use lw_pool::Name;
use std::alloc::AllocError;
use thiserror::Error;

/// Why a draft is no netlist.
#[derive(Debug, Drop, Error)]
pub enum NetlistFault {
    /// Something before drives this name too.
    #[error("driven twice")]
    Twice(Name),
    /// Nothing drives this name.
    #[error("undriven")]
    Undriven(Name),
    /// The gate or the wire that drives this name reaches itself.
    #[error("cycle")]
    Cycle(Name),
    /// Out of memory.
    #[error("out of memory")]
    Memory,
}

impl From<AllocError> for NetlistFault {
    ghost use Rattle.std.specs.Prelude.{◌≡◌};
    ghost use Rattle.lw_named_netlist.specs.declared.fault.NetlistFault.TheVariants.{Memory};

    ghost from_gives = { λ e fault. fault ≡ Memory };

    fn from(_: AllocError) -> Self {
        NetlistFault::Memory
    }
}
