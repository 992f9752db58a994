// The rules that a line may break, and why a text is no mapped netlist.
use lw_fixed::DecimalFault;
use lw_named_netlist::NetlistFault;
use std::alloc::AllocError;
use thiserror::Error;

/// The rule that a line breaks.
#[derive(Clone, Copy, Debug, PartialEq, Eq)]
pub enum MappedKind {
    /// The first word begins with `.` and is no command.
    UnknownCommand,
    /// A line of another shape than its first word, or the wire before it, asks.
    Shape,
    /// No cell of the library has the name.
    NoCell,
    /// A name that is neither a pin nor the output of the cell.
    PinUnknown,
    /// A pin or an output that the line gives twice.
    PinTwice,
    /// A pin or an output that the line does not give.
    PinMissing,
    /// A line of a certificate that is none, or that tells something a second time.
    Certificate,
    /// A word in a name's place is no name.
    BadName,
    /// A word of more than 4,095 bytes.
    LongWord,
    /// A word in a time's place is no decimal below a million.
    Decimal(DecimalFault),
}

/// Why a line says nothing: the first rule that it breaks, or no memory.
#[derive(Clone, Copy)]
pub enum Refusal {
    Broken(MappedKind),
    Memory,
}

impl From<AllocError> for Refusal {
    ghost use Rattle.std.specs.Prelude.{◌≡◌};
    ghost use Rattle.lw_mapped.specs.declared.fault.Refusal.TheVariants.{Memory};

    ghost from_gives = { λ e refusal. refusal ≡ Memory };

    fn from(_: AllocError) -> Self {
        Refusal::Memory
    }
}

/// Why a text is no mapped netlist.
#[derive(Debug, Drop, Error)]
pub enum MappedFault {
    /// The number of the first line that breaks a rule, and the first rule that it breaks.
    #[error("line {0}")]
    Line(u32, MappedKind),
    /// No line breaks a rule, but the netlist as a whole has this fault, which is never `Memory`.
    #[error("netlist")]
    Whole(NetlistFault),
    /// Out of memory.
    #[error("out of memory")]
    Memory,
}

impl From<AllocError> for MappedFault {
    ghost use Rattle.std.specs.Prelude.{◌≡◌};
    ghost use Rattle.lw_mapped.specs.declared.fault.MappedFault.TheVariants.{Memory};

    ghost from_gives = { λ e fault. fault ≡ Memory };

    fn from(_: AllocError) -> Self {
        MappedFault::Memory
    }
}

impl From<NetlistFault> for MappedFault {
    ghost use Rattle.std.specs.Prelude.{◌≡◌};
    ghost use Rattle.lw_mapped.specs.Unmapped.{whole_fault};

    ghost from_gives = { λ e fault. fault ≡ whole_fault e };

    fn from(fault: NetlistFault) -> Self {
        match fault {
            NetlistFault::Memory => MappedFault::Memory,
            fault => MappedFault::Whole(fault),
        }
    }
}
