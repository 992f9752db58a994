use lw_fixed::DecimalFault;
use lw_net::NetFault;
use std::alloc::AllocError;
use thiserror::Error;

/// The rule that a line breaks.
#[derive(Clone, Copy, Debug, PartialEq, Eq)]
pub enum BlifKind {
    /// The first word begins with `.` and is no command.
    UnknownCommand,
    /// A command for what is no plain logic of one model.
    Unsupported,
    /// A row that follows no node.
    RowOutside,
    /// A row of another shape than its node asks.
    RowShape,
    /// A row whose value differs from that of an earlier row of its node.
    RowMix,
    /// A signal that is an input or the output of a node or latch already, or stands twice on the
    /// line.
    Redefined,
    /// `.model` with other than one name, `.names` with none, `.latch` with fewer than two or more
    /// than five, or an arrival line without its name or a time.
    WordCount,
    /// A word in a name's place is no name.
    BadName,
    /// A word of more than 4,095 bytes.
    LongWord,
    /// More than 256 fan-ins.
    LimitFanin,
    /// A row after 4,096 rows of its node.
    LimitRows,
    /// More than 262,144 inputs, latches and nodes.
    LimitSignals,
    /// A time that is no decimal, or is none of fewer than a million units, no more than six
    /// decimals, and not below 0.
    Decimal(DecimalFault),
}

/// Why a text is no network.
#[derive(Debug, Drop, Error)]
pub enum BlifFault {
    /// The number of the first line that breaks a rule, and the first rule that it breaks.
    #[error("line {0}")]
    Line(u32, BlifKind),
    /// No line breaks a rule, but the network as a whole has this fault. It is never want of
    /// memory.
    #[error("network")]
    Whole(NetFault),
    /// Out of memory.
    #[error("out of memory")]
    Memory,
}

impl From<AllocError> for BlifFault {
    ghost use Rattle.std.specs.Prelude.{◌≡◌};
    ghost use Rattle.lw_blif.specs.declared.fault.BlifFault.TheVariants.{Memory};

    ghost from_gives = { λ e fault. fault ≡ Memory };

    fn from(_: AllocError) -> Self {
        BlifFault::Memory
    }
}

impl From<NetFault> for BlifFault {
    ghost use Rattle.std.specs.Prelude.{◌≡◌};
    ghost use Rattle.lw_blif.specs.BlifNetworks.{whole_fault};

    ghost from_gives = { λ e fault. fault ≡ whole_fault e };

    fn from(fault: NetFault) -> Self {
        match fault {
            NetFault::Memory => BlifFault::Memory,
            fault => BlifFault::Whole(fault),
        }
    }
}
