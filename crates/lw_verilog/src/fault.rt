// The rules that a token may break, and why a text is no netlist.
use lw_named_netlist::NetlistFault;
use std::alloc::AllocError;
use thiserror::Error;

/// The rule that a token breaks.
#[derive(Clone, Copy, Debug, PartialEq, Eq)]
pub enum VerilogKind {
    /// No token begins with the byte.
    BadByte,
    /// A name, other than a cell's or a pin's, has more than 2,000 bytes, holds `#`, or ends in
    /// `\`.
    BadName,
    /// Another token is required.
    Expected,
    /// No cell of the library has the name.
    NoCell,
    /// The cell has no pin and no output of the name.
    PinUnknown,
    /// The instance gives the pin a second time.
    PinTwice,
    /// The instance leaves out a pin or the output.
    PinMissing,
    /// A port is declared a second time, or the list of ports and the declarations do not have the
    /// same names once each.
    Port,
}

/// Why a text is no netlist.
#[derive(Debug, Drop, Error)]
pub enum VerilogFault {
    /// The line of the first token that breaks a rule, counted from 1, and the rule.
    #[error("line {0}")]
    Line(u32, VerilogKind),
    /// No token breaks a rule, but the netlist as a whole has this fault, which is never `Memory`.
    #[error("netlist")]
    Whole(NetlistFault),
    /// Out of memory.
    #[error("out of memory")]
    Memory,
}

impl From<AllocError> for VerilogFault {
    ghost use Rattle.std.specs.Prelude.{◌≡◌};
    ghost use Rattle.lw_verilog.specs.declared.fault.VerilogFault.TheVariants.{Memory};

    ghost from_gives = { λ e fault. fault ≡ Memory };

    fn from(_: AllocError) -> Self {
        VerilogFault::Memory
    }
}

impl From<NetlistFault> for VerilogFault {
    ghost use Rattle.std.specs.Prelude.{◌≡◌};
    ghost use Rattle.lw_verilog.specs.Verdicts.{whole_fault};

    ghost from_gives = { λ e fault. fault ≡ whole_fault e };

    fn from(fault: NetlistFault) -> Self {
        match fault {
            NetlistFault::Memory => VerilogFault::Memory,
            fault => VerilogFault::Whole(fault),
        }
    }
}

/// Why a token is not taken: the rule that it breaks, or no memory.
#[derive(Clone, Copy)]
pub enum Refusal {
    Broken(VerilogKind),
    Memory,
}

impl From<AllocError> for Refusal {
    ghost use Rattle.std.specs.Prelude.{◌≡◌};
    ghost use Rattle.lw_verilog.specs.declared.fault.Refusal.TheVariants.{Memory};

    ghost from_gives = { λ e refusal. refusal ≡ Memory };

    fn from(_: AllocError) -> Self {
        Refusal::Memory
    }
}
