// Why a file says nothing.
ghost use Rattle.std.specs.Prelude.{◌≡◌};
ghost use Rattle.lw_files.specs.declared.fault.FileFault.TheVariants.{Memory};

use lw_blif::BlifKind;
use lw_genlib::LibKind;
use lw_mapped::MappedKind;
use lw_pool::Name;
use std::alloc::AllocError;

/// Why a file says nothing.
#[derive(Drop)]
pub enum FileFault {
    /// The file was not read.
    Unread,
    /// The file has more bytes than are read.
    TooLong,
    /// The line of the library, from 1, breaks this rule.
    Library(u32, LibKind),
    /// The line of the network, from 1, breaks this rule.
    Network(u32, BlifKind),
    /// Nothing drives this signal of the network.
    Undefined(Name),
    /// This signal of the network reaches itself.
    Cycle(Name),
    /// The line of the mapped netlist, from 1, breaks this rule.
    Mapped(u32, MappedKind),
    /// This net of the netlist is driven twice.
    Twice(Name),
    /// Nothing drives this net of the netlist.
    Undriven(Name),
    /// This net of the netlist reaches itself.
    NetCycle(Name),
    /// Memory ran out.
    Memory,
}

impl From<AllocError> for FileFault {
    ghost from_gives = { λ _ e. e ≡ Memory };

    // Running out of memory is the fault `Memory`.
    fn from(_e: AllocError) -> FileFault {
        FileFault::Memory
    }
}

impl FileFault {
    ghost use Rattle.std.specs.Prelude.{◌≡◌};
    ghost use Rattle.lw_files.specs.Faults.{fault_status};

    /// The exit status of a program that refuses the file.
    pub fn status(&self) -> u8
        ensures { result ≡ fault_status self.now }
    {
        match self {
            FileFault::Unread => 2,
            FileFault::Network(..) | FileFault::Undefined(_) | FileFault::Cycle(_) => 3,
            FileFault::Library(..) => 4,
            FileFault::TooLong => 5,
            FileFault::Memory => 8,
            FileFault::Mapped(..)
            | FileFault::Twice(_)
            | FileFault::Undriven(_)
            | FileFault::NetCycle(_) => 10,
        }
    }
}
