// The files of a command, and why there is no answer.
ghost use Rattle.std.specs.Prelude.{◌≡◌};
ghost use Rattle.lw_top.specs.declared.refusal.Refusal.TheVariants.{Memory};

use lw_files::FileFault;
use lw_map::{MapFault, Reason};
use lw_pool::Name;
use lw_verilog::{NoVerilog, VerilogKind};
use std::alloc::AllocError;

/// Which of the files.
#[derive(Clone, Copy, PartialEq, Eq)]
pub enum Which {
    Library,
    Network,
    /// The mapped netlist, as a mapped text or in Verilog.
    Mapped,
    Vectors,
}

/// Why there is no answer.
#[derive(Drop)]
pub enum Refusal {
    /// The words have none of the written forms.
    Words,
    /// This file has this fault.
    Faulty(Which, FileFault),
    /// The line of the netlist in Verilog, from 1, breaks this rule.
    Verilog(u32, VerilogKind),
    /// The line, from 1, is no vector.
    Vector(u32),
    /// The network has more forms than are listed.
    Forms,
    /// The forms have more splits than are listed.
    Splits,
    /// This output has no cover.
    NoCover(Name),
    /// The classes have more points than are dealt with.
    Points,
    /// The mapped netlist is no fastest mapping of the network.
    No(Reason),
    /// The mapped netlist has no text in Verilog.
    NoVerilog(NoVerilog),
    /// Memory ran out.
    Memory,
}

impl Refusal {
    ghost use Rattle.std.specs.Prelude.{◌≡◌};
    ghost use Rattle.lw_top.specs.Named.{file_refusal, map_refusal};

    /// The refusal of a file: running out of memory is no fault of the file.
    pub fn of_file(which: Which, fault: FileFault) -> Refusal
        ensures { result ≡ file_refusal which fault }
    {
        match fault {
            FileFault::Memory => Refusal::Memory,
            fault => Refusal::Faulty(which, fault),
        }
    }

    /// The refusal of a network that has no answer.
    pub fn of_map(fault: MapFault) -> Refusal
        ensures { result ≡ map_refusal fault }
    {
        match fault {
            MapFault::Forms => Refusal::Forms,
            MapFault::Splits => Refusal::Splits,
            MapFault::NoCover(name) => Refusal::NoCover(name),
            MapFault::Points => Refusal::Points,
            MapFault::Memory => Refusal::Memory,
        }
    }
}

impl From<AllocError> for Refusal {
    ghost from_gives = { λ _ e. e ≡ Memory };

    // Running out of memory is the refusal `Memory`.
    fn from(_e: AllocError) -> Refusal {
        Refusal::Memory
    }
}
