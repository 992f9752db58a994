// Why nothing is answered.
ghost use Rattle.std.specs.Prelude.{◌≡◌};
ghost use Rattle.lw_equal_top.specs.declared.fault.Refusal.TheVariants.{Memory};

use lw_equal::{Fault, PortFault};
use lw_files::FileFault;
use std::alloc::AllocError;

/// Why nothing is answered.
#[derive(Drop)]
pub enum Refusal {
    /// The library has this fault.
    Library(FileFault),
    /// The file at this place among the networks, from 0, has this fault.
    File(usize, FileFault),
    /// A port of one network that another lacks.
    Ports(PortFault),
    /// Memory ran out.
    Memory,
}

impl Refusal {
    ghost use Rattle.std.specs.Prelude.{◌≡◌};
    ghost use Rattle.lw_equal_top.specs.Statuses.{library_refusal, file_refusal};

    /// The refusal of the library: running out of memory is no fault of the file.
    pub fn of_library(fault: FileFault) -> Refusal
        ensures { result ≡ library_refusal fault }
    {
        match fault {
            FileFault::Memory => Refusal::Memory,
            fault => Refusal::Library(fault),
        }
    }

    /// The refusal of a file.
    pub fn of_file(place: usize, fault: FileFault) -> Refusal
        ensures { result ≡ file_refusal place fault }
    {
        match fault {
            FileFault::Memory => Refusal::Memory,
            fault => Refusal::File(place, fault),
        }
    }
}

impl From<AllocError> for Refusal {
    ghost from_gives = { λ _ e. e ≡ Memory };

    fn from(_e: AllocError) -> Refusal {
        Refusal::Memory
    }
}

impl From<Fault> for Refusal {
    ghost use Rattle.std.specs.Prelude.{◌≡◌};
    ghost use Rattle.lw_equal_top.specs.Statuses.{compare_refusal};

    ghost from_gives = { λ fault e. e ≡ compare_refusal fault };

    fn from(fault: Fault) -> Refusal {
        match fault {
            Fault::Ports(fault) => Refusal::Ports(fault),
            Fault::Memory => Refusal::Memory,
        }
    }
}
