// Why there is no netlist.
ghost use Rattle.std.specs.Prelude.{◌≡◌};
ghost use Rattle.lw_area.specs.Refusals.{map_status, status_of};

use lw_files::FileFault;
use lw_map::{MapFault, Reason};
use lw_pool::Name;
use std::alloc::AllocError;

/// Why there is no netlist, or no yes to one.
#[derive(Drop)]
pub enum Refusal {
    /// The library's file has this fault.
    Library(FileFault),
    /// The network's file has this fault.
    Network(FileFault),
    /// The file of the further network at this place has this fault.
    Further(usize, FileFault),
    /// The further network at this place has this input, which the network has not.
    Strange(usize, Name),
    /// The netlist's file has this fault.
    Mapped(FileFault),
    /// The network is not mapped.
    Unmapped(MapFault),
    /// The netlist is no fastest mapping.
    No(Reason),
}

impl From<AllocError> for Refusal {
    ghost use Rattle.std.specs.Prelude.{◌≡◌};
    ghost use Rattle.lw_map.specs.declared.fault.MapFault.TheVariants.{Memory};
    ghost use Rattle.lw_area.specs.declared.refusal.Refusal.TheVariants.{Unmapped};

    ghost from_gives = { λ _ refusal. refusal ≡ Unmapped Memory };

    // Running out of memory is a reason of its own.
    fn from(_: AllocError) -> Self {
        Refusal::Unmapped(MapFault::Memory)
    }
}

fn map_status(fault: &MapFault) -> u8
    ensures { result ≡ map_status fault.now }
{
    match fault {
        MapFault::Forms | MapFault::Splits | MapFault::Points => 5,
        MapFault::NoCover(_) => 6,
        MapFault::Memory => 8,
    }
}

impl Refusal {
    /// The exit status.
    pub(crate) fn status(&self) -> u8
        ensures { result ≡ status_of self.now }
    {
        match self {
            Refusal::Library(fault)
            | Refusal::Network(fault)
            | Refusal::Further(_, fault)
            | Refusal::Mapped(fault) => fault.status(),
            Refusal::Strange(..) => 3,
            Refusal::Unmapped(fault) => map_status(fault),
            Refusal::No(_) => 9,
        }
    }
}
