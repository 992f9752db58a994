// What keeps a network from being mapped.
ghost use Rattle.std.specs.Prelude.{◌≡◌};
ghost use Rattle.lw_map.specs.declared.fault.MapFault.TheVariants.{Memory};

use lw_assoc::GraphFault;
use lw_form::FormFault;
use lw_pool::Name;
use lw_trade::CurveFault;
use std::alloc::AllocError;

/// Why a network is not mapped.
#[derive(Drop)]
pub enum MapFault {
    /// The network has more forms than are listed.
    Forms,
    /// The forms have more splits than are listed.
    Splits,
    /// This output has no cover, and each one before it has.
    NoCover(Name),
    /// The classes have more points than are dealt with.
    Points,
    /// Memory ran out.
    Memory,
}

impl From<AllocError> for MapFault {
    ghost from_gives = { λ _ e. e ≡ Memory };

    // Running out of memory is the fault `Memory`.
    fn from(_e: AllocError) -> MapFault {
        MapFault::Memory
    }
}

impl From<FormFault> for MapFault {
    ghost use Rattle.std.specs.Prelude.{◌≡◌};
    ghost use Rattle.lw_map.specs.Faults.{form_fault};

    ghost from_gives = { λ fault e. e ≡ form_fault fault };

    // Too many forms are the fault `Forms`.
    fn from(fault: FormFault) -> MapFault {
        match fault {
            FormFault::Limit => MapFault::Forms,
            FormFault::Memory => MapFault::Memory,
        }
    }
}

impl From<GraphFault> for MapFault {
    ghost use Rattle.std.specs.Prelude.{◌≡◌};
    ghost use Rattle.lw_map.specs.Faults.{graph_fault};

    ghost from_gives = { λ fault e. e ≡ graph_fault fault };

    // Too many splits are the fault `Splits`.
    fn from(fault: GraphFault) -> MapFault {
        match fault {
            GraphFault::Limit => MapFault::Splits,
            GraphFault::Memory => MapFault::Memory,
        }
    }
}

impl From<CurveFault> for MapFault {
    ghost use Rattle.std.specs.Prelude.{◌≡◌};
    ghost use Rattle.lw_map.specs.Faults.{curve_fault};

    ghost from_gives = { λ fault e. e ≡ curve_fault fault };

    // Too many points are the fault `Points`.
    fn from(fault: CurveFault) -> MapFault {
        match fault {
            CurveFault::Limit => MapFault::Points,
            CurveFault::Memory => MapFault::Memory,
        }
    }
}
