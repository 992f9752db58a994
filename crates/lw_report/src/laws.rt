//! Laws over definitions: functions with empty bodies, whose clauses are the laws.
ghost use Rattle.std.specs.Prelude.{◌≡◌, ℕ, Bool, List};
ghost use Rattle.lw_fixed.specs.declared.micro.Micro.{Micro};
ghost use Rattle.lw_net.specs.Networks.{NetworkParts, IsNetwork};
ghost use Rattle.lw_genlib.specs.Cells.{CellParts};
ghost use Rattle.lw_netlist.specs.Netlists.{NetlistParts, IsNetlist};
ghost use Rattle.lw_report.specs.Simulated.{IsNetworkSimulation, IsNetlistSimulation};
ghost use Rattle.lw_report.specs.Timings.{IsTimingText};

/// A netlist has no second timing report for the same starts of its inputs.
pub fn reports_are_one()
    ensures { (cells : List CellParts) (n : NetlistParts) (starts : List Micro)
        (text other : List ℕ) → IsNetlist n → IsTimingText cells n starts text
        → IsTimingText cells n starts other → text ≡ other }
{}

/// A network has no second simulation for the same vectors.
pub fn network_simulations_are_one()
    ensures { (n : NetworkParts) (vectors : List (List Bool)) (text other : List ℕ)
        → IsNetwork n → IsNetworkSimulation n vectors text
        → IsNetworkSimulation n vectors other → text ≡ other }
{}

/// A netlist has no second simulation for the same vectors.
pub fn netlist_simulations_are_one()
    ensures { (cells : List CellParts) (n : NetlistParts) (vectors : List (List Bool))
        (text other : List ℕ) → IsNetlist n → IsNetlistSimulation cells n vectors text
        → IsNetlistSimulation cells n vectors other → text ≡ other }
{}
