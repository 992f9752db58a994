//! Theorems: functions with empty bodies, whose clauses are the theorems.
ghost use Rattle.std.specs.Prelude.{◌≤◌, ℕ, List};
ghost use Rattle.std.specs.List.{AllZip};
ghost use Rattle.lw_laws.specs.Modes.{Mode};
ghost use Rattle.lw_laws.specs.Networks.{Network};
ghost use Rattle.lw_laws.specs.Covers.{Pattern, Timing};
ghost use Rattle.lw_laws.specs.Netlists.{CellTruth, Netlist};
ghost use Rattle.lw_laws.specs.Headline.{IsMapping, Ports};
ghost use Rattle.lw_laws.specs.InTime.{AreLeastTimes, ArriveBy};
ghost use Rattle.lw_laws.specs.MappedNetlists.{IsMatchNetlistOf};
ghost use Rattle.lw_netlist.specs.Plain.{mapped_ports, plain};
ghost use Rattle.lw_extract.specs.declared.ports.Cover.{Cover};
ghost use Rattle.lw_look.specs.declared.look.Look.{Look};
ghost use Rattle.lw_look.specs.Lists.{pin_counts};
ghost use Rattle.lw_look.specs.Looks.{IsMatchCover, IsOfNetwork};

/// Over the graph of a network's forms, a cover that passes is a netlist of matches of the network.
pub fn covers_are_match_netlists()
    ensures { (mode : Mode) (width : ℕ) (net : Network) (ports : Ports) (l : Look)
        (cover : Cover) → IsOfNetwork mode width net ports l → IsMatchCover l cover →
        IsMatchNetlistOf mode width net ports l.pats.now (pin_counts l) (plain cover.netlist)
        cover.netlist.names (mapped_ports cover.netlist) }
{}

/// The outputs of a mapping arrive by any times that are no earlier than their least times.
pub fn mappings_arrive_by()
    ensures { (mode : Mode) (width : ℕ) (net : Network) (ports : Ports) (pats : List Pattern)
        (timing : Timing) (truth : CellTruth) (n : Netlist) (mapped : Ports)
        (least times : List ℕ) → IsMapping mode width net ports pats timing truth n mapped →
        AreLeastTimes mode width net pats timing ports least →
        AllZip (λ (l t : ℕ). l ≤ t) least times → ArriveBy timing n mapped times }
{}
