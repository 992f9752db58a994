//! Theorems: functions with empty bodies, whose clauses are the theorems.
ghost use Rattle.lw_trade.specs.Trades.{BuiltNetsAreCovers, PinsComeBefore};

/// In a netlist that is built from points by their choices, the net of each exact point stands for
/// a cover of its class. That cover arrives by the point's time and has its area, which is the
/// least.
pub fn built_nets_are_covers()
    ensures { BuiltNetsAreCovers }
{}

/// The choice of a point has for each pin a last point of its class by the point's time less the
/// delay of the pin. It comes before the point, by time, area, and when the area was gained.
pub fn pins_come_before()
    ensures { PinsComeBefore }
{}
