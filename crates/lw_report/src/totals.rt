// Gates and their cells, the greatest arrival of an output, and the area of the gates.
ghost use Rattle.std.specs.Prelude.{◌≡◌, ◌<◌, ◌≤◌, Some, max, map, length, slice_get, All};
ghost use Rattle.lw_genlib.specs.Cells.{IsListed};
ghost use Rattle.lw_genlib.specs.Tables.{millionths};
ghost use Rattle.lw_dag.specs.Ordering.{greatest};
ghost use Rattle.lw_netlist.specs.Netlists.{IsNetlist, most_gates};
ghost use Rattle.lw_netlist.specs.Plain.{HasCell};
ghost use Rattle.lw_report.specs.Timings as report;
ghost use Rattle.lw_report.specs.Timings.{port_arrival};

use lw_fixed::Micro;
use lw_genlib::{Cell, Library};
use lw_netlist::{Gate, Netlist, Port};

// The gate with this number.
pub(crate) fn gate_numbered(netlist: &Netlist, number: u32) -> &Gate
    requires { number < length netlist.now.gates }
    ensures at { slice_get netlist.now.gates number ≡ Some result.now }
    ensures kept { IsNetlist netlist.now }
{
    &netlist.gates()[number as usize]
}

// The cell of a gate.
pub(crate) fn cell_of<'a>(lib: &'a Library, gate: &Gate) -> &'a Cell
    requires { HasCell lib.now gate.now }
    ensures cell { slice_get lib.now gate.now.cell.0 ≡ Some result.now }
    ensures pins { length gate.now.pins ≡ length result.now.pins }
    ensures listed { IsListed result.now }
{
    let _count = lib.len();
    lib.cell(gate.cell)
}

// The later of two times.
fn later(a: u64, b: u64) -> u64
    ensures { result ≡ max a b }
{
    if a < b { b } else { a }
}

// The greatest arrival of some outputs.
pub(crate) fn latest_of(ports: &[Port], arrivals: &[Micro]) -> Micro
    requires { All (λ port. port.net.0 < length arrivals.now) ports.now }
    ensures { result.0 ≡ greatest (map (port_arrival (map millionths arrivals.now)) ports.now) }
{
    let mut latest = 0;
    for port in ports {
        latest = later(latest, arrivals[port.net.0 as usize].0);
    }
    Micro(latest)
}

// The area of some gates.
pub(crate) fn area_of(gates: &[Gate], lib: &Library) -> Micro
    requires over { All (HasCell lib.now) gates.now }
    requires few { length gates.now ≤ most_gates }
    ensures { result.0 ≡ report.area_of lib.now gates.now }
{
    let mut area = 0;
    for gate in gates {
        area += cell_of(lib, gate).area().0;
    }
    Micro(area)
}
