// The area of a netlist.
ghost use Rattle.std.specs.Prelude.{◌≡◌, ◌≤◌, ◌↔◌, All, IsTrue, length, slice_get};
ghost use Rattle.lw_netlist.specs.Netlists.{most_gates};
ghost use Rattle.lw_netlist.specs.Filling.{one_step};
ghost use Rattle.lw_netlist.specs.Plain.{HasCell, IsOver};
ghost use Rattle.lw_look.specs.Areas.{area_in, area_of};

use lw_genlib::Library;
use lw_netlist::{Gate, Netlist};

// The area of a gate, that of its cell, in millionths.
fn area_at(lib: &Library, gate: &Gate) -> u64
    requires { HasCell lib.now gate.now }
    ensures area { result ≡ area_in (slice_get lib.now gate.now.cell.0) }
    ensures small { result ≤ one_step }
{
    let _ = lib.len();
    lib.cell(gate.cell).area().0
}

// The sum of the areas of some gates, in millionths.
fn sum_of(lib: &Library, gates: &[Gate]) -> u64
    requires over { All (HasCell lib.now) gates.now }
    requires few { length gates.now ≤ most_gates }
    ensures { result ≡ area_of lib.now gates.now }
{
    let mut area = 0;
    for gate in gates {
        area += area_at(lib, gate);
    }
    area
}

/// The area of the gates of a netlist in millionths, each gate counted once.
pub fn area_of(lib: &Library, netlist: &Netlist) -> u64
    requires over { IsOver lib.now netlist.now }
    requires few { length netlist.now.gates ≤ most_gates }
    ensures { result ≡ area_of lib.now netlist.now.gates }
{
    sum_of(lib, netlist.gates())
}

// Whether the gates of a netlist take no more than the area `most`, in millionths.
pub(crate) fn is_within(lib: &Library, netlist: &Netlist, most: u64) -> bool
    requires over { IsOver lib.now netlist.now }
    requires few { length netlist.now.gates ≤ most_gates }
    ensures { IsTrue result ↔ (area_of lib.now netlist.now.gates ≤ most) }
{
    area_of(lib, netlist) <= most
}
