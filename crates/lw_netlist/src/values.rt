// The values of nets.
ghost use Rattle.std.specs.Prelude.{◌≡◌, ◌+◌, ◌<◌, ◌≤◌, ℕ, false, Some, length, take, slice_get};
ghost use Rattle.std.specs.Prelude.{slice_index_or, All};
ghost use Rattle.lw_genlib.specs.Cells.{cell_value, IsListed};
ghost use Rattle.lw_netlist.specs.Netlists.{IsGateAt};
ghost use Rattle.lw_netlist.specs.Plain.{HasCell};
ghost use Rattle.lw_netlist.specs.Filling.{gate_value};
ghost use Rattle.lw_pool.specs.Numbers.{values_at};

use crate::Gate;
use lw_genlib::{Cell, Library};
use lw_pool::NetId;

// The most pins that a cell has.
const MOST_PINS: usize = 16;

// Puts the values of these nets at the front.
fn read_nets(pins: &[NetId], nets: &[bool], values: &mut [bool])
    requires room { length pins.now ≤ length values.old }
    requires known { All (λ net. net.0 < length nets.now) pins.now }
    ensures values { take (length pins.now) values.new ≡ values_at nets.now pins.now }
    ensures length { length values.new ≡ length values.old }
{
    for (k, pin) in pins.iter().enumerate() {
        values[k] = nets[pin.0 as usize];
    }
}

// The value of a cell whose pins are at these nets.
fn value_of(cell: &Cell, pins: &[NetId], nets: &[bool]) -> bool
    requires one_each { length pins.now ≡ length cell.now.pins }
    requires known { All (λ net. net.0 < length nets.now) pins.now }
    ensures { result ≡ cell_value cell.now (values_at nets.now pins.now) }
{
    let count = cell.pins().len();
    let mut values = [false; MOST_PINS];
    read_nets(pins, nets, &mut values);
    cell.eval(&values[..count])
}

// The cell of a gate.
pub(crate) fn cell_of<'a>(lib: &'a Library, gate: &Gate) -> &'a Cell
    requires { HasCell lib.now gate.now }
    ensures cell { slice_get lib.now gate.now.cell.0 ≡ Some result.now }
    ensures pins { length gate.now.pins ≡ length result.now.pins }
    ensures listed { IsListed result.now }
{
    let count = lib.len();
    lib.cell(gate.cell)
}

// Fills in the nets that the gates drive, which are those from `first` on.
pub(crate) fn fill_values(gates: &[Gate], lib: &Library, first: usize, nets: &mut [bool])
    requires gates { (j : ℕ) (gate : _) → slice_get gates.now j ≡ Some gate →
        IsGateAt first j gate }
    requires over { All (HasCell lib.now) gates.now }
    requires one_each { length nets.old ≡ first + length gates.now }
    ensures inputs { (i : ℕ) → i < first →
        slice_index_or nets.new i false ≡ slice_index_or nets.old i false }
    ensures values { (j : ℕ) (gate : _) → slice_get gates.now j ≡ Some gate →
        slice_index_or nets.new (first + j) false ≡ gate_value lib.now nets.new gate }
{
    for (j, gate) in gates.iter().enumerate() {
        nets[first + j] = value_of(cell_of(lib, gate), gate.pins.as_slice(), nets);
    }
}
