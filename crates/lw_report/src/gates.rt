// The values of the nets of a netlist, 64 vectors at a time.
ghost use Rattle.std.specs.Prelude.{◌≡◌, ◌+◌, ◌<◌, ◌≤◌, ℕ, Some, length, take, slice_get, All};
ghost use Rattle.lw_genlib.specs.Cells.{cell_value};
ghost use Rattle.lw_genlib.specs.Words.{bit};
ghost use Rattle.lw_netlist.specs.Filling.{gate_value};
ghost use Rattle.lw_netlist.specs.Netlists.{IsGateAt};
ghost use Rattle.lw_netlist.specs.Plain.{HasCell};
ghost use Rattle.lw_report.specs.Blocks.{bits_at};
ghost use Rattle.lw_report.specs.Reading.{words_of, FillsNets};
ghost use Rattle.lw_pool.specs.Numbers.{values_at};

use crate::totals::cell_of;
use lw_genlib::{Cell, Library};
use lw_netlist::Gate;
use lw_pool::NetId;

// The most pins that a cell has.
const MOST_PINS: usize = 16;

// Puts the words of these nets at the front.
fn read_nets(pins: &[NetId], nets: &[u64], words: &mut [u64])
    requires room { length pins.now ≤ length words.old }
    requires known { All (λ net. net.0 < length nets.now) pins.now }
    ensures words { take (length pins.now) words.new ≡ words_of nets.now pins.now }
    ensures length { length words.new ≡ length words.old }
{
    for (k, pin) in pins.iter().enumerate() {
        words[k] = nets[pin.0 as usize];
    }
}

// The word of a cell whose pins are at these nets.
fn cell_word(cell: &Cell, pins: &[NetId], nets: &[u64]) -> u64
    requires one_each { length pins.now ≡ length cell.now.pins }
    requires known { All (λ net. net.0 < length nets.now) pins.now }
    ensures { (k : ℕ) → k < 64 → bit k result
        ≡ cell_value cell.now (values_at (bits_at k nets.now) pins.now) }
{
    let count = cell.pins().len();
    let mut words = [0; MOST_PINS];
    read_nets(pins, nets, &mut words);
    cell.forms()[0].words(&words[..count])
}

// Fills in the nets that the gates drive, which are those from `first` on.
pub(crate) fn fill_gates(gates: &[Gate], lib: &Library, first: usize, nets: &mut [u64])
    requires gates { (j : ℕ) (gate : _) → slice_get gates.now j ≡ Some gate →
        IsGateAt first j gate }
    requires over { All (HasCell lib.now) gates.now }
    requires one_each { length nets.old ≡ first + length gates.now }
    ensures { FillsNets (gate_value lib.now) gates.now first nets.old nets.new }
{
    for (j, gate) in gates.iter().enumerate() {
        nets[first + j] = cell_word(cell_of(lib, gate), gate.pins.as_slice(), nets);
    }
}
