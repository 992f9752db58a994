// When nets arrive.
ghost use Rattle.std.specs.Prelude.{◌≡◌, ◌+◌, ◌*◌, ◌<◌, ◌≤◌, max, ℕ, Some, length, slice_get, All};
ghost use Rattle.lw_laws.specs.Covers.{latest};
ghost use Rattle.lw_genlib.specs.Cells.{IsListed};
ghost use Rattle.lw_netlist.specs.Netlists.{IsGateAt, most_gates};
ghost use Rattle.lw_genlib.specs.Tables.{cell_delays};
ghost use Rattle.lw_netlist.specs.Plain.{HasCell};
ghost use Rattle.lw_netlist.specs.Filling.{arrival_at, arrivals_at, gate_arrival, one_step};

use crate::Gate;
use crate::values::cell_of;
use lw_fixed::Micro;
use lw_genlib::{Cell, Library};
use lw_pool::NetId;

// The later of two times.
fn later(a: u64, b: u64) -> u64
    ensures { result ≡ max a b }
{
    if a < b { b } else { a }
}

// When a cell arrives whose pins are at these nets.
fn arrival_of(cell: &Cell, pins: &[NetId], nets: &[Micro]) -> Micro
    requires one_each { length pins.now ≡ length cell.now.pins }
    requires listed { IsListed cell.now }
    requires known { All (λ net. net.0 < length nets.now) pins.now }
    requires early { All (λ net. arrival_at nets.now net.0 ≤ (most_gates + 1) * one_step) pins.now }
    ensures { result.0 ≡ latest (cell_delays cell.now) (arrivals_at nets.now pins.now) }
{
    let mut latest = 0;
    for (k, delay) in cell.delays().iter().enumerate() {
        latest = later(latest, nets[pins[k].0 as usize].0 + delay.0);
    }
    Micro(latest)
}

// Fills in the arrivals of the nets that the gates drive, which are those from `first` on, behind
// the starts of the inputs.
pub(crate) fn fill_arrivals(gates: &[Gate], lib: &Library, first: usize, nets: &mut [Micro])
    requires gates { (j : ℕ) (gate : _) → slice_get gates.now j ≡ Some gate →
        IsGateAt first j gate }
    requires over { All (HasCell lib.now) gates.now }
    requires one_each { length nets.old ≡ first + length gates.now }
    requires few { length gates.now ≤ most_gates }
    requires started { (i : ℕ) → i < first → arrival_at nets.old i ≤ one_step }
    ensures inputs { (i : ℕ) → i < first → arrival_at nets.new i ≡ arrival_at nets.old i }
    ensures arrivals { (j : ℕ) (gate : _) → slice_get gates.now j ≡ Some gate →
        arrival_at nets.new (first + j) ≡ gate_arrival lib.now nets.new gate }
    ensures low { (i : ℕ) → i < length nets.new →
        arrival_at nets.new i ≤ (length gates.now + 1) * one_step }
    ensures length { length nets.new ≡ length nets.old }
{
    for (j, gate) in gates.iter().enumerate() {
        nets[first + j] = arrival_of(cell_of(lib, gate), gate.pins.as_slice(), nets);
    }
}
