// Whether the gates of a netlist stand by depth.
ghost use Rattle.std.specs.Prelude.{◌≡◌, ◌<◌, ◌≤◌, ◌+◌, ◌↔◌, ℕ, All, IfOk, IsTrue, Some, length};
ghost use Rattle.std.specs.Prelude.{map, slice_get, slice_index_or};
ghost use Rattle.lw_laws.specs.Networks.{greatest_depth};
ghost use Rattle.lw_laws.specs.Netlists.{AreByDepth};
ghost use Rattle.lw_netlist.specs.Netlists.{IsGateAt};
ghost use Rattle.lw_netlist.specs.Plain.{plain};
ghost use Rattle.lw_pool.specs.Numbers.{net_number};
ghost use Rattle.lw_look.specs.Depths.{IsRisingFrom, gate_depth};

use lw_netlist::{Gate, Netlist};
use lw_pool::NetId;
use std::alloc::{AllocError, Global};

// The greatest depth of the nets of some pins, by the depths of all nets, and 0 without a pin.
fn deepest(depths: &[u32], pins: &[NetId]) -> u32
    requires { All (λ pin. pin.0 < length depths.now) pins.now }
    ensures { result ≡ greatest_depth depths.now (map net_number pins.now) }
{
    match pins {
        [] => 0,
        [pin, rest @ ..] => depths[pin.0 as usize].max(deepest(depths, rest)),
    }
}

// Fills in the depths of the nets that the gates drive: one more than the deepest pin. They are
// those from `first` on, after the inputs, and all depths are 0 at first.
fn fill_depths(gates: &[Gate], first: usize, depths: &mut [u32])
    requires gates { (j : ℕ) (gate : _) → slice_get gates.now j ≡ Some gate →
        IsGateAt first j gate }
    requires one_each { length depths.old ≡ first + length gates.now }
    requires few { length depths.old < 4294967296 }
    requires started { (i : ℕ) → slice_index_or depths.old i 0 ≡ 0 }
    ensures inputs { (i : ℕ) → i < first → slice_index_or depths.new i 0 ≡ 0 }
    ensures depths { (j : ℕ) (gate : _) → slice_get gates.now j ≡ Some gate →
        slice_index_or depths.new (first + j) 0 ≡ gate_depth depths.new gate }
    ensures length { length depths.new ≡ length depths.old }
{
    for (j, gate) in gates.iter().enumerate() {
        depths[first + j] = 1 + deepest(depths, gate.pins.as_slice());
    }
}

// Whether no number is less than the one before it.
fn is_rising(depths: &[u32]) -> bool
    ensures { IsTrue result ↔ IsRisingFrom 0 depths.now }
{
    let mut last = 0;
    for depth in depths {
        if *depth < last {
            return false;
        }
        last = *depth;
    }
    true
}

/// Whether no gate of a netlist stands before one that is less deep. It is one of the tests of
/// `Look::fits`.
pub(crate) fn is_by_depth(alloc: Global, netlist: &Netlist) -> Result<bool, AllocError>
    ensures { IfOk result (λ yes. IsTrue yes ↔ AreByDepth (plain netlist.now)) }
{
    let first = netlist.inputs() as usize;
    let mut depths = vec![in alloc; 0; netlist.names().len()]?;
    fill_depths(netlist.gates(), first, &mut depths);
    Ok(is_rising(&depths[first..]))
}
