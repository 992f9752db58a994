// The gates of instances.
ghost use Rattle.std.specs.Prelude.{◌≡◌, ◌<◌, ◌++◌, [], ◌∷◌, true, None, Some, All, length, map};
ghost use Rattle.std.specs.Prelude.{IfOk, OnOk};
ghost use Rattle.std.specs.List.{list_any};
ghost use Rattle.lw_verilog.specs.Readings.{cell_in, missing_fault};
ghost use Rattle.lw_verilog.specs.Statements.{gate_by, is_for, net_for, number_of, ties_in};

use crate::rules::net_place;
use lw_genlib::Library;
use lw_named_netlist::{SpelledGate, SpelledNames};
use lw_pool::{CellId, Name};
use std::alloc::{AllocError, Global};

// The net of a pin or of the output.
fn net_of<'a>(names: &'a SpelledNames, formal: &[u8]) -> &'a [u8]
    requires { list_any (is_for formal.now) (ties_in names.now) ≡ true }
    ensures net { result.now ≡ net_for (ties_in names.now) formal.now }
    ensures some { 0 < length result.now }
{
    let place = net_place(names, formal).unwrap();
    names.get(place)
}

// Appends the nets of these pins.
fn push_pins(gate: &mut SpelledGate, names: &SpelledNames, pins: &[Name]) -> Result<(), AllocError>
    requires { All (λ pin. list_any (is_for pin) (ties_in names.now) ≡ true) pins.now }
    ensures { OnOk result (gate.new ≡ record {
      cell = gate.old.cell;
      pins = gate.old.pins ++ map (net_for (ties_in names.now)) pins.now;
      out = gate.old.out;
    }) }
{
    for pin in pins {
        gate.push(net_of(names, pin.as_bytes()))?;
    }
    Ok(())
}

/// The gate of an instance of these names, whose cell has this number.
pub(crate) fn gate_of(
    alloc: Global,
    lib: &Library,
    id: CellId,
    names: &SpelledNames,
) -> Result<SpelledGate, AllocError>
    requires given { missing_fault (cell_in lib.now names.now) (ties_in names.now) ≡ None }
    requires cell { number_of lib.now names.now ≡ Some id.0 }
    requires within { id.0 < length lib.now }
    ensures { IfOk result (λ gate. gate ∷ [] ≡ gate_by lib.now names.now) }
{
    let cell = lib.cell(id);
    let out = net_of(names, cell.output().as_bytes());
    let mut gate = SpelledGate::new(alloc, id, out)?;
    push_pins(&mut gate, names, cell.pins())?;
    Ok(gate)
}
