// Netlists, the values of their nets, and when these arrive.
ghost use Rattle.std.specs.Prelude.{◌≡◌, ◌≤◌, ◌<◌, ◌^◌, All, length, map};

use crate::arrivals::fill_arrivals;
use crate::values::fill_values;
use crate::{Gate, Gates, Port, PortList};
use lw_fixed::{Micro, Micros};
use lw_genlib::Library;
use lw_pool::{Name, Names};
use std::marker::Model;

/// A netlist of cells. Its nets are its inputs, in order, and then what its gates drive, in order.
#[derive(Drop)]
pub struct Netlist {
    model: Name,
    names: Names,
    inputs: u32,
    gates: Gates,
    outputs: PortList,
}

impl Model for Netlist {
    ghost use Rattle.lw_netlist.specs.Netlists.{NetlistParts, IsNetlist};

    ghost Value = { NetlistParts };

    ghost view = { λ n. record {
      model = n.model;
      names = n.names;
      inputs = n.inputs;
      gates = n.gates;
      outputs = n.outputs;
    } };

    ghost invariant = { λ n. IsNetlist
        (record {
          model = n.model;
          names = n.names;
          inputs = n.inputs;
          gates = n.gates;
          outputs = n.outputs;
        }) };
}

impl Netlist {
    ghost use Rattle.lw_laws.specs.Networks.{given};
    ghost use Rattle.lw_laws.specs.Netlists.{AreNetlistValues, AreArrivals};
    ghost use Rattle.lw_netlist.specs.Netlists.{IsNetlist, NetlistParts, most_gates};
    ghost use Rattle.lw_genlib.specs.Cells.{IsSmall};
    ghost use Rattle.lw_genlib.specs.Tables.{millionths, timing_of, truth_of_cells};
    ghost use Rattle.lw_netlist.specs.Plain.{plain, IsOver};

    /// The netlist of these parts, without memory.
    pub fn new(model: Name, names: Names, inputs: u32, gates: Gates, outputs: PortList) -> Self
        requires { IsNetlist (record {
          model = model;
          names = names;
          inputs = inputs;
          gates = gates;
          outputs = outputs;
        }) }
        ensures { result ≡ record {
          model = model;
          names = names;
          inputs = inputs;
          gates = gates;
          outputs = outputs;
        } }
    {
        Netlist {
            model,
            names,
            inputs,
            gates,
            outputs,
        }
    }

    /// The name of the model.
    pub fn model(&self) -> &Name
        ensures { result.now ≡ self.now.model }
    {
        &self.model
    }

    /// The names of the nets.
    pub fn names(&self) -> &[Name]
        ensures names { result.now ≡ self.now.names }
        ensures kept { IsNetlist self.now }
    {
        self.names.as_slice()
    }

    /// The number of inputs.
    pub fn inputs(&self) -> u32
        ensures inputs { result ≡ self.now.inputs }
        ensures kept { IsNetlist self.now }
    {
        self.inputs
    }

    /// The gates, each behind those that drive its pins.
    pub fn gates(&self) -> &[Gate]
        ensures gates { result.now ≡ self.now.gates }
        ensures kept { IsNetlist self.now }
    {
        self.gates.as_slice()
    }

    /// The outputs, in order.
    pub fn outputs(&self) -> &[Port]
        ensures outputs { result.now ≡ self.now.outputs }
        ensures kept { IsNetlist self.now }
    {
        self.outputs.as_slice()
    }

    /// Fills in the value of each net, at these values of the inputs, without memory.
    pub fn value(&self, lib: &Library, x: &[bool], nets: &mut [bool])
        requires over { IsOver lib.now self.now }
        requires one_x { length x.now ≡ self.now.inputs }
        requires one_net { length nets.old ≡ length self.now.names }
        requires few { length self.now.gates ≤ most_gates }
        ensures { AreNetlistValues (truth_of_cells lib.now) (plain self.now)
            (given x.now) nets.new }
    {
        let gates = self.gates();
        nets[..x.len()].copy_from_slice(x);
        fill_values(gates, lib, x.len(), nets);
    }

    /// Fills in when each net arrives, without memory: an input at its start, and a gate at the
    /// greatest of its pins' arrivals and delays.
    pub fn arrivals(&self, lib: &Library, starts: &Micros, nets: &mut [Micro])
        requires over { IsOver lib.now self.now }
        requires one_start { length starts.now ≡ self.now.inputs }
        requires small { All IsSmall starts.now }
        requires one_net { length nets.old ≡ length self.now.names }
        requires few { length self.now.gates ≤ most_gates }
        ensures arrivals { AreArrivals (timing_of lib.now starts.now) (plain self.now)
            (map millionths nets.new) }
        ensures low { All (λ net. net.0 < 2 ^ 63) nets.new }
    {
        let gates = self.gates();
        let starts = starts.as_slice();
        nets[..starts.len()].copy_from_slice(starts);
        fill_arrivals(gates, lib, self.inputs() as usize, nets);
    }
}
