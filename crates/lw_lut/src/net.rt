// Networks of tables.
ghost use Rattle.std.specs.Prelude.{◌≡◌, ◌≤◌, All, Contains, length};
ghost use Rattle.lw_lut.specs.Nets.{IsTableNet, net_classes};
ghost use Rattle.lw_lut.specs.Texts.{net_name};

use crate::TablePorts;
use crate::lists::Tables;
use lw_pool::{ClassId, Classes, Names};
use std::marker::Model;

/// A network of tables: its ports, the class of each input, the tables by depth and then class,
/// and a name for each table. No two of its inputs and tables have one class, and each root and
/// each fan-in is the class of one of them. No table has more than six fan-ins.
#[derive(Drop)]
pub struct TableNet {
    pub(crate) ports: TablePorts,
    pub(crate) inputs: Classes,
    pub(crate) tables: Tables,
    pub(crate) names: Names,
    // For each class of an input or a table its place among the inputs and then the tables.
    pub(crate) places: Vec<u32>,
}

impl Model for TableNet {
    ghost use Rattle.lw_lut.specs.Nets.{PlainTableNet};
    ghost use Rattle.lw_lut.specs.Placed.{IsPlaced};

    ghost Value = { PlainTableNet };

    ghost view = { λ n. record {
      ports = n.ports;
      inputs = n.inputs;
      tables = n.tables;
      names = n.names;
    } };

    ghost invariant = { λ n. IsPlaced
        (record {
          ports = n.ports;
          inputs = n.inputs;
          tables = n.tables;
          names = n.names;
        })
        n.places.items };
}

impl TableNet {
    ghost use Rattle.lw_lut.specs.Nets.{IsTableNet};

    /// The names of inputs and outputs, with the classes of the outputs.
    pub fn ports(&self) -> &TablePorts
        ensures { result.now ≡ self.now.ports }
    {
        &self.ports
    }

    /// The class of each input.
    pub fn inputs(&self) -> &Classes
        ensures { result.now ≡ self.now.inputs }
    {
        &self.inputs
    }

    /// The tables, those of fewer levels first.
    pub fn tables(&self) -> &Tables
        ensures { result.now ≡ self.now.tables }
    {
        &self.tables
    }

    /// The name of each table.
    pub fn names(&self) -> &Names
        ensures { result.now ≡ self.now.names }
    {
        &self.names
    }

    /// What each network of tables keeps.
    pub fn keeps(&self)
        ensures kept { IsTableNet self.now }
        ensures roots { length self.now.ports.roots ≡ length self.now.ports.outputs }
        ensures few { All (λ x. length x.fanins ≤ 6) self.now.tables }
    {
        // Brings in what the type of `self` keeps.
        let _ = &self.places;
    }

    // The name of the net of a class: the input's, or the table's.
    pub(crate) fn net_name(&self, class: ClassId) -> &[u8]
        requires { Contains (net_classes self.now) class.0 }
        ensures { result.now ≡ net_name self.now class.0 }
    {
        let place = self.places[class.0 as usize] as usize;
        let inputs = self.ports.inputs.as_slice();
        if place < inputs.len() {
            inputs[place].as_bytes()
        } else {
            self.names.as_slice()[place - inputs.len()].as_bytes()
        }
    }
}
