// Gates and outputs over numbered nets.
ghost use Rattle.std.specs.Prelude.{◌≡◌, [], ◌↔◌, length, IsTrue};

use lw_pool::{CellId, Name, NetId, Nets};
use std::marker::Model;

/// A gate: a cell, a net for each of the cell's pins in their order, and the net that it drives.
#[derive(Drop)]
pub struct Gate {
    pub cell: CellId,
    pub pins: Nets,
    pub out: NetId,
}

/// An output: its name and its net.
#[derive(Drop)]
pub struct Port {
    pub name: Name,
    pub net: NetId,
}

/// Gates in order.
#[derive(Drop)]
pub struct Gates {
    items: Vec<Gate>,
}

impl Model for Gates {
    ghost use Rattle.std.specs.Prelude.{List};
    ghost use Rattle.lw_netlist.specs.declared.gate.Gate.{Gate};

    ghost Value = { List Gate };

    ghost view = { λ l. l.items.items };
}

impl Gates {
    /// The entries of a vector, without memory.
    pub fn from_vec(items: Vec<Gate>) -> Self
        ensures { result ≡ items.items }
    {
        Gates { items }
    }

    /// The entries, without memory.
    pub fn into_vec(self) -> Vec<Gate>
        ensures { result.items ≡ self }
    {
        self.items
    }

    /// How many gates there are.
    pub fn len(&self) -> usize
        ensures { result ≡ length self.now }
    {
        self.items.len()
    }

    /// Whether there are no gates.
    pub fn is_empty(&self) -> bool
        ensures { IsTrue result ↔ (self.now ≡ []) }
    {
        self.items.is_empty()
    }

    /// The gates, in order.
    pub fn as_slice(&self) -> &[Gate]
        ensures { result.now ≡ self.now }
    {
        &self.items
    }
}

/// Outputs in order.
#[derive(Drop)]
pub struct PortList {
    items: Vec<Port>,
}

impl Model for PortList {
    ghost use Rattle.std.specs.Prelude.{List};
    ghost use Rattle.lw_netlist.specs.declared.gate.Port.{Port};

    ghost Value = { List Port };

    ghost view = { λ l. l.items.items };
}

impl PortList {
    /// The entries of a vector, without memory.
    pub fn from_vec(items: Vec<Port>) -> Self
        ensures { result ≡ items.items }
    {
        PortList { items }
    }

    /// The entries, without memory.
    pub fn into_vec(self) -> Vec<Port>
        ensures { result.items ≡ self }
    {
        self.items
    }

    /// How many ports there are.
    pub fn len(&self) -> usize
        ensures { result ≡ length self.now }
    {
        self.items.len()
    }

    /// Whether there are no ports.
    pub fn is_empty(&self) -> bool
        ensures { IsTrue result ↔ (self.now ≡ []) }
    {
        self.items.is_empty()
    }

    /// The ports, in order.
    pub fn as_slice(&self) -> &[Port]
        ensures { result.now ≡ self.now }
    {
        &self.items
    }
}
