// Netlists by names, before they are closed.
ghost use Rattle.std.specs.Prelude.{◌≡◌, ◌++◌, [], ◌∷◌, ◌↔◌, length, IsTrue, MatchResult};

use crate::SpelledGate;
use crate::spelled::spelled;
use lw_pool::{CellId, Name, Names};
use std::alloc::{AllocError, Global};
use std::marker::Model;

/// A gate by names: a cell, a name for each pin, and the name that it drives.
#[derive(Drop)]
pub struct DraftGate {
    pub cell: CellId,
    pub pins: Names,
    pub out: Name,
}

/// One net under a second name.
#[derive(Drop)]
pub struct Wire {
    pub from: Name,
    pub to: Name,
}

/// Gates by names, in order.
#[derive(Drop)]
pub struct DraftGates {
    items: Vec<SpelledGate>,
}

impl Model for DraftGates {
    ghost use Rattle.std.specs.Prelude.{List};
    ghost use Rattle.lw_named_netlist.specs.declared.draft.DraftGate.{DraftGate};

    ghost Value = { List DraftGate };

    ghost view = { λ l. l.items.items };
}

impl DraftGates {
    /// No entries. Growth takes memory from `alloc`.
    pub fn new(alloc: Global) -> Self
        ensures { result ≡ [] }
    {
        DraftGates {
            items: Vec::new(alloc),
        }
    }

    /// How many gates there are.
    pub fn len(&self) -> usize
        ensures { result ≡ length self.now }
    {
        self.items.len()
    }

    /// Whether there are no gates.
    pub fn is_empty(&self) -> bool
        ensures { IsTrue result ↔ (self.now ≡ []) }
    {
        self.items.is_empty()
    }

    /// The gates, in order.
    pub fn as_slice(&self) -> &[SpelledGate]
        ensures { result.now ≡ self.now }
    {
        &self.items
    }

    /// Appends an entry. Where there is no memory nothing is changed.
    pub fn push(&mut self, item: DraftGate) -> Result<(), AllocError>
        ensures { MatchResult result (λ _. self.new ≡ self.old ++ item ∷ [])
            (λ _. self.new ≡ self.old) }
    {
        let gate = spelled(*self.items.allocator(), &item)?;
        self.push_spelled(gate)
    }

    /// Appends an entry that is spelled. Where there is no memory nothing is changed.
    pub fn push_spelled(&mut self, item: SpelledGate) -> Result<(), AllocError>
        ensures { MatchResult result (λ _. self.new ≡ self.old ++ item ∷ [])
            (λ _. self.new ≡ self.old) }
    {
        self.items.push(item)?;
        Ok(())
    }
}

/// Wires in order.
#[derive(Drop)]
pub struct Wires {
    items: Vec<Wire>,
}

impl Model for Wires {
    ghost use Rattle.std.specs.Prelude.{List};
    ghost use Rattle.lw_named_netlist.specs.declared.draft.Wire.{Wire};

    ghost Value = { List Wire };

    ghost view = { λ l. l.items.items };
}

impl Wires {
    /// No entries. Growth takes memory from `alloc`.
    pub fn new(alloc: Global) -> Self
        ensures { result ≡ [] }
    {
        Wires {
            items: Vec::new(alloc),
        }
    }

    /// The entries of a vector, without memory.
    pub fn from_vec(items: Vec<Wire>) -> Self
        ensures { result ≡ items.items }
    {
        Wires { items }
    }

    /// The entries, without memory.
    pub fn into_vec(self) -> Vec<Wire>
        ensures { result.items ≡ self }
    {
        self.items
    }

    /// How many wires there are.
    pub fn len(&self) -> usize
        ensures { result ≡ length self.now }
    {
        self.items.len()
    }

    /// Whether there are no wires.
    pub fn is_empty(&self) -> bool
        ensures { IsTrue result ↔ (self.now ≡ []) }
    {
        self.items.is_empty()
    }

    /// The wires, in order.
    pub fn as_slice(&self) -> &[Wire]
        ensures { result.now ≡ self.now }
    {
        &self.items
    }

    /// Appends an entry. Where there is no memory nothing is changed.
    pub fn push(&mut self, item: Wire) -> Result<(), AllocError>
        ensures { MatchResult result (λ _. self.new ≡ self.old ++ item ∷ [])
            (λ _. self.new ≡ self.old) }
    {
        self.items.push(item)?;
        Ok(())
    }
}

/// A netlist that is given by names: what its inputs, gates and wires drive, and which of these its
/// outputs are.
#[derive(Drop)]
pub struct GateDraft {
    pub model: Name,
    pub inputs: Names,
    pub outputs: Names,
    pub gates: DraftGates,
    pub wires: Wires,
}
