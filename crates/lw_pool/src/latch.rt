ghost use Rattle.std.specs.Prelude.{◌≡◌, ◌++◌, [], ◌∷◌, ◌↔◌, length, IsTrue, MatchResult};

use crate::{Name, Names};
use std::alloc::{AllocError, Global};
use std::marker::Model;

/// A latch of BLIF's `.latch`: the net that it stores, the signal that it gives, and the words
/// behind these on its line, which are its kind, its control and its initial value.
#[derive(Drop)]
pub struct Latch {
    pub input: Name,
    pub output: Name,
    pub rest: Names,
}

/// What stands around the combinational part of a circuit: how many inputs and outputs the circuit
/// itself has, and its latches.
///
/// The combinational part has the circuit's inputs and then the latches' outputs as its inputs; its
/// outputs are the circuit's and then the nets that the latches read.
#[derive(Drop)]
pub struct Frame {
    pub inputs: u32,
    pub outputs: u32,
    pub latches: Latches,
}

/// Latches in order.
#[derive(Drop)]
pub struct Latches {
    items: Vec<Latch>,
}

impl Model for Latches {
    ghost use Rattle.std.specs.Prelude.{List};
    ghost use Rattle.lw_pool.specs.declared.latch.Latch.{Latch};

    ghost Value = { List Latch };

    ghost view = { λ l. l.items.items };
}

impl Latches {
    /// No entries. Growth takes memory from `alloc`.
    pub fn new(alloc: Global) -> Self
        ensures { result ≡ [] }
    {
        Latches {
            items: Vec::new(alloc),
        }
    }

    /// The entries of a vector, without memory.
    pub fn from_vec(items: Vec<Latch>) -> Self
        ensures { result ≡ items.items }
    {
        Latches { items }
    }

    /// The entries, without memory.
    pub fn into_vec(self) -> Vec<Latch>
        ensures { result.items ≡ self }
    {
        self.items
    }

    /// How many latches there are.
    pub fn len(&self) -> usize
        ensures { result ≡ length self.now }
    {
        self.items.len()
    }

    /// Whether there are no latches.
    pub fn is_empty(&self) -> bool
        ensures { IsTrue result ↔ (self.now ≡ []) }
    {
        self.items.is_empty()
    }

    /// The latches, in order.
    pub fn as_slice(&self) -> &[Latch]
        ensures { result.now ≡ self.now }
    {
        &self.items
    }

    /// Appends an entry. If memory runs out, nothing is changed.
    pub fn push(&mut self, item: Latch) -> Result<(), AllocError>
        ensures { MatchResult result (λ _. self.new ≡ self.old ++ item ∷ [])
            (λ _. self.new ≡ self.old) }
    {
        self.items.push(item)?;
        Ok(())
    }
}
