ghost use Rattle.std.specs.Prelude.{◌≡◌, ◌<◌, ◌++◌, [], ◌∷◌, ◌↔◌, length, IsTrue, IfOk, IfSome};
ghost use Rattle.std.specs.Prelude.{OnErr};

use crate::places::Places;
use crate::{Gate, Literal};
use std::alloc::{AllocError, Global};
use std::marker::Model;

/// How many nodes there are at most, so that each literal has 32 bits.
const MOST_NODES: usize = 2147483648;

/// An and-inverter graph. Node 0 is the constant false.
#[derive(Debug, Drop)]
pub struct Aig {
    gates: Vec<Gate>,
    places: Places,
}

impl Model for Aig {
    ghost use Rattle.std.specs.Prelude.{List};
    ghost use Rattle.lw_aig.specs.declared.gate.Gate.{Gate};
    ghost use Rattle.lw_aig.specs.Aigs.{IsAig};

    ghost Value = { List Gate };

    ghost view = { λ a. a.gates.items };

    ghost invariant = { λ a. IsAig a.gates.items };
}

impl Aig {
    ghost use Rattle.std.specs.Prelude.{◌≤◌};
    ghost use Rattle.lw_aig.specs.Aigs.{IsAig, IsBelow, most_nodes};
    ghost use Rattle.lw_aig.specs.Lookups.{IsGateOf};
    ghost use Rattle.lw_aig.specs.declared.gate.Gate.TheVariants.{Zero, Input, And};

    /// The constant alone.
    pub fn new(alloc: Global) -> Result<Self, AllocError>
        ensures { IfOk result (λ aig. aig ≡ Zero ∷ []) }
    {
        let places = Places::new(alloc)?;
        let gates = vec![in alloc; Gate::Zero]?;
        Ok(Aig { gates, places })
    }

    /// The gates, by node.
    pub fn gates(&self) -> &[Gate]
        ensures gates { result.now ≡ self.now }
        ensures kept { IsAig self.now }
    {
        &self.gates
    }

    /// Whether there is no room for a further node.
    pub fn is_full(&self) -> bool
        ensures { IsTrue result ↔ (most_nodes ≤ length self.now) }
    {
        self.gates.len() >= MOST_NODES
    }

    /// The node that is this conjunction. It may be there and not be found.
    pub fn find(&self, left: Literal, right: Literal) -> Option<u32>
        ensures { IfSome result (IsGateOf self.now left right) }
    {
        self.places.find(&self.gates, left, right)
    }

    /// Appends an input. If memory runs out, nothing is changed.
    pub fn push_input(&mut self) -> Result<(), AllocError>
        requires { length self.old < most_nodes }
        ensures ok { IfOk result (λ _. self.new ≡ self.old ++ Input ∷ []) }
        ensures err { OnErr result (self.new ≡ self.old) }
    {
        self.gates.push(Gate::Input)?;
        Ok(())
    }

    /// Appends a conjunction. If memory runs out, nothing is changed.
    pub fn push_and(
        &mut self,
        alloc: Global,
        left: Literal,
        right: Literal,
    ) -> Result<(), AllocError>
        requires room { length self.old < most_nodes }
        requires left { IsBelow (length self.old) left }
        requires right { IsBelow (length self.old) right }
        ensures ok { IfOk result (λ _. self.new ≡ self.old ++ And left right ∷ []) }
        ensures err { OnErr result (self.new ≡ self.old) }
    {
        self.places.make_room(alloc, &self.gates)?;
        let node = self.gates.len() as u32;
        self.gates.push(Gate::And(left, right))?;
        self.places.put(left, right, node);
        Ok(())
    }
}
