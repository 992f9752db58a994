// Where conjunctions stand, by their literals: an open table of nodes. Nothing is kept of it, since
// each entry is looked at before it is believed.
ghost use Rattle.std.specs.Prelude.{◌≡◌, ◌↔◌, ◌^◌, ◌≤◌, length, IsTrue, IfSome};
ghost use Rattle.lw_aig.specs.declared.gate.Gate.TheVariants.{And};
ghost use Rattle.lw_aig.specs.Lookups.{IsGateOf};

use crate::{Gate, Literal};
use std::alloc::{AllocError, Global};

// The slots that a new table has. Their number is always a power of 2.
const FIRST_SLOTS: usize = 1024;

#[derive(Debug, Drop)]
pub(crate) struct Places {
    slots: Vec<u32>,
    used: usize,
}

// Where to look first for a conjunction, among some slots.
fn first_slot(left: Literal, right: Literal, slots: usize) -> usize {
    let key = (left.0 as u64) << 32 | right.0 as u64;
    let mixed = key.wrapping_mul(0x9e37_79b9_7f4a_7c15);
    (mixed >> 20) as usize & slots.wrapping_sub(1)
}

// Whether a gate is the conjunction of two literals.
fn joins(gate: &Gate, left: Literal, right: Literal) -> bool
    ensures { IsTrue result ↔ (gate.now ≡ And left right) }
{
    match gate {
        Gate::And(a, b) => *a == left && *b == right,
        _ => false,
    }
}

// Puts a node into the first free slot from its own on.
fn put_in(slots: &mut [u32], left: Literal, right: Literal, node: u32) {
    let mask = slots.len().wrapping_sub(1);
    let mut at = first_slot(left, right, slots.len());
    for _ in 0..slots.len() {
        if let Some(slot) = slots.get_mut(at) {
            if *slot == 0 {
                *slot = node;
                return;
            }
        }
        at = at.wrapping_add(1) & mask;
    }
}

impl Places {
    pub(crate) fn new(alloc: Global) -> Result<Self, AllocError> {
        Ok(Places {
            slots: vec![in alloc; 0; FIRST_SLOTS]?,
            used: 0,
        })
    }

    // The node of a conjunction, if it is found.
    pub(crate) fn find(&self, gates: &[Gate], left: Literal, right: Literal) -> Option<u32>
        ensures { IfSome result (IsGateOf gates.now left right) }
    {
        let mask = self.slots.len().wrapping_sub(1);
        let mut at = first_slot(left, right, self.slots.len());
        for _ in 0..self.slots.len() {
            let node = self.slots.get(at).copied()?;
            if node == 0 {
                return None;
            }
            if let Some(gate) = gates.get(node as usize) {
                if joins(gate, left, right) {
                    return Some(node);
                }
            }
            at = at.wrapping_add(1) & mask;
        }
        None
    }

    // Twice as many slots, where half of them are full.
    pub(crate) fn make_room(&mut self, alloc: Global, gates: &[Gate]) -> Result<(), AllocError>
        requires { length gates.now ≤ 2 ^ 31 }
    {
        if self.used < self.slots.len() / 2 {
            return Ok(());
        }
        let mut slots = vec![in alloc; 0; self.slots.len().saturating_mul(2)]?;
        for (node, gate) in gates.iter().enumerate() {
            if let Gate::And(left, right) = gate {
                put_in(&mut slots, *left, *right, node as u32);
            }
        }
        self.slots = slots;
        Ok(())
    }

    // Notes where a conjunction stands.
    pub(crate) fn put(&mut self, left: Literal, right: Literal, node: u32) {
        put_in(&mut self.slots, left, right, node);
        self.used = self.used.saturating_add(1);
    }
}
