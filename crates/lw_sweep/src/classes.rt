// Nodes by the hash of their signature: by slot the last node of a chain, by node the one before
// it.
use std::alloc::{AllocError, Global};

// How many slots a new table has. Their number is always a power of 2.
const FIRST_SLOTS: usize = 1024;

#[derive(Debug, Drop)]
pub(crate) struct Classes {
    slots: Vec<u32>,
    before: Vec<u32>,
    signatures: Vec<u64>,
    nodes: usize,
}

// A node that is none.
const NONE: u32 = u32::MAX;

impl Classes {
    pub(crate) fn new(alloc: Global) -> Result<Self, AllocError> {
        Ok(Classes {
            slots: vec![in alloc; NONE; FIRST_SLOTS]?,
            before: Vec::new(alloc),
            signatures: Vec::new(alloc),
            nodes: 0,
        })
    }

    fn slot(&self, signature: u64) -> usize {
        signature as usize & self.slots.len().wrapping_sub(1)
    }

    // The first node of a signature from this one back.
    fn settle(&self, from: u32, signature: u64) -> Option<u32> {
        let mut node = from;
        for _ in 0..self.before.len() {
            if node == NONE {
                return None;
            }
            if self.signatures.get(node as usize).copied()? == signature {
                return Some(node);
            }
            node = self.before.get(node as usize).copied()?;
        }
        None
    }

    // The last node of a signature.
    pub(crate) fn last(&self, signature: u64) -> Option<u32> {
        let from = self.slots.get(self.slot(signature)).copied()?;
        self.settle(from, signature)
    }

    // The node of its signature before a node.
    pub(crate) fn earlier(&self, node: u32, signature: u64) -> Option<u32> {
        let from = self.before.get(node as usize).copied()?;
        self.settle(from, signature)
    }

    // Puts a node at the head of its chain.
    fn chain(&mut self, node: u32, signature: u64) {
        let at = self.slot(signature);
        let head = self.slots.get(at).copied().unwrap_or(NONE);
        if let Some(before) = self.before.get_mut(node as usize) {
            *before = head;
        }
        if let Some(slot) = self.slots.get_mut(at) {
            *slot = node;
        }
    }

    // Takes the next node, in no class.
    pub(crate) fn push(&mut self, alloc: Global) -> Result<(), AllocError> {
        if self.nodes >= self.slots.len() {
            self.grow(alloc)?;
        }
        self.nodes = self.nodes.wrapping_add(1);
        self.before.push(NONE)?;
        self.signatures.push(0)?;
        Ok(())
    }

    // Takes a node into the class of its signature.
    pub(crate) fn enter(&mut self, node: u32, signature: u64) {
        if let Some(place) = self.signatures.get_mut(node as usize) {
            *place = signature;
        }
        self.chain(node, signature);
    }

    // Takes twice as many slots, and chains anew what stands in classes.
    fn grow(&mut self, alloc: Global) -> Result<(), AllocError> {
        let size = self.slots.len().saturating_mul(2);
        self.slots = vec![in alloc; NONE; size]?;
        for place in 0..self.signatures.len() {
            let signature = self.signatures.get(place).copied().unwrap_or(0);
            if signature != 0 {
                self.chain(u32::try_from(place).unwrap_or(NONE), signature);
            }
        }
        Ok(())
    }
}
