// A clause that a conflict was traced back to, and the antecedents on the way.
use lw_aig::Literal;
use lw_clauses::Cause;
use std::alloc::{AllocError, Global};

#[derive(Debug, Drop)]
pub(crate) struct Lesson {
    pub clause: Vec<Literal>,
    pub hints: Vec<Cause>,
    // The nodes that were met, and by node whether it was.
    met: Vec<u32>,
    seen: Vec<bool>,
}

impl Lesson {
    pub(crate) fn new(alloc: Global) -> Self {
        Lesson {
            clause: Vec::new(alloc),
            hints: Vec::new(alloc),
            met: Vec::new(alloc),
            seen: Vec::new(alloc),
        }
    }

    // Makes room for the nodes of a graph.
    pub(crate) fn fit(&mut self, nodes: usize) -> Result<(), AllocError> {
        if self.seen.len() < nodes {
            self.seen.resize(nodes, false)?;
        }
        Ok(())
    }

    // Begins anew.
    pub(crate) fn clear(&mut self) {
        self.clause.clear();
        self.hints.clear();
    }

    pub(crate) fn has(&self, node: u32) -> bool {
        self.seen.get(node as usize).copied().unwrap_or(false)
    }

    // Meets a node: whether for the first time.
    pub(crate) fn meet(&mut self, node: u32) -> Result<bool, AllocError> {
        if self.has(node) {
            return Ok(false);
        }
        if let Some(seen) = self.seen.get_mut(node as usize) {
            *seen = true;
        }
        self.met.push(node)?;
        Ok(true)
    }

    // Forgets which nodes were met, and turns the antecedents into the order of the trail.
    pub(crate) fn end(&mut self) {
        for node in &self.met {
            if let Some(seen) = self.seen.get_mut(*node as usize) {
                *seen = false;
            }
        }
        self.met.clear();
        self.hints.reverse();
    }
}
