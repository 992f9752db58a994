// Values of nodes in the order in which they came, by levels.
use crate::stack::{Stack, short};
use lw_aig::Literal;
use lw_clauses::Cause;
use std::alloc::{AllocError, Global};

#[derive(Clone, Copy, Debug, PartialEq, Eq)]
pub(crate) enum Truth {
    Open,
    False,
    True,
}

#[derive(Debug, Drop)]
pub(crate) struct Trail {
    // By literal.
    truths: Vec<Truth>,
    // By node, where it has a value: its level, and the antecedent that forced it.
    levels: Vec<u32>,
    causes: Vec<Cause>,
    // The literals that are true, and how many there were as each level began.
    order: Stack,
    starts: Stack,
    // How many of them were spread.
    spread: usize,
}

impl Trail {
    pub(crate) fn new(alloc: Global) -> Self {
        Trail {
            truths: Vec::new(alloc),
            levels: Vec::new(alloc),
            causes: Vec::new(alloc),
            order: Stack::new(alloc),
            starts: Stack::new(alloc),
            spread: 0,
        }
    }

    // Makes room for the nodes of a graph.
    pub(crate) fn fit(&mut self, nodes: usize) -> Result<(), AllocError> {
        if self.levels.len() < nodes {
            self.truths.resize(nodes.saturating_mul(2), Truth::Open)?;
            self.levels.resize(nodes, 0)?;
            self.causes.resize(nodes, Cause::Free)?;
            self.order.fit(nodes)?;
            self.starts.fit(nodes.saturating_add(4))?;
        }
        Ok(())
    }

    #[inline]
    pub(crate) fn truth(&self, literal: Literal) -> Truth {
        self.truths
            .get(literal.0 as usize)
            .copied()
            .unwrap_or(Truth::Open)
    }

    pub(crate) fn cause(&self, node: u32) -> Cause {
        self.causes
            .get(node as usize)
            .copied()
            .unwrap_or(Cause::Free)
    }

    pub(crate) fn level_of(&self, node: u32) -> u32 {
        self.levels.get(node as usize).copied().unwrap_or(0)
    }

    // The level that is open now.
    pub(crate) fn level(&self) -> usize {
        self.starts.len()
    }

    // How many literals are true.
    pub(crate) fn len(&self) -> usize {
        self.order.len()
    }

    // The literal that became true at a place.
    pub(crate) fn get(&self, place: usize) -> Option<Literal> {
        let number = self.order.get(place)?;
        Some(Literal(number))
    }

    #[inline]
    fn write(&mut self, literal: Literal, truth: Truth) {
        if let Some(place) = self.truths.get_mut(literal.0 as usize) {
            *place = truth;
        }
    }

    // Makes a literal true: whether it may be.
    #[inline]
    pub(crate) fn put(&mut self, literal: Literal, cause: Cause) -> bool {
        match self.truth(literal) {
            Truth::True => true,
            Truth::False => false,
            Truth::Open => {
                self.add(literal, cause);
                true
            }
        }
    }

    // Makes a literal true that is open.
    fn add(&mut self, literal: Literal, cause: Cause) {
        self.write(literal, Truth::True);
        self.write(literal.flip(), Truth::False);
        let level = short(self.starts.len());
        if let Some(place) = self.levels.get_mut(literal.node() as usize) {
            *place = level;
        }
        if let Some(place) = self.causes.get_mut(literal.node() as usize) {
            *place = cause;
        }
        self.order.push(literal.0);
    }

    // The next literal to spread.
    #[inline]
    pub(crate) fn next(&mut self) -> Option<Literal> {
        let literal = self.get(self.spread)?;
        self.spread = self.spread.wrapping_add(1);
        Some(literal)
    }

    // Begins a level.
    pub(crate) fn rise(&mut self) {
        let count = short(self.order.len());
        self.starts.push(count);
    }

    // Takes back the literals from a place on.
    fn take_back(&mut self, place: usize) {
        for at in place..self.order.len() {
            if let Some(literal) = self.get(at) {
                self.write(literal, Truth::Open);
                self.write(literal.flip(), Truth::Open);
            }
        }
        self.order.cut(place);
        self.spread = self.spread.min(place);
    }

    // Goes back to a level.
    pub(crate) fn back(&mut self, level: usize) {
        if let Some(start) = self.starts.get(level) {
            self.take_back(start as usize);
            self.starts.cut(level);
        }
    }

    // Takes back all.
    pub(crate) fn clear(&mut self) {
        self.take_back(0);
        self.starts.cut(0);
    }
}
