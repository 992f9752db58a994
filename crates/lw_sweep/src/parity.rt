// Which nodes look like sums of inputs modulo 2, by their values in the patterns. A sum and its
// complement are one here.
use crate::patterns::{BASE, Patterns};
use crate::rows::Rows;
use lw_aig::Literal;
use std::alloc::{AllocError, Global};

// With more inputs nothing is looked at.
const MOST_INPUTS: u32 = 1024;

// How many of the first 192 values of such a sum are true: 96, and seldom far from it.
const FEWEST: u32 = 58;

const MOST: u32 = 134;

#[derive(Debug, Drop)]
pub(crate) struct Parity {
    inputs: Rows,
    // Whether all inputs are taken.
    whole: bool,
    // The values of what is looked at.
    values: Vec<u64>,
}

// By leaf, the leaves that are free and of which it is the sum, a bit for each, or 0 where it is
// free itself; and the same of a conjunction.
#[derive(Debug, Drop)]
pub(crate) struct Sums {
    pub leaves: Vec<u64>,
    pub all: u64,
}

impl Parity {
    pub(crate) fn new(alloc: Global, inputs: u32) -> Result<Self, AllocError> {
        Ok(Parity {
            inputs: Rows::new(alloc),
            whole: inputs <= MOST_INPUTS,
            values: vec![in alloc; 0; BASE]?,
        })
    }

    // The values of a conjunction, turned so that the first is false.
    fn look(&mut self, patterns: &Patterns, left: Literal, right: Literal) {
        let first = patterns.conjunction(left, right, 0) & 1;
        let turn = if first == 1 { u64::MAX } else { 0 };
        for (k, value) in self.values.iter_mut().enumerate() {
            *value = patterns.conjunction(left, right, k) ^ turn;
        }
    }

    // Takes the next input.
    pub(crate) fn push_input(&mut self, patterns: &Patterns, node: u32) -> Result<(), AllocError> {
        if !self.whole {
            return Ok(());
        }
        let literal = Literal(node.wrapping_mul(2));
        self.look(patterns, literal, literal);
        self.inputs.reduce(&mut self.values);
        self.inputs.push(&self.values, 0)?;
        Ok(())
    }

    // Whether a conjunction looks like a sum of inputs.
    pub(crate) fn is_sum(&mut self, patterns: &Patterns, left: Literal, right: Literal) -> bool {
        let mut ones = 0u32;
        for k in 0..3usize {
            ones = ones.wrapping_add(patterns.conjunction(left, right, k).count_ones());
        }
        if !self.whole || ones < FEWEST || ones > MOST {
            return false;
        }
        self.look(patterns, left, right);
        self.inputs.reduce(&mut self.values);
        self.values.iter().all(|value| *value == 0)
    }

    // Which leaves are sums of others, and of which a conjunction is one, if it is one.
    pub(crate) fn sums(
        &mut self,
        alloc: Global,
        patterns: &Patterns,
        leaves: &[u32],
        left: Literal,
        right: Literal,
    ) -> Result<Option<Sums>, AllocError> {
        let mut rows = Rows::new(alloc);
        let mut sums = Vec::new(alloc);
        for (k, leaf) in leaves.iter().enumerate() {
            let literal = Literal(leaf.wrapping_mul(2));
            self.look(patterns, literal, literal);
            let sum = rows.reduce(&mut self.values);
            let more = rows.push(&self.values, sum ^ 1u64 << (k & 63))?;
            sums.push(if more { 0 } else { sum })?;
        }
        self.look(patterns, left, right);
        let all = rows.reduce(&mut self.values);
        if self.values.iter().any(|value| *value != 0) {
            return Ok(None);
        }
        Ok(Some(Sums { leaves: sums, all }))
    }
}
