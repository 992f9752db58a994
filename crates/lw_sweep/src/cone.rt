// What a conjunction is made of, down to sums of inputs.
use crate::forms::Forms;
use lw_aig::{Gate, Literal};
use std::alloc::{AllocError, Global};

// How many nodes it has at most, and how many sums.
const MOST_INNER: usize = 512;

const MOST_LEAVES: usize = 63;

// The nodes of a cone: those that are no sums, and sums.
#[derive(Debug, Drop)]
pub(crate) struct Cone {
    pub inner: Vec<u32>,
    pub leaves: Vec<u32>,
    // By node, a literal for it, or its own.
    images: Vec<(u32, Literal)>,
}

impl Cone {
    pub(crate) fn new(alloc: Global) -> Self {
        Cone {
            inner: Vec::new(alloc),
            leaves: Vec::new(alloc),
            images: Vec::new(alloc),
        }
    }

    // Meets a node: whether there was room.
    fn meet(&mut self, forms: &Forms, literal: Literal) -> Result<bool, AllocError> {
        let node = literal.node();
        if self.inner.contains(&node) || self.leaves.contains(&node) {
            return Ok(true);
        }
        if forms.has(literal) {
            self.leaves.push(node)?;
        } else {
            self.inner.push(node)?;
        }
        Ok(self.leaves.len() <= MOST_LEAVES && self.inner.len() <= MOST_INNER)
    }

    // Takes the nodes below a node, which comes first: whether all were taken.
    pub(crate) fn reach(
        &mut self,
        gates: &[Gate],
        forms: &Forms,
        node: u32,
    ) -> Result<bool, AllocError> {
        self.inner.push(node)?;
        for place in 0..MOST_INNER {
            let Some(node) = self.inner.get(place).copied() else {
                break;
            };
            let fine = match gates.get(node as usize) {
                Some(Gate::And(a, b)) => self.meet(forms, *a)? && self.meet(forms, *b)?,
                _ => node == 0,
            };
            if !fine {
                return Ok(false);
            }
        }
        Ok(true)
    }

    // The literal for a literal.
    pub(crate) fn image(&self, literal: Literal) -> Literal {
        for (node, image) in &self.images {
            if *node == literal.node() {
                return if literal.0 % 2 == 1 {
                    image.flip()
                } else {
                    *image
                };
            }
        }
        literal
    }

    // Takes a literal for a node.
    pub(crate) fn put_image(&mut self, node: u32, image: Literal) -> Result<(), AllocError> {
        self.images.push((node, image))?;
        Ok(())
    }
}
