// Sums of inputs modulo 2 in one form: a sum is split in two at the highest bit in which the
// numbers of its inputs differ.
use lw_aig::Literal;
use std::alloc::{AllocError, Global};

// The lowest and the highest input of a sum, the literal that is the sum, and the literals of its
// halves. There is none where the lowest is above the highest.
#[derive(Clone, Copy, Debug)]
struct Form {
    low: u32,
    high: u32,
    literal: Literal,
    halves: Halves,
}

// The inputs of a sum whose numbers have a bit off, and those whose numbers have it on.
#[derive(Clone, Copy, Debug)]
pub(crate) struct Halves {
    pub left: Literal,
    pub right: Literal,
}

const NO_HALVES: Halves = Halves {
    left: Literal(0),
    right: Literal(0),
};

const NONE: Form = Form {
    low: 1,
    high: 0,
    literal: Literal(0),
    halves: NO_HALVES,
};

#[derive(Debug, Drop)]
pub(crate) struct Forms {
    // By node.
    forms: Vec<Form>,
}

impl Forms {
    pub(crate) fn new(alloc: Global) -> Self {
        Forms {
            forms: Vec::new(alloc),
        }
    }

    // Makes room for the nodes of a graph.
    pub(crate) fn fit(&mut self, nodes: usize) -> Result<(), AllocError> {
        if self.forms.len() < nodes {
            self.forms.resize(nodes, NONE)?;
        }
        Ok(())
    }

    fn form(&self, literal: Literal) -> Form {
        self.forms
            .get(literal.node() as usize)
            .copied()
            .unwrap_or(NONE)
    }

    fn write(&mut self, form: Form) {
        if let Some(place) = self.forms.get_mut(form.literal.node() as usize) {
            *place = form;
        }
    }

    // Whether the node of a literal is a sum in this form, or the complement of one.
    pub(crate) fn has(&self, literal: Literal) -> bool {
        let form = self.form(literal);
        form.low <= form.high
    }

    // The sum that a node, or its complement, is.
    pub(crate) fn sum(&self, node: u32) -> Literal {
        self.form(Literal(node.wrapping_mul(2))).literal
    }

    // Takes the next input.
    pub(crate) fn push_input(&mut self, input: u32) -> Result<(), AllocError> {
        let node = input.wrapping_add(1);
        self.fit((node as usize).wrapping_add(1))?;
        self.write(Form {
            low: input,
            high: input,
            literal: Literal(node.wrapping_mul(2)),
            halves: NO_HALVES,
        });
        Ok(())
    }

    // Takes the literal of the sum of two sums that are its halves.
    pub(crate) fn put(&mut self, literal: Literal, one: Literal, other: Literal) {
        let (a, b) = (self.form(one), self.form(other));
        let (left, right) = if a.low < b.low {
            (one, other)
        } else {
            (other, one)
        };
        self.write(Form {
            low: a.low.min(b.low),
            high: a.high.max(b.high),
            literal,
            halves: Halves { left, right },
        });
    }

    // The highest bit in which the numbers of the inputs of two sums differ.
    pub(crate) fn bit(&self, one: Literal, other: Literal) -> u32 {
        let (a, b) = (self.form(one), self.form(other));
        let low = a.low.min(b.low);
        let high = a.high.max(b.high);
        31u32.saturating_sub((low ^ high).leading_zeros())
    }

    // The halves of a sum at a bit, above which the numbers of its inputs do not differ.
    pub(crate) fn halves(&self, sum: Literal, bit: u32) -> Halves {
        let form = self.form(sum);
        let low = form.low >> (bit & 31) & 1;
        let high = form.high >> (bit & 31) & 1;
        if low != high {
            return form.halves;
        }
        let mut halves = NO_HALVES;
        if low == 0 {
            halves.left = sum;
        } else {
            halves.right = sum;
        }
        halves
    }
}
