// What a sweep begins with.
ghost use Rattle.std.specs.Prelude.{◌≡◌, ◌^◌, ◌<◌, IfOk};
ghost use Rattle.lw_aig.specs.Aigs.{IsAig};
ghost use Rattle.lw_sweep.specs.Sweeps.{AreStanding, inputs_alone};

use crate::classes::Classes;
use crate::forms::Forms;
use crate::parity::Parity;
use crate::patterns::Patterns;
use lw_aig::{Aig, Gate, Literal};
use std::alloc::{AllocError, Global};

// The graph of the constant and some inputs.
pub(crate) fn graph_of_inputs(alloc: Global, inputs: u32) -> Result<Aig, AllocError>
    requires { inputs < 2 ^ 31 }
    ensures { IfOk result (λ aig. aig ≡ inputs_alone inputs) }
{
    let mut aig = Aig::new(alloc)?;
    for _ in 0..inputs {
        aig.push_input()?;
    }
    Ok(aig)
}

// By node, its own literal.
pub(crate) fn themselves(alloc: Global, gates: &[Gate]) -> Result<Vec<Literal>, AllocError>
    requires { IsAig gates.now }
    ensures { IfOk result (λ stands. AreStanding gates.now stands.items) }
{
    let mut stands = Vec::new(alloc);
    for node in 0..gates.len() {
        stands.push(Literal::of(node as u32))?;
    }
    Ok(stands)
}

// Patterns and classes of the constant and some inputs.
pub(crate) fn candidates(alloc: Global, inputs: u32) -> Result<(Patterns, Classes), AllocError> {
    let mut patterns = Patterns::new(alloc);
    let mut classes = Classes::new(alloc)?;
    patterns.push_zero()?;
    classes.push(alloc)?;
    classes.enter(0, patterns.signature(0));
    for input in 0..inputs {
        patterns.push_input()?;
        let node = input.wrapping_add(1);
        classes.push(alloc)?;
        classes.enter(node, patterns.signature(node));
    }
    Ok((patterns, classes))
}

// The inputs as sums.
pub(crate) fn input_sums(
    alloc: Global,
    inputs: u32,
    patterns: &Patterns,
) -> Result<(Parity, Forms), AllocError> {
    let mut parity = Parity::new(alloc, inputs)?;
    let mut forms = Forms::new(alloc);
    for input in 0..inputs {
        parity.push_input(patterns, input.wrapping_add(1))?;
        forms.push_input(input)?;
    }
    Ok((parity, forms))
}
