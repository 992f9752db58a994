// The classes of forms: pairs of classes are numbered by their first base forms.
ghost use Rattle.std.specs.Prelude.{◌<◌, ◌^◌, length, IfOk};
ghost use Rattle.lw_reduce.specs.ClassNumbers.{AreAllClasses};
ghost use Rattle.lw_reduce.specs.Representatives.{IsLower};

use crate::representatives::rep_of;
use std::alloc::{AllocError, Global};

/// The class of each base form, and how many pairs of a class and its complement there are.
#[derive(Drop)]
pub(crate) struct Numbered {
    pub(crate) forms: Vec<u32>,
    pub(crate) pairs: u32,
}

/// Numbers the classes of base forms: a base form that is its own representative has the next pair.
pub(crate) fn number(alloc: Global, reps: &[u32]) -> Result<Numbered, AllocError>
    requires few { length reps.now < 2 ^ 31 }
    requires lower { IsLower reps.now }
    ensures { IfOk result (λ n. AreAllClasses reps.now n.forms.items n.pairs) }
{
    let mut forms = Vec::with_capacity(alloc, reps.len())?;
    let mut pairs = 0;
    for base in 0..reps.len() {
        let up = reps[base];
        if up == base as u32 * 2 {
            forms.push(pairs * 2)?;
            pairs += 1;
        } else {
            forms.push(rep_of(&forms, up))?;
        }
    }
    Ok(Numbered { forms, pairs })
}
