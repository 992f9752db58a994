// Pairs of all forms that have one node.
ghost use Rattle.std.specs.Prelude.{◌≤◌, length, OnOk};
ghost use Rattle.lw_form.specs.Limits.{most_bases};
ghost use Rattle.lw_laws.specs.NumberedForms.{NumberedForms};
ghost use Rattle.lw_links.specs.Linked.{IsLinked, TellPairs};

use crate::literals::form_literals;
use crate::pairing::pair_of;
use lw_aig::Literal;
use lw_form::Forms;
use lw_sweep::{Limits, Sweep};
use std::alloc::{AllocError, Global};

/// What was done to find pairs. Nothing is promised of these numbers.
#[derive(Clone, Copy, Debug, PartialEq, Eq)]
pub struct Counts {
    /// How many pairs of nodes were found equal, were told apart, and were left.
    pub equal: u64,
    pub apart: u64,
    pub open: u64,
    /// How many conflicts the searches had.
    pub conflicts: u64,
    /// How many pairs of forms there are now.
    pub links: u64,
}

// The base form of a node that has none yet.
const NONE: u32 = u32::MAX;

// Links a base form to the first one whose literal is of its node; nothing is believed of `first`.
fn link_base(
    forms: &mut Forms,
    literals: &[Literal],
    first: &mut [u32],
    b: u32,
) -> Result<(), AllocError>
    requires tell { TellPairs forms.old literals.now }
    requires few { length literals.now ≤ most_bases }
    ensures { (before : NumberedForms) → IsLinked before forms.old → TellPairs before literals.now →
        OnOk result (IsLinked before forms.new) }
{
    if forms.is_full() {
        return Ok(());
    }
    match pair_of(literals, noted(literals, first, b), b) {
        Some(pair) => forms.link(pair.left, pair.right),
        None => Ok(()),
    }
}

// The base form that was noted for the node of another one, which is noted where none was.
fn noted(literals: &[Literal], first: &mut [u32], b: u32) -> u32 {
    let Some(literal) = literals.get(b as usize) else {
        return NONE;
    };
    let Some(place) = first.get_mut(literal.node() as usize) else {
        return NONE;
    };
    let before = *place;
    if before == NONE {
        *place = b;
    }
    before
}

// Links each base form to the first one whose literal is of its node.
fn link_all(
    alloc: Global,
    forms: &mut Forms,
    literals: &[Literal],
    nodes: usize,
) -> Result<(), AllocError>
    requires tell { TellPairs forms.old literals.now }
    requires few { length literals.now ≤ most_bases }
    ensures { OnOk result (IsLinked forms.old forms.new) }
{
    let mut first = vec![in alloc; NONE; nodes]?;
    'bases: for b in 0..forms.len() {
        link_base(forms, literals, &mut first, b)?;
    }
    Ok(())
}

// The work of a sweep.
fn work_of(sweep: &Sweep) -> Counts {
    let counts = sweep.counts();
    Counts {
        equal: counts.equal,
        apart: counts.apart,
        open: counts.open,
        conflicts: sweep.conflicts(),
        links: 0,
    }
}

/// Adds a pair for each base form that has the value of an earlier one, or of its complement, as
/// far as these limits allow to find out.
///
/// Which pairs are found is not promised. Each pair has one value under every assignment. It is of
/// the first base form with the value of a node, and of a later one.
pub fn link_equal_forms(
    alloc: Global,
    forms: &mut Forms,
    limits: Limits,
) -> Result<Counts, AllocError>
    ensures { OnOk result (IsLinked forms.old forms.new) }
{
    let before = forms.nets();
    let mut sweep = Sweep::new(alloc, forms.inputs(), limits)?;
    let literals = form_literals(&mut sweep, alloc, forms)?;
    let nodes = sweep.aig().gates().len();
    let mut counts = work_of(&sweep);
    drop(sweep);
    link_all(alloc, forms, &literals, nodes)?;
    counts.links = u64::from(forms.nets().wrapping_sub(before));
    Ok(counts)
}
