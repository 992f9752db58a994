// What pins cost less than their cells: guesses, and tests of whether they may be trusted.
ghost use Rattle.std.specs.Prelude.{◌≡◌, ◌<◌, ◌≤◌, ◌-◌, ℕ, IfOk, IsTrue, length, replicate};
ghost use Rattle.std.specs.Prelude.{slice_index, slice_set};
ghost use Rattle.lw_laws.specs.Covers.{HasPins};
ghost use Rattle.lw_bounds.specs.Cuts.{IsCertifiedBy, IsGapCertified};
ghost use Rattle.lw_bounds.specs.HeightBounds.{AreFlat};
ghost use Rattle.lw_cost.specs.Least.{AreOfCells};
ghost use Rattle.lw_cost.specs.Goals.{HasFewPins};
ghost use Rattle.lw_bounds.specs.Shapes.{gaps_of};

use lw_cost::{Cost, pin_count};
use lw_pattern::Patterns;
use lw_pool::{CellId, PatId};
use std::alloc::{AllocError, Global};

// The cost of a pin at which its gap is guessed.
const PROBE: u64 = 1 << 61;

/// The gaps of the pins of a pattern, in units of cost; an empty list where `all` has none for it.
pub fn gaps_at<'a>(all: &'a [[u64; 16]], pat: PatId) -> &'a [u64]
    ensures { result.now ≡ gaps_of all.now pat.0 }
{
    match all.get(pat.0 as usize) {
        Some(gaps) => gaps,
        None => &[],
    }
}

/// The gap of a pin, by its number in the pattern; 0 where none is known.
pub(crate) fn gap_at(gaps: &[u64], pin: usize) -> u64
    ensures { result ≡ slice_index gaps.now pin }
{
    if pin < gaps.len() { gaps[pin] } else { 0 }
}

// What a cell costs by one pin alone: the others cost nothing.
fn value_alone<C: Cost>(cost: &C, cell: CellId, pins: usize, pin: usize, amount: u64) -> u64
    requires pins { HasFewPins (C.costs cost.now).pin_counts cell.0 pins }
    requires pin { pin < pins }
    ensures { result ≡ (C.costs cost.now).value cell.0 (slice_set (replicate pins 0) pin amount) }
{
    let mut costs = [0; 16];
    costs[pin] = amount;
    cost.value(cell, &costs[..pins])
}

/// The greatest `top` for which the cost says, without a call of `value`, that the gap of this one
/// pin is certified: the cell costs at least `top` by a pin of cost `top - gap`. 0 if none is
/// known. `pins` is how many pins the cell has.
fn known_at<C: Cost>(cost: &C, cell: CellId, pins: usize, pin: usize, gap: u64) -> u64
    requires has { HasPins (C.costs cost.now).pin_counts cell.0 pins }
    requires pin { pin < pins }
    ensures { (top : ℕ) → top ≤ result → top ≤ (C.costs cost.now).value cell.0
        (slice_set (replicate pins 0) pin (top - gap)) }
{
    let known = cost.known_up_to(cell, pins, pin, gap);
    if known < gap {
        return 0;
    }
    known
}

/// Whether the gap of this one pin is certified at `top`: the cell costs at least `top` if the pin
/// costs `top - gap` and the others nothing.
fn is_certified_at<C: Cost>(
    cost: &C,
    cell: CellId,
    pins: usize,
    pin: usize,
    gap: u64,
    top: u64,
) -> bool
    requires pins { HasFewPins (C.costs cost.now).pin_counts cell.0 pins }
    requires pin { pin < pins }
    ensures { IsTrue result → top ≤ (C.costs cost.now).value cell.0
        (slice_set (replicate pins 0) pin (top - gap)) }
{
    if top <= known_at(cost, cell, pins, pin, gap) {
        return true;
    }
    top <= value_alone(cost, cell, pins, pin, top.saturating_sub(gap))
}

/// The greatest `top` for which the gaps of all pins of a cell are certified without a call of
/// `value`, `u64::MAX` for a cell without pins.
fn known_by<C: Cost>(cost: &C, cell: CellId, pins: usize, gaps: &[u64]) -> u64
    requires has { HasPins (C.costs cost.now).pin_counts cell.0 pins }
    ensures { (top : ℕ) → top ≤ result →
        IsGapCertified (C.costs cost.now) cell.0 pins gaps.now top }
{
    let mut known = u64::MAX;
    for pin in 0..pins {
        known = known.min(known_at(cost, cell, pins, pin, gap_at(gaps, pin)));
    }
    known
}

/// Whether the gaps of all pins of a cell are certified at `top`.
pub fn is_certified<C: Cost>(cost: &C, cell: CellId, pins: usize, gaps: &[u64], top: u64) -> bool
    requires { HasFewPins (C.costs cost.now).pin_counts cell.0 pins }
    ensures { IsTrue result → IsGapCertified (C.costs cost.now) cell.0 pins gaps.now top }
{
    for pin in 0..pins {
        if !is_certified_at(cost, cell, pins, pin, gap_at(gaps, pin), top) {
            return false;
        }
    }
    true
}

/// Whether the gaps of all pins of a pattern are certified at `top`. Where they are, numbers below
/// `top` may cut a search.
pub fn is_certified_by<C: Cost>(
    pats: &Patterns,
    cost: &C,
    gaps: &[[u64; 16]],
    pat: PatId,
    top: u64,
) -> bool
    requires of_cells { AreOfCells (C.costs cost.now).pin_counts pats.now }
    requires pat { pat.0 < length pats.now }
    ensures { IsTrue result → IsCertifiedBy (C.costs cost.now) pats.now gaps.now pat.0 top }
{
    let pattern = pats.get(pat);
    let pins = pin_count(pattern.nodes.as_slice());
    let own = gaps_at(gaps, pat);
    is_certified(cost, pattern.cell, pins, own, top)
}

/// The greatest `top` for which the gaps of a pattern's pins are certified without a call of
/// `value`.
pub fn known_of<C: Cost>(pats: &Patterns, cost: &C, gaps: &[[u64; 16]], pat: PatId) -> u64
    requires of_cells { AreOfCells (C.costs cost.now).pin_counts pats.now }
    requires pat { pat.0 < length pats.now }
    ensures { (top : ℕ) → top ≤ result →
        IsCertifiedBy (C.costs cost.now) pats.now gaps.now pat.0 top }
{
    let pattern = pats.get(pat);
    let pins = pin_count(pattern.nodes.as_slice());
    let own = gaps_at(gaps, pat);
    known_by(cost, pattern.cell, pins, own)
}

// The gap of each pin of a cell, guessed at one cost of the pin, `PROBE`. A search tests a guess
// before it cuts by it, so nothing rests on a guess.
fn guesses<C: Cost>(cost: &C, cell: CellId, pins: usize) -> [u64; 16]
    requires { HasFewPins (C.costs cost.now).pin_counts cell.0 pins }
{
    let mut gaps = [0; 16];
    for pin in 0..pins {
        gaps[pin] = value_alone(cost, cell, pins, pin, PROBE).saturating_sub(PROBE);
    }
    gaps
}

/// Gaps of 0 for all pins of all patterns, as heights have them.
pub(crate) fn no_gaps(alloc: Global, pats: &Patterns) -> Result<Vec<[u64; 16]>, AllocError>
    ensures { IfOk result (λ all. AreFlat all.items) }
{
    let gaps = vec![in alloc; [0; 16]; pats.len() as usize]?;
    Ok(gaps)
}

/// The gaps of the pins of each pattern. They are guessed once for the patterns of a cell, which
/// stand together.
pub(crate) fn all_guesses<C: Cost>(
    alloc: Global,
    pats: &Patterns,
    cost: &C,
) -> Result<Vec<[u64; 16]>, AllocError>
    requires { AreOfCells (C.costs cost.now).pin_counts pats.now }
{
    let mut all = Vec::with_capacity(alloc, pats.len() as usize)?;
    let mut last = None;
    let mut gaps = [0; 16];
    for number in 0..pats.len() {
        let pattern = pats.get(PatId(number));
        if last != Some(pattern.cell) {
            gaps = guesses(cost, pattern.cell, pin_count(pattern.nodes.as_slice()));
            last = Some(pattern.cell);
        }
        all.push(gaps)?;
    }
    Ok(all)
}
