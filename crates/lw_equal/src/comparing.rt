// The comparison of two sides.
ghost use Rattle.std.specs.Prelude.{◌≡◌, ◌<◌, ◌^◌, None, All, IfOk, IfErr, OnOk, length};
ghost use Rattle.lw_sweep.specs.Sweeps.{IsExtended};
ghost use Rattle.lw_equal.specs.Answers.{HasFault, IsAnswer};
ghost use Rattle.lw_equal.specs.Cases.{Settles};
ghost use Rattle.lw_equal.specs.Known.{IsKnown};
ghost use Rattle.lw_equal.specs.Laid.{BeginsWith};
ghost use Rattle.lw_equal.specs.Pairs.{AreAllPairs, IsPair};
ghost use Rattle.lw_equal.specs.Ports.{first_port_fault};
ghost use Rattle.lw_equal.specs.Sides.{IsSide, inputs_of};

use crate::deciding::{Case, Effort, all_open, decide_all};
use crate::known::Known;
use crate::pairing::{Pair, all_pairs};
use crate::placing::{Laid, lay};
use crate::ports::compare_ports;
use crate::small::{NO_SEARCH, solve_small};
use crate::{Answer, Counts, Fault, Outcome, Side};
use lw_sweep::{Limits, Sweep};
use std::alloc::{AllocError, Global};

// How many inputs a graph has at most.
const MOST_INPUTS: usize = 2147483647;

// How many times the conflicts of other comparisons those of a point may have.
const EFFORT: u32 = 10;

// Nothing is looked for at a point.
const NO_EFFORT: Effort = Effort {
    tries: 0,
    conflicts: 0,
};

// What a sweep came to, and whether one with sums in one form may come to more.
#[derive(Drop)]
struct Attempt {
    outcome: Outcome,
    wants_sums: bool,
}

// No work on so many points.
fn no_work(points: usize) -> Counts {
    Counts {
        nodes: 0,
        equal: 0,
        apart: 0,
        open: 0,
        conflicts: 0,
        points: points as u64,
    }
}

// The work of a sweep on so many points.
fn work_of(sweep: &Sweep, points: usize) -> Counts {
    let counts = sweep.counts();
    Counts {
        nodes: sweep.aig().gates().len() as u64,
        equal: counts.equal,
        apart: counts.apart,
        open: counts.open,
        conflicts: sweep.conflicts(),
        points: points as u64,
    }
}

// How hard the nets of a point are looked at.
fn effort_of(limits: &Limits) -> Effort {
    let tries = limits.tries.saturating_mul(EFFORT);
    Effort {
        tries,
        conflicts: limits.conflicts.saturating_add(u64::from(tries)),
    }
}

// The same, or no effort where sums are to be brought to one form first.
fn effort_in(sweep: &Sweep, effort: Effort) -> Effort {
    if sweep.wants_sums() {
        NO_EFFORT
    } else {
        effort
    }
}

// The same limits, with sums in one form.
fn with_sums(limits: Limits) -> Limits {
    Limits {
        tries: limits.tries,
        conflicts: limits.conflicts,
        steps: limits.steps,
        sums: true,
    }
}

// Lays the networks that may help, as far as there is room.
fn lay_more(sweep: &mut Sweep, alloc: Global, one: &Known, more: &[Side]) -> Result<(), AllocError>
    requires known { IsKnown one.now }
    requires more { All IsSide more.now }
    requires inputs { BeginsWith sweep.old (length (inputs_of one.now.side.now.logic)) }
    ensures { IsExtended sweep.old sweep.new }
{
    'sides: for side in more {
        let laid = lay(sweep, alloc, one, side)?;
        drop(laid);
    }
    Ok(())
}

// Lays all networks and decides each pair.
fn solve_in(
    sweep: &mut Sweep,
    alloc: Global,
    one: &Known,
    other: &Side,
    more: &[Side],
    pairs: &[Pair],
    effort: Effort,
) -> Result<Answer, AllocError>
    requires known { IsKnown one.now }
    requires other { IsSide other.now }
    requires more { All IsSide more.now }
    requires pairs { All (IsPair one.now.side.now other.now) pairs.now }
    requires some { 0 < length pairs.now }
    requires inputs { BeginsWith sweep.old (length (inputs_of one.now.side.now.logic)) }
    ensures { IfOk result (Settles one.now.side.now other.now pairs.now) }
{
    let Some(left) = lay(sweep, alloc, one, one.side)? else {
        return Ok(Answer::Undecided(all_open(alloc, pairs)?));
    };
    lay_more(sweep, alloc, one, more)?;
    let Some(right) = lay(sweep, alloc, one, other)? else {
        return Ok(Answer::Undecided(all_open(alloc, pairs)?));
    };
    let case = Case {
        one,
        other,
        left: &left,
        right: &right,
    };
    let effort = effort_in(sweep, effort);
    decide_all(sweep, alloc, &case, pairs, effort)
}

// Decides each pair in a graph of its own, within these limits.
fn solve_within(
    alloc: Global,
    one: &Known,
    other: &Side,
    more: &[Side],
    pairs: &[Pair],
    limits: Limits,
) -> Result<Attempt, AllocError>
    requires known { IsKnown one.now }
    requires other { IsSide other.now }
    requires more { All IsSide more.now }
    requires pairs { All (IsPair one.now.side.now other.now) pairs.now }
    requires some { 0 < length pairs.now }
    requires few { length one.now.inputs.keys < 2 ^ 31 }
    ensures { IfOk result (λ attempt.
        Settles one.now.side.now other.now pairs.now attempt.outcome.answer) }
{
    let inputs = one.inputs.len();
    let mut sweep = Sweep::new(alloc, inputs as u32, limits)?;
    let effort = effort_of(&limits);
    let answer = solve_in(&mut sweep, alloc, one, other, more, pairs, effort)?;
    let open = matches!(&answer, Answer::Undecided(_));
    let counts = work_of(&sweep, pairs.len());
    Ok(Attempt {
        outcome: Outcome { answer, counts },
        wants_sums: open && sweep.wants_sums(),
    })
}

// Decides each pair with searches, in the end with sums in one form.
fn search(
    alloc: Global,
    one: &Known,
    other: &Side,
    more: &[Side],
    pairs: &[Pair],
    limits: Limits,
) -> Result<Outcome, AllocError>
    requires known { IsKnown one.now }
    requires other { IsSide other.now }
    requires more { All IsSide more.now }
    requires pairs { All (IsPair one.now.side.now other.now) pairs.now }
    requires some { 0 < length pairs.now }
    requires few { length one.now.inputs.keys < 2 ^ 31 }
    ensures { IfOk result (λ outcome.
        Settles one.now.side.now other.now pairs.now outcome.answer) }
{
    let first = solve_within(alloc, one, other, more, pairs, limits)?;
    if !first.wants_sums {
        return Ok(first.outcome);
    }
    drop(first);
    let last = solve_within(alloc, one, other, more, pairs, with_sums(limits))?;
    Ok(last.outcome)
}

// Decides each pair by all assignments, where the search left one undecided.
fn finish(
    alloc: Global,
    one: &Known,
    other: &Side,
    pairs: &[Pair],
    found: Outcome,
) -> Result<Outcome, AllocError>
    requires known { IsKnown one.now }
    requires other { IsSide other.now }
    requires pairs { All (IsPair one.now.side.now other.now) pairs.now }
    requires few { length one.now.inputs.keys < 2 ^ 31 }
    requires found { Settles one.now.side.now other.now pairs.now found.answer }
    ensures { IfOk result (λ outcome.
        Settles one.now.side.now other.now pairs.now outcome.answer) }
{
    let open = matches!(&found.answer, Answer::Undecided(_));
    if !open {
        return Ok(found);
    }
    let Some(answer) = solve_small(alloc, one, other, pairs)? else {
        return Ok(found);
    };
    let counts = found.counts;
    drop(found);
    Ok(Outcome { answer, counts })
}

// Decides each pair: by patterns alone, where they tell a pair apart, else with searches, and what
// these leave by all assignments.
fn solve(
    alloc: Global,
    one: &Known,
    other: &Side,
    more: &[Side],
    pairs: &[Pair],
    limits: Limits,
) -> Result<Outcome, AllocError>
    requires known { IsKnown one.now }
    requires other { IsSide other.now }
    requires more { All IsSide more.now }
    requires pairs { All (IsPair one.now.side.now other.now) pairs.now }
    ensures { IfOk result (λ outcome.
        Settles one.now.side.now other.now pairs.now outcome.answer) }
{
    if pairs.is_empty() {
        return Ok(Outcome {
            answer: Answer::Equal,
            counts: no_work(0),
        });
    }
    let inputs = one.inputs.len();
    if inputs > MOST_INPUTS {
        return Ok(Outcome {
            answer: Answer::Undecided(all_open(alloc, pairs)?),
            counts: no_work(pairs.len()),
        });
    }
    let seen = solve_within(alloc, one, other, &[], pairs, NO_SEARCH)?;
    if let Answer::Differ(_) = &seen.outcome.answer {
        return Ok(seen.outcome);
    }
    drop(seen);
    let found = search(alloc, one, other, more, pairs, limits)?;
    finish(alloc, one, other, pairs, found)
}

/// Compares two sides at each output, and at what each latch reads, within these limits; `more` may
/// help, and nothing is assumed of it.
///
/// It answers `Equal` only where both sides have the same value at each point under every
/// assignment, and `Differ` only with an assignment under which they differ, as both are read. The
/// error is the first port that only one of two networks has, or that memory ran out.
pub fn compare(
    alloc: Global,
    one: &Side,
    other: &Side,
    more: &[Side],
    limits: Limits,
) -> Result<Outcome, Fault>
    requires one { IsSide one.now }
    requires other { IsSide other.now }
    requires more { All IsSide more.now }
    ensures answer { IfOk result (λ outcome. IsAnswer one.now other.now outcome.answer) }
    ensures ports { OnOk result (first_port_fault one.now other.now more.now ≡ None) }
    ensures fault { IfErr result (HasFault one.now other.now more.now) }
{
    let first = Known::of(alloc, one)?;
    let second = Known::of(alloc, other)?;
    compare_ports(alloc, &first, &second, more)?;
    let pairs = all_pairs(alloc, &first, &second)?;
    let outcome = solve(alloc, &first, other, more, &pairs, limits)?;
    Ok(outcome)
}
