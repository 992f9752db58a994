// Sides of few inputs, by all assignments.
ghost use Rattle.std.specs.Prelude.{◌≡◌, ◌^◌, ◌<◌, All, IfOk, IfSome, length};
ghost use Rattle.lw_equal.specs.Answers.{IsDifference};
ghost use Rattle.lw_equal.specs.Cases.{AreEnds, AreEndsOf, IsCase, IsLooked, Settles};
ghost use Rattle.lw_equal.specs.Cases.{one_of, other_of};
ghost use Rattle.lw_equal.specs.Known.{IsKnown};
ghost use Rattle.lw_equal.specs.Pairs.{IsPair};
ghost use Rattle.lw_equal.specs.Sides.{IsSide};

use crate::deciding::{Case, copy_of, look};
use crate::known::Known;
use crate::pairing::Pair;
use crate::placing::lay;
use crate::trying::{Ends, MOST_TRIED, Tried, can_try, try_all};
use crate::{Answer, Difference, Side};
use lw_sweep::{Limits, Sweep};
use std::alloc::{AllocError, Global};

// No comparison is searched.
pub(crate) const NO_SEARCH: Limits = Limits {
    tries: 0,
    conflicts: 0,
    steps: 0,
    sums: false,
};

// The literals of both nets of a pair, or none where one is missing.
fn ends_at(case: &Case, pair: &Pair) -> Option<Ends>
    ensures { IfSome result (AreEndsOf case.now pair.now) }
{
    let left = case.left.literals.get(pair.left.0 as usize)?;
    let right = case.right.literals.get(pair.right.0 as usize)?;
    Some(Ends {
        left: *left,
        right: *right,
    })
}

// The literals of both nets of each pair, or none where one is missing.
fn ends_of(alloc: Global, case: &Case, pairs: &[Pair]) -> Result<Option<Vec<Ends>>, AllocError>
    ensures { IfOk result (λ ends. IfSome ends (λ found. AreEnds case.now pairs.now found.items)) }
{
    let mut ends = Vec::new(alloc);
    for pair in pairs {
        let Some(both) = ends_at(case, pair) else {
            return Ok(None);
        };
        ends.push(both)?;
    }
    Ok(Some(ends))
}

// The values of inputs in the assignment with a number: input i has bit i.
fn numbered(alloc: Global, number: u64, inputs: usize) -> Result<Vec<bool>, AllocError>
    ensures { IfOk result (λ found. length found.items ≡ inputs) }
{
    let mut found = Vec::new(alloc);
    for input in 0..inputs {
        let place = u32::try_from(input).unwrap_or(0) & 63;
        found.push(number >> place & 1 == 1)?;
    }
    Ok(found)
}

// How a pair differs in the assignment with a number, or none where it does not.
fn seen(
    alloc: Global,
    case: &Case,
    pair: &Pair,
    number: u64,
) -> Result<Option<Difference>, AllocError>
    requires case { IsLooked case.now }
    requires pair { IsPair (one_of case.now) (other_of case.now) pair.now }
    ensures { IfOk result (λ d. IfSome d (λ difference. IsDifference (one_of case.now)
        (other_of case.now) difference.point difference.inputs.items)) }
{
    let count = case.one.side.logic.inputs().len();
    let inputs = numbered(alloc, number, count)?;
    let Some(inputs) = look(alloc, case, pair, inputs)? else {
        return Ok(None);
    };
    let point = copy_of(alloc, &pair.point)?;
    Ok(Some(Difference { point, inputs }))
}

// The answer of sides in one graph, if all assignments can be tried there.
fn try_in(
    sweep: &Sweep,
    alloc: Global,
    case: &Case,
    pairs: &[Pair],
) -> Result<Option<Answer>, AllocError>
    requires case { IsCase sweep.now case.now }
    requires pairs { All (IsPair (one_of case.now) (other_of case.now)) pairs.now }
    ensures { IfOk result (λ answer. IfSome answer
        (Settles (one_of case.now) (other_of case.now) pairs.now)) }
{
    let gates = sweep.aig().gates();
    let inputs = case.one.side.logic.inputs().len();
    if !can_try(gates, inputs) {
        return Ok(None);
    }
    let Some(ends) = ends_of(alloc, case, pairs)? else {
        return Ok(None);
    };
    match try_all(alloc, gates, inputs, &ends)? {
        Tried::Same => Ok(Some(Answer::Equal)),
        Tried::Apart(place, number) => look_at(alloc, case, pairs, place, number),
    }
}

// The answer where the pair at a place differs in the assignment with a number.
fn look_at(
    alloc: Global,
    case: &Case,
    pairs: &[Pair],
    place: usize,
    number: u64,
) -> Result<Option<Answer>, AllocError>
    requires case { IsLooked case.now }
    requires pairs { All (IsPair (one_of case.now) (other_of case.now)) pairs.now }
    ensures { IfOk result (λ answer. IfSome answer
        (Settles (one_of case.now) (other_of case.now) pairs.now)) }
{
    let Some(pair) = pairs.get(place) else {
        return Ok(None);
    };
    match seen(alloc, case, pair, number)? {
        Some(difference) => Ok(Some(Answer::Differ(difference))),
        None => Ok(None),
    }
}

// Compares sides of few inputs by all assignments, or tells that this is too much work.
pub(crate) fn solve_small(
    alloc: Global,
    one: &Known,
    other: &Side,
    pairs: &[Pair],
) -> Result<Option<Answer>, AllocError>
    requires known { IsKnown one.now }
    requires other { IsSide other.now }
    requires pairs { All (IsPair one.now.side.now other.now) pairs.now }
    requires few { length one.now.inputs.keys < 2 ^ 31 }
    ensures { IfOk result (λ answer. IfSome answer
        (Settles one.now.side.now other.now pairs.now)) }
{
    let inputs = one.inputs.len();
    if inputs > MOST_TRIED {
        return Ok(None);
    }
    let mut sweep = Sweep::new(alloc, inputs as u32, NO_SEARCH)?;
    let Some(left) = lay(&mut sweep, alloc, one, one.side)? else {
        return Ok(None);
    };
    let Some(right) = lay(&mut sweep, alloc, one, other)? else {
        return Ok(None);
    };
    let case = Case {
        one,
        other,
        left: &left,
        right: &right,
    };
    try_in(&sweep, alloc, &case, pairs)
}
