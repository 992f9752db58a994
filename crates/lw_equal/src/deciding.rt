// Decisions: whether nets of both sides have one value under every assignment, or under which they
// differ.
ghost use Rattle.std.specs.Prelude.{◌≡◌, Some, All, IfOk, IfSome, length, map, slice_get};
ghost use Rattle.lw_equal.specs.Answers.{IsDifference};
ghost use Rattle.lw_equal.specs.Cases.{IsCase, IsLooked, Judges, Settles, one_of, other_of};
ghost use Rattle.lw_equal.specs.Cases.{point_of};
ghost use Rattle.lw_equal.specs.Pairs.{IsPair};
ghost use Rattle.lw_equal.specs.Sides.{inputs_of};

use crate::known::Known;
use crate::looking::differ;
use crate::pairing::Pair;
use crate::placing::Laid;
use crate::{Answer, Difference, Point, Points, Side};
use lw_aig::Literal;
use lw_pool::Name;
use lw_search::Found;
use lw_sweep::{Pattern, Sweep};
use std::alloc::{AllocError, Global};

// Both sides, laid over the inputs of the first.
#[derive(Drop)]
pub(crate) struct Case<'a> {
    pub(crate) one: &'a Known<'a>,
    pub(crate) other: &'a Side<'a>,
    pub(crate) left: &'a Laid,
    pub(crate) right: &'a Laid,
}

// How hard the nets of a point are looked at: so many conflicts each way, while there were no more
// than so many in all.
#[derive(Clone, Copy)]
pub(crate) struct Effort {
    pub(crate) tries: u32,
    pub(crate) conflicts: u64,
}

// What is known of the nets of a point: that they have one value, that they differ at these values
// of the inputs, or neither.
#[derive(Drop)]
pub(crate) enum Judgement {
    Same,
    Apart(Vec<bool>),
    Open,
}

// The values that a pattern gives the inputs.
fn pattern_inputs(
    alloc: Global,
    sweep: &Sweep,
    pattern: Pattern,
    inputs: usize,
) -> Result<Vec<bool>, AllocError>
    ensures { IfOk result (λ found. length found.items ≡ inputs) }
{
    let mut found = Vec::new(alloc);
    for input in 0..inputs {
        let number = u32::try_from(input).unwrap_or(0);
        found.push(sweep.pattern_value(number, pattern))?;
    }
    Ok(found)
}

// The values that the last search gave the inputs.
fn found_inputs(alloc: Global, sweep: &Sweep, inputs: usize) -> Result<Vec<bool>, AllocError>
    ensures { IfOk result (λ found. length found.items ≡ inputs) }
{
    let mut found = Vec::new(alloc);
    for input in 0..inputs {
        let number = u32::try_from(input).unwrap_or(0);
        found.push(sweep.found_value(number).unwrap_or(false))?;
    }
    Ok(found)
}

// Keeps these values of the inputs, if the sides differ there.
pub(crate) fn look(
    alloc: Global,
    case: &Case,
    pair: &Pair,
    inputs: Vec<bool>,
) -> Result<Option<Vec<bool>>, AllocError>
    requires case { IsLooked case.now }
    requires pair { IsPair (one_of case.now) (other_of case.now) pair.now }
    requires one_each { length inputs.items
        ≡ length (inputs_of (one_of case.now).logic) }
    ensures { IfOk result (λ found. IfSome found (λ inputs.
        IsDifference (one_of case.now) (other_of case.now) pair.now.point inputs.items)) }
{
    let places = &case.right.places;
    let told = differ(alloc, case.one, case.other, places, pair, &inputs)?;
    if told {
        return Ok(Some(inputs));
    }
    Ok(None)
}

// Values of the inputs at which the sides differ, from the patterns of two literals.
fn by_patterns(
    sweep: &Sweep,
    alloc: Global,
    case: &Case,
    pair: &Pair,
    left: Literal,
    right: Literal,
) -> Result<Option<Vec<bool>>, AllocError>
    requires case { IsLooked case.now }
    requires pair { IsPair (one_of case.now) (other_of case.now) pair.now }
    ensures { IfOk result (λ found. IfSome found (λ inputs.
        IsDifference (one_of case.now) (other_of case.now) pair.now.point inputs.items)) }
{
    let count = case.one.side.logic.inputs().len();
    let Some(pattern) = sweep.difference(left, right) else {
        return Ok(None);
    };
    let inputs = pattern_inputs(alloc, sweep, pattern, count)?;
    look(alloc, case, pair, inputs)
}

// Judges the nets of a point by their literals.
fn judge_literals(
    sweep: &mut Sweep,
    alloc: Global,
    case: &Case,
    pair: &Pair,
    left: Literal,
    right: Literal,
    effort: Effort,
) -> Result<Judgement, AllocError>
    requires case { IsCase sweep.old case.now }
    requires pair { IsPair (one_of case.now) (other_of case.now) pair.now }
    requires left { slice_get case.now.left.now.literals.items pair.now.left.0 ≡ Some left }
    requires right { slice_get case.now.right.now.literals.items pair.now.right.0 ≡ Some right }
    ensures kept { sweep.new ≡ sweep.old }
    ensures judged { IfOk result (Judges (one_of case.now) (other_of case.now) pair.now) }
{
    let _ = sweep.aig().gates();
    if let Some(inputs) = by_patterns(sweep, alloc, case, pair, left, right)? {
        return Ok(Judgement::Apart(inputs));
    }
    let spent = sweep.conflicts() > effort.conflicts;
    let tries = if spent { 0 } else { effort.tries };
    match sweep.decide(alloc, left, right, tries)? {
        Found::Equal => Ok(Judgement::Same),
        Found::Apart => by_search(sweep, alloc, case, pair),
        Found::Open => Ok(Judgement::Open),
    }
}

// Judges the nets of a point by the values that the last search left.
fn by_search(
    sweep: &Sweep,
    alloc: Global,
    case: &Case,
    pair: &Pair,
) -> Result<Judgement, AllocError>
    requires case { IsLooked case.now }
    requires pair { IsPair (one_of case.now) (other_of case.now) pair.now }
    ensures { IfOk result (Judges (one_of case.now) (other_of case.now) pair.now) }
{
    let count = case.one.side.logic.inputs().len();
    let inputs = found_inputs(alloc, sweep, count)?;
    match look(alloc, case, pair, inputs)? {
        Some(inputs) => Ok(Judgement::Apart(inputs)),
        None => Ok(Judgement::Open),
    }
}

// Judges the nets of a point.
fn judge(
    sweep: &mut Sweep,
    alloc: Global,
    case: &Case,
    pair: &Pair,
    effort: Effort,
) -> Result<Judgement, AllocError>
    requires case { IsCase sweep.old case.now }
    requires pair { IsPair (one_of case.now) (other_of case.now) pair.now }
    ensures kept { sweep.new ≡ sweep.old }
    ensures judged { IfOk result (Judges (one_of case.now) (other_of case.now) pair.now) }
{
    let Some(left) = case.left.literals.get(pair.left.0 as usize) else {
        return Ok(Judgement::Open);
    };
    let Some(right) = case.right.literals.get(pair.right.0 as usize) else {
        return Ok(Judgement::Open);
    };
    judge_literals(sweep, alloc, case, pair, *left, *right, effort)
}

// A copy of a point.
pub(crate) fn copy_of(alloc: Global, point: &Point) -> Result<Point, AllocError>
    ensures { IfOk result (λ copy. copy ≡ point.now) }
{
    let name = Name::from_slice(alloc, point.name.as_bytes())?;
    Ok(Point {
        kind: point.kind,
        name,
    })
}

// The points of all pairs.
pub(crate) fn all_open(alloc: Global, pairs: &[Pair]) -> Result<Points, AllocError>
    ensures { IfOk result (λ undecided. undecided ≡ map point_of pairs.now) }
{
    let mut undecided = Points::new(alloc);
    for pair in pairs {
        undecided.push(copy_of(alloc, &pair.point)?)?;
    }
    Ok(undecided)
}

// Judges the nets of each point, up to the first at which the sides differ.
pub(crate) fn decide_all(
    sweep: &mut Sweep,
    alloc: Global,
    case: &Case,
    pairs: &[Pair],
    effort: Effort,
) -> Result<Answer, AllocError>
    requires case { IsCase sweep.old case.now }
    requires pairs { All (IsPair (one_of case.now) (other_of case.now)) pairs.now }
    ensures { IfOk result (Settles (one_of case.now) (other_of case.now) pairs.now) }
{
    let mut undecided = Points::new(alloc);
    'pairs: for pair in pairs {
        match judge(sweep, alloc, case, pair, effort)? {
            Judgement::Same => {}
            Judgement::Apart(inputs) => {
                let point = copy_of(alloc, &pair.point)?;
                return Ok(Answer::Differ(Difference { point, inputs }));
            }
            Judgement::Open => undecided.push(copy_of(alloc, &pair.point)?)?,
        }
    }
    if undecided.len() == 0 {
        return Ok(Answer::Equal);
    }
    Ok(Answer::Undecided(undecided))
}
