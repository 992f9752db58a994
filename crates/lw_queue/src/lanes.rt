// Some lanes together.
ghost use Rattle.std.specs.Prelude.{◌≡◌, ◌++◌, ◌≤◌, List, IfOk, MatchResult, [], length};
ghost use Rattle.std.specs.Prelude.{option_map};
ghost use Rattle.lw_queue.specs.Queues.{Item, IsMostLeft, IsPushedBehind, IsTakenAny, IsTakenIn};
ghost use Rattle.lw_queue.specs.Queues.{flat};

use crate::lane::Lane;
use std::alloc::{AllocError, Global};

/// So many lanes, in which nothing waits.
pub fn no_lanes(alloc: Global, count: usize) -> Result<Vec<Lane>, AllocError>
    ensures { IfOk result (λ lanes. flat lanes.items ≡ []) }
{
    let mut lanes = Vec::with_capacity(alloc, count)?;
    for _ in 0..count {
        lanes.push(Lane::new(alloc))?;
    }
    Ok(lanes)
}

/// Lets one more item wait after those of a lane, and says whether it does: not if less time is
/// left to one of these, or there is no such lane.
pub fn push_behind(
    lanes: &mut Vec<Lane>,
    lane: u32,
    item: (u64, (u64, u32)),
) -> Result<bool, AllocError>
    ensures { MatchResult result (IsPushedBehind lanes.old.items lanes.new.items item)
        (λ _. lanes.new.items ≡ lanes.old.items) }
{
    let lane = lane as usize;
    if lane >= lanes.len() || !lanes[lane].fits(item.0) {
        return Ok(false);
    }
    lanes[lane].push(item)?;
    Ok(true)
}

/// The most time that is left to any item in some lanes or elsewhere, where the most is `others`;
/// none if none waits.
pub fn most_left(lanes: &[Lane], others: Option<u64>) -> Option<u64>
    ensures { (xs : List Item) → IsMostLeft xs others → IsMostLeft (xs ++ flat lanes.now) result }
{
    let mut most = others;
    for lane in lanes {
        most = greater(most, lane.first());
    }
    most
}

/// Takes an item to which just this time is left, and gives its lane with its hint and number. The
/// lanes from `at` on are looked at before the others.
pub fn take_any(lanes: &mut Vec<Lane>, at: usize, left: u64) -> Option<(usize, (u64, u32))>
    ensures { IsTakenAny lanes.old.items lanes.new.items left (option_map (λ p. p.1) result) }
{
    let count = lanes.len();
    let first = at.min(count);
    if let Some(found) = take_in(lanes, first, count, left) {
        return Some(found);
    }
    take_in(lanes, 0, first, left)
}

// The greater of two, or the one that there is.
fn greater(one: Option<u64>, other: Option<u64>) -> Option<u64>
    ensures { (xs ys : List Item) → IsMostLeft xs one → IsMostLeft ys other →
        IsMostLeft (xs ++ ys) result }
{
    let Some(first) = one else {
        return other;
    };
    let Some(second) = other else {
        return one;
    };
    Some(first.max(second))
}

// Takes an item to which just this time is left from one of the lanes from `first` on and before
// `end`, and gives its lane with its hint and number.
fn take_in(
    lanes: &mut Vec<Lane>,
    first: usize,
    end: usize,
    left: u64,
) -> Option<(usize, (u64, u32))>
    requires { end ≤ length lanes.old.items }
    ensures length { length lanes.new.items ≡ length lanes.old.items }
    ensures taken { IsTakenIn lanes.old.items lanes.new.items first end left
        (option_map (λ p. p.1) result) }
{
    for lane in first..end {
        if let Some(found) = lanes[lane].take(left) {
            return Some((lane, found));
        }
    }
    None
}
