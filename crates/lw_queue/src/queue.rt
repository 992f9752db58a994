// What waits, the earliest first, in lanes and a heap.
ghost use Rattle.std.specs.Prelude.{◌≡◌, ◌<◌, ◌≤◌, ℕ, IfOk, OnOk, option_map};
ghost use Rattle.std.specs.BinaryHeap.{IsHeap, heap_items};
ghost use Rattle.lw_queue.specs.Queues.{IsFirstTime, IsHorizonOf, IsIdle, IsMostLeft, IsTaken};
ghost use Rattle.lw_queue.specs.Queues.{IsWithOneMore, item_cmp, Waits};

use crate::lane::Lane;
use crate::lanes::{most_left, no_lanes, push_behind, take_any};
use std::alloc::{AllocError, Global};
use std::collections::BinaryHeap;
use std::marker::Model;

/// Numbers that wait, each for a time up to a horizon, the earliest first. They are those of
/// choices, or of groups of pins.
///
/// They stand in lanes, in each by rising time. One that would come before the last of its lane
/// stands in a heap instead.
///
/// Each has a hint: a number that the caller may have back with it. Of equal times in the heap, the
/// greatest hint comes first; in lanes it has no say.
#[derive(Drop)]
pub struct Queue {
    horizon: u64,
    lanes: Vec<Lane>,
    // the lane from which one was taken last
    at: usize,
    heap: BinaryHeap<(u64, (u64, u32))>,
}

impl Model for Queue {
    ghost use Rattle.std.specs.Prelude.{◌++◌};
    ghost use Rattle.std.specs.BinaryHeap.{heap_items};
    ghost use Rattle.lw_queue.specs.Queues.{Queued};
    ghost use Rattle.lw_queue.specs.Queues.{IsQueue, flat};

    ghost Value = { Queued };

    ghost view = { λ q. record {
      horizon = q.horizon;
      items = heap_items q.heap ++ flat q.lanes.items;
    } };

    ghost invariant = { λ q. IsQueue q.horizon (heap_items q.heap) (flat q.lanes.items) };
}

impl Queue {
    /// A queue of so many lanes, in which nothing waits.
    pub fn new(alloc: Global, horizon: u64, lanes: usize) -> Result<Queue, AllocError>
        ensures { IfOk result (IsIdle horizon) }
    {
        Ok(Queue {
            horizon,
            lanes: no_lanes(alloc, lanes)?,
            at: 0,
            heap: BinaryHeap::new(alloc),
        })
    }

    /// The last time for which a number may wait.
    pub fn horizon(&self) -> u64
        ensures { IsHorizonOf self.now result }
    {
        self.horizon
    }

    /// Lets a number wait for a time, with a hint: behind the others of a lane if none of these
    /// waits longer, and else in the heap.
    pub fn push(&mut self, lane: u32, time: u64, hint: u64, number: u32) -> Result<(), AllocError>
        requires { time ≤ self.old.horizon }
        ensures horizon { self.new.horizon ≡ self.old.horizon }
        ensures items { OnOk result (IsWithOneMore self.old self.new time hint number) }
    {
        let item = (self.horizon - time, (hint, number));
        if push_behind(&mut self.lanes, lane, item)? {
            return Ok(());
        }
        self.heap.push(item)?;
        Ok(())
    }

    /// The first time for which a number waits, none if none waits.
    pub fn next_time(&self) -> Option<u64>
        ensures { IsFirstTime self.now result }
    {
        match most_left(&self.lanes, most_in_heap(&self.heap)) {
            Some(left) => Some(self.horizon - left),
            None => None,
        }
    }

    /// Takes a number that waits for this time, before which none waits; none if none does.
    pub fn take_at(&mut self, time: u64) -> Option<u32>
        requires within { time ≤ self.old.horizon }
        requires first { (t n : ℕ) → Waits self.old t n → time ≤ t }
        ensures { IsTaken self.old self.new time result }
    {
        match self.take_hinted_at(time) {
            Some(found) => Some(found.1),
            None => None,
        }
    }

    /// Takes a number that waits for this time, before which none waits. It comes after the hint
    /// with which it was pushed; none if none does.
    pub fn take_hinted_at(&mut self, time: u64) -> Option<(u64, u32)>
        requires within { time ≤ self.old.horizon }
        requires first { (t n : ℕ) → Waits self.old t n → time ≤ t }
        ensures { IsTaken self.old self.new time (option_map (λ p. p.1) result) }
    {
        let left = self.horizon - time;
        if let Some((lane, found)) = take_any(&mut self.lanes, self.at, left) {
            self.at = lane;
            return Some(found);
        }
        let first = most_in_heap(&self.heap)?;
        if first != left {
            return None;
        }
        let taken = self.heap.pop()?;
        Some(taken.1)
    }
}

// The most time that is left to any item in a heap, none if it is empty.
fn most_in_heap(heap: &BinaryHeap<(u64, (u64, u32))>) -> Option<u64>
    ensures { IsHeap item_cmp (heap_items heap.now) → IsMostLeft (heap_items heap.now) result }
{
    match heap.peek() {
        Some(first) => Some(first.0),
        None => None,
    }
}
