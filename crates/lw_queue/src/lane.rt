// One lane of a queue.
ghost use Rattle.std.specs.Prelude.{◌≡◌, ◌<◌, ◌≤◌, ◌++◌, [], ◌∷◌, All, IsTrue, MatchResult};
ghost use Rattle.lw_queue.specs.Queues.{Item, IsLaneTaken, IsMostLeft};

use std::alloc::{AllocError, Global};
use std::collections::VecDeque;
use std::marker::Model;

/// Items that wait in the order in which they came, none with more time left than one before it.
#[derive(Drop)]
pub struct Lane {
    queue: VecDeque<(u64, (u64, u32))>,
    // no more than what is left to any
    last: u64,
}

impl Model for Lane {
    ghost use Rattle.std.specs.Prelude.{List};
    ghost use Rattle.lw_queue.specs.Queues.{Item, IsLane};

    ghost Value = { List Item };

    ghost view = { λ l. l.queue.items };

    ghost invariant = { λ l. IsLane l.queue.items l.last };
}

impl Lane {
    /// A lane in which nothing waits.
    pub fn new(alloc: Global) -> Lane
        ensures { result ≡ [] }
    {
        Lane {
            queue: VecDeque::new(alloc),
            last: u64::MAX,
        }
    }

    /// Whether an item to which so much time is left may wait after the others: each of these has
    /// as much left or more.
    pub fn fits(&self, left: u64) -> bool
        ensures { IsTrue result → All (λ (x : Item). left ≤ x.0) self.now }
    {
        left <= self.last
    }

    /// Lets one more item wait after the others, to each of which as much time is left or more.
    pub fn push(&mut self, item: (u64, (u64, u32))) -> Result<(), AllocError>
        requires { All (λ (x : Item). item.0 ≤ x.0) self.old }
        ensures { MatchResult result (λ _. self.new ≡ self.old ++ item ∷ [])
            (λ _. self.new ≡ self.old) }
    {
        self.queue.push_back(item)?;
        self.last = item.0;
        Ok(())
    }

    /// The most time that is left to any item, none if none waits: it is left to the first.
    pub fn first(&self) -> Option<u64>
        ensures { IsMostLeft self.now result }
    {
        match self.queue.front() {
            Some(first) => Some(first.0),
            None => None,
        }
    }

    /// Takes the first item, if just this time is left to it, and gives its hint and its number.
    pub fn take(&mut self, left: u64) -> Option<(u64, u32)>
        ensures { IsLaneTaken self.old self.new left result }
    {
        let first = self.queue.front()?;
        if first.0 != left {
            return None;
        }
        let taken = self.queue.pop_front()?;
        Some(taken.1)
    }
}
