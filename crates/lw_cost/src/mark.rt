// Marks of classes, and matches with their marks.
ghost use Rattle.std.specs.Prelude.{◌<◌, ◌↔◌, IsTrue, MatchBool};
ghost use Rattle.lw_laws.specs.Extracts.{IsListAtMost};
ghost use Rattle.lw_pool.specs.Numbers.{numbers};

use crate::Pins;
use lw_pool::{ClassId, PatId};

/// The cost of a class, and its height: how many gates lie between it and the inputs at most.
#[derive(Clone, Copy, Debug, PartialEq, Eq)]
pub struct Mark {
    pub cost: u64,
    pub height: u32,
}

impl Mark {
    ghost use Rattle.lw_cost.specs.Values.{plain_mark};
    ghost use Rattle.lw_cost.specs.Least.{IsMarkBefore};

    /// Whether this one is before the other: it costs less, or the same with less height.
    pub fn is_before(self, other: Mark) -> bool
        ensures { IsTrue result ↔ IsMarkBefore (plain_mark self) (plain_mark other) }
    {
        self.cost < other.cost || (self.cost == other.cost && self.height < other.height)
    }
}

/// A pattern that stands at a class, with a class for each pin.
#[derive(Drop)]
pub struct Match {
    pub pat: PatId,
    pub pins: Pins,
}

/// The least match at a class, and the mark that it gives the class.
#[derive(Drop)]
pub struct Best {
    pub mark: Mark,
    pub found: Match,
}

impl Best {
    ghost use Rattle.lw_cost.specs.Least.{IsPricedAtMost, plain_best};

    /// Whether this one is before the other: by cost, then height, then pattern, then the classes
    /// of the pins.
    pub fn is_before(&self, other: &Best) -> bool
        ensures { MatchBool result (IsPricedAtMost (plain_best self.now) (plain_best other.now))
            (IsPricedAtMost (plain_best other.now) (plain_best self.now)) }
    {
        if self.mark.cost != other.mark.cost {
            return self.mark.cost < other.mark.cost;
        }
        if self.mark.height != other.mark.height {
            return self.mark.height < other.mark.height;
        }
        if self.found.pat != other.found.pat {
            return self.found.pat.0 < other.found.pat.0;
        }
        is_list_before(self.found.pins.as_slice(), other.found.pins.as_slice())
    }
}

/// Whether the first list is before the second in the order of words.
fn is_list_before(left: &[ClassId], right: &[ClassId]) -> bool
    ensures { MatchBool result (IsListAtMost (numbers left.now) (numbers right.now))
        (IsListAtMost (numbers right.now) (numbers left.now)) }
{
    match (left, right) {
        (_, []) => false,
        ([], _) => true,
        ([x, xs @ ..], [y, ys @ ..]) => x.0 < y.0 || (x.0 == y.0 && is_list_before(xs, ys)),
    }
}
