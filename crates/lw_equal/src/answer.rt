// What a comparison answers.
use crate::{Point, Points};
use lw_pool::Name;
use std::alloc::AllocError;

/// An assignment under which two sides differ at a point: a value for each input of the first side,
/// in order.
#[derive(Debug, Drop)]
pub struct Difference {
    pub point: Point,
    pub inputs: Vec<bool>,
}

/// What a comparison came to. Both sides have the same inputs, outputs and latches. A control of a
/// latch is compared where both sides' latches have one. Kinds and initial values of latches are
/// not compared.
#[derive(Debug, Drop)]
pub enum Answer {
    /// Both sides have the same value at each point under every assignment.
    Equal,
    /// The sides differ at a point under an assignment.
    Differ(Difference),
    /// Neither is known at these points, of which there is at least one. At each other point the
    /// sides have the same value under every assignment.
    Undecided(Points),
}

/// What was done on the way. Nothing is promised of these numbers.
#[derive(Clone, Copy, Debug, PartialEq, Eq)]
pub struct Counts {
    /// How many nodes the graph of all networks has.
    pub nodes: u64,
    /// How many pairs of nodes were compared by search and found equal.
    pub equal: u64,
    /// How many were told apart.
    pub apart: u64,
    /// How many were left.
    pub open: u64,
    /// How many conflicts the searches had.
    pub conflicts: u64,
    /// At how many points the sides were compared.
    pub points: u64,
}

/// An answer, and what was done on the way.
#[derive(Debug, Drop)]
pub struct Outcome {
    pub answer: Answer,
    pub counts: Counts,
}

/// What a port is.
#[derive(Clone, Copy, Debug, PartialEq, Eq)]
pub enum PortKind {
    Input,
    Output,
    Latch,
}

/// A port of one network that another lacks. The two sides are networks 1 and 2, and those that may
/// help count from 3 on.
#[derive(Debug, Drop)]
pub struct PortFault {
    pub kind: PortKind,
    pub has: usize,
    pub lacks: usize,
    pub name: Name,
}

/// Why nothing was compared.
#[derive(Debug, Drop)]
pub enum Fault {
    /// The first port that only one of two networks has.
    Ports(PortFault),
    /// Out of memory.
    Memory,
}

impl From<AllocError> for Fault {
    ghost use Rattle.std.specs.Prelude.{◌≡◌};
    ghost use Rattle.lw_equal.specs.declared.answer.Fault.TheVariants.{Memory};

    ghost from_gives = { λ e fault. fault ≡ Memory };

    fn from(_: AllocError) -> Self {
        Fault::Memory
    }
}
