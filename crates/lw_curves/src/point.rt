// Points of curves, and why there are no curves.
use lw_fixed::Micro;
use std::alloc::AllocError;

/// A time at which the least area of a class falls, and the least area from then on. Both are in
/// millionths.
#[derive(Clone, Copy, PartialEq, Eq)]
pub struct Point {
    pub time: Micro,
    pub area: u64,
}

/// Why there are no curves.
#[derive(Clone, Copy, PartialEq, Eq)]
pub enum CurveFault {
    /// All classes together have more than 8,000,000 points.
    Limit,
    /// Out of memory.
    Memory,
}

impl From<AllocError> for CurveFault {
    ghost use Rattle.std.specs.Prelude.{◌≡◌};
    ghost use Rattle.lw_curves.specs.declared.point.CurveFault.TheVariants.{Memory};

    ghost from_gives = { λ e fault. fault ≡ Memory };

    // Running out of memory is the fault `Memory`.
    fn from(_: AllocError) -> Self {
        CurveFault::Memory
    }
}

/// A point of a class while more are found.
#[derive(Clone, Copy)]
pub(crate) struct Found {
    pub time: Micro,
    pub area: u64,
    /// How many areas were gained before this one.
    pub order: u64,
    /// The number of the choice that gave the area.
    pub choice: u32,
    /// How many points of the class are before this one.
    pub depth: u32,
    /// The place of an earlier point of the class. A search goes there to leave out those between.
    /// It need not be right.
    pub jump: u32,
}

/// How a point came.
#[derive(Clone, Copy)]
pub struct Way {
    /// How many areas were gained before that of the point.
    pub order: u64,
    /// The number of the choice that gave the area.
    pub choice: u32,
}
