/// A unit, in millionths.
pub(crate) const UNIT: u64 = 1_000_000;

/// A number of millionths, as of a unit of time or area.
#[derive(Clone, Copy, Debug, PartialEq, Eq, PartialOrd, Ord)]
pub struct Micro(pub u64);
