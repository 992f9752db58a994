/// The limits of a sweep.
#[derive(Clone, Copy, Debug, PartialEq, Eq)]
pub struct Limits {
    /// How many conflicts a comparison may have each way.
    pub tries: u32,
    /// How many conflicts all comparisons may have.
    pub conflicts: u64,
    /// How many values all comparisons may spread.
    pub steps: u64,
    /// Whether sums of inputs modulo 2 are brought to one form. Without it, the sweep searches no
    /// more once the comparison of such a sum was left open.
    pub sums: bool,
}

/// How many comparisons there were, and what came of them.
#[derive(Clone, Copy, Debug, PartialEq, Eq)]
pub struct Counts {
    pub equal: u64,
    pub apart: u64,
    pub open: u64,
}
