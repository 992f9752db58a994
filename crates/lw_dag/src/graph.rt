// A graph with how many inputs it has.
ghost use Rattle.std.specs.Prelude.{◌≡◌, ◌+◌, ◌≤◌, length};
ghost use Rattle.lw_dag.specs.Graphs.{most_signals, IsGraph, IsSmallGraph};

use lw_pool::Numbers;

/// The fan-ins of each node behind so many inputs: the numbers and heights of all signals fit in 32
/// bits.
#[derive(Drop)]
pub(crate) struct SmallGraph<'a> {
    pub(crate) inputs: usize,
    pub(crate) nodes: &'a [Numbers],
    ghost small: { IsSmallGraph inputs nodes.now },
}

impl<'a> SmallGraph<'a> {
    /// The graph of these nodes.
    pub(crate) fn of(inputs: usize, nodes: &'a [Numbers]) -> SmallGraph<'a>
        requires graph { IsGraph inputs nodes.now }
        requires few { inputs + length nodes.now ≤ most_signals }
        ensures inputs { result.inputs ≡ inputs }
        ensures nodes { result.nodes.now ≡ nodes.now }
    {
        SmallGraph { inputs, nodes }
    }
}
