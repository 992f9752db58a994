// Labels that are tested, and the prices that they are tested by.
ghost use Rattle.std.specs.Prelude.{◌≡◌, length};
ghost use Rattle.lw_cost.specs.Labels.{costs_of};
ghost use Rattle.lw_check.specs.Least.{AreFlat};

use lw_bounds::Bounds;
use lw_cost::Mark;
use lw_graph::Graph;
use lw_pattern::Patterns;

/// The patterns of cells, and what inputs and cells cost.
#[derive(Drop)]
pub(crate) struct Prices<'a, C> {
    pub pats: &'a Patterns,
    pub cost: &'a C,
}

/// A label for each class of a graph, or none, by these prices.
#[derive(Drop)]
pub(crate) struct Labelling<'a, C> {
    pub graph: &'a Graph,
    pub labels: &'a [Option<u64>],
    pub by: Prices<'a, C>,
    ghost one_each: { length labels.now ≡ length graph.now.pairs },
}

/// Labels on trial: the labels as marks without height, and a table that bounds what matches cost
/// under them.
#[derive(Drop)]
pub(crate) struct Trial<'a, C> {
    pub given: &'a Labelling<'a, C>,
    pub marks: &'a [Option<Mark>],
    pub bounds: &'a Bounds,
    ghost labels_are: { costs_of marks.now ≡ given.now.labels.now },
    ghost flat: { AreFlat marks.now },
}
