// What a search goes by.
ghost use Rattle.lw_lut.specs.Reaches.{AreReachesOf};

use crate::span::Span;
use lw_graph::Graph;

// A graph, how many leaves a table may have, and for the place of each class of the graph a span
// with those that hold a pair with one of its classes.
#[derive(Clone, Copy)]
pub(crate) struct Task<'a> {
    pub(crate) graph: &'a Graph,
    pub(crate) leaves: u8,
    pub(crate) reach: &'a [Span],
    ghost reaches: { AreReachesOf graph.now reach.now },
}
