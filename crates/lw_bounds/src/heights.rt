// A second table to cut by: the least heights with which parts of patterns can stand.
ghost use Rattle.lw_bounds.specs.HeightBounds.{AreWithHeights};

use crate::Bounds;
use crate::cuts::{Cuts, numbers_of};
use lw_cost::Mark;
use lw_graph::Graph;

/// Heights of classes as costs, and a table of bounds on them.
#[derive(Clone, Copy)]
pub struct HeightBounds<'a> {
    pub bounds: &'a Bounds,
    pub marks: &'a [Option<Mark>],
}

/// The cuts, with the sides and numbers of a second table, of heights in gates, if there is one.
pub fn with_heights<'a>(
    cuts: Cuts<'a>,
    graph: &Graph,
    heights: Option<HeightBounds<'a>>,
) -> Cuts<'a>
    ensures { AreWithHeights cuts.entry graph.now heights.entry result }
{
    let Some(heights) = heights else {
        return cuts;
    };
    let own = heights.bounds.cuts();
    Cuts {
        height_sides: own.sides,
        heights: numbers_of(graph, heights.marks, &own),
        ..cuts
    }
}
