// The least depths of all classes, one depth after another.
ghost use Rattle.std.specs.Prelude.{◌≤◌, IfOk};
ghost use Rattle.lw_lut.specs.Depths.{AreLeastDepths};
ghost use Rattle.lw_lut.specs.Sweeps.{IsAtDepth, HasAllDepths};

use crate::found::Depths;
use crate::reach::reaches;
use crate::search::Search;
use crate::span::Span;
use crate::task::Task;
use lw_graph::Graph;
use std::alloc::{AllocError, Global};

impl Search {
    // Finds all depths.
    fn find_all(&mut self, task: &Task)
        requires some { 2 ≤ task.now.leaves }
        requires at { IsAtDepth task.now.graph.now task.now.leaves 1 self.old }
        ensures { HasAllDepths task.now.graph.now task.now.leaves self.new }
    {
        let high = task.graph.classes();
        let mut span = Span { low: 0, high };
        let mut depth = 1;
        while self.deepen_all(task, depth, &mut span) {
            depth += 1;
        }
    }
}

/// The least depth of each class of a graph in tables of at most `leaves` pins, which is 2 to 6,
/// over all covers of all trees that unfold there.
pub fn depths(alloc: Global, graph: &Graph, leaves: u8) -> Result<Depths, AllocError>
    requires some { 2 ≤ leaves }
    requires few { leaves ≤ 6 }
    ensures { IfOk result (AreLeastDepths graph.now leaves) }
{
    let reach = reaches(alloc, graph)?;
    let mut search = Search::new(alloc, graph, leaves)?;
    search.find_all(&Task {
        graph,
        leaves,
        reach: &reach,
    });
    let (depths, cuts) = (search.depths, search.cuts);
    Ok(Depths { depths, cuts })
}
