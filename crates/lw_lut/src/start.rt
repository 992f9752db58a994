// The start of a search.
ghost use Rattle.std.specs.Prelude.{◌≡◌, ◌≤◌, ◌<◌, ◌+◌, length, replicate, None, IfOk};
ghost use Rattle.lw_lut.specs.Searches.{AreCounts, AreDepthsUpTo, HasStarted};
ghost use Rattle.lw_lut.specs.Sweeps.{IsAtDepth};

use crate::cut::Cut;
use crate::search::Search;
use lw_graph::Graph;
use lw_pool::ClassId;
use std::alloc::{AllocError, Global};

// A cut for each place.
fn no_cuts(alloc: Global, places: usize) -> Result<Vec<Cut>, AllocError>
    ensures { IfOk result (λ cuts. length cuts.items ≡ places) }
{
    let mut cuts = Vec::with_capacity(alloc, places)?;
    for _ in 0..places {
        cuts.push(Cut::constant(false))?;
    }
    Ok(cuts)
}

// This many leaves at each place.
fn same_counts(alloc: Global, places: usize, leaves: u8) -> Result<Vec<u8>, AllocError>
    ensures { IfOk result (λ counts. counts.items ≡ replicate places leaves) }
{
    Ok(vec![in alloc; leaves; places]?)
}

// No pin at any place.
fn no_pins(alloc: Global, places: usize) -> Result<Vec<Option<ClassId>>, AllocError>
    ensures { IfOk result (λ pins. pins.items ≡ replicate places None) }
{
    Ok(vec![in alloc; None; places]?)
}

// No depth of any class.
fn no_depths(alloc: Global, classes: usize) -> Result<Vec<Option<u32>>, AllocError>
    ensures { IfOk result (λ depths. depths.items ≡ replicate classes None) }
{
    Ok(vec![in alloc; None; classes]?)
}

impl Search {
    // Nothing is known.
    fn none(alloc: Global, graph: &Graph, leaves: u8) -> Result<Self, AllocError>
        requires { leaves ≤ 6 }
        ensures { IfOk result (HasStarted graph.now leaves 0) }
    {
        let classes = graph.classes() as usize;
        Ok(Search {
            counts: same_counts(alloc, classes / 2, leaves + 1)?,
            cuts: no_cuts(alloc, classes / 2)?,
            pins: no_pins(alloc, classes / 2)?,
            depths: no_depths(alloc, classes)?,
        })
    }

    // Gives the inputs' classes the depth 0, and their places pins.
    fn give_inputs(&mut self, graph: &Graph, leaves: u8)
        requires { HasStarted graph.now leaves 0 self.old }
        ensures { HasStarted graph.now leaves (length graph.now.leaves) self.new }
    {
        // `leaves` is for the clauses alone.
        let _ = (graph.classes(), leaves);
        for input in 0..graph.inputs() {
            let class = graph.leaf(input);
            let place = (class.0 / 2) as usize;
            self.counts[place] = 1;
            self.cuts[place] = Cut::pin(class);
            self.pins[place] = Some(class);
            self.depths[class.0 as usize] = Some(0);
        }
    }

    // Gives the place of true its constant.
    fn give_constants(&mut self, graph: &Graph, leaves: u8)
        requires few { 1 ≤ leaves }
        requires started { HasStarted graph.now leaves (length graph.now.leaves) self.old }
        ensures counts { AreCounts graph.now leaves 1 self.new }
        ensures depths { AreDepthsUpTo graph.now leaves self.new.depths.items 0 }
    {
        // `leaves` is for the clauses alone.
        let _ = leaves;
        let one = graph.one();
        let place = (one.0 / 2) as usize;
        self.counts[place] = 0;
        self.cuts[place] = Cut::constant(one.0 % 2 == 0);
    }

    // What is known at depth 0.
    pub(crate) fn new(alloc: Global, graph: &Graph, leaves: u8) -> Result<Self, AllocError>
        requires few { 1 ≤ leaves }
        requires low { leaves ≤ 6 }
        ensures { IfOk result (IsAtDepth graph.now leaves 1) }
    {
        let mut search = Search::none(alloc, graph, leaves)?;
        search.give_inputs(graph, leaves);
        search.give_constants(graph, leaves);
        Ok(search)
    }
}
