// Heights of signals, which are 1 more than their depths, and the nodes behind their fan-ins.
ghost use Rattle.std.specs.Prelude.{◌≡◌, ◌+◌, ◌<◌, ◌≤◌, ◌++◌, [], length, drop, replicate, vec_len};
ghost use Rattle.std.specs.Prelude.{IfOk, IfSome, IfNone, OnOk, IsTrue, false, Contains, All};
ghost use Rattle.lw_dag.specs.Graphs.{most_signals, IsGraph, height_at, tallest, AreHeights};
ghost use Rattle.lw_dag.specs.Graphs.{IsOrdered};
ghost use Rattle.lw_dag.specs.Rising.{left_in, IsLevellingIn, IsUntouched, WaitsFor, IsRaised};
ghost use Rattle.lw_dag.specs.Rising.{HasSettled, AreNumbered, AreLevels};

use crate::graph::SmallGraph;
use crate::turning::empty_rows;
use lw_pool::Numbers;
use std::alloc::{AllocError, Global};
use std::mem;

/// The heights of signals: 1 at an input, at a node 1 more than the greatest of its fan-ins, and 0
/// where a cycle is behind the node. And the nodes that have a height, each behind its fan-ins.
#[derive(Drop)]
pub struct Levels {
    pub heights: Vec<u32>,
    pub order: Vec<u32>,
}

// What is known of the levels, which nodes wait for each signal, and of which signals nodes are
// still to be told.
#[derive(Drop)]
struct Search {
    heights: Vec<u32>,
    order: Vec<u32>,
    waiting: Vec<Numbers>,
    ready: Vec<u32>,
}

// The first fan-in whose height isn't known.
pub(crate) fn open_fanin(fanins: &[u32], heights: &[u32]) -> Option<u32>
    requires { All (λ s. s < length heights.now) fanins.now }
    ensures among { IfSome result (Contains fanins.now) }
    ensures lacks { IfSome result (λ s. height_at heights.now s ≡ 0) }
    ensures none { IfNone result (All (λ s. 0 < height_at heights.now s) fanins.now) }
{
    for s in fanins {
        if heights[*s as usize] == 0 {
            return Some(*s);
        }
    }
    None
}

// The greatest height of the fan-ins, and at least that of an input.
fn tallest_of(fanins: &[u32], heights: &[u32]) -> u32
    requires { All (λ s. s < length heights.now) fanins.now }
    ensures { result ≡ tallest heights.now fanins.now }
{
    let mut most = 1;
    for s in fanins {
        most = most.max(heights[*s as usize]);
    }
    most
}

impl Search {
    // Lets a node wait for a signal.
    fn wait(&mut self, s: u32, j: u32) -> Result<(), AllocError>
        requires { s < vec_len self.old.waiting }
        ensures { OnOk result (WaitsFor s j self.old self.new) }
    {
        let nodes = &mut self.waiting[s as usize];
        nodes.push(j)?;
        Ok(())
    }

    // Gives a node its height, which is still to be told to the nodes that wait for its signal.
    fn raise(&mut self, signal: u32, j: u32, height: u32) -> Result<(), AllocError>
        requires { signal < vec_len self.old.heights }
        ensures { OnOk result (IsRaised signal j height self.old self.new) }
    {
        self.ready.push(signal)?;
        self.order.push(j)?;
        self.heights[signal as usize] = height;
        Ok(())
    }

    // Looks at a node: it is given its height, or waits for a fan-in that has none.
    fn settle(&mut self, graph: &SmallGraph, list: &[u32], at: usize) -> Result<(), AllocError>
        requires place { at < length list.now }
        requires nodes { All (λ j. j < length graph.now.nodes.now) list.now }
        requires before { IsLevellingIn graph.now self.old (drop at list.now) }
        ensures { OnOk result (HasSettled graph.now (drop (at + 1) list.now) self.old self.new) }
    {
        let j = list[at] as usize;
        if self.heights[graph.inputs + j] != 0 {
            return Ok(());
        }
        let fanins = graph.nodes[j].as_slice();
        if let Some(s) = open_fanin(fanins, &self.heights) {
            return self.wait(s, list[at]);
        }
        let height = 1 + tallest_of(fanins, &self.heights);
        self.raise((graph.inputs + j) as u32, list[at], height)
    }

    // Looks at each of some nodes.
    fn settle_all(&mut self, graph: &SmallGraph, list: &[u32]) -> Result<(), AllocError>
        requires nodes { All (λ j. j < length graph.now.nodes.now) list.now }
        requires before { IsLevellingIn graph.now self.old list.now }
        ensures { OnOk result (HasSettled graph.now [] self.old self.new) }
    {
        for at in 0..list.len() {
            self.settle(graph, list, at)?;
        }
        Ok(())
    }

    // Tells the nodes that wait for a signal of its height.
    fn tell(&mut self, alloc: Global, graph: &SmallGraph) -> Result<bool, AllocError>
        requires { IsLevellingIn graph.now self.old [] }
        ensures after { OnOk result (IsLevellingIn graph.now self.new []) }
        ensures less { IfOk result (λ told. IsTrue told → left_in self.new < left_in self.old) }
        ensures done { IfOk result (λ told. (told ≡ false) → self.new.ready.items ≡ []) }
    {
        let Some(s) = self.ready.pop() else {
            return Ok(false);
        };
        let nodes = mem::replace(&mut self.waiting[s as usize], Numbers::empty(alloc));
        self.settle_all(graph, nodes.as_slice())?;
        Ok(true)
    }
}

// The heights before any node has one: those of the inputs, and 0 for each node.
fn first_heights(alloc: Global, graph: &SmallGraph) -> Result<Vec<u32>, AllocError>
    ensures { IfOk result (λ heights. heights.items
        ≡ replicate graph.now.inputs 1 ++ replicate (length graph.now.nodes.now) 0) }
{
    let mut heights = Vec::with_capacity(alloc, graph.inputs + graph.nodes.len())?;
    'ones: for _made in 0..graph.inputs {
        heights.push(1)?;
    }
    'zeros: for _made in 0..graph.nodes.len() {
        heights.push(0)?;
    }
    Ok(heights)
}

// Nothing is known but the inputs.
fn start(alloc: Global, graph: &SmallGraph) -> Result<Search, AllocError>
    ensures { IfOk result (IsUntouched graph.now.inputs (length graph.now.nodes.now)) }
{
    let heights = first_heights(alloc, graph)?;
    let waiting = empty_rows(alloc, graph.inputs + graph.nodes.len())?;
    Ok(Search {
        heights,
        order: Vec::with_capacity(alloc, graph.nodes.len())?,
        waiting,
        ready: Vec::new(alloc),
    })
}

// The numbers of all nodes.
fn all_nodes(alloc: Global, graph: &SmallGraph) -> Result<Vec<u32>, AllocError>
    ensures { IfOk result (λ all. AreNumbered (length graph.now.nodes.now) all.items) }
{
    let mut all = Vec::with_capacity(alloc, graph.nodes.len())?;
    for j in 0..graph.nodes.len() {
        all.push(j as u32)?;
    }
    Ok(all)
}

// The heights of all signals, and the nodes that have one.
fn levels_of(alloc: Global, graph: &SmallGraph) -> Result<Levels, AllocError>
    ensures { IfOk result (AreLevels graph.now) }
{
    let mut search = start(alloc, graph)?;
    let all = all_nodes(alloc, graph)?;
    search.settle_all(graph, &all)?;
    'telling: while search.tell(alloc, graph)? {}
    let Search {
        heights,
        order,
        waiting: _,
        ready: _,
    } = search;
    Ok(Levels { heights, order })
}

/// The heights of all signals, and the nodes that have one, in time in proportion to the graph.
pub fn find_levels(alloc: Global, inputs: usize, graph: &[Numbers]) -> Result<Levels, AllocError>
    requires graph { IsGraph inputs graph.now }
    requires few { inputs + length graph.now ≤ most_signals }
    ensures heights { IfOk result (λ l. AreHeights inputs graph.now l.heights.items) }
    ensures low { IfOk result (λ l. All (λ h. h ≤ 1 + length graph.now) l.heights.items) }
    ensures ordered { IfOk result (λ l. IsOrdered inputs graph.now l.heights.items l.order.items) }
{
    let small = SmallGraph {
        inputs,
        nodes: graph,
    };
    levels_of(alloc, &small)
}
