// The first node that leads to itself.
ghost use Rattle.std.specs.Prelude.{◌≡◌, ◌+◌, ◌<◌, ◌≤◌, ◌↔◌, ℕ, List, [], ◌∷◌, false, length};
ghost use Rattle.std.specs.Prelude.{vec_len, IsTrue, IfOk, IfSome, IfNone, OnOk, MatchOption};
ghost use Rattle.std.specs.Prelude.{Contains, All};
ghost use Rattle.lw_dag.specs.Graphs.{most_signals, IsGraph, height_at, AreHeights, IsStuck};
ghost use Rattle.lw_dag.specs.Graphs.{IsFirst};
ghost use Rattle.lw_dag.specs.Searching.{AreLookedAt};
ghost use Rattle.lw_dag.specs.Ranking.{AreRanks};
ghost use Rattle.lw_dag.specs.SmallGraphs.{AreHeightsOf, LacksHeight, LeadsToItself, IsOnCycle};
ghost use Rattle.lw_dag.specs.SmallGraphs.{AreAllHigh, IsLowAt};

use crate::graph::SmallGraph;
use crate::levels::open_fanin;
use crate::ranking::{are_below, ranks};
use lw_pool::Numbers;
use std::alloc::{AllocError, Global};

// The first node without a height.
fn first_stuck(inputs: usize, heights: &[u32]) -> Option<usize>
    ensures { MatchOption result (AreAllHigh inputs heights.now) (IsLowAt inputs heights.now) }
{
    for j in 0..heights.len().saturating_sub(inputs) {
        if heights[inputs + j] == 0 {
            return Some(j);
        }
    }
    None
}

// A fan-in without a height, as a node.
fn stuck_fanin(inputs: usize, fanins: &[u32], heights: &[u32]) -> usize
    requires signals { All (λ s. s < length heights.now) fanins.now }
    requires given_ones { (s : ℕ) → s < inputs → height_at heights.now s ≡ 1 }
    requires stuck { IsStuck heights.now fanins.now }
    ensures among { Contains fanins.now (inputs + result) }
    ensures lacks { height_at heights.now (inputs + result) ≡ 0 }
{
    match open_fanin(fanins, heights) {
        Some(s) => s as usize - inputs,
        None => unreachable!(),
    }
}

// A graph with the heights of its signals.
#[derive(Clone, Copy)]
struct Levelled<'a> {
    graph: &'a SmallGraph<'a>,
    heights: &'a [u32],
}

// Goes from a node without a height to such a fan-in, until one comes again: it is on a cycle.
fn on_cycle(alloc: Global, of: &Levelled, start: usize) -> Result<usize, AllocError>
    requires heights { AreHeightsOf of.now }
    requires start { LacksHeight of.now start }
    ensures { IfOk result (IsOnCycle of.now.graph.now) }
{
    let Levelled { graph, heights } = *of;
    let mut seen = vec![in alloc; false; graph.nodes.len()]?;
    let mut at = start;
    'walk: while !seen[at] {
        seen[at] = true;
        at = stuck_fanin(graph.inputs, graph.nodes[at].as_slice(), heights);
    }
    Ok(at)
}

// The nodes that were seen, and those whose fan-ins are still to be looked at.
#[derive(Drop)]
struct Reached {
    seen: Vec<bool>,
    ready: Vec<u32>,
}

impl Reached {
    // Notes the node that drives a signal, where it wasn't seen.
    fn note(&mut self, inputs: usize, s: u32) -> Result<(), AllocError>
        requires { s < inputs + vec_len self.old.seen }
        ensures { OnOk result ((later : List ℕ) →
            AreLookedAt inputs (s ∷ later) later self.old self.new) }
    {
        if (s as usize) < inputs {
            return Ok(());
        }
        let node = s as usize - inputs;
        if self.seen[node] {
            return Ok(());
        }
        self.ready.push(node as u32)?;
        self.seen[node] = true;
        Ok(())
    }

    // Notes all the fan-ins of a node.
    fn note_all(&mut self, inputs: usize, fanins: &[u32]) -> Result<(), AllocError>
        requires { All (λ s. s < inputs + vec_len self.old.seen) fanins.now }
        ensures { OnOk result (AreLookedAt inputs fanins.now [] self.old self.new) }
    {
        for s in fanins {
            self.note(inputs, *s)?;
        }
        Ok(())
    }
}

// Whether a node leads to itself.
fn leads_to_itself(alloc: Global, graph: &SmallGraph, p: usize) -> Result<bool, AllocError>
    requires { p < length graph.now.nodes.now }
    ensures { IfOk result (λ b. IsTrue b ↔ LeadsToItself graph.now p) }
{
    let seen = vec![in alloc; false; graph.nodes.len()]?;
    let mut ready = Vec::new(alloc);
    ready.push(p as u32)?;
    let mut reached = Reached { seen, ready };
    'search: while let Some(x) = reached.ready.pop() {
        reached.note_all(graph.inputs, graph.nodes[x as usize].as_slice())?;
    }
    Ok(reached.seen[p])
}

// Whether a node is on a cycle; one that has a height is not, nor is one whose fan-ins are all
// below it.
fn is_on_cycle(alloc: Global, of: &Levelled, ranks: &[usize], p: usize) -> Result<bool, AllocError>
    requires heights { AreHeightsOf of.now }
    requires ranks { AreRanks of.now.graph.now.inputs of.now.graph.now.nodes.now ranks.now }
    requires within { p < length of.now.graph.now.nodes.now }
    ensures { IfOk result (λ b. IsTrue b ↔ LeadsToItself of.now.graph.now p) }
{
    let Levelled { graph, heights } = *of;
    if heights[graph.inputs + p] != 0 {
        return Ok(false);
    }
    if are_below(ranks, graph.inputs, graph.nodes[p].as_slice(), ranks[p]) {
        return Ok(false);
    }
    leads_to_itself(alloc, graph, p)
}

// The first node that leads to itself, where some node has no height. By the ranks, only a node on
// a cycle is searched from.
fn first_behind(alloc: Global, of: &Levelled, start: usize) -> Result<usize, AllocError>
    requires heights { AreHeightsOf of.now }
    requires start { LacksHeight of.now start }
    ensures { IfOk result (IsFirst of.now.graph.now.inputs of.now.graph.now.nodes.now) }
{
    let last = on_cycle(alloc, of, start)?;
    let ranks = ranks(alloc, of.graph)?;
    for p in 0..last {
        if is_on_cycle(alloc, of, &ranks, p)? {
            return Ok(p);
        }
    }
    Ok(last)
}

/// The first node that leads to itself, or `None` where each signal has a height. It works in time
/// in proportion to the graph.
pub fn first_on_cycle(
    alloc: Global,
    inputs: usize,
    graph: &[Numbers],
    heights: &[u32],
) -> Result<Option<usize>, AllocError>
    requires graph { IsGraph inputs graph.now }
    requires few { inputs + length graph.now ≤ most_signals }
    requires heights { AreHeights inputs graph.now heights.now }
    ensures some { IfOk result (λ first. IfSome first (IsFirst inputs graph.now)) }
    ensures none { IfOk result (λ first. IfNone first (All (λ h. 0 < h) heights.now)) }
{
    let Some(start) = first_stuck(inputs, heights) else {
        return Ok(None);
    };
    let graph = &SmallGraph::of(inputs, graph);
    Ok(Some(first_behind(alloc, &Levelled { graph, heights }, start)?))
}
