// Ranks of nodes, by which most nodes that are on no cycle are told without a search.
ghost use Rattle.std.specs.Prelude.{◌≡◌, ◌+◌, ◌-◌, ◌<◌, ℕ, List, [], ◌∷◌, length, vec_len, IsTrue};
ghost use Rattle.std.specs.Prelude.{IfOk, OnOk, Contains, All};
ghost use Rattle.lw_dag.specs.Ranking.{rank_at, AreRanked, AreRanks, AreRanksTo};

use crate::graph::SmallGraph;
use crate::turning::turned_order;
use std::alloc::{AllocError, Global};

// The ranks of nodes while they are given, 0 where a node has none, and the nodes whose fan-ins are
// still to be looked at.
#[derive(Drop)]
struct Ranking {
    ranks: Vec<usize>,
    ready: Vec<u32>,
}

impl Ranking {
    // Gives the rank to the node that drives a signal, where it has none.
    fn rank_one(&mut self, inputs: usize, s: u32, rank: usize) -> Result<(), AllocError>
        requires some { 0 < rank }
        requires signal { s < inputs + vec_len self.old.ranks }
        ensures { OnOk result ((later : List ℕ) →
            AreRanked inputs rank (s ∷ later) later self.old self.new) }
    {
        if (s as usize) < inputs {
            return Ok(());
        }
        let node = s as usize - inputs;
        if self.ranks[node] != 0 {
            return Ok(());
        }
        self.ready.push(node as u32)?;
        self.ranks[node] = rank;
        Ok(())
    }

    // Gives the rank to all the fan-ins of a node that have none.
    fn rank_all(&mut self, inputs: usize, fanins: &[u32], rank: usize) -> Result<(), AllocError>
        requires some { 0 < rank }
        requires signals { All (λ s. s < inputs + vec_len self.old.ranks) fanins.now }
        ensures { OnOk result (AreRanked inputs rank fanins.now [] self.old self.new) }
    {
        for s in fanins {
            self.rank_one(inputs, *s, rank)?;
        }
        Ok(())
    }

    // Gives a rank above all others to a node and to all that it leads to, but for those that have
    // one.
    fn rank_from(&mut self, graph: &SmallGraph, p: usize, rank: usize) -> Result<(), AllocError>
        requires within { p < length graph.now.nodes.now }
        requires some { 0 < rank }
        requires before { AreRanksTo graph.now (rank - 1) self.old }
        ensures { OnOk result (AreRanksTo graph.now rank self.new) }
    {
        if self.ranks[p] != 0 {
            return Ok(());
        }
        self.ranks[p] = rank;
        self.ready.push(p as u32)?;
        'search: while let Some(x) = self.ready.pop() {
            self.rank_all(graph.inputs, graph.nodes[x as usize].as_slice(), rank)?;
        }
        Ok(())
    }
}

// Ranks of the nodes. By the order in which they are given, nodes share a rank only where each
// leads to the other.
pub(crate) fn ranks(alloc: Global, graph: &SmallGraph) -> Result<Vec<usize>, AllocError>
    ensures { IfOk result
        (λ ranks. AreRanks graph.now.inputs graph.now.nodes.now ranks.items) }
{
    let order = turned_order(alloc, graph)?;
    let ranks = vec![in alloc; 0; graph.nodes.len()]?;
    let ready = Vec::new(alloc);
    let mut ranking = Ranking { ranks, ready };
    for i in 0..order.len() {
        let p = order[order.len() - 1 - i];
        ranking.rank_from(graph, p as usize, i + 1)?;
    }
    Ok(ranking.ranks)
}

// Whether a signal is an input, or a node below a rank.
fn is_below(ranks: &[usize], inputs: usize, s: u32, rank: usize) -> bool
    ensures { IsTrue result → (k : ℕ) → s ≡ inputs + k → rank_at ranks.now k < rank }
{
    let Some(node) = (s as usize).checked_sub(inputs) else {
        return true;
    };
    node < ranks.len() && ranks[node] < rank
}

// Whether that is so of some signals.
pub(crate) fn are_below(ranks: &[usize], inputs: usize, fanins: &[u32], rank: usize) -> bool
    ensures { IsTrue result → (k : ℕ) → Contains fanins.now (inputs + k) →
        rank_at ranks.now k < rank }
{
    for s in fanins {
        if !is_below(ranks, inputs, *s, rank) {
            return false;
        }
    }
    true
}
