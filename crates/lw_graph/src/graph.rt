ghost use Rattle.std.specs.Prelude.{◌≡◌, ◌<◌, ◌/◌, ℕ, length, Some, [], slice_get, slice_index_or};
ghost use Rattle.std.specs.Prelude.{All, IfOk, IfSome, IsNone};
ghost use Rattle.lw_graph.specs.Ordered.{ordered_pair};

use crate::Pair;
use crate::index::{Entry, fill, found, sought};
use crate::parts::Parts;
use lw_laws::graphs::tree_unfolds_once;
use lw_pool::{ClassId, Classes, FormId, Numbers, PairId, Pool};
use std::alloc::{AllocError, Global};
use std::marker::Model;

/// A graph of classes. Each class has a number; its complement has the number with the last bit
/// changed.
///
/// The pairs of all classes stand in one pool, one class after the other. An index of them all, in
/// their order, is made where it is asked for.
#[derive(Drop)]
pub struct Graph {
    one: ClassId,
    leaves: Classes,
    forms: Classes,
    ends: Numbers,
    pairs: Pool<PairId, Pair>,
    indexed: bool,
    index: Vec<Entry>,
}

impl Model for Graph {
    ghost use Rattle.lw_graph.specs.Graphs.{flat_graph};
    ghost use Rattle.lw_graph.specs.Kept.{IsFlatGraph};
    ghost use Rattle.lw_laws.specs.Graphs.{Graph as PlainGraph};

    ghost Value = { PlainGraph };

    ghost view = { λ g. flat_graph g.one g.leaves g.forms g.ends g.pairs.items };

    ghost invariant = { λ g. IsFlatGraph g.one g.leaves g.forms g.ends
        g.pairs.items g.indexed g.index.items };
}

// A pair of classes, the lower one first.
fn ordered(x: ClassId, y: ClassId) -> Pair
    ensures { result ≡ ordered_pair x.0 y.0 }
{
    Pair {
        x: ClassId(x.0.min(y.0)),
        y: ClassId(x.0.max(y.0)),
    }
}

impl Graph {
    ghost use Rattle.lw_graph.specs.Graphs.{flat_graph, plain_row, IsGraph};
    ghost use Rattle.lw_graph.specs.Rows.{AreEnds};
    ghost use Rattle.lw_laws.specs.Graphs.{AreRising, HoldsPair, class_of};
    ghost use Rattle.lw_laws.specs.Laws.{TreesUnfoldOnce};
    ghost use Rattle.lw_graph.specs.declared.pair.Pair.{Pair};

    /// A graph with the class of true, the class of each input, the class of each base form, and
    /// the pairs of each class: those from where the class before it ends to where it ends. It has
    /// no index yet, whose growth takes memory from `alloc`.
    pub fn flat(
        alloc: Global,
        one: ClassId,
        leaves: Classes,
        forms: Classes,
        ends: Numbers,
        pairs: Pool<PairId, Pair>,
    ) -> Result<Graph, AllocError>
        requires ends { AreEnds (length pairs.items) 0 ends }
        requires graph { IsGraph (flat_graph one leaves forms ends pairs.items) }
        ensures { IfOk result (λ g. g ≡ flat_graph one leaves forms ends pairs.items) }
    {
        Ok(Graph {
            one,
            leaves,
            forms,
            ends,
            pairs,
            indexed: false,
            index: Vec::new(alloc),
        })
    }

    /// Makes the index by which `holder` finds pairs, unless it is there. If memory runs out, there
    /// is none.
    pub fn make_index(&mut self) -> Result<(), AllocError>
        ensures { self.new ≡ self.old }
    {
        if self.indexed {
            return Ok(());
        }
        let parts = Parts {
            pairs: &self.pairs,
            ends: self.ends.as_slice(),
        };
        fill(&mut self.index, &parts)?;
        self.indexed = true;
        Ok(())
    }

    /// The number of classes, complements counted.
    pub fn classes(&self) -> u32
        ensures classes { result ≡ length self.now.pairs }
        ensures kept { IsGraph self.now }
    {
        self.ends.len() as u32
    }

    /// The class of true.
    pub fn one(&self) -> ClassId
        ensures class { result.0 ≡ self.now.one }
        ensures within { result.0 < length self.now.pairs }
    {
        self.one
    }

    /// The number of inputs.
    pub fn inputs(&self) -> u32
        ensures inputs { result ≡ length self.now.leaves }
        ensures kept { IsGraph self.now }
    {
        self.leaves.len() as u32
    }

    /// The class of an input.
    pub fn leaf(&self, input: u32) -> ClassId
        requires { input < length self.now.leaves }
        ensures class { slice_get self.now.leaves input ≡ Some result.0 }
        ensures within { result.0 < length self.now.pairs }
    {
        self.leaves.get(input as usize)
    }

    /// The class of a form: that of its base form, or the complement of that.
    #[tactic(auto, using(crate::proofs::Flips::flip_rules))]
    pub fn class_of(&self, form: FormId) -> ClassId
        requires { form.0 / 2 < length self.now.forms }
        ensures class { result.0 ≡ class_of self.now form.0 }
        ensures within { result.0 < length self.now.pairs }
    {
        let class = self.forms.get((form.0 / 2) as usize);
        if form.0 % 2 == 0 { class } else { class.flip() }
    }

    /// The pairs that a class holds, in rising order.
    pub fn nands(&self, class: ClassId) -> &[Pair]
        requires { class.0 < length self.now.pairs }
        ensures pairs { plain_row result.now ≡ slice_index_or self.now.pairs class.0 [] }
        ensures within { All (λ (p : Pair). (p.x.0 < length self.now.pairs) ×
            (p.y.0 < length self.now.pairs)) result.now }
        ensures rising { AreRising (plain_row result.now) }
    {
        let parts = Parts {
            pairs: &self.pairs,
            ends: self.ends.as_slice(),
        };
        parts.row(class.0 as usize)
    }

    /// The class that holds the unordered pair of two classes, or none where no class does. It
    /// takes no memory. Without an index it looks at each class.
    pub fn holder(&self, x: ClassId, y: ClassId) -> Option<ClassId>
        requires x { x.0 < length self.now.pairs }
        requires y { y.0 < length self.now.pairs }
        ensures some { IfSome result (λ c. HoldsPair self.now c.0 x.0 y.0) }
        ensures none { IsNone result → (c : ℕ) → HoldsPair self.now c x.0 y.0 → ⊥ }
        ensures within { IfSome result (λ c. c.0 < length self.now.pairs) }
    {
        let pair = ordered(x, y);
        if self.indexed {
            found(&self.index, pair)
        } else {
            let parts = Parts {
                pairs: &self.pairs,
                ends: self.ends.as_slice(),
            };
            sought(&parts, pair)
        }
    }

    /// A tree unfolds at one class at most.
    pub fn trees_unfold_once(&self)
        ensures { TreesUnfoldOnce self.now }
    {
        let _ = &self.one;
        tree_unfolds_once();
    }
}
