// Conjunctions as nodes of their own, and what stands for them.
ghost use Rattle.std.specs.Prelude.{◌≡◌, ◌<◌, length, slice_get, IfOk, IfSome, Some};
ghost use Rattle.lw_aig.specs.declared.gate.Gate.TheVariants.{And};
ghost use Rattle.lw_aig.specs.Aigs.{IsBelow, IsConjunction, most_nodes};
ghost use Rattle.lw_sweep.specs.Sweeps.{IsExtended};

use crate::Sweep;
use crate::simplifying::simple;
use lw_aig::{Gate, Literal};
use std::alloc::{AllocError, Global};

impl Sweep {
    // The conjunction of two literals as a node of its own, or none where there is no room for it,
    // or where the literals are of no nodes of the graph.
    pub(crate) fn plain(
        &mut self,
        alloc: Global,
        left: Literal,
        right: Literal,
    ) -> Result<Option<Literal>, AllocError>
        ensures grows { IsExtended self.old self.new }
        ensures conjunction { IfOk result (λ l. IfSome l (IsConjunction self.new left right)) }
    {
        let nodes = self.aig().gates().len();
        if left.node() as usize >= nodes || right.node() as usize >= nodes {
            return Ok(None);
        }
        if left.0 > right.0 {
            return self.plain_ordered(alloc, right, left);
        }
        self.plain_ordered(alloc, left, right)
    }

    // The same for two literals in the order of their numbers.
    fn plain_ordered(
        &mut self,
        alloc: Global,
        left: Literal,
        right: Literal,
    ) -> Result<Option<Literal>, AllocError>
        requires left { IsBelow (length self.old) left }
        requires right { IsBelow (length self.old) right }
        ensures grows { IsExtended self.old self.new }
        ensures conjunction { IfOk result (λ l. IfSome l (IsConjunction self.new left right)) }
    {
        let _ = self.aig().gates();
        if let Some(literal) = simple(left, right) {
            return Ok(Some(literal));
        }
        if let Some(node) = self.aig().find(left, right) {
            return Ok(Some(Literal::of(node)));
        }
        if self.aig().is_full() {
            return Ok(None);
        }
        let literal = self.append(alloc, left, right)?;
        Ok(Some(literal))
    }

    // Appends a conjunction, which stands for itself and is in no class.
    fn append(
        &mut self,
        alloc: Global,
        left: Literal,
        right: Literal,
    ) -> Result<Literal, AllocError>
        requires room { length self.old < most_nodes }
        requires left { IsBelow (length self.old) left }
        requires right { IsBelow (length self.old) right }
        ensures grows { IsExtended self.old self.new }
        ensures conjunction { IfOk result (IsConjunction self.new left right) }
    {
        let node = self.aig().gates().len() as u32;
        self.push(alloc, left, right)?;
        Ok(Literal::of(node))
    }

    // The exclusive disjunction of two literals in nodes of its own, if there is room. The graph
    // grows.
    #[tactic(auto, using(crate::proofs::Growing::growth))]
    pub(crate) fn exclusive(
        &mut self,
        alloc: Global,
        left: Literal,
        right: Literal,
    ) -> Result<Option<Literal>, AllocError>
        ensures { IsExtended self.old self.new }
    {
        let Some((one, other)) = self.differences(alloc, left, right)? else {
            return Ok(None);
        };
        let neither = self.plain(alloc, one.flip(), other.flip())?;
        Ok(neither.map(|literal| literal.flip()))
    }

    // Each of two literals without the other one.
    #[tactic(auto, using(crate::proofs::Growing::growth))]
    fn differences(
        &mut self,
        alloc: Global,
        left: Literal,
        right: Literal,
    ) -> Result<Option<(Literal, Literal)>, AllocError>
        ensures { IsExtended self.old self.new }
    {
        let Some(one) = self.plain(alloc, left, right.flip())? else {
            return Ok(None);
        };
        let Some(other) = self.plain(alloc, left.flip(), right)? else {
            return Ok(None);
        };
        Ok(Some((one, other)))
    }

    // The literals of a conjunction.
    pub(crate) fn sides(&self, node: u32) -> Option<(Literal, Literal)>
        ensures { IfSome result (λ (a, b). slice_get self.now node ≡ Some (And a b)) }
    {
        match self.aig().gates().get(node as usize) {
            Some(Gate::And(a, b)) => Some((*a, *b)),
            _ => None,
        }
    }

    // Lets a conjunction of what stands for its sides stand for a conjunction. The graph grows.
    pub(crate) fn renew(&mut self, alloc: Global, node: u32) -> Result<(), AllocError>
        ensures { IsExtended self.old self.new }
    {
        let _ = self.aig().gates();
        let Some((a, b)) = self.sides(node) else {
            return Ok(());
        };
        let left = self.stand_of(a);
        let right = self.stand_of(b);
        let Some(literal) = self.plain(alloc, left, right)? else {
            return Ok(());
        };
        let stand = self.stand_of(literal);
        self.let_equal(Literal::of(node), stand);
        Ok(())
    }

    // The same for an exclusive disjunction in nodes of its own.
    #[tactic(auto, using(crate::proofs::Growing::growth))]
    pub(crate) fn renew_exclusive(
        &mut self,
        alloc: Global,
        literal: Literal,
    ) -> Result<(), AllocError>
        ensures { IsExtended self.old self.new }
    {
        let node = literal.node();
        let Some((a, b)) = self.sides(node) else {
            return Ok(());
        };
        self.renew(alloc, a.node())?;
        self.renew(alloc, b.node())?;
        self.renew(alloc, node)
    }

    // Lets what stands for a literal stand for another, if the search finds both to be equal.
    pub(crate) fn adopt(
        &mut self,
        alloc: Global,
        literal: Literal,
        other: Literal,
        stops: &[u32],
    ) -> Result<bool, AllocError>
        ensures { self.new ≡ self.old }
    {
        if !self.are_same(alloc, literal, other, stops)? {
            return Ok(false);
        }
        let stand = self.stand_of(other);
        self.let_equal(literal, stand);
        Ok(true)
    }

    // Lets what stands for a literal stand for a node, if the search finds the literal to be equal
    // to another, for which the node stands.
    pub(crate) fn adopt_by(
        &mut self,
        alloc: Global,
        node: u32,
        through: Literal,
        other: Literal,
        stops: &[u32],
    ) -> Result<bool, AllocError>
        ensures { self.new ≡ self.old }
    {
        let own = self.stand_of(through);
        if own.node() != node {
            return Ok(false);
        }
        if !self.are_same(alloc, through, other, stops)? {
            return Ok(false);
        }
        let stand = self.stand_of(other);
        self.let_equal(own, stand);
        Ok(true)
    }
}
