// Sums of inputs modulo 2 in one form, each step of which is found to be equal.
ghost use Rattle.std.specs.Prelude.{◌≡◌};
ghost use Rattle.lw_sweep.specs.Sweeps.{IsExtended};

use crate::Sweep;
use crate::cone::Cone;
use crate::forms::Halves;
use crate::parity::Sums;
use lw_aig::Literal;
use std::alloc::{AllocError, Global};

// How many steps a sum of two sums takes at most.
const MOST_STEPS: u32 = 100_000;

// Two sums that are to be added.
#[derive(Clone, Copy)]
struct Task {
    one: Literal,
    other: Literal,
}

impl Sweep {
    // The sum in the form of two sums in the form, where it is known. The graph may grow.
    fn known_sum(&mut self, alloc: Global, task: Task) -> Result<Option<Literal>, AllocError>
        ensures { IsExtended self.old self.new }
    {
        if task.one.0 == 0 {
            return Ok(Some(task.other));
        }
        if task.other.0 == 0 {
            return Ok(Some(task.one));
        }
        if task.one == task.other {
            return Ok(Some(Literal(0)));
        }
        let Some(whole) = self.exclusive(alloc, task.one, task.other)? else {
            return Ok(None);
        };
        Ok(self.known(whole))
    }

    // The sum in the form that stands for a literal, if there is one.
    fn known(&self, literal: Literal) -> Option<Literal> {
        if self.forms.has(literal) {
            return Some(literal);
        }
        let stand = self.stand_of(literal);
        if self.forms.has(stand) {
            return Some(stand);
        }
        None
    }

    // The sum in the form of two sums in the form, which stands for their exclusive disjunction.
    // The graph grows.
    #[tactic(auto, using(crate::proofs::Growing::growth))]
    fn add_sums(&mut self, alloc: Global, task: Task) -> Result<Option<Literal>, AllocError>
        ensures { IsExtended self.old self.new }
    {
        let mut tasks = Vec::new(alloc);
        tasks.push(task)?;
        'tasks: for _ in 0..MOST_STEPS {
            let Some(last) = tasks.last().copied() else {
                break;
            };
            if !self.add_step(alloc, last, &mut tasks)? {
                return Ok(None);
            }
        }
        self.known_sum(alloc, task)
    }

    // One step: takes the last task away, if its sum is known now, or puts others on it that come
    // first. Whether it does.
    #[tactic(auto, using(crate::proofs::Growing::growth))]
    fn add_step(
        &mut self,
        alloc: Global,
        task: Task,
        tasks: &mut Vec<Task>,
    ) -> Result<bool, AllocError>
        ensures { IsExtended self.old self.new }
    {
        if self.known_sum(alloc, task)?.is_some() {
            tasks.pop();
            return Ok(true);
        }
        let bit = self.forms.bit(task.one, task.other);
        let a = self.forms.halves(task.one, bit);
        let b = self.forms.halves(task.other, bit);
        if (a.left.0 == 0 && b.right.0 == 0) || (a.right.0 == 0 && b.left.0 == 0) {
            return self.join(alloc, task);
        }
        self.add_halves(alloc, task, a, b, tasks)
    }

    // Takes the sum of two sums that are its halves: whether there was room for it.
    fn join(&mut self, alloc: Global, task: Task) -> Result<bool, AllocError>
        ensures { IsExtended self.old self.new }
    {
        let Some(whole) = self.exclusive(alloc, task.one, task.other)? else {
            return Ok(false);
        };
        let nodes = self.aig().gates().len();
        self.forms.fit(nodes)?;
        self.forms.put(whole, task.one, task.other);
        self.let_equal(whole, whole);
        Ok(true)
    }

    // Adds two sums by their halves, or puts the sums of these on the tasks.
    #[tactic(auto, using(crate::proofs::Growing::growth))]
    fn add_halves(
        &mut self,
        alloc: Global,
        task: Task,
        a: Halves,
        b: Halves,
        tasks: &mut Vec<Task>,
    ) -> Result<bool, AllocError>
        ensures { IsExtended self.old self.new }
    {
        let left = Task {
            one: a.left,
            other: b.left,
        };
        let right = Task {
            one: a.right,
            other: b.right,
        };
        let Some(low) = self.known_sum(alloc, left)? else {
            tasks.push(left)?;
            return Ok(true);
        };
        let Some(high) = self.known_sum(alloc, right)? else {
            tasks.push(right)?;
            return Ok(true);
        };
        let both = Task {
            one: low,
            other: high,
        };
        let Some(_) = self.known_sum(alloc, both)? else {
            tasks.push(both)?;
            return Ok(true);
        };
        self.cross(alloc, task, left, right)
    }

    // Lets the sum of the sums of halves stand for the exclusive disjunction of two sums.
    #[tactic(auto, using(crate::proofs::Growing::growth))]
    fn cross(
        &mut self,
        alloc: Global,
        task: Task,
        left: Task,
        right: Task,
    ) -> Result<bool, AllocError>
        ensures { IsExtended self.old self.new }
    {
        let Some(crossed) = self.crossed(alloc, left, right)? else {
            return Ok(false);
        };
        let Some(whole) = self.exclusive(alloc, task.one, task.other)? else {
            return Ok(false);
        };
        self.renew_exclusive(alloc, crossed)?;
        let stops = [
            left.one.node(),
            left.other.node(),
            right.one.node(),
            right.other.node(),
        ];
        let adopted = self.adopt(alloc, whole, crossed, &stops)?;
        Ok(adopted && self.known(whole).is_some())
    }

    // The exclusive disjunction of those of halves.
    #[tactic(auto, using(crate::proofs::Growing::growth))]
    fn crossed(
        &mut self,
        alloc: Global,
        left: Task,
        right: Task,
    ) -> Result<Option<Literal>, AllocError>
        ensures { IsExtended self.old self.new }
    {
        let Some(low) = self.exclusive(alloc, left.one, left.other)? else {
            return Ok(None);
        };
        let Some(high) = self.exclusive(alloc, right.one, right.other)? else {
            return Ok(None);
        };
        self.exclusive(alloc, low, high)
    }

    // Adds a sum in the form to an exclusive disjunction, and to the sum in the form that stands
    // for it.
    #[tactic(auto, using(crate::proofs::Growing::growth))]
    fn add_leaf(
        &mut self,
        alloc: Global,
        plain: Literal,
        sum: Literal,
        leaf: Literal,
    ) -> Result<Option<(Literal, Literal)>, AllocError>
        ensures { IsExtended self.old self.new }
    {
        let task = Task {
            one: sum,
            other: leaf,
        };
        let Some(more) = self.add_sums(alloc, task)? else {
            return Ok(None);
        };
        let Some(next) = self.exclusive(alloc, plain, leaf)? else {
            return Ok(None);
        };
        if plain != sum {
            self.renew_exclusive(alloc, next)?;
        }
        Ok(Some((next, more)))
    }

    // The exclusive disjunction of some leaves, for which a sum in the form stands.
    #[tactic(auto, using(crate::proofs::Growing::growth))]
    fn sum_of_leaves(
        &mut self,
        alloc: Global,
        leaves: &[u32],
        members: u64,
    ) -> Result<Option<Literal>, AllocError>
        ensures { IsExtended self.old self.new }
    {
        let mut both = (Literal(0), Literal(0));
        'leaves: for (k, leaf) in leaves.iter().enumerate() {
            let taken = members >> (k & 63) & 1 == 1;
            let Some(more) = self.add_if(alloc, both, *leaf, taken)? else {
                return Ok(None);
            };
            both = more;
        }
        Ok(Some(both.0))
    }

    // The same for two literals and a leaf, if that is taken.
    #[tactic(auto, using(crate::proofs::Growing::growth))]
    fn add_if(
        &mut self,
        alloc: Global,
        both: (Literal, Literal),
        leaf: u32,
        taken: bool,
    ) -> Result<Option<(Literal, Literal)>, AllocError>
        ensures { IsExtended self.old self.new }
    {
        if !taken {
            return Ok(Some(both));
        }
        let literal = self.forms.sum(leaf);
        self.add_leaf(alloc, both.0, both.1, literal)
    }

    // Writes leaves that are sums of others as those: whether there was room. The others are left.
    #[tactic(auto, using(crate::proofs::Growing::growth))]
    fn free_leaves(
        &mut self,
        alloc: Global,
        cone: &mut Cone,
        sums: &Sums,
        free: &mut Vec<u32>,
    ) -> Result<bool, AllocError>
        ensures { IsExtended self.old self.new }
    {
        'leaves: for k in 0..sums.leaves.len() {
            let leaf = cone.leaves.get(k).copied().unwrap_or(0);
            if !self.free_leaf(alloc, cone, leaf, sums.leaves[k], free)? {
                return Ok(false);
            }
        }
        Ok(true)
    }

    // The same for one leaf, and the members of its sum.
    #[tactic(auto, using(crate::proofs::Growing::growth))]
    fn free_leaf(
        &mut self,
        alloc: Global,
        cone: &mut Cone,
        leaf: u32,
        members: u64,
        free: &mut Vec<u32>,
    ) -> Result<bool, AllocError>
        ensures { IsExtended self.old self.new }
    {
        if members == 0 {
            free.push(leaf)?;
            return Ok(true);
        }
        let Some(plain) = self.sum_of_leaves(alloc, &cone.leaves, members)? else {
            return Ok(false);
        };
        let turned = self.forms.sum(leaf).0 % 2 == 1;
        cone.put_image(leaf, if turned { plain.flip() } else { plain })?;
        Ok(true)
    }

    // The conjunction at a node, with its leaves as they are written: what stands for it is what
    // stands for the node.
    #[tactic(auto, using(crate::proofs::Growing::growth))]
    fn rewrite(&mut self, alloc: Global, cone: &mut Cone, node: u32) -> Result<bool, AllocError>
        ensures { IsExtended self.old self.new }
    {
        let Some((a, b)) = self.sides(node) else {
            return Ok(true);
        };
        let (left, right) = (cone.image(a), cone.image(b));
        if left == a && right == b {
            return Ok(true);
        }
        let Some(literal) = self.plain(alloc, left, right)? else {
            return Ok(false);
        };
        self.renew(alloc, literal.node())?;
        cone.put_image(node, literal)?;
        Ok(true)
    }

    // The same for all nodes of a cone.
    #[tactic(auto, using(crate::proofs::Growing::growth))]
    fn rewrite_all(&mut self, alloc: Global, cone: &mut Cone) -> Result<bool, AllocError>
        ensures { IsExtended self.old self.new }
    {
        'inner: for k in 0..cone.inner.len() {
            let node = cone.inner.get(k).copied().unwrap_or(0);
            if !self.rewrite(alloc, cone, node)? {
                return Ok(false);
            }
        }
        Ok(true)
    }

    // Lets a sum in the form stand for a conjunction that looks like one, if both are found to be
    // equal above the sums that the conjunction is made of. The graph grows.
    pub(crate) fn settle_sum(&mut self, alloc: Global, node: u32) -> Result<bool, AllocError>
        ensures { IsExtended self.old self.new }
    {
        let nodes = self.aig().gates().len();
        self.forms.fit(nodes)?;
        let mut cone = Cone::new(alloc);
        if !cone.reach(self.search.aig().gates(), &self.forms, node)? {
            return Ok(false);
        }
        cone.inner.sort_unstable();
        let own = Literal(node.wrapping_mul(2));
        let Some(sums) = self
            .parity
            .sums(alloc, &self.patterns, &cone.leaves, own, own)?
        else {
            return Ok(false);
        };
        self.settle_cone(alloc, node, &mut cone, &sums)
    }

    // The same, where the leaves of the cone are known.
    #[tactic(auto, using(crate::proofs::Growing::growth))]
    fn settle_cone(
        &mut self,
        alloc: Global,
        node: u32,
        cone: &mut Cone,
        sums: &Sums,
    ) -> Result<bool, AllocError>
        ensures { IsExtended self.old self.new }
    {
        let Some(sum) = self.sum_of_leaves(alloc, &cone.leaves, sums.all)? else {
            return Ok(false);
        };
        let mut free = Vec::new(alloc);
        if !self.free_leaves(alloc, cone, sums, &mut free)? {
            return Ok(false);
        }
        if !self.rewrite_all(alloc, cone)? {
            return Ok(false);
        }
        let image = cone.image(Literal(node.wrapping_mul(2)));
        let turned = self.patterns.is_true(image) != self.patterns.is_true(sum);
        let other = if turned { sum.flip() } else { sum };
        self.adopt_by(alloc, node, image, other, &free)
    }
}
