// Labels in rounds, for the places that one visit does not make still.
ghost use Rattle.std.specs.Prelude.{◌≡◌, ◌<◌, ◌/◌, ◌||◌, Some, None, true, IfOk, length, replicate};
ghost use Rattle.lw_label.specs.Lowering.{AreLowering, IsLowerOf};
ghost use Rattle.lw_label.specs.Orders.{IsVisited, places_of};
ghost use Rattle.lw_label.specs.Searches.{AreLabelled, AreRounds, AreUnlabelled, LowersAt};
ghost use Rattle.lw_label.specs.Searches.{LowersMark, LowersMarks, LowersPair, LowersRound};
ghost use Rattle.lw_label.specs.Searches.{LowersRounds, MayLower, PutsLabel};

use crate::heights::Visit;
use crate::labelling::{LabelRounds, Labelling, Task};
use crate::once::forget_moving;
use lw_cost::{Best, Cost, Mark};
use lw_graph::Graph;
use lw_match::{better_within, better_without_nands};
use lw_pool::ClassId;
use std::alloc::{AllocError, Global};

// One empty entry for each class.
pub(crate) fn no_marks(alloc: Global, graph: &Graph) -> Result<Vec<Option<Mark>>, AllocError>
    ensures { IfOk result (λ marks. marks.items ≡ replicate (length graph.now.pairs) None) }
{
    Ok(vec![in alloc; None; graph.classes() as usize]?)
}

// The mark of a class at which an input of cost `leaf` stands: its own, if that costs no more, else
// the cost of the input with height 0.
fn with_leaf(mark: Option<Mark>, leaf: u64) -> Mark
    ensures { IsLowerOf mark leaf result }
{
    match mark {
        Some(mark) if mark.cost <= leaf => mark,
        _ => Mark {
            cost: leaf,
            height: 0,
        },
    }
}

// Gives the inputs' classes the costs of their inputs.
fn label_inputs<C: Cost>(graph: &Graph, cost: &C, marks: &mut Vec<Option<Mark>>)
    requires { marks.old.items ≡ replicate (length graph.now.pairs) None }
    ensures { (pats : _) → AreLowering graph.now (C.costs cost.now) pats marks.new.items }
{
    for input in 0..graph.inputs() {
        let class = graph.leaf(input).0 as usize;
        marks[class] = Some(with_leaf(marks[class], cost.leaf(input)));
    }
}

// Whether one of the two is true.
pub(crate) fn either(one: bool, other: bool) -> bool
    ensures { result ≡ (one || other) }
{
    one || other
}

// Whether both are true.
pub(crate) fn both(one: bool, other: bool) -> bool
    ensures { result ≡ true → (one ≡ true) × (other ≡ true) }
{
    one && other
}

// Whether a mark costs less than another, or has less height, or is there where the other is not.
pub(crate) fn is_ahead(mark: Option<Mark>, other: Option<Mark>) -> bool {
    match (mark, other) {
        (Some(mark), Some(other)) => mark.cost < other.cost || mark.height < other.height,
        (Some(_), None) => true,
        (None, _) => false,
    }
}

impl Labelling<'_> {
    // Gives a class the cost of a match that was found as its label, with height 0, and says
    // whether there was one.
    fn put(&mut self, class: ClassId, found: Option<Best>) -> bool
        requires { class.0 < length self.old.marks.items }
        ensures { PutsLabel self.old self.new class.0 found result }
    {
        let Some(best) = found else {
            return false;
        };
        self.marks[class.0 as usize] = Some(Mark {
            cost: best.mark.cost,
            height: 0,
        });
        true
    }

    // Looks for a match whose pins have marks that costs less than the label of a class, mostly one
    // of the least cost, and gives the class that cost.
    pub(crate) fn lower_mark<C: Cost>(&mut self, task: &Task<C>, class: ClassId) -> Visit
        requires class { class.0 < length task.now.graph.now.pairs }
        requires may { MayLower C.costs task.now self.old }
        ensures { LowersMark C.costs task.now self.old self.new class.0 result }
    {
        let old = self.mark(class);
        let (graph, pats, cost) = (task.graph, task.pats, task.cost);
        let (bounds, marks) = (&self.bounds, &self.marks);
        let found = better_within(graph, pats, bounds, marks, class, cost, self.tops, old);
        let is_still = found.is_least;
        let lowered = self.put(class, found.best);
        Visit { lowered, is_still }
    }

    // Gives a class the cost of a match by a pattern without NANDs, where that is lower than its
    // own, and says whether it did.
    fn lower_without_nands<C: Cost>(&mut self, task: &Task<C>, class: ClassId) -> bool
        requires class { class.0 < length task.now.graph.now.pairs }
        requires may { MayLower C.costs task.now self.old }
        ensures { LowersMarks C.costs task.now self.old self.new (λ c. c ≡ class.0) result }
    {
        let old = self.mark(class);
        let (graph, pats, cost) = (task.graph, task.pats, task.cost);
        let (bounds, marks) = (&self.bounds, &self.marks);
        let found = better_without_nands(graph, pats, bounds, marks, class, cost, 0, old);
        self.put(class, found)
    }

    // Lowers the odd class of a place a second time where its complement, which was lowered since,
    // may be the pin of a better match. By patterns without NANDs alone can it be one, and the
    // complement could not be lowered by such a match in turn, since a cell costs no less than its
    // pins.
    fn lower_again<C: Cost>(&mut self, task: &Task<C>, place: u32, lowered: bool) -> bool
        requires place { place < places_of task.now.graph.now }
        requires may { MayLower C.costs task.now self.old }
        ensures { LowersMarks C.costs task.now self.old self.new (λ c. c / 2 ≡ place) result }
    {
        let _ = task.graph.classes();
        let (odd, even) = (ClassId(place * 2 + 1), ClassId(place * 2));
        if lowered && is_ahead(self.mark(even), self.mark(odd)) {
            return self.lower_without_nands(task, odd);
        }
        false
    }

    // Lets the numbers and the labels of the two classes of a place fall, and says whether one
    // fell. All numbers come first, since matches at a class are found by those of its complement
    // too.
    fn lower_pair<C: Cost>(&mut self, task: &Task<C>, place: u32) -> bool
        requires place { place < places_of task.now.graph.now }
        requires may { MayLower C.costs task.now self.old }
        ensures { LowersPair C.costs task.now self.old self.new place result }
    {
        let _ = task.graph.classes();
        let (odd, even) = (ClassId(place * 2 + 1), ClassId(place * 2));
        let one = self.bounds.renew(task.graph, &self.marks, odd);
        let other = self.bounds.renew(task.graph, &self.marks, even);
        let first = self.lower_mark(task, odd);
        let second = self.lower_mark(task, even);
        let third = self.lower_again(task, place, second.lowered);
        let lowered = either(second.lowered, first.lowered);
        either(third, either(lowered, either(other, one)))
    }
}

impl LabelRounds<'_> {
    // Lowers the two classes of the place of the visit with this number, if it is due or the round
    // is whole, and says whether a number or a label fell.
    fn lower_place<C: Cost>(&mut self, task: &Task<C>, number: usize, whole: bool) -> bool
        requires number { number < length self.old.visits.order }
        requires rounds { AreRounds C.costs task.now self.old }
        ensures { LowersAt C.costs task.now self.old self.new
            (IsVisited whole self.old.visits.order number) result }
    {
        let Some(place) = self.visits.due_unless_still(task.graph, number, whole) else {
            return false;
        };
        let lowered = self.labelling.lower_pair(task, place);
        self.visits.note(place, lowered);
        lowered
    }

    // Goes once through the places, and says whether it changed a number or a mark. A whole round
    // passes over none that is not still.
    fn lower_round<C: Cost>(&mut self, task: &Task<C>, whole: bool) -> bool
        requires { AreRounds C.costs task.now self.old }
        ensures { LowersRound C.costs task.now self.old self.new whole result }
    {
        let _ = task.graph.classes();
        let mut changed = false;
        for number in 0..self.visits.len() {
            let lowered = self.lower_place(task, number, whole);
            changed = either(lowered, changed);
        }
        changed
    }

    // Goes through the places that are due until that changes nothing, and then through all. Says
    // whether the last round changed something.
    fn lower_rounds<C: Cost>(&mut self, task: &Task<C>) -> bool
        requires { AreRounds C.costs task.now self.old }
        ensures { LowersRounds C.costs task.now self.old self.new result }
    {
        while self.lower_round(task, false) {}
        self.lower_round(task, true)
    }

    // Gives the inputs' classes the costs of their inputs, and lowers labels until no match would
    // lower one. Where one visit of each place is not enough, the places that are not still are
    // visited in rounds.
    pub(crate) fn lower_all<C: Cost>(&mut self, task: &Task<C>)
        requires { AreUnlabelled C.costs task.now self.old }
        ensures { AreLabelled C.costs task.now self.old self.new }
    {
        let _ = task.graph.classes();
        label_inputs(task.graph, task.cost, &mut self.labelling.marks);
        self.label_places(task);
        forget_moving(task.graph, &self.visits, &mut self.labelling.bounds);
        while self.lower_rounds(task) {}
    }
}
