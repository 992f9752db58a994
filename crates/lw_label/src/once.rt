// Labels by one visit of each place, before rounds begin.
ghost use Rattle.std.specs.Prelude.{◌≡◌, ◌<◌, ◌/◌, ◌⊎◌, false, length};
ghost use Rattle.lw_bounds.specs.Bounds.{AreRows, AreSettledAt, AreZero, IsTableBut};
ghost use Rattle.lw_label.specs.OneVisit.{AreRowsAround, AreSetAt, IsNoCheaper};
ghost use Rattle.lw_label.specs.Orders.{IsStillAt, places_of};
ghost use Rattle.lw_label.specs.Searches.{AreFirstRounds, ArePairFound, AreRounds, IsFound};
ghost use Rattle.lw_label.specs.Searches.{IsFoundBeside, MayLowerAround, SetsNumbers};

use crate::heights::first_of;
use crate::labelling::{LabelRounds, Labelling, Task};
use crate::visits::Visits;
use lw_bounds::Bounds;
use lw_cost::{Cost, Mark};
use lw_graph::Graph;
use lw_pool::ClassId;

// Gives a class the numbers that its pairs give, in the table of bounds: they go back to `u64::MAX`
// and then fall.
fn set_class(graph: &Graph, bounds: &mut Bounds, marks: &[Option<Mark>], class: ClassId)
    requires class { class.0 < length graph.now.pairs }
    requires around { AreRowsAround graph.now bounds.old marks.now (class.0 / 2) }
    ensures others { IsTableBut (λ c. c ≡ class.0) bounds.old bounds.new }
    ensures settled { AreSettledAt bounds.new graph.now marks.now class.0 }
{
    bounds.forget(class);
    bounds.renew(graph, marks, class);
}

// Gives the two classes of a place the numbers that their pairs give: the one visit of the place
// begins with it, for labels and for the table of heights.
pub(crate) fn set_pair(graph: &Graph, bounds: &mut Bounds, marks: &[Option<Mark>], place: u32)
    requires place { place < places_of graph.now }
    requires around { AreRowsAround graph.now bounds.old marks.now place }
    ensures { AreSetAt graph.now marks.now place bounds.old bounds.new }
{
    let _ = graph.classes();
    set_class(graph, bounds, marks, ClassId(place * 2 + 1));
    set_class(graph, bounds, marks, ClassId(place * 2));
}

// Whether a class may be the pin of a match that lowers the label of its complement: it was
// lowered, and costs less, or the complement has no label. `mark` is that of the class, and `other`
// that of the complement.
fn may_lower(lowered: bool, mark: Option<Mark>, other: Option<Mark>) -> bool
    ensures { result ≡ false → (lowered ≡ false) ⊎ IsNoCheaper mark other }
{
    if !lowered {
        return false;
    }
    match (mark, other) {
        (Some(mark), Some(other)) => mark.cost < other.cost,
        (Some(_), None) => true,
        (None, _) => false,
    }
}

// Puts the numbers of all classes whose places are not still back to `u64::MAX`, so that they can
// fall in the rounds.
pub(crate) fn forget_moving(graph: &Graph, visits: &Visits, bounds: &mut Bounds)
    requires places { visits.now.places ≡ places_of graph.now }
    requires rows { AreRows bounds.old.parts bounds.old.starts bounds.old.numbers graph.now }
    ensures { IsTableBut (λ c. IsStillAt visits.now.still c → ⊥) bounds.old bounds.new }
{
    for number in 0..graph.classes() {
        if !visits.is_still(ClassId(number)) {
            bounds.forget(ClassId(number));
        }
    }
}

impl Labelling<'_> {
    // Gives the two classes of a place the numbers that their pairs give.
    fn set_pair(&mut self, graph: &Graph, place: u32)
        requires place { place < places_of graph.now }
        requires around { AreRowsAround graph.now self.old.bounds self.old.marks.items place }
        ensures { SetsNumbers graph.now self.old self.new place }
    {
        set_pair(graph, &mut self.bounds, &self.marks, place);
    }

    // Lowers the label of a class until no match would lower it, and says whether it did.
    fn lower_whole<C: Cost>(&mut self, task: &Task<C>, class: ClassId) -> bool
        requires place { class.0 / 2 < places_of task.now.graph.now }
        requires may { MayLowerAround C.costs task.now self.old (class.0 / 2) }
        ensures { IsFound C.costs task.now self.old self.new class.0 result }
    {
        let first = self.lower_mark(task, class);
        if first.is_still {
            return first.lowered;
        }
        while !self.lower_mark(task, class).is_still {}
        true
    }

    // Lowers the label of a class as `lower_whole` does, and says whether the class may now be the
    // pin of a match that lowers the label of its complement.
    fn lower_beside<C: Cost>(&mut self, task: &Task<C>, class: ClassId) -> bool
        requires place { class.0 / 2 < places_of task.now.graph.now }
        requires may { MayLowerAround C.costs task.now self.old (class.0 / 2) }
        ensures { IsFoundBeside C.costs task.now self.old self.new class.0 result }
    {
        let lowered = self.lower_whole(task, class);
        may_lower(lowered, self.mark(class), self.mark(class.flip()))
    }

    // Finds the labels of the two classes of a place, given those of its parts, and says whether no
    // match would lower one then. A class is looked at again where the other one, which was lowered
    // since, may be the pin of a match that lowers it.
    fn label_pair<C: Cost>(&mut self, task: &Task<C>, place: u32) -> bool
        requires place { place < places_of task.now.graph.now }
        requires may { MayLowerAround C.costs task.now self.old place }
        ensures { ArePairFound C.costs task.now self.old self.new place result }
    {
        let class = first_of(task.graph, &self.marks, place);
        let other = class.flip();
        self.lower_whole(task, class);
        if !self.lower_beside(task, other) {
            return true;
        }
        if !self.lower_beside(task, class) {
            return true;
        }
        !self.lower_beside(task, other)
    }
}

impl LabelRounds<'_> {
    // Finds the labels of the place of the visit with this number, if its parts are still. It is
    // still then too, unless a match would lower one of them.
    fn label_place<C: Cost>(&mut self, task: &Task<C>, number: usize)
        requires number { number < length self.old.visits.order }
        requires first { AreFirstRounds C.costs task.now self.old }
        ensures order { self.new.visits.order ≡ self.old.visits.order }
        ensures first { AreFirstRounds C.costs task.now self.new }
    {
        let graph = task.graph;
        let Some(place) = self.visits.ready(graph, number) else {
            return;
        };
        self.labelling.set_pair(graph, place);
        if self.labelling.label_pair(task, place) {
            self.visits.keep(graph, place);
        }
    }

    // Visits each place once. Where its parts are still, as all are where no cycle leads back to a
    // place, its labels are found to their end. All numbers are 0 until then, so that the table is
    // one of bounds at any time.
    pub(crate) fn label_places<C: Cost>(&mut self, task: &Task<C>)
        requires rounds { AreRounds C.costs task.now self.old }
        requires zero { AreZero self.old.labelling.bounds.numbers }
        ensures { AreRounds C.costs task.now self.new }
    {
        for number in 0..self.visits.len() {
            self.label_place(task, number);
        }
    }
}
