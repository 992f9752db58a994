// Heights in rounds, once the labels are found.
ghost use Rattle.std.specs.Prelude.{◌≡◌, ◌<◌, ◌/◌, ◌⊎◌, None, true, false, IfSome, length};
ghost use Rattle.std.specs.Prelude.{slice_index_or};
ghost use Rattle.lw_bounds.specs.Bounds.{AreBounds};
ghost use Rattle.lw_cost.specs.Labels.{AreLeastMarks};
ghost use Rattle.lw_label.specs.Orders.{IsVisited, places_of};
ghost use Rattle.lw_label.specs.Heights.{IsNoPin, height_limit};
ghost use Rattle.lw_label.specs.HeightTables.{AreHeightRounds, HasHeightsOf, HaveStarted};
ghost use Rattle.lw_label.specs.HeightTables.{LowersHeight, LowersHeightBeside, LowersHeightPair};
ghost use Rattle.lw_label.specs.HeightTables.{LowersHeightRound, LowersHeightRounds};
ghost use Rattle.lw_label.specs.HeightTables.{LowersHeightsAt, MayLowerHeights, MayStart};
ghost use Rattle.lw_label.specs.HeightTables.{MayStartRounds, PutsHeight};

use crate::labelling::Task;
use crate::lowering::{both, either, is_ahead};
use crate::table::{HeightTable, put_in, seen_in, set_if_still};
use crate::visits::Visits;
use lw_bounds::Bounds;
use lw_cost::{Best, Cost, Mark};
use lw_graph::Graph;
use lw_match::{Tops, lower_within};
use lw_pool::ClassId;

/// What heights are found from: labels for a task, and a table of bounds for them.
#[derive(Drop)]
pub(crate) struct Given<'a, 'b, 'c, C> {
    pub task: &'a Task<'b, C>,
    pub bounds: &'c Bounds,
    pub labels: &'c [Option<Mark>],
}

/// Heights that fall: what is known of the gaps in the table of bounds, the table of heights, where
/// there is one, and the marks so far.
#[derive(Drop)]
pub(crate) struct Heights<'a> {
    pub tops: &'a mut Tops,
    pub table: Option<HeightTable>,
    pub marks: Vec<Option<Mark>>,
}

/// Heights that fall, and the visits of places by which they do.
#[derive(Drop)]
pub(crate) struct HeightRounds<'a> {
    pub visits: Visits,
    pub heights: Heights<'a>,
}

/// What a visit did: whether it lowered a label or a height, and whether no match would lower one
/// then.
#[derive(Clone, Copy)]
pub(crate) struct Visit {
    pub lowered: bool,
    pub is_still: bool,
}

// A visit that found nothing to lower, as of a class without a label.
fn idle_visit() -> Visit
    ensures lowered { result.lowered ≡ false }
    ensures is_still { result.is_still ≡ true }
{
    Visit {
        lowered: false,
        is_still: true,
    }
}

// What the mark of a match has to be before, so that it lowers the height of a class with this
// label. `mark` is what the class has so far, none while it has no height.
fn height_bound(label: Mark, mark: Option<Mark>) -> Mark
    ensures cost { result.cost ≡ label.cost }
    ensures height { result.height ≡ height_limit mark }
{
    let height = match mark {
        Some(mark) => mark.height,
        None => u32::MAX,
    };
    Mark {
        cost: label.cost,
        height,
    }
}

// The class of a place that comes first, for labels and for heights: the one with the lower label,
// since no match attains a label that has a pin with a higher one.
pub(crate) fn first_of(graph: &Graph, labels: &[Option<Mark>], place: u32) -> ClassId
    requires place { place < places_of graph.now }
    requires one_each { length labels.now ≡ length graph.now.pairs }
    ensures { result.0 / 2 ≡ place }
{
    let _ = graph.classes();
    let odd = ClassId(place * 2 + 1);
    let even = odd.flip();
    if is_ahead(labels[even.0 as usize], labels[odd.0 as usize]) {
        even
    } else {
        odd
    }
}

// Whether a class may be the pin of a match that lowers the height of its complement: it was
// lowered, and its label is no higher and its height less. `mark` is that of the class, and `other`
// that of the complement.
fn may_lower(lowered: bool, mark: Option<Mark>, other: Option<Mark>) -> bool
    ensures { result ≡ false → (lowered ≡ false) ⊎ IsNoPin mark other }
{
    if !lowered {
        return false;
    }
    match (mark, other) {
        (Some(mark), Some(other)) => mark.cost <= other.cost && mark.height < other.height,
        _ => true,
    }
}

impl Heights<'_> {
    // The mark of a class: its label and its height in gates so far; none while it has no height.
    fn mark(&self, class: ClassId) -> Option<Mark>
        requires { class.0 < length self.now.marks.items }
        ensures { result ≡ slice_index_or self.now.marks.items class.0 None }
    {
        self.marks[class.0 as usize]
    }

    // Gives the inputs' classes their labels and the height 0.
    fn start<C: Cost>(&mut self, given: &Given<C>)
        requires { MayStart given.now self.old }
        ensures { HaveStarted given.now self.old self.new }
    {
        for input in 0..given.task.graph.inputs() {
            let class = given.task.graph.leaf(input);
            let mark = given.labels[class.0 as usize];
            self.marks[class.0 as usize] = mark;
            put_in(&mut self.table, class, mark);
        }
    }

    // Gives a class the mark of a match that was found, and says whether there was one.
    fn put(&mut self, class: ClassId, found: Option<Best>) -> bool
        requires class { class.0 < length self.old.marks.items }
        requires table { IfSome self.old.table (HasHeightsOf self.old.marks.items) }
        ensures { PutsHeight self.old self.new class.0 found result }
    {
        let Some(best) = found else {
            return false;
        };
        let mark = Some(best.mark);
        self.marks[class.0 as usize] = mark;
        put_in(&mut self.table, class, mark);
        true
    }

    // Gives a class the height of a match that attains its label and whose pins have marks, mostly
    // the least, where that is lower than its own. A class without a label gets none.
    fn lower<C: Cost>(&mut self, given: &Given<C>, class: ClassId) -> Visit
        requires place { class.0 / 2 < places_of given.now.task.now.graph.now }
        requires may { MayLowerHeights C.costs given.now self.old (class.0 / 2) }
        ensures { LowersHeight C.costs given.now self.old self.new class.0 result }
    {
        let Some(label) = given.labels[class.0 as usize] else {
            return idle_visit();
        };
        let limit = Some(height_bound(label, self.mark(class)));
        let (graph, pats, cost) = (given.task.graph, given.task.pats, given.task.cost);
        let (bounds, marks, seen) = (given.bounds, &self.marks, seen_in(&self.table));
        let found = lower_within(
            graph, pats, bounds, marks, class, cost, self.tops, label.cost, limit, seen,
        );
        let is_still = found.is_least;
        let lowered = self.put(class, found.best);
        Visit { lowered, is_still }
    }

    // Lowers the height of a class as `lower` does, and says whether the class may now be the pin
    // of a match that lowers the height of its complement.
    fn lower_beside<C: Cost>(&mut self, given: &Given<C>, class: ClassId) -> (Visit, bool)
        requires place { class.0 / 2 < places_of given.now.task.now.graph.now }
        requires may { MayLowerHeights C.costs given.now self.old (class.0 / 2) }
        ensures { LowersHeightBeside C.costs given.now self.old self.new class.0 result }
    {
        let visit = self.lower(given, class);
        let other = self.mark(class.flip());
        (visit, may_lower(visit.lowered, self.mark(class), other))
    }

    // Lowers the heights of the two classes of a place. The first is looked at again where the
    // second, which was lowered since, may be the pin of a match that lowers it.
    fn lower_pair<C: Cost>(&mut self, given: &Given<C>, place: u32) -> Visit
        requires place { place < places_of given.now.task.now.graph.now }
        requires may { MayLowerHeights C.costs given.now self.old place }
        ensures { LowersHeightPair C.costs given.now self.old self.new place result }
    {
        let class = first_of(given.task.graph, given.labels, place);
        let first = self.lower(given, class);
        let (second, may_fall) = self.lower_beside(given, class.flip());
        let lowered = either(second.lowered, first.lowered);
        if !may_fall {
            let is_still = both(second.is_still, first.is_still);
            return Visit { lowered, is_still };
        }
        let (third, may_fall) = self.lower_beside(given, class);
        let is_still = both(!may_fall, both(third.is_still, second.is_still));
        let lowered = either(third.lowered, lowered);
        Visit { lowered, is_still }
    }
}

impl<'a> HeightRounds<'a> {
    /// Rounds in which the inputs' classes alone have heights, and no place was visited.
    pub(crate) fn new<C: Cost>(
        given: &Given<C>,
        mut visits: Visits,
        table: Option<HeightTable>,
        marks: Vec<Option<Mark>>,
        tops: &'a mut Tops,
    ) -> Self
        requires { MayStartRounds C.costs given.now visits table marks.items tops.old }
        ensures { AreHeightRounds C.costs given.now result }
    {
        let mut heights = Heights { tops, table, marks };
        heights.start(given);
        visits.restart();
        HeightRounds { visits, heights }
    }

    // Lowers the heights of the two classes of the place of the visit with this number, if it is
    // due or the round is whole, and says whether one fell.
    fn lower_place<C: Cost>(&mut self, given: &Given<C>, number: usize, whole: bool) -> bool
        requires number { number < length self.old.visits.order }
        requires rounds { AreHeightRounds C.costs given.now self.old }
        ensures { LowersHeightsAt C.costs given.now self.old self.new
            (IsVisited whole self.old.visits.order number) result }
    {
        let graph = given.task.graph;
        let Some(place) = self.visits.due_unless_still(graph, number, whole) else {
            return false;
        };
        set_if_still(given, &self.visits, &mut self.heights.table, place);
        let visit = self.heights.lower_pair(given, place);
        self.visits.note(place, visit.lowered);
        if visit.is_still {
            self.visits.settle(graph, place);
        }
        visit.lowered
    }

    // Goes once through the places, and says whether it changed a height. A whole round passes over
    // none that is not still.
    fn lower_round<C: Cost>(&mut self, given: &Given<C>, whole: bool) -> bool
        requires { AreHeightRounds C.costs given.now self.old }
        ensures { LowersHeightRound C.costs given.now self.old self.new whole result }
    {
        let mut changed = false;
        for number in 0..self.visits.len() {
            let lowered = self.lower_place(given, number, whole);
            changed = either(lowered, changed);
        }
        changed
    }

    // Goes through the places that are due until that changes no height, and then through all. Says
    // whether the last round changed one.
    fn lower_rounds<C: Cost>(&mut self, given: &Given<C>) -> bool
        requires { AreHeightRounds C.costs given.now self.old }
        ensures { LowersHeightRounds C.costs given.now self.old self.new result }
    {
        while self.lower_round(given, false) {}
        self.lower_round(given, true)
    }

    // Finds the height of each class that has a label.
    pub(crate) fn lower_all<C: Cost>(&mut self, given: &Given<C>)
        requires { AreHeightRounds C.costs given.now self.old }
        ensures least { AreLeastMarks given.now.task.now.graph.now
            (C.costs given.now.task.now.cost.now) given.now.task.now.pats.now
            self.new.heights.marks.items }
        ensures bounds { AreBounds given.now.bounds.now given.now.task.now.graph.now
            self.new.heights.marks.items }
    {
        while self.lower_rounds(given) {}
    }
}
