// Labels on trial: searches, cut by a table, for what costs less than they say.
ghost use Rattle.std.specs.Prelude.{◌↔◌, IsTrue, option_map};
ghost use Rattle.lw_check.specs.Claims.{class_number};
ghost use Rattle.lw_check.specs.Labelling.{CanSearch, FailsIn, FindsUnboundedIn, HasTable};
ghost use Rattle.lw_check.specs.Labelling.{IsLeastIn, IsLowIn, IsMatchCostIn};
ghost use Rattle.lw_check.specs.Least.{IsLeastOf};

use crate::bounding::earlier;
use crate::labelling::Trial;
use crate::labels::{least_input, lesser};
use lw_cost::Cost;
use lw_match::{Scratch, least_within};
use lw_pool::ClassId;

/// A class whose label is no bound, and the least that an input of it or a match at it costs, in
/// units of the cost.
#[derive(Clone, Copy)]
pub(crate) struct Unbounded {
    pub class: ClassId,
    pub value: u64,
}

impl<C: Cost> Trial<'_, C> {
    // Whether a match at a class with labelled pins costs less than its label, or the class has
    // none.
    fn is_low_at(&self, scratch: &mut Scratch, class: ClassId) -> bool
        requires { CanSearch C.costs C.CAP self.now class.0 }
        ensures { IsTrue result ↔ IsLowIn C.costs self.now.given.now class.0 }
    {
        let mark = self.marks[class.0 as usize];
        let (given, bounds, marks) = (self.given, self.bounds, self.marks);
        let (graph, pats, cost) = (given.graph, given.by.pats, given.by.cost);
        match least_within(graph, pats, bounds, marks, class, cost, scratch, mark) {
            Some(_) => true,
            None => false,
        }
    }

    // The first class at which a match with labelled pins costs less than its label, or that has
    // none.
    fn first_low(&self, scratch: &mut Scratch) -> Option<ClassId>
        requires { HasTable C.costs C.CAP self.now }
        ensures { IsLeastOf (IsLowIn C.costs self.now.given.now) (option_map class_number result) }
    {
        let graph = self.given.graph;
        for number in 0..graph.classes() {
            if self.is_low_at(scratch, ClassId(number)) {
                return Some(ClassId(number));
            }
        }
        None
    }

    // The first class whose label is no bound: an input of it or a match at it costs less, or it
    // has none.
    fn first_failing(&self, scratch: &mut Scratch) -> Option<ClassId>
        requires { HasTable C.costs C.CAP self.now }
        ensures { IsLeastOf (FailsIn C.costs self.now.given.now) (option_map class_number result) }
    {
        let late = self.given.first_late_input();
        earlier(late, self.first_low(scratch))
    }

    // The least that a match at a class with labelled pins costs, and none if there is no such
    // match.
    fn least_match(&self, scratch: &mut Scratch, class: ClassId) -> Option<u64>
        requires { CanSearch C.costs C.CAP self.now class.0 }
        ensures { IsLeastOf (IsMatchCostIn C.costs self.now class.0) result }
    {
        let (given, bounds, marks) = (self.given, self.bounds, self.marks);
        let (graph, pats, cost) = (given.graph, given.by.pats, given.by.cost);
        match least_within(graph, pats, bounds, marks, class, cost, scratch, None) {
            Some(best) => Some(best.mark.cost),
            None => None,
        }
    }

    // A class with the least that an input of it or a match at it costs, and none if nothing gives
    // it a cost.
    fn least_at(&self, scratch: &mut Scratch, class: ClassId) -> Option<Unbounded>
        requires { CanSearch C.costs C.CAP self.now class.0 }
        ensures { IsLeastIn C.costs self.now class.0 result }
    {
        let (given, by_match) = (self.given, self.least_match(scratch, class));
        match lesser(least_input(given.graph, given.by.cost, class), by_match) {
            Some(value) => Some(Unbounded { class, value }),
            None => None,
        }
    }

    /// The first class whose label is no bound, with the least that an input of it or a match at it
    /// costs.
    pub fn first_unbounded(&self, scratch: &mut Scratch) -> Option<Unbounded>
        requires { HasTable C.costs C.CAP self.now }
        ensures { FindsUnboundedIn C.costs self.now.given.now result }
    {
        let graph = self.given.graph;
        let _ = graph.classes();
        match self.first_failing(scratch) {
            Some(class) => self.least_at(scratch, class),
            None => None,
        }
    }
}
