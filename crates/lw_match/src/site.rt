// A class with all that a search there reads, of which a query is made.
ghost use Rattle.std.specs.Prelude.{◌≡◌};
ghost use Rattle.lw_bounds.specs.Places.{leaves_of};
ghost use Rattle.lw_match.specs.Queries.{IsQuery};
ghost use Rattle.lw_match.specs.Sites.{site_reading, IsSite};

use crate::query::Query;
use lw_bounds::{Cuts, leaves_at, numbers_of, view_at};
use lw_cost::{Cost, Mark};
use lw_graph::Graph;
use lw_pattern::Patterns;
use lw_pool::ClassId;

/// A class at which matches are sought, what they are priced with, what the search is cut by, and
/// what no match there costs less than. A query is made of it.
#[derive(Drop)]
pub struct Site<'a, C> {
    pub graph: &'a Graph,
    /// The patterns of the library, each of a cell that `cost` knows.
    pub pats: &'a Patterns,
    /// What is known of each class so far: its mark, or none.
    pub marks: &'a [Option<Mark>],
    pub cost: &'a C,
    /// The class at which matches are sought.
    pub class: ClassId,
    /// What searches are cut by, read from the tables of bounds.
    pub cuts: &'a Cuts<'a>,
    /// What no match at the class costs less than, 0 if nothing is known.
    pub floor: u64,
}

impl<'a, C: Cost> Site<'a, C> {
    /// The class in this graph, with these patterns, cuts, marks, cost and floor.
    #[inline(always)]
    pub(crate) fn new(
        graph: &'a Graph,
        pats: &'a Patterns,
        cuts: &'a Cuts<'a>,
        marks: &'a [Option<Mark>],
        class: ClassId,
        cost: &'a C,
        floor: u64,
    ) -> Self
        ensures { result ≡ record {
          graph = graph.entry;
          pats = pats.entry;
          marks = marks.entry;
          cost = cost.entry;
          class = class;
          cuts = cuts.entry;
          floor = floor;
        } }
    {
        Site {
            graph,
            pats,
            marks,
            cost,
            class,
            cuts,
            floor,
        }
    }

    /// List 0 of the numbers at the class: the cost of the class, that of its complement, and the
    /// numbers of true, false and any tree. `u64::MAX` stands for none.
    #[inline(always)]
    pub(crate) fn leaves(&self) -> [u64; 5]
        requires { IsSite C.CAP C.costs self.now }
        ensures { result ≡ leaves_of (site_reading self.now) self.now.class.0 }
    {
        let _ = self.graph.classes();
        leaves_at(numbers_of(self.graph, self.marks, self.cuts), self.class)
    }

    /// The query at the class, given its list 0: the rows of the class and of its complement come
    /// to it.
    #[inline(always)]
    pub(crate) fn query(self, leaves: &'a [u64]) -> Query<'a, C>
        requires site { IsSite C.CAP C.costs self }
        requires leaves { leaves.now ≡ leaves_of (site_reading self) self.class.0 }
        ensures query { IsQuery C.CAP C.costs result }
        ensures site { result.site ≡ self.entry }
    {
        let _ = self.graph.classes();
        let at = numbers_of(self.graph, self.marks, self.cuts);
        let view = view_at(at, leaves, self.class);
        Query { site: self, view }
    }
}
