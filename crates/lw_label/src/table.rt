// A table of bounds on heights, by which searches for heights are cut.
ghost use Rattle.std.specs.Prelude.{◌≡◌, ◌<◌, IfOk, IfSome, length, option_map, slice_set};
ghost use Rattle.lw_bounds.specs.HeightBounds.{height_mark};
ghost use Rattle.lw_label.specs.HeightTables.{IsNewTable, MaySetRows, SetsRows};
ghost use Rattle.lw_label.specs.Lowering.{state};
ghost use Rattle.lw_label.specs.OneVisit.{AreRowsAround, AreSetAt};
ghost use Rattle.lw_label.specs.Orders.{places_of};

use crate::heights::Given;
use crate::lowering::no_marks;
use crate::once::set_pair;
use crate::visits::Visits;
use lw_bounds::{Bounds, HeightBounds};
use lw_cost::{Cost, Mark};
use lw_graph::Graph;
use lw_pattern::Patterns;
use lw_pool::ClassId;
use std::alloc::{AllocError, Global};
use std::marker::Model;

// How many pairs the classes that have some need to have on average, so that a table of heights
// saves more time than it takes.
const PAIRS_FOR_TABLE: usize = 3;

// A table of bounds, and the heights of the classes as costs. The numbers are 0, which is a bound
// of anything, until the parts of a place are still.
#[derive(Drop)]
pub(crate) struct HeightTable {
    bounds: Bounds,
    marks: Vec<Option<Mark>>,
}

impl Model for HeightTable {
    ghost use Rattle.lw_label.specs.Lowering.{LabelState, state};

    ghost Value = { LabelState };

    ghost view = { λ t. state t.bounds t.marks.items };
}

// The height of a mark, in gates, as the cost of another mark with height 0.
fn as_cost(mark: Option<Mark>) -> Option<Mark>
    ensures { result ≡ option_map height_mark mark }
{
    match mark {
        Some(mark) => Some(Mark {
            cost: mark.height as u64,
            height: 0,
        }),
        None => None,
    }
}

impl HeightTable {
    // A table for a graph whose classes have no marks: its numbers are all 0.
    fn new(alloc: Global, graph: &Graph, pats: &Patterns) -> Result<HeightTable, AllocError>
        ensures { IfOk result (IsNewTable graph.now pats.now) }
    {
        Ok(HeightTable {
            bounds: Bounds::of_heights(alloc, graph, pats)?,
            marks: no_marks(alloc, graph)?,
        })
    }

    // Gives the two classes of a place the numbers that their pairs give.
    fn set_rows(&mut self, graph: &Graph, place: u32)
        requires place { place < places_of graph.now }
        requires around { AreRowsAround graph.now self.old.bounds self.old.marks place }
        ensures marks { self.new.marks ≡ self.old.marks }
        ensures set { AreSetAt graph.now self.new.marks place self.old.bounds self.new.bounds }
    {
        set_pair(graph, &mut self.bounds, &self.marks, place);
    }

    // Gives a class the height of its mark in the table.
    fn put(&mut self, class: ClassId, mark: Option<Mark>)
        requires { class.0 < length self.old.marks }
        ensures { self.new ≡ state self.old.bounds
            (slice_set self.old.marks class.0 (option_map height_mark mark)) }
    {
        self.marks[class.0 as usize] = as_cost(mark);
    }

    // What `lower_within` is cut by: the table and the heights.
    fn seen(&self) -> HeightBounds
        ensures { state result.bounds.now result.marks.now ≡ self.now }
    {
        HeightBounds {
            bounds: &self.bounds,
            marks: &self.marks,
        }
    }
}

// Whether the classes of a graph that have pairs have more than `PAIRS_FOR_TABLE` on average.
fn has_many_pairs(graph: &Graph) -> bool {
    let mut pairs: usize = 0;
    let mut classes: usize = 0;
    for number in 0..graph.classes() {
        let count = graph.nands(ClassId(number)).len();
        if count > 0 {
            pairs = pairs.saturating_add(count);
            classes = classes.saturating_add(1);
        }
    }
    pairs > classes.saturating_mul(PAIRS_FOR_TABLE)
}

// A table for a graph whose classes have no marks, none if it would save no time.
pub(crate) fn height_table(
    alloc: Global,
    graph: &Graph,
    pats: &Patterns,
) -> Result<Option<HeightTable>, AllocError>
    ensures { IfOk result (λ table. IfSome table (IsNewTable graph.now pats.now)) }
{
    if !has_many_pairs(graph) {
        return Ok(None);
    }
    Ok(Some(HeightTable::new(alloc, graph, pats)?))
}

// Gives the two classes of a place their numbers in the table, if there is one and the parts of the
// place are still. It comes before heights are lowered there.
pub(crate) fn set_if_still<C: Cost>(
    given: &Given<C>,
    visits: &Visits,
    table: &mut Option<HeightTable>,
    place: u32,
)
    requires { MaySetRows given.now visits.now table.old place }
    ensures { SetsRows given.now visits.now table.old table.new }
{
    let Some(table) = table else {
        return;
    };
    if !visits.has_still_parts(given.task.graph, place) {
        return;
    }
    table.set_rows(given.task.graph, place);
}

// Gives a class the height of its mark in the table, if there is one.
pub(crate) fn put_in(table: &mut Option<HeightTable>, class: ClassId, mark: Option<Mark>)
    requires { IfSome table.old (λ t. class.0 < length t.marks) }
    ensures { table.new ≡ option_map (λ t. state t.bounds
        (slice_set t.marks class.0 (option_map height_mark mark))) table.old }
{
    if let Some(table) = table {
        table.put(class, mark);
    }
}

// What searches are cut by, where there is a table.
pub(crate) fn seen_in(table: &Option<HeightTable>) -> Option<HeightBounds>
    ensures { option_map (λ h. state h.bounds.now h.marks.now) result ≡ table.now }
{
    match table {
        Some(table) => Some(table.seen()),
        None => None,
    }
}
