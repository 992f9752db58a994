// The labels of all classes, and how they are found.
ghost use Rattle.std.specs.Prelude.{◌≡◌, ◌<◌, None, IfOk, length, slice_index_or};
ghost use Rattle.lw_bounds.specs.Bounds.{BoundsFit, AreBounds};
ghost use Rattle.lw_cost.specs.Least.{AreOfCells};
ghost use Rattle.lw_label.specs.HeightTables.{IsUnmarked, MayMark};
ghost use Rattle.lw_label.specs.Labels.{AreBoundedMarks};
ghost use Rattle.lw_cost.specs.Labels.{AreLeastMarks};
ghost use Rattle.lw_label.specs.Searches.{HasCells};

use crate::heights::{Given, HeightRounds};
use crate::labelling::{LabelRounds, Labelling, Task};
use crate::lowering::no_marks;
use crate::table::{HeightTable, height_table};
use crate::visits::Visits;
use lw_bounds::Bounds;
use lw_cost::{Cost, Labels, Mark};
use lw_graph::Graph;
use lw_match::Tops;
use lw_pattern::Patterns;
use lw_pool::ClassId;
use std::alloc::{AllocError, Global};
use std::marker::Model;

/// The least cost of a cover of each class that has one, and the height of the class. The memory is
/// taken first; the rounds take none, so `AllocError` comes before any label is found.
pub fn relabel<C: Cost>(
    alloc: Global,
    graph: &Graph,
    pats: &Patterns,
    cost: &C,
) -> Result<Labels, AllocError>
    requires { AreOfCells (C.costs cost.now).pin_counts pats.now }
    ensures { IfOk result (AreLeastMarks graph.now (C.costs cost.now) pats.now) }
{
    let found = relabel_with_bounds(alloc, graph, pats, cost)?;
    Ok(found.labels)
}

/// The labels of the classes of a graph, and the table of bounds by which they were found.
#[derive(Drop)]
pub struct BoundedLabels {
    pub labels: Labels,
    pub bounds: Bounds,
}

/// The labels as `relabel` gives them, and the table of bounds for them: what chooses among the
/// matches needs no other. It is the entry for `lw_map`.
pub fn relabel_with_bounds<C: Cost>(
    alloc: Global,
    graph: &Graph,
    pats: &Patterns,
    cost: &C,
) -> Result<BoundedLabels, AllocError>
    requires { AreOfCells (C.costs cost.now).pin_counts pats.now }
    ensures least { IfOk result (λ l. AreLeastMarks graph.now (C.costs cost.now) pats.now
        l.labels) }
    ensures fits { IfOk result (λ l. BoundsFit l.bounds pats.now graph.now) }
    ensures bounds { IfOk result (λ l. AreBounds l.bounds graph.now l.labels) }
{
    let task = Task { graph, pats, cost };
    let room = Room::new(alloc, &task)?;
    let mut tops = Tops::new(alloc, pats, cost, &room.bounds)?;
    Ok(mark_all(&task, room, &mut tops))
}

/// The memory that labels and heights are found in, all of which is taken first: `labels` falls
/// first, then `marks`, which gets the labels again with heights.
#[derive(Drop)]
struct Room {
    labels: Vec<Option<Mark>>,
    marks: Vec<Option<Mark>>,
    table: Option<HeightTable>,
    visits: Visits,
    bounds: Bounds,
}

impl Room {
    // Takes all memory: one empty entry for each class in `labels`, whose heights stay 0, and in
    // `marks`, which get heights; and a table of bounds whose numbers are all 0. A table of heights
    // comes to it where it saves time.
    fn new<C: Cost>(alloc: Global, task: &Task<C>) -> Result<Room, AllocError>
        requires { HasCells C.costs task.now }
        ensures { IfOk result (IsUnmarked task.now) }
    {
        let (graph, pats, cost) = (task.graph, task.pats, task.cost);
        Ok(Room {
            labels: no_marks(alloc, graph)?,
            marks: no_marks(alloc, graph)?,
            table: height_table(alloc, graph, pats)?,
            visits: Visits::new(alloc, graph)?,
            bounds: Bounds::new(alloc, graph, pats, cost)?,
        })
    }
}

// Fills in the marks of all classes: first labels, until no match lowers one, and then heights for
// these labels.
fn mark_all<C: Cost>(task: &Task<C>, room: Room, tops: &mut Tops) -> BoundedLabels
    requires { MayMark C.costs task.now room tops.old }
    ensures { AreBoundedMarks task.now.graph.now (C.costs task.now.cost.now) task.now.pats.now
        result.bounds result.labels }
{
    let (bounds, visits, labels) = (room.bounds, room.visits, room.labels);
    let (table, marks) = (room.table, room.marks);
    let labelling = Labelling {
        bounds,
        tops,
        marks: labels,
    };
    let mut rounds = LabelRounds { visits, labelling };
    rounds.lower_all(task);
    let LabelRounds { visits, labelling } = rounds;
    let (bounds, labels, tops) = (labelling.bounds, labelling.marks, labelling.tops);
    let given = Given {
        task,
        bounds: &bounds,
        labels: &labels,
    };
    let mut rounds = HeightRounds::new(&given, visits, table, marks, tops);
    rounds.lower_all(&given);
    let heights = rounds.heights;
    let labels = Labels::from_marks(heights.marks);
    BoundedLabels { labels, bounds }
}
