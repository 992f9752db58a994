// Tables of marks that do not change any more.
ghost use Rattle.std.specs.Prelude.{◌≡◌, ◌<◌, IfOk, length};
ghost use Rattle.lw_bounds.specs.Bounds.{BoundsFit, AreBounds};
ghost use Rattle.lw_cost.specs.Least.{AreOfCells};
ghost use Rattle.lw_bounds.specs.Settling.{IsTableOf, IsClassRenewed, IsRoundDone, AreRoundsDone};

use crate::Bounds;
use crate::renewing::either;
use crate::times::Times;
use lw_cost::{Cost, Mark};
use lw_graph::Graph;
use lw_pattern::Patterns;
use lw_pool::ClassId;
use std::alloc::{AllocError, Global};

/// What the numbers of a table follow from.
#[derive(Clone, Copy)]
pub struct Basis<'a> {
    pub graph: &'a Graph,
    pub pats: &'a Patterns,
    pub marks: &'a [Option<Mark>],
}

/// A table of bounds, and when its numbers fell.
#[derive(Drop)]
pub(crate) struct Table {
    pub bounds: Bounds,
    pub times: Times,
}

impl Bounds {
    /// The table of bounds for these marks: its numbers fall until none falls any more.
    pub fn settled<C: Cost>(
        alloc: Global,
        graph: &Graph,
        pats: &Patterns,
        marks: &[Option<Mark>],
        cost: &C,
    ) -> Result<Bounds, AllocError>
        requires one_each { length marks.now ≡ length graph.now.pairs }
        requires of_cells { AreOfCells (C.costs cost.now).pin_counts pats.now }
        ensures fits { IfOk result (λ b. BoundsFit b pats.now graph.now) }
        ensures bounds { IfOk result (λ b. AreBounds b graph.now marks.now) }
    {
        let _ = graph.classes();
        let times = Times::new(alloc, graph)?;
        let mut bounds = Bounds::new(alloc, graph, pats, cost)?;
        bounds.forget_all();
        let basis = Basis { graph, pats, marks };
        let mut table = Table { bounds, times };
        while renew_rounds(basis, &mut table) {}
        Ok(table.bounds)
    }
}

// Lets the numbers of one class fall to what its pairs give, and says whether one fell. A class
// that is not due is passed over, unless the round is a whole one.
fn renew_class(basis: Basis, table: &mut Table, class: ClassId, whole: bool) -> bool
    requires class { class.0 < length basis.graph.now.pairs }
    requires timed { IsTableOf basis table.old }
    ensures { IsClassRenewed basis.entry class.0 whole table.old table.new result }
{
    let _ = basis.pats.len();
    if !whole && !table.times.is_due(basis.graph, class) {
        return false;
    }
    let fell = table.bounds.renew(basis.graph, basis.marks, class);
    table.times.note(class, fell);
    fell
}

// One round over all classes in order, which says whether a number fell. A whole round passes over
// no class.
fn renew_round(basis: Basis, table: &mut Table, whole: bool) -> bool
    requires timed { IsTableOf basis table.old }
    ensures { IsRoundDone basis.entry whole table.old table.new result }
{
    let mut fell = false;
    for number in 0..basis.graph.classes() {
        let class = ClassId(number);
        fell = either(renew_class(basis, table, class, whole), fell);
    }
    fell
}

// Goes through the classes that are due until no number falls, and then through all. Says whether
// one fell in the last round.
fn renew_rounds(basis: Basis, table: &mut Table) -> bool
    requires timed { IsTableOf basis table.old }
    ensures { AreRoundsDone basis.entry table.old table.new result }
{
    while renew_round(basis, table, false) {}
    renew_round(basis, table, true)
}
