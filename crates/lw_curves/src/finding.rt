// From a graph to the points of its classes.
ghost use Rattle.std.specs.Prelude.{◌<◌, ◌≤◌, IfErr, IfOk, OnOk, length};
ghost use Rattle.lw_cost.specs.Least.{AreOfCells};
ghost use Rattle.lw_choices.specs.Areas.{area_cost};
ghost use Rattle.lw_curves.specs.CurveTables.{HaveWays};
ghost use Rattle.lw_curves.specs.Setups.{AreListedSomewhere, HasNoPoints, HaveFronts, HaveFrontsIn};
ghost use Rattle.lw_curves.specs.Setups.{HaveFrontsOf, IsSetup, IsStopFor, IsStopOf, MayBegin};
ghost use Rattle.lw_curves.specs.Points.{AreCurves, BoundCovers, IsWhy, most_points, point_count};
ghost use Rattle.lw_curves.specs.Points.{time_limit};
ghost use Rattle.lw_choices.specs.Tasks.{task};
ghost use Rattle.lw_choices.specs.Rows.{AreRowsFor};

use crate::curve_table::{Curves, group};
use crate::first_choices::started;
use crate::pareto_fronts::Fronts;
use crate::point::CurveFault;
use crate::seen_areas::none_seen;
use crate::settling::settle_all;
use crate::setup::Setup;
use lw_choices::{Listing, list_choices, pin_groups_of};
use lw_fixed::{Micro, Micros};
use lw_genlib::Library;
use lw_graph::Graph;
use lw_pattern::Patterns;
use lw_queue::Queue;
use std::alloc::Global;

/// The points of each class up to a horizon: the times at which the least area of the covers that
/// arrive by then falls, and that area. Inputs start at these times, and at 0 past the last of
/// them.
pub fn curves(
    alloc: Global,
    graph: &Graph,
    pats: &Patterns,
    lib: &Library,
    starts: &Micros,
    horizon: Micro,
) -> Result<Curves, CurveFault>
    requires of_cells { AreOfCells (area_cost lib.now).pin_counts pats.now }
    requires horizon { horizon.0 < time_limit }
    ensures curves { IfOk result (λ curves. AreCurves
        (task graph.now pats.now lib.now starts.now) horizon.0 curves.points) }
    ensures bound { IfOk result (λ curves. BoundCovers
        (task graph.now pats.now lib.now starts.now) horizon.0 curves.points) }
    ensures few { IfOk result (λ curves. point_count curves.points ≤ most_points) }
    ensures ways { IfOk result (HaveWays (task graph.now pats.now lib.now starts.now)) }
    ensures why { IfErr result (IsWhy (task graph.now pats.now lib.now starts.now) horizon.0) }
{
    let rows = list_choices(alloc, graph, pats, lib)?;
    let classes = graph.classes();
    let starts = starts.as_slice();
    let fronts = settle_rows(alloc, &rows, lib, starts, classes, horizon.0)?;
    let curves = group(alloc, &fronts, classes, rows)?;
    Ok(curves)
}

// Settles the points of all classes up to a horizon, where there are none yet.
fn settle_fronts(
    alloc: Global,
    setup: &Setup,
    fronts: &mut Fronts,
    queue: &mut Queue,
    horizon: u64,
) -> Result<(), CurveFault>
    requires setup { IsSetup (length fronts.old.least) setup.now }
    requires begun { MayBegin setup.now horizon queue.old }
    requires none { HasNoPoints fronts.old }
    ensures settled { OnOk result (HaveFrontsIn setup.now fronts.old horizon fronts.new) }
    ensures stop { IfErr result (IsStopOf setup.now horizon) }
{
    let _ = setup.lib.len();
    let mut coming = Queue::new(alloc, horizon, setup.pin_groups.lane_delays.len())?;
    let mut seen = none_seen(alloc, setup.rows, setup.lib, setup.pin_groups.links.len())?;
    settle_all(setup, &mut seen, fronts, &mut coming, queue)
}

// The points of so many classes up to a horizon, by the choices and groups of a setup. `queue` has
// the choices that wait at the start.
fn settle_setup(
    alloc: Global,
    setup: &Setup,
    queue: &mut Queue,
    classes: u32,
    horizon: u64,
) -> Result<Fronts, CurveFault>
    requires setup { IsSetup classes setup.now }
    requires begun { MayBegin setup.now horizon queue.old }
    ensures settled { IfOk result (HaveFrontsOf setup.now classes horizon) }
    ensures stop { IfErr result (IsStopOf setup.now horizon) }
{
    let mut fronts = Fronts::new(alloc, classes as usize)?;
    settle_fronts(alloc, setup, &mut fronts, queue, horizon)?;
    Ok(fronts)
}

// The points of so many classes up to a horizon, by the choices in `rows`: it makes the groups and
// the queue.
fn settle_rows(
    alloc: Global,
    rows: &Listing,
    lib: &Library,
    starts: &[Micro],
    classes: u32,
    horizon: u64,
) -> Result<Fronts, CurveFault>
    requires rows { AreRowsFor lib.now classes rows.now }
    requires listed { AreListedSomewhere lib.now starts.now rows.now }
    ensures settled { IfOk result (HaveFronts lib.now starts.now rows.now classes horizon) }
    ensures stop { IfErr result (IsStopFor lib.now starts.now rows.now horizon) }
{
    let pin_groups = pin_groups_of(alloc, rows, lib, classes as usize)?;
    let mut queue = started(alloc, rows, starts, horizon)?;
    let setup = Setup {
        rows,
        lib,
        starts,
        pin_groups: &pin_groups,
    };
    settle_setup(alloc, &setup, &mut queue, classes, horizon)
}
