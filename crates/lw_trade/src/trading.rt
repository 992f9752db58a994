// The netlist of least area under a deadline.
ghost use Rattle.std.specs.Prelude.{IfOk};
ghost use Rattle.lw_cost.specs.Least.{AreOfCells};
ghost use Rattle.lw_choices.specs.Areas.{area_cost};
ghost use Rattle.lw_choices.specs.Tasks.{task};
ghost use Rattle.lw_backtrace.specs.Targets.{AreCurvesFor, AreTargets};
ghost use Rattle.lw_trade.specs.Traded.{IsTraded};

use crate::assembly::assemble;
use lw_backtrace::{Targets, walk_down};
use lw_curves::Curves;
use lw_fixed::Micros;
use lw_genlib::Library;
use lw_graph::Graph;
use lw_netlist::Netlist;
use lw_pattern::Patterns;
use std::alloc::{AllocError, Global};

/// A netlist whose outputs arrive by their times, each with the least area of all covers of its
/// class that do. Each use of a shared part counts in this area, but uses of one class by one
/// point share a gate. Where an output's least area by its time is 2^62, at which areas are cut,
/// each cover in time has it, and the output takes gates that are shared by class. Each other
/// output takes the last point of its class by its time, and so does each pin of its gates. The
/// curves are those of the graph, the patterns, the library and the starts, up to a horizon that is
/// no less than any of the times.
pub fn trade(
    alloc: Global,
    graph: &Graph,
    pats: &Patterns,
    lib: &Library,
    starts: &Micros,
    curves: &Curves,
    targets: &Targets,
) -> Result<Netlist, AllocError>
    requires of_cells { AreOfCells (area_cost lib.now).pin_counts pats.now }
    requires targets { AreTargets graph.now targets.now }
    requires curves { AreCurvesFor (task graph.now pats.now lib.now starts.now) targets.now
        curves.now }
    ensures { IfOk result (IsTraded (task graph.now pats.now lib.now starts.now) targets.now) }
{
    let _ = lib.len();
    let walk = walk_down(alloc, graph, lib, curves, targets)?;
    assemble(alloc, graph.inputs(), &walk, targets)
}
