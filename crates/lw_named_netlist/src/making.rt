// Netlists that are closed from drafts.
ghost use Rattle.std.specs.Prelude.{IfErr, IfOk};
ghost use Rattle.lw_named_netlist.specs.Closing.{HasFault, IsClosed, IsGateDraft};
ghost use Rattle.lw_netlist.specs.Plain.{IsOver};

use crate::closing::{graph_of, starts_of};
use crate::placing::{placed, places_by};
use crate::{GateDraft, NetlistFault};
use lw_genlib::Library;
use lw_netlist::Netlist;
use std::alloc::Global;

/// The netlist of a draft, with wires replaced by the nets at which they start, and with its
/// gates by depth and, at one depth, as they are given. The library is not looked at; it is
/// named for what is asked of the draft.
///
/// `Twice` names the first name, by inputs, gates and then wires, that an earlier one drives.
/// Else `Undriven` names the first pin, or else source of a wire, or else output that nothing
/// drives. Else `Cycle` names the first gate that reaches itself or, where no gate does, the
/// first wire. `Memory` is the one free answer. It works in time in proportion to the draft,
/// the sort by depth aside, also for a draft with a cycle.
pub fn close(alloc: Global, draft: GateDraft, lib: &Library) -> Result<Netlist, NetlistFault>
    requires { IsGateDraft lib.now draft }
    ensures closed { IfOk result (IsClosed draft) }
    ensures over { IfOk result (IsOver lib.now) }
    ensures fault { IfErr result (HasFault draft) }
{
    let graph = graph_of(alloc, draft)?;
    let found = starts_of(alloc, &graph)?;
    let first = graph.inputs;
    let depths = &found.depths[first..first + graph.cells.len()];
    let Ok(places) = places_by(alloc, depths) else {
        drop(found);
        drop(graph);
        return Err(NetlistFault::Memory);
    };
    let netlist = placed(alloc, graph, &found.starts, &places);
    drop(found);
    drop(places);
    Ok(netlist?)
}
