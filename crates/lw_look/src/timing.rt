// Whether the outputs of a netlist arrive by their times.
ghost use Rattle.std.specs.Prelude.{◌≡◌, ◌≤◌, ◌<◌, ◌↔◌, All, IfOk, IsTrue, length, map};
ghost use Rattle.lw_genlib.specs.Cells.{IsSmall};
ghost use Rattle.lw_genlib.specs.Tables.{millionths, timing_of};
ghost use Rattle.lw_laws.specs.Netlists.{AreArrivals};
ghost use Rattle.lw_netlist.specs.Netlists.{most_gates};
ghost use Rattle.lw_netlist.specs.Plain.{IsOver, plain};
ghost use Rattle.lw_look.specs.Looks.{AreEarly, IsInTime};

use lw_fixed::{Micro, Micros};
use lw_genlib::Library;
use lw_netlist::{Netlist, Port};
use std::alloc::{AllocError, Global};

// Whether each output arrives by its time, given when each net arrives, in millionths.
fn are_early(outputs: &[Port], times: &[Micro], arrivals: &[Micro]) -> bool
    requires known { All (λ port. port.net.0 < length arrivals.now) outputs.now }
    ensures { IsTrue result ↔ AreEarly arrivals.now outputs.now times.now }
{
    if outputs.len() != times.len() {
        return false;
    }
    for (k, port) in outputs.iter().enumerate() {
        if arrivals[port.net.0 as usize].0 > times[k].0 {
            return false;
        }
    }
    true
}

/// When each net of a netlist arrives, in millionths, by its number.
pub fn arrivals_of(
    alloc: Global,
    lib: &Library,
    starts: &Micros,
    netlist: &Netlist,
) -> Result<Vec<Micro>, AllocError>
    requires over { IsOver lib.now netlist.now }
    requires one_start { length starts.now ≡ netlist.now.inputs }
    requires early { All IsSmall starts.now }
    requires few { length netlist.now.gates ≤ most_gates }
    ensures one_each { IfOk result (λ arrivals. length arrivals.items ≡ length netlist.now.names) }
    ensures are { IfOk result (λ arrivals. AreArrivals (timing_of lib.now starts.now)
        (plain netlist.now) (map millionths arrivals.items)) }
{
    let mut arrivals = vec![in alloc; Micro(0); netlist.names().len()]?;
    netlist.arrivals(lib, starts, &mut arrivals);
    Ok(arrivals)
}

/// Whether each output of a netlist arrives by its time.
pub(crate) fn is_in_time(
    alloc: Global,
    lib: &Library,
    starts: &Micros,
    netlist: &Netlist,
    times: &[Micro],
) -> Result<bool, AllocError>
    requires over { IsOver lib.now netlist.now }
    requires one_start { length starts.now ≡ netlist.now.inputs }
    requires early { All IsSmall starts.now }
    requires few { length netlist.now.gates ≤ most_gates }
    ensures { IfOk result (λ yes. IsTrue yes ↔
        IsInTime lib.now starts.now times.now netlist.now) }
{
    let arrivals = arrivals_of(alloc, lib, starts, netlist)?;
    Ok(are_early(netlist.outputs(), times, &arrivals))
}
