// The critical path.
ghost use Rattle.std.specs.Prelude.{◌≡◌, ◌≢◌, ◌+◌, ◌<◌, [], ℕ, length, map, reverse, slice_get};
ghost use Rattle.std.specs.Prelude.{Some, All, IfOk, IfSome, IfNone};
ghost use Rattle.lw_genlib.specs.Tables.{millionths, cell_delays};
ghost use Rattle.lw_report.specs.Arrived.{latest_in, HasCriticalPath, HasLinkTo, HasPathTo};
ghost use Rattle.lw_report.specs.Arrived.{IsTimed};
ghost use Rattle.lw_report.specs.Pathways.{IsTimedCell};
ghost use Rattle.lw_report.specs.Timings.{pin_arrivals, port_arrival, IsCriticalPin, IsFirstAt};

use crate::Step;
use crate::timed::Timed;
use crate::totals::{cell_of, gate_numbered};
use lw_fixed::Micro;
use lw_genlib::Cell;
use lw_netlist::Port;
use lw_pool::NetId;
use std::alloc::{AllocError, Global};

// The last step of the path to a net, and the net before it, if there is one.
#[derive(Clone, Copy)]
pub(crate) struct Link {
    pub(crate) step: Step,
    pub(crate) from: Option<NetId>,
}

// The first pin by which a cell arrives when it does. There is none where it has no pins.
fn critical_pin(cell: &Cell, pins: &[NetId], arrivals: &[Micro], arrival: Micro) -> Option<u8>
    requires { IsTimedCell cell.now pins.now arrivals.now arrival.0 }
    ensures some { IfSome result (IsCriticalPin (cell_delays cell.now)
        (pin_arrivals (map millionths arrivals.now) pins.now) arrival.0) }
    ensures none { IfNone result (pins.now ≡ []) }
{
    for (k, delay) in cell.delays().iter().enumerate() {
        if arrivals[pins[k].0 as usize].0 + delay.0 == arrival.0 {
            return Some(k as u8);
        }
    }
    None
}

// The last step of the critical path to the net that a gate drives, and the net before it.
fn link_to(timed: &Timed, j: u32) -> Link
    requires timed { IsTimed timed.now }
    requires gate { j < length timed.now.netlist.now.gates }
    ensures { HasLinkTo timed.now (timed.now.netlist.now.inputs + j) result }
{
    let gate = gate_numbered(timed.netlist, j);
    let pins = gate.pins.as_slice();
    let arrival = timed.time[timed.netlist.inputs() as usize + j as usize];
    match critical_pin(cell_of(timed.lib, gate), pins, timed.time, arrival) {
        Some(k) => Link {
            step: Step {
                gate: j,
                pin: Some(k),
            },
            from: Some(pins[usize::from(k)]),
        },
        None => Link {
            step: Step { gate: j, pin: None },
            from: None,
        },
    }
}

// The steps of the critical path to a net, from its end to its start.
fn path_back(alloc: Global, timed: &Timed, end: NetId) -> Result<Vec<Step>, AllocError>
    requires timed { IsTimed timed.now }
    requires end { end.0 < length timed.now.netlist.now.names }
    ensures { IfOk result (λ path. HasPathTo timed.now end.0 (reverse path.items)) }
{
    let inputs = timed.netlist.inputs();
    let mut path = Vec::new(alloc);
    let mut net = end.0;
    while net >= inputs {
        let link = link_to(timed, net - inputs);
        path.push(link.step)?;
        match link.from {
            Some(from) => net = from.0,
            None => return Ok(path),
        }
    }
    Ok(path)
}

// The place of the first output that arrives at this time.
fn first_output(ports: &[Port], arrivals: &[Micro], time: Micro) -> Option<usize>
    requires { All (λ port. port.net.0 < length arrivals.now) ports.now }
    ensures within { IfSome result (λ place. place < length ports.now) }
    ensures found { IfSome result (IsFirstAt
        (map (port_arrival (map millionths arrivals.now)) ports.now) time.0) }
    ensures none { IfNone result ((j : ℕ) →
        slice_get (map (port_arrival (map millionths arrivals.now)) ports.now) j ≢ Some time.0) }
{
    for (place, port) in ports.iter().enumerate() {
        if arrivals[port.net.0 as usize].0 == time.0 {
            return Some(place);
        }
    }
    None
}

// The steps of the critical path, from its start to its end, where this is the greatest arrival of
// an output.
pub(crate) fn critical_path(
    alloc: Global,
    timed: &Timed,
    latest: Micro,
) -> Result<Vec<Step>, AllocError>
    requires timed { IsTimed timed.now }
    requires latest { latest.0 ≡ latest_in timed.now }
    ensures { IfOk result (λ path. HasCriticalPath timed.now path.items) }
{
    let ports = timed.netlist.outputs();
    let Some(place) = first_output(ports, timed.time, latest) else {
        return Ok(Vec::new(alloc));
    };
    let mut path = path_back(alloc, timed, ports[place].net)?;
    path.reverse();
    Ok(path)
}
