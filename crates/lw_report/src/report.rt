// The lines of a timing report.
ghost use Rattle.std.specs.Prelude.{◌≡◌, ◌<◌, Some, length, map, All, IfSome};
ghost use Rattle.std.specs.List.{flat_map};
ghost use Rattle.lw_genlib.specs.Tables.{millionths};
ghost use Rattle.lw_io.specs.Writers.{Writes};
ghost use Rattle.lw_report.specs.Arrived.{line_of_step, HasTimes};
ghost use Rattle.lw_report.specs.Made.{IsStepIn};
ghost use Rattle.lw_report.specs.Timings as report;
ghost use Rattle.lw_report.specs.Timings.{arrival_line, cell_step_line};

use crate::Step;
use crate::lines::{put_last, put_word};
use crate::timed::Timed;
use crate::totals::{cell_of, gate_numbered};
use lw_fixed::Micro;
use lw_genlib::Cell;
use lw_io::{Sink, Writer};
use lw_netlist::Port;

// When an output arrives.
fn put_arrival<S: Sink>(out: &mut Writer<'_, S>, port: &Port, arrivals: &[Micro])
    requires { port.now.net.0 < length arrivals.now }
    ensures { Writes S.taken S.faults out.old out.new
        (arrival_line (map millionths arrivals.now) port.now) }
{
    out.put(b"arrival");
    put_word(out, port.name.as_bytes());
    put_last(out, arrivals[port.net.0 as usize]);
}

// When the outputs arrive.
pub(crate) fn put_arrivals<S: Sink>(out: &mut Writer<'_, S>, ports: &[Port], arrivals: &[Micro])
    requires { All (λ port. port.net.0 < length arrivals.now) ports.now }
    ensures { Writes S.taken S.faults out.old out.new
        (flat_map (arrival_line (map millionths arrivals.now)) ports.now) }
{
    for port in ports {
        put_arrival(out, port, arrivals);
    }
}

// The name of a pin, if there is one.
fn pin_name(cell: &Cell, pin: Option<u8>) -> &[u8]
    requires { IfSome pin (λ k. k < length cell.now.pins) }
    ensures { result.now ≡ report.pin_name cell.now pin }
{
    match pin {
        Some(k) => cell.pins()[usize::from(k)].as_bytes(),
        None => b"-",
    }
}

// A step at a gate of this cell, whose net has this name.
fn put_cell<S: Sink>(out: &mut Writer<'_, S>, net: &[u8], time: Micro, pin: Option<u8>, cell: &Cell)
    requires { IfSome pin (λ k. k < length cell.now.pins) }
    ensures { Writes S.taken S.faults out.old out.new
        (cell_step_line net.now time.0 pin (Some cell.now)) }
{
    out.put(b"step");
    put_word(out, net);
    put_word(out, cell.name().as_bytes());
    put_word(out, pin_name(cell, pin));
    put_last(out, time);
}

// A step of the critical path.
fn put_step<S: Sink>(out: &mut Writer<'_, S>, timed: &Timed, step: Step)
    requires timed { HasTimes timed.now }
    requires step { IsStepIn timed.now.netlist.now step }
    ensures { Writes S.taken S.faults out.old out.new (line_of_step timed.now step) }
{
    let gate = gate_numbered(timed.netlist, step.gate);
    let net = gate.out.0 as usize;
    let name = timed.netlist.names()[net].as_bytes();
    put_cell(
        out,
        name,
        timed.time[net],
        step.pin,
        cell_of(timed.lib, gate),
    );
}

// The steps of the critical path.
pub(crate) fn put_steps<S: Sink>(out: &mut Writer<'_, S>, timed: &Timed, path: &[Step])
    requires timed { HasTimes timed.now }
    requires steps { All (IsStepIn timed.now.netlist.now) path.now }
    ensures { Writes S.taken S.faults out.old out.new
        (flat_map (line_of_step timed.now) path.now) }
{
    for step in path {
        put_step(out, timed, *step);
    }
}
