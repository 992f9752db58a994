// The timing of a netlist.
ghost use Rattle.std.specs.Prelude.{◌≡◌, ◌<◌, ◌≤◌, length, All, IfOk};
ghost use Rattle.lw_io.specs.Waitings.{IsTaken};
ghost use Rattle.lw_io.specs.Writers.{Writes};
ghost use Rattle.lw_genlib.specs.Cells.{IsSmall};
ghost use Rattle.lw_netlist.specs.Netlists.{most_gates};
ghost use Rattle.lw_netlist.specs.Plain.{IsOver};
ghost use Rattle.lw_report.specs.Made.{CanBeTimed, ArriveAt};

use crate::Step;
use crate::lines::put_last;
use crate::path::critical_path;
use crate::report::{put_arrivals, put_steps};
use crate::timed::Timed;
use crate::totals::{area_of, latest_of};
use lw_fixed::{Micro, Micros};
use lw_genlib::Library;
use lw_io::{Failed, Sink, Writer};
use lw_netlist::{Netlist, Port};
use std::alloc::{AllocError, Global};
use std::marker::Model;

/// The timing of a netlist: when its nets arrive, the greatest arrival of an output, its area, and
/// its critical path.
#[derive(Drop)]
pub struct Timing {
    arrivals: Vec<Micro>,
    latest: Micro,
    area: Micro,
    path: Vec<Step>,
}

impl Model for Timing {
    ghost use Rattle.std.specs.Prelude.{map};
    ghost use Rattle.lw_genlib.specs.Tables.{millionths};
    ghost use Rattle.lw_report.specs.Timings.{TimingParts};

    ghost Value = { TimingParts };

    ghost view = { λ t. record {
      arrivals = map millionths t.arrivals.items;
      latest = t.latest.0;
      area = t.area.0;
      path = t.path.items;
    } };
}

// When the nets of a netlist arrive.
fn arrivals_of(
    alloc: Global,
    netlist: &Netlist,
    lib: &Library,
    starts: &Micros,
) -> Result<Vec<Micro>, AllocError>
    requires { CanBeTimed lib.now netlist.now starts.now }
    ensures { IfOk result
        (λ arrivals. ArriveAt lib.now netlist.now starts.now arrivals.items) }
{
    let mut arrivals = vec![in alloc; Micro(0); netlist.names().len()]?;
    netlist.arrivals(lib, starts, &mut arrivals);
    Ok(arrivals)
}

impl Timing {
    ghost use Rattle.lw_report.specs.Timings.{IsTimingOf, summary_text, timing_text};
    ghost use Rattle.lw_report.specs.Made.{IsTimingFor};

    /// The timing of a netlist whose inputs start then.
    pub fn new(
        alloc: Global,
        netlist: &Netlist,
        lib: &Library,
        starts: &Micros,
    ) -> Result<Self, AllocError>
        requires over { IsOver lib.now netlist.now }
        requires one_start { length starts.now ≡ netlist.now.inputs }
        requires small { All IsSmall starts.now }
        requires few { length netlist.now.gates ≤ most_gates }
        ensures { IfOk result (IsTimingOf lib.now netlist.now starts.now) }
    {
        let arrivals = arrivals_of(alloc, netlist, lib, starts)?;
        let time = arrivals.as_slice();
        let latest = latest_of(netlist.outputs(), time);
        let path = critical_path(alloc, &Timed { netlist, lib, time }, latest)?;
        Ok(Timing {
            arrivals,
            latest,
            area: area_of(netlist.gates(), lib),
            path,
        })
    }

    /// The greatest arrival of an output, 0 without outputs.
    pub fn latest(&self) -> Micro
        ensures { result.0 ≡ self.now.latest }
    {
        self.latest
    }

    /// Writes the timing report of the netlist that it was made for: the arrival of each output,
    /// the greatest of them, the area, and the steps of the critical path. It takes no memory.
    pub fn write<S: Sink>(
        &self,
        netlist: &Netlist,
        lib: &Library,
        sink: &mut S,
    ) -> Result<(), Failed>
        requires over { IsOver lib.now netlist.now }
        requires made { IsTimingFor lib.now netlist.now self.now }
        ensures { IsTaken (S.taken sink.old) (S.faults sink.old) (S.taken sink.new)
            (S.faults sink.new) (timing_text lib.now netlist.now self.now) result }
    {
        let mut out = Writer::new(sink);
        self.put_report(&mut out, netlist, lib);
        out.end()
    }

    // When the outputs arrive, the greatest of these times, and the area.
    fn put_summary<S: Sink>(&self, out: &mut Writer<'_, S>, ports: &[Port])
        requires { All (λ port. port.net.0 < length self.now.arrivals) ports.now }
        ensures { Writes S.taken S.faults out.old out.new
            (summary_text ports.now self.now.arrivals self.now.latest self.now.area) }
    {
        put_arrivals(out, ports, &self.arrivals);
        out.put(b"max");
        put_last(out, self.latest);
        out.put(b"area");
        put_last(out, self.area);
    }

    // The whole text.
    fn put_report<S: Sink>(&self, out: &mut Writer<'_, S>, netlist: &Netlist, lib: &Library)
        requires over { IsOver lib.now netlist.now }
        requires made { IsTimingFor lib.now netlist.now self.now }
        ensures { Writes S.taken S.faults out.old out.new
            (timing_text lib.now netlist.now self.now) }
    {
        self.put_summary(out, netlist.outputs());
        let time = self.arrivals.as_slice();
        put_steps(out, &Timed { netlist, lib, time }, &self.path);
    }
}
