// Netlists in Verilog.
ghost use Rattle.std.specs.Prelude.{◌≡◌, None, IfOk, IfErr, Err};
ghost use Rattle.lw_netlist.specs.Plain.{IsOver};
ghost use Rattle.lw_verilog.specs.Sayable.{refused};
ghost use Rattle.lw_top.specs.Answered.{Gives};
ghost use Rattle.lw_files.specs.Read.{IsReadNetlist};
ghost use Rattle.lw_top.specs.Counts.{at_once};
ghost use Rattle.lw_top.specs.Verilogs.{SaysVerilog, SaysMapped, whole_frame};

use crate::answer::{Answer, Answered};
use crate::refusal::Refusal;
use lw_fixed::Micros;
use lw_genlib::Library;
use lw_map::all_at_once;
use lw_mapped::Mapped;
use lw_netlist::Netlist;
use lw_pool::{Frame, Latches};
use lw_verilog::sayable;
use std::alloc::Global;

// Whether a mapped netlist has a text in Verilog, or why it has none.
fn is_said(alloc: Global, library: &Library, mapped: &Mapped) -> Result<(), Refusal>
    requires { IsReadNetlist library.now mapped.now }
    ensures said { IfOk result (λ _. refused library.now mapped.now.netlist mapped.now.frame
        ≡ None) }
    ensures refused { IfErr result (λ e. Gives (SaysVerilog library.now mapped.now) (Err e)) }
{
    match sayable(alloc, &mapped.netlist, library, &mapped.frame)? {
        Some(why) => Err(Refusal::NoVerilog(why)),
        None => Ok(()),
    }
}

/// What a mapped netlist comes to in Verilog: itself, to be written so, or why it has no text.
pub(crate) fn say_verilog(alloc: Global, library: Library, mapped: Mapped) -> Answered
    requires { IsReadNetlist library mapped }
    ensures { Gives (SaysVerilog library mapped) result }
{
    match is_said(alloc, &library, &mapped) {
        Ok(()) => Ok(Answer::Verilog(library, mapped.netlist)),
        Err(refusal) => {
            drop(library);
            drop(mapped);
            Err(refusal)
        }
    }
}

// What stands around a netlist from Verilog, which has no latches, and starts of 0 for its inputs.
fn whole(alloc: Global, netlist: &Netlist) -> Result<(Frame, Micros), Refusal>
    ensures frame { IfOk result (λ around. around.0 ≡ whole_frame netlist.now) }
    ensures starts { IfOk result (λ around. around.1 ≡ at_once netlist.now.inputs) }
    ensures memory { IfErr result (λ e. e ≡ Refusal.Memory) }
{
    let starts = all_at_once(alloc, netlist.inputs())?;
    let Ok(outputs) = u32::try_from(netlist.outputs().len()) else {
        return Err(Refusal::Memory);
    };
    let frame = Frame {
        inputs: netlist.inputs(),
        outputs,
        latches: Latches::new(alloc),
    };
    Ok((frame, starts))
}

/// What a netlist in Verilog comes to as a mapped text: it has no certificate, and its inputs start
/// at 0.
pub(crate) fn map_verilog(alloc: Global, library: Library, netlist: Netlist) -> Answered
    requires { IsOver library netlist }
    ensures { Gives (SaysMapped library netlist) result }
{
    match whole(alloc, &netlist) {
        Ok((frame, starts)) => Ok(Answer::Mapping(library, netlist, frame, starts, None)),
        Err(refusal) => {
            drop(library);
            drop(netlist);
            Err(refusal)
        }
    }
}
