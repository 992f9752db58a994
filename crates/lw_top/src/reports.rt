// Reports and simulations.
ghost use Rattle.lw_top.specs.Answered.{Gives};
ghost use Rattle.lw_files.specs.Read.{IsReadNetlist};
ghost use Rattle.lw_top.specs.Named.{AreReadVectors, values_in};
ghost use Rattle.lw_top.specs.Reports.{Times, Simulates, SimulatesNetlist};

use crate::answer::{Answer, Answered};
use crate::refusal::Refusal;
use lw_blif::Parsed;
use lw_genlib::Library;
use lw_mapped::Mapped;
use lw_report::{Sim, Timing, Vectors};
use std::alloc::Global;

/// The answer to a mapped netlist that was read: its timing.
pub(crate) fn time_mapped(alloc: Global, library: Library, mapped: Mapped) -> Answered
    requires { IsReadNetlist library mapped }
    ensures { Gives (Times library mapped) result }
{
    let Ok(timing) = Timing::new(alloc, &mapped.netlist, &library, &mapped.starts) else {
        drop(library);
        drop(mapped);
        return Err(Refusal::Memory);
    };
    Ok(Answer::Times(library, mapped.netlist, timing))
}

/// The answer to a network and vectors that were read: a simulator, which gives the values as they
/// are written.
pub(crate) fn simulate(alloc: Global, model: Parsed, vectors: Vectors) -> Answered
    requires { AreReadVectors model.network.inputs vectors }
    ensures { Gives (Simulates model (values_in vectors)) result }
{
    let Ok(sim) = Sim::of_network(alloc, &model.network) else {
        drop(model);
        drop(vectors);
        return Err(Refusal::Memory);
    };
    Ok(Answer::Values(model.network, vectors, sim))
}

/// The answer to a mapped netlist and vectors that were read: a simulator, which gives the values
/// as they are written.
pub(crate) fn simulate_gates(
    alloc: Global,
    library: Library,
    mapped: Mapped,
    vectors: Vectors,
) -> Answered
    requires mapped { IsReadNetlist library mapped }
    requires vectors { AreReadVectors mapped.netlist.inputs vectors }
    ensures { Gives (SimulatesNetlist library mapped.netlist (values_in vectors)) result }
{
    let Ok(sim) = Sim::of_netlist(alloc, &mapped.netlist) else {
        drop(library);
        drop(mapped);
        drop(vectors);
        return Err(Refusal::Memory);
    };
    Ok(Answer::GateValues(library, mapped.netlist, vectors, sim))
}
