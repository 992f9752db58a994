// A mapped netlist checked against its network.
ghost use Rattle.std.specs.Prelude.{◌≤◌, IfErr, IfOk, length};
ghost use Rattle.lw_blif.specs.BlifNetworks.{IsModel};
ghost use Rattle.lw_netlist.specs.Netlists.{most_gates};
ghost use Rattle.lw_netlist.specs.Plain.{IsOver};
ghost use Rattle.lw_mapped.specs.Fitting.{IsMapped};
ghost use Rattle.lw_map.specs.Checks.{HasVerdict};
ghost use Rattle.lw_map.specs.Choices.{AreChoicesOf};
ghost use Rattle.lw_map.specs.Faults.{IsChoiceFault};
ghost use Rattle.lw_map.specs.Options.{plain_options};

use crate::problem::Problem;
use crate::{Choices, MapFault, Options, decompose};
use lw_blif::Parsed;
use lw_check::Verdict;
use lw_genlib::Library;
use lw_mapped::Mapped;
use std::alloc::{AllocError, Global};

// The verdict on a netlist, over the choices of the network.
fn over_choices(
    alloc: Global,
    lib: &Library,
    model: &Parsed,
    choices: &Choices,
    mapped: &Mapped,
) -> Result<Verdict, AllocError>
    requires choices { AreChoicesOf model.now.network choices.now }
    requires model { IsModel model.now }
    requires over { IsOver lib.now mapped.now.netlist }
    requires fits { IsMapped mapped.now }
    requires few { length mapped.now.netlist.gates ≤ most_gates }
    ensures { IfOk result (HasVerdict (plain_options choices.now.options) lib.now model.now
        mapped.now) }
{
    let problem = Problem::new(alloc, lib, &model.network, &model.starts, choices)?;
    let verdict = lw_check::check(
        alloc,
        &model.network,
        &model.frame,
        &model.starts,
        lib,
        &choices.graph,
        &problem.pats,
        &choices.roots,
        mapped,
    );
    drop(problem);
    verdict
}

/// Whether a mapped netlist, whoever wrote it, is a fastest mapping of a model, or why it is none.
/// `Forms` and `Splits` come exactly where there are more than are dealt with.
pub fn check(
    alloc: Global,
    lib: &Library,
    model: &Parsed,
    mapped: &Mapped,
    options: Options,
) -> Result<Verdict, MapFault>
    requires model { IsModel model.now }
    requires over { IsOver lib.now mapped.now.netlist }
    requires fits { IsMapped mapped.now }
    requires few { length mapped.now.netlist.gates ≤ most_gates }
    ensures verdict { IfOk result (HasVerdict (plain_options options) lib.now model.now
        mapped.now) }
    ensures fault { IfErr result (IsChoiceFault (plain_options options) model.now.network) }
{
    let mut choices = decompose(alloc, &model.network, options)?;
    if choices.graph.make_index().is_err() {
        drop(choices);
        return Err(MapFault::Memory);
    }
    let verdict = over_choices(alloc, lib, model, &choices, mapped);
    drop(choices);
    Ok(verdict?)
}
