// The verdict on a netlist over the graph of several networks.
ghost use Rattle.std.specs.Prelude.{◌≤◌, IfOk, length};
ghost use Rattle.lw_blif.specs.BlifNetworks.{IsModel};
ghost use Rattle.lw_netlist.specs.Netlists.{most_gates};
ghost use Rattle.lw_netlist.specs.Plain.{IsOver};
ghost use Rattle.lw_mapped.specs.Fitting.{IsMapped};
ghost use Rattle.lw_joined.specs.Choices.{IsJoined};
ghost use Rattle.lw_joined.specs.Covering.{HasVerdict};

use crate::Joined;
use lw_blif::Parsed;
use lw_check::Verdict;
use lw_genlib::Library;
use lw_mapped::Mapped;
use lw_pattern::patterns;
use std::alloc::{AllocError, Global};

/// Whether a mapped netlist, whoever wrote it, is a fastest mapping of a model over the graph that
/// it was joined to, or why it is none. The graph's index makes it fast.
pub fn check(
    alloc: Global,
    lib: &Library,
    model: &Parsed,
    joined: &Joined,
    mapped: &Mapped,
) -> Result<Verdict, AllocError>
    requires model { IsModel model.now }
    requires joined { IsJoined model.now.network joined.now }
    requires over { IsOver lib.now mapped.now.netlist }
    requires fits { IsMapped mapped.now }
    requires few { length mapped.now.netlist.gates ≤ most_gates }
    ensures { IfOk result (HasVerdict lib.now model.now joined.now mapped.now) }
{
    let _ = (lib.len(), model.network.inputs());
    let pats = patterns(alloc, lib)?;
    let verdict = lw_check::check(
        alloc,
        &model.network,
        &model.frame,
        &model.starts,
        lib,
        &joined.choices.graph,
        &pats,
        &joined.choices.roots,
        mapped,
    );
    drop(pats);
    verdict
}
