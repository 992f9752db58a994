// The cover of the outputs of a network over the graph of several.
ghost use Rattle.std.specs.Prelude.{All, IfErr, IfOk};
ghost use Rattle.std.specs.List.{IsDistinct};
ghost use Rattle.std.specs.Str.{bytes_eq};
ghost use Rattle.lw_genlib.specs.Cells.{IsSmall};
ghost use Rattle.lw_net.specs.Networks.{output_names};
ghost use Rattle.lw_joined.specs.Choices.{IsJoined};
ghost use Rattle.lw_joined.specs.Covering.{IsCoveredBy, IsCoverFault, IsLackOver};

use crate::Joined;
use lw_extract::{Cover, ExtractFault, extract_with};
use lw_fixed::Micros;
use lw_genlib::Library;
use lw_label::{DelayCost, Labels, relabel_with_bounds};
use lw_map::{MapFault, ports, refused};
use lw_net::Network;
use lw_pattern::patterns;
use std::alloc::{AllocError, Global};

/// The netlist of the matches that least labels choose, with the class of each gate, and the labels
/// of all classes.
#[derive(Drop)]
pub struct Covered {
    pub cover: Cover,
    pub labels: Labels,
}

// The matches that least labels choose for the outputs, or the first output that has none.
fn chosen(
    alloc: Global,
    lib: &Library,
    net: &Network,
    starts: &Micros,
    joined: &Joined,
) -> Result<Covered, ExtractFault>
    requires joined { IsJoined net.now joined.now }
    requires outputs { IsDistinct bytes_eq (output_names net.now) }
    requires early { All IsSmall starts.now }
    ensures covered { IfOk result (IsCoveredBy lib.now net.now starts.now joined.now) }
    ensures lacks { IfErr result (IsLackOver lib.now net.now starts.now joined.now) }
{
    let _ = (lib.len(), net.inputs());
    let (graph, cost) = (&joined.choices.graph, DelayCost::new(lib, starts));
    let pats = patterns(alloc, lib)?;
    let ports = ports(alloc, net, &joined.choices)?;
    let found = relabel_with_bounds(alloc, graph, &pats, &cost)?;
    let (labels, bounds) = (found.labels, found.bounds);
    let bounds = Some(&bounds);
    let cover = extract_with(alloc, graph, &pats, lib, &labels, bounds, &ports, &cost)?;
    let _ = cover.netlist.gates();
    Ok(Covered { cover, labels })
}

/// Covers the outputs of a network by cells of a library, over the graph that it was joined to.
/// `NoCover` tells the first output that has no cover, and comes exactly where there is one.
pub fn cover(
    alloc: Global,
    lib: &Library,
    net: &Network,
    starts: &Micros,
    joined: &Joined,
) -> Result<Covered, MapFault>
    requires joined { IsJoined net.now joined.now }
    requires outputs { IsDistinct bytes_eq (output_names net.now) }
    requires early { All IsSmall starts.now }
    ensures covered { IfOk result (IsCoveredBy lib.now net.now starts.now joined.now) }
    ensures fault { IfErr result (IsCoverFault lib.now net.now starts.now joined.now) }
{
    match chosen(alloc, lib, net, starts, joined) {
        Ok(covered) => Ok(covered),
        Err(fault) => Err(refused(alloc, net, fault)),
    }
}
