// The netlist of the chosen matches.
ghost use Rattle.std.specs.Prelude.{◌≤◌, All, IfOk, IfErr, length};
ghost use Rattle.std.specs.List.{IsDistinct};
ghost use Rattle.std.specs.Str.{bytes_eq};
ghost use Rattle.lw_laws.specs.Graphs.{most_classes};
ghost use Rattle.lw_genlib.specs.Cells.{IsSmall};
ghost use Rattle.lw_net.specs.Networks.{output_names};
ghost use Rattle.lw_netlist.specs.Plain.{IsOver};
ghost use Rattle.lw_map.specs.Choices.{AreChoicesOf};
ghost use Rattle.lw_map.specs.Covering.{CanBeMapped, IsCoverAtPorts, IsFastest, IsLack, IsMappedBy};
ghost use Rattle.lw_map.specs.Covering.{LacksLeastLabel};
ghost use Rattle.lw_map.specs.Labelled.{HasLeastLabels};
ghost use Rattle.lw_map.specs.Ports.{ArePortsOf};
ghost use Rattle.lw_map.specs.Mappings.{IsMappingOf};
ghost use Rattle.lw_map.specs.Faults.{IsCoverFault};
ghost use Rattle.lw_map.specs.Problems.{IsProblem};
ghost use Rattle.lw_map.specs.Trading.{LacksLabel};

use crate::labelling::{Labelled, Labeller};
use crate::naming::{input_names, output_names, refused};
use crate::problem::Problem;
use crate::{Choices, MapFault};
use lw_cost::Cost;
use lw_extract::{Cover, ExtractFault, Ports, extract_with};
use lw_fixed::Micros;
use lw_genlib::Library;
use lw_label::{DelayCost, Labels};
use lw_net::Network;
use lw_netlist::Netlist;
use lw_pool::{Classes, Name};
use std::alloc::{AllocError, Global};

/// The netlist that a network is mapped to, with the class of each gate and the labels of all
/// classes. It has how often a stored match was read to find them: none where they were found in
/// rounds.
#[derive(Drop)]
pub struct Mapping {
    pub netlist: Netlist,
    pub classes: Classes,
    pub labels: Labels,
    pub steps: Option<u64>,
}

/// The ports at which the graph of a network is covered: the names of the model, its inputs and its
/// outputs, and the class of each output.
pub fn ports(alloc: Global, net: &Network, choices: &Choices) -> Result<Ports, AllocError>
    ensures { IfOk result (ArePortsOf net.now choices.now) }
{
    let roots = Vec::from_slice(alloc, choices.roots.as_slice())?;
    Ok(Ports {
        model: Name::from_slice(alloc, net.model().as_bytes())?,
        inputs: input_names(alloc, net)?,
        outputs: output_names(alloc, net)?,
        roots: Classes::from_vec(roots),
    })
}

impl Problem<'_> {
    // The netlist of the matches that labels choose for the outputs, or the first output that has
    // none.
    fn covered<C: Cost>(&self, cost: &C, labelled: &Labelled) -> Result<Cover, ExtractFault>
        requires given { CanBeMapped (C.costs cost.now) self.now }
        requires labels { HasLeastLabels (C.costs cost.now) self.now labelled.now }
        ensures cover { IfOk result
            (IsCoverAtPorts (C.costs cost.now) self.now labelled.now.labels) }
        ensures lacks { IfErr result (LacksLabel labelled.now.labels self.now.choices.now.roots) }
    {
        let _ = self.net.inputs();
        let ports = ports(self.alloc, self.net, self.choices)?;
        let (alloc, graph, pats) = (self.alloc, &self.choices.graph, &self.pats);
        let (labels, bounds) = (&labelled.labels, labelled.bounds.as_ref());
        let cover = extract_with(alloc, graph, pats, self.lib, labels, bounds, &ports, cost);
        drop(ports);
        cover
    }

    /// The labels by a cost, and the netlist of the matches that they choose for the outputs, or
    /// the first output that has none.
    pub fn mapped<C: Cost>(&self, cost: &C, labeller: Labeller) -> Result<Mapping, ExtractFault>
        requires { CanBeMapped (C.costs cost.now) self.now }
        ensures mapped { IfOk result (IsMappedBy labeller (C.costs cost.now) self.now) }
        ensures lacks { IfErr result (LacksLeastLabel (C.costs cost.now) self.now) }
    {
        let labelled = self.label(cost, labeller)?;
        let cover = self.covered(cost, &labelled)?;
        drop(labelled.bounds);
        Ok(Mapping {
            netlist: cover.netlist,
            classes: cover.classes,
            labels: labelled.labels,
            steps: labelled.steps,
        })
    }

    // The netlist in which each output has its least time, or the first output that has no cover.
    fn fastest(&self, labeller: Labeller) -> Result<Mapping, MapFault>
        requires { IsProblem self.now }
        ensures mapping { IfOk result (IsFastest labeller self.now) }
        ensures fault { IfErr result (IsLack self.now) }
    {
        let cost = DelayCost::new(self.lib, self.starts);
        match self.mapped(&cost, labeller) {
            Ok(mapping) => {
                let _ = mapping.netlist.gates();
                Ok(mapping)
            }
            Err(fault) => Err(refused(self.alloc, self.net, fault)),
        }
    }
}

/// Covers the choices of a network by cells of a library. Each class gets the least time of its
/// covers from the starts of the inputs on, and the chosen matches of the needed classes are the
/// gates. `NoCover` tells the first output that has no cover, and comes exactly where there is one.
pub fn cover(
    alloc: Global,
    lib: &Library,
    net: &Network,
    starts: &Micros,
    choices: &Choices,
    labeller: Labeller,
) -> Result<Mapping, MapFault>
    requires choices { AreChoicesOf net.now choices.now }
    requires outputs { IsDistinct bytes_eq (output_names net.now) }
    requires early { All IsSmall starts.now }
    ensures mapping { IfOk result (IsMappingOf labeller lib.now net.now starts.now choices.now) }
    ensures over { IfOk result (λ m. IsOver lib.now m.netlist) }
    ensures few { IfOk result (λ m. length m.netlist.gates ≤ most_classes) }
    ensures fault { IfErr result (IsCoverFault lib.now net.now starts.now choices.now) }
{
    let problem = Problem::new(alloc, lib, net, starts, choices)?;
    let mapping = problem.fastest(labeller);
    drop(problem);
    mapping
}
