// The netlist of least area under a deadline that a network comes to.
ghost use Rattle.std.specs.Prelude.{IfErr, IfOk, IfSome, None, Some, map, ◌≡◌};
ghost use Rattle.lw_blif.specs.BlifNetworks.{IsModel};
ghost use Rattle.lw_genlib.specs.Cells.{IsSmall};
ghost use Rattle.lw_map.specs.Choices.{AreChoicesOf};
ghost use Rattle.lw_map.specs.Covering.{IsLack};
ghost use Rattle.lw_map.specs.Faults.{IsTradeFault, IsTradingFault};
ghost use Rattle.lw_map.specs.Options.{plain_options};
ghost use Rattle.lw_map.specs.Problems.{IsProblem};
ghost use Rattle.lw_map.specs.Trades.{AreLeastTimes, AreTargets, CanBeRead, HasTimes, HaveLabels};
ghost use Rattle.lw_map.specs.Trades.{IsFault, IsTrade, IsTraded};
ghost use Rattle.lw_map.specs.Trading.{LacksLabel, latest_of, micros, put_off};

use crate::covering::ports;
use crate::labelling::Labeller;
use crate::naming::refused;
use crate::problem::Problem;
use crate::{Choices, MapFault, Options, decompose};
use lw_blif::Parsed;
use lw_cost::Mark;
use lw_extract::ExtractFault;
use lw_fixed::{Micro, Micros};
use lw_genlib::Library;
use lw_label::DelayCost;
use lw_netlist::Netlist;
use lw_trade::{AreaCost, Targets, curves};
use std::alloc::{AllocError, Global};

// The latest of some times, and at least the deadline: the horizon of the curves.
fn latest_of(deadline: Micro, times: &[Micro]) -> Micro
    ensures { result.0 ≡ latest_of deadline.0 (micros times.now) }
{
    let mut latest = deadline.0;
    for time in times {
        latest = latest.max(time.0);
    }
    Micro(latest)
}

// For each time the later of it and the deadline.
fn put_off(alloc: Global, times: &[Micro], deadline: Micro) -> Result<Vec<Micro>, AllocError>
    ensures { IfOk result (λ later. later.items ≡ map (put_off deadline) times.now) }
{
    let mut later = Vec::with_capacity(alloc, times.len())?;
    for time in times {
        later.push(Micro(time.0.max(deadline.0)))?;
    }
    Ok(later)
}

impl Problem<'_> {
    // The labels of the outputs' classes in millionths, or the first output whose class has none.
    fn labels_of(&self, marks: &[Option<Mark>]) -> Result<Vec<Micro>, ExtractFault>
        requires { CanBeRead self.now marks.now }
        ensures labels { IfOk result (λ labels. HaveLabels self.now marks.now labels.items) }
        ensures lacks { IfErr result (LacksLabel marks.now self.now.choices.now.roots) }
    {
        let roots = self.choices.roots.as_slice();
        let mut labels = Vec::with_capacity(self.alloc, roots.len())?;
        for (k, root) in roots.iter().enumerate() {
            let Some(mark) = marks[root.0 as usize] else {
                return Err(ExtractFault::NoCover(k as u32));
            };
            let Ok(()) = labels.push(Micro(mark.cost)) else {
                return Err(ExtractFault::Memory);
            };
        }
        Ok(labels)
    }

    // The least time of each output in millionths, or why there is none.
    fn earliest(&self) -> Result<Vec<Micro>, MapFault>
        requires { IsProblem self.now }
        ensures least { IfOk result (λ times. AreLeastTimes self.now times.items) }
        ensures fault { IfErr result (IsLack self.now) }
    {
        let cost = DelayCost::new(self.lib, self.starts);
        let labelled = self.label(&cost, Labeller::Rounds)?;
        let times = self.labels_of(labelled.labels.marks());
        drop(labelled);
        match times {
            Ok(times) => Ok(times),
            Err(fault) => Err(refused(self.alloc, self.net, fault)),
        }
    }

    // What a netlist is built for: the ports of the network, whose outputs arrive by the later of
    // these times and the deadline.
    fn targets(&self, times: &[Micro], deadline: Micro) -> Result<Targets, AllocError>
        ensures { IfOk result (AreTargets self.now deadline times.now) }
    {
        let later = put_off(self.alloc, times, deadline)?;
        let ports = ports(self.alloc, self.net, self.choices)?;
        Ok(Targets {
            model: ports.model,
            inputs: ports.inputs,
            outputs: ports.outputs,
            roots: ports.roots,
            times: Micros::from_vec(later),
        })
    }

    // The netlist of least area by a deadline. `times` are the least times of the outputs.
    fn in_time(&self, times: &[Micro], deadline: Micro) -> Result<Netlist, MapFault>
        requires problem { IsProblem self.now }
        requires late { IsSmall deadline }
        requires least { AreLeastTimes self.now times.now }
        ensures traded { IfOk result (IsTrade self.now (Some deadline)) }
        ensures fault { IfErr result (IsFault self.now (Some deadline)) }
    {
        let (graph, pats, lib) = (&self.choices.graph, &self.pats, self.lib);
        let horizon = latest_of(deadline, times);
        let curves = curves(self.alloc, graph, pats, lib, self.starts, horizon)?;
        let targets = self.targets(times, deadline)?;
        let netlist = lw_trade::trade(self.alloc, graph, pats, lib, self.starts, &curves, &targets);
        drop(curves);
        drop(targets);
        let netlist = netlist?;
        let _ = netlist.gates();
        Ok(netlist)
    }

    // The netlist of least area of all, where it is known that each output has a cover.
    fn at_any_time(&self) -> Result<Netlist, MapFault>
        requires problem { IsProblem self.now }
        requires covered { HasTimes self.now }
        ensures traded { IfOk result (IsTrade self.now None) }
        ensures memory { IfErr result (λ e. e ≡ MapFault.Memory) }
    {
        let cost = AreaCost::new(self.lib);
        match self.mapped(&cost, Labeller::Store) {
            Ok(mapping) => {
                let _ = mapping.netlist.gates();
                drop(mapping.classes);
                drop(mapping.labels);
                Ok(mapping.netlist)
            }
            Err(ExtractFault::NoCover(_)) => unreachable!(),
            Err(ExtractFault::Memory) => Err(MapFault::Memory),
        }
    }

    // The netlist of least area by a deadline, or of least area of all where there is none.
    fn traded(&self, deadline: Option<Micro>) -> Result<Netlist, MapFault>
        requires problem { IsProblem self.now }
        requires late { IfSome deadline IsSmall }
        ensures traded { IfOk result (IsTrade self.now deadline) }
        ensures fault { IfErr result (IsFault self.now deadline) }
    {
        let times = self.earliest()?;
        match deadline {
            Some(deadline) => self.in_time(times.as_slice(), deadline),
            None => self.at_any_time(),
        }
    }
}

// The netlist of least area by a deadline, or of least area of all, over the choices of a network.
fn of_choices(
    alloc: Global,
    lib: &Library,
    model: &Parsed,
    choices: &Choices,
    deadline: Option<Micro>,
) -> Result<Netlist, MapFault>
    requires choices { AreChoicesOf model.now.network choices.now }
    requires model { IsModel model.now }
    requires late { IfSome deadline IsSmall }
    ensures traded { IfOk result (IsTraded deadline (plain_options choices.now.options) lib.now
        model.now) }
    ensures fault { IfErr result
        (IsTradeFault lib.now model.now.network model.now.starts choices.now
        deadline) }
{
    let problem = Problem::new(alloc, lib, &model.network, &model.starts, choices)?;
    let netlist = problem.traded(deadline);
    drop(problem);
    netlist
}

/// What a library and a model come to by a deadline: the netlist of least area, where each use of a
/// shared part counts. Each output arrives by the deadline, or at its least time where that is
/// later. Without a deadline the area is the least of all. `NoCover` tells the first output that
/// has no cover, and comes exactly where there is one. Where each has one, `Points` comes exactly
/// if there is a deadline and the classes have more than 8,000,000 points up to the latest of these
/// times. `Forms` and `Splits` come exactly where there are more than are dealt with.
pub fn trade(
    alloc: Global,
    lib: &Library,
    model: &Parsed,
    options: Options,
    deadline: Option<Micro>,
) -> Result<Netlist, MapFault>
    requires model { IsModel model.now }
    requires late { IfSome deadline IsSmall }
    ensures traded { IfOk result (IsTraded deadline (plain_options options) lib.now model.now) }
    ensures fault { IfErr result (IsTradingFault deadline (plain_options options) lib.now
        model.now.network model.now.starts) }
{
    let choices = decompose(alloc, &model.network, options)?;
    let netlist = of_choices(alloc, lib, model, &choices, deadline);
    drop(choices);
    netlist
}
