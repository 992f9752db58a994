// A smaller cover of a network that is mapped.
ghost use Rattle.std.specs.Prelude.{◌≡◌, ◌≢◌, ◌<◌, All, IfOk, None, length, map};
ghost use Rattle.lw_pattern.specs.Libraries.{library_patterns};
ghost use Rattle.lw_area.specs.Cases.{AreFirstTimes, IsCase, IsChosen, IsFirst, time_at};

use crate::deadlines::deadlines_of;
use crate::words::Settings;
use lw_blif::Parsed;
use lw_bounds::Bounds;
use lw_cost::{Match, Pins};
use lw_extract::{Chosen, Cover, attaining_matches};
use lw_fixed::Micro;
use lw_genlib::Library;
use lw_joined::Joined;
use lw_label::{DelayCost, Labels};
use lw_look::{Look, arrivals_of};
use lw_map::ports;
use lw_netlist::Port;
use lw_pattern::{Patterns, patterns};
use lw_pool::{ClassId, NetId};
use lw_recover::{Effort, Gate, Nodes, Root, recover};
use std::alloc::{AllocError, Global};

/// What a smaller cover is looked for in: a library, the model of a network, its choices and those
/// of networks that were joined to it, the labels of these, and what was asked for.
#[derive(Drop)]
pub(crate) struct Case<'a> {
    pub alloc: Global,
    pub library: &'a Library,
    pub model: &'a Parsed,
    pub joined: &'a Joined,
    pub labels: &'a Labels,
    pub settings: Settings,
}

// The gate of a list as a match at its class.
fn chosen_of(gate: &Gate) -> Chosen {
    let mut pins = Pins::new();
    for pin in gate.pins.iter().take(gate.count) {
        if pins.len() < 16 {
            pins.push(*pin);
        }
    }
    Chosen {
        class: gate.class,
        found: Match {
            pat: gate.pat,
            pins,
        },
    }
}

// Appends the class of a net of the union.
fn put_class(classes: &mut Vec<ClassId>, joined: &Joined, net: NetId) -> Result<(), AllocError> {
    if let Some(class) = joined.nets.as_slice().get(net.0 as usize) {
        classes.push(*class)?;
    }
    Ok(())
}

// The classes of some nodes of the union, and of their fan-ins.
fn nodes_of(alloc: Global, joined: &Joined, from: u32, end: u32) -> Result<Nodes, AllocError> {
    let (mut classes, mut fanins) = (Vec::new(alloc), Vec::new(alloc));
    let mut ends = Vec::new(alloc);
    for node in joined.union.nodes() {
        if from <= node.out.0 && node.out.0 < end {
            put_class(&mut classes, joined, node.out)?;
            for fanin in node.fanins.as_slice() {
                put_class(&mut fanins, joined, *fanin)?;
            }
            ends.push(fanins.len())?;
        }
    }
    Ok(Nodes {
        classes,
        fanins,
        ends,
    })
}

// When some outputs arrive.
fn times_at(alloc: Global, outputs: &[Port], arrivals: &[Micro]) -> Result<Vec<Micro>, AllocError>
    requires { All (λ port. port.net.0 < length arrivals.now) outputs.now }
    ensures { IfOk result (λ times. times.items ≡ map (time_at arrivals.now) outputs.now) }
{
    let mut times = Vec::new(alloc);
    for port in outputs {
        times.push(arrivals[port.net.0 as usize])?;
    }
    Ok(times)
}

impl Case<'_> {
    // The networks whose own gates may be a cover: none where these are not tried.
    fn networks(&self, effort: Effort) -> Result<Vec<Nodes>, AllocError> {
        let mut networks = Vec::new(self.alloc);
        if effort != Effort::Chance {
            return Ok(networks);
        }
        let mut from = self.joined.union.inputs();
        for end in &self.joined.ends {
            networks.push(nodes_of(self.alloc, self.joined, from, *end)?)?;
            from = *end;
        }
        Ok(networks)
    }

    // The least times of the outputs, which are those of the first cover.
    fn least(&self, first: &Cover) -> Result<Vec<Micro>, AllocError>
        requires case { IsCase self.now }
        requires first { IsFirst self.now first.now }
        ensures { IfOk result (λ times. AreFirstTimes self.now first.now times.items) }
    {
        let _ = self.library.len();
        let _ = first.netlist.gates();
        let (alloc, starts) = (self.alloc, &self.model.starts);
        let arrivals = arrivals_of(alloc, self.library, starts, &first.netlist)?;
        times_at(alloc, first.netlist.outputs(), &arrivals)
    }

    // The outputs' classes with their deadlines.
    fn roots(&self, times: &[Micro]) -> Result<Vec<Root>, AllocError> {
        let mut roots = Vec::new(self.alloc);
        for (class, time) in self.joined.choices.roots.as_slice().iter().zip(times) {
            roots.push(Root {
                class: *class,
                time: time.0,
            })?;
        }
        Ok(roots)
    }

    // A list of matches that may be a smaller cover: none where there is none.
    fn list(
        &self,
        effort: Effort,
        pats: &Patterns,
        attained: &[Option<Match>],
        times: &[Micro],
    ) -> Result<Vec<Chosen>, AllocError> {
        let (graph, marks) = (&self.joined.choices.graph, self.labels.marks());
        let roots = self.roots(times)?;
        let networks = self.networks(effort)?;
        let found = recover(
            self.alloc,
            graph,
            self.library,
            pats,
            marks,
            attained,
            &roots,
            &networks,
            effort,
        )?;
        let mut list = Vec::new(self.alloc);
        if let Some(gates) = found {
            for gate in &gates.items {
                list.push(chosen_of(gate))?;
            }
        }
        Ok(list)
    }

    // The list that is found from the matches which attain the labels.
    fn found(
        &self,
        effort: Effort,
        pats: &Patterns,
        times: &[Micro],
    ) -> Result<Vec<Chosen>, AllocError>
        requires case { IsCase self.now }
        requires patterns { pats.now ≡ library_patterns self.now.library.now }
    {
        let (alloc, lib, graph) = (self.alloc, self.library, &self.joined.choices.graph);
        let cost = DelayCost::new(lib, &self.model.starts);
        let bounds = Bounds::settled(alloc, graph, pats, self.labels.marks(), &cost)?;
        let ports = ports(alloc, &self.model.network, &self.joined.choices)?;
        let all = attaining_matches(alloc, graph, pats, lib, self.labels, &bounds, &ports, &cost)?;
        drop(bounds);
        self.list(effort, pats, &all, times)
    }

    /// A smaller cover than the first one, if one is found, in which each output arrives by its
    /// deadline; else the first one.
    pub(crate) fn smaller(&self, effort: Effort, first: Cover) -> Result<Cover, AllocError>
        requires case { IsCase self.now }
        requires first { IsFirst self.now first }
        requires tried { self.now.settings.effort ≢ None }
        ensures { IfOk result (IsChosen self.now) }
    {
        let alloc = self.alloc;
        let pats = patterns(alloc, self.library)?;
        let times = deadlines_of(alloc, self.settings.deadline, &self.least(&first)?)?;
        let list = self.found(effort, &pats, &times)?;
        let ports = ports(alloc, &self.model.network, &self.joined.choices)?;
        let look = Look {
            graph: &self.joined.choices.graph,
            pats: &pats,
            lib: self.library,
            starts: &self.model.starts,
            ports: &ports,
            times: &times,
        };
        let cover = look.choose(alloc, &list, first)?.cover;
        let _ = cover.netlist.gates();
        Ok(cover)
    }
}
