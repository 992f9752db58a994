// The graph of several networks.
ghost use Rattle.std.specs.Prelude.{◌≡◌, ◌<◌, ◌≤◌, length, map, All, IfOk, IfErr, OnOk};
ghost use Rattle.lw_pool.specs.declared.id.ClassId.{ClassId as Class};
ghost use Rattle.lw_pool.specs.declared.id.NetId.{NetId as Net};
ghost use Rattle.lw_pool.specs.Numbers.{numbers};
ghost use Rattle.lw_net.specs.Networks.{plain};
ghost use Rattle.lw_assoc.specs.Modes.{law_mode};
ghost use Rattle.lw_assoc.specs.Splits.{most_splits, numbered_splits};
ghost use Rattle.lw_map.specs.Choices.{root_of};
ghost use Rattle.lw_map.specs.Faults.{IsChoiceFault};
ghost use Rattle.lw_map.specs.Options.{plain_options};
ghost use Rattle.lw_joined.specs.Choices.{IsBuilt, IsJoinOf, IsJoinedBy, IsLinkedIf};
ghost use Rattle.lw_joined.specs.Joins.{BeginsWith};
ghost use Rattle.lw_joined.specs.Unions.{FitsOther, IsListedAs};

use crate::taking::{Left, Listed, Offer, Taken};
use crate::{Counts, Other};
use lw_assoc::{GraphFault, Mode, build};
use lw_form::Forms;
use lw_graph::Graph;
use lw_links::{Limits, link_equal_forms};
use lw_map::{Choices, MapFault, Options};
use lw_net::Network;
use lw_pool::{Classes, NetId};
use std::alloc::{AllocError, Global};

/// The choices of decomposition that several networks leave to the first.
#[derive(Drop)]
pub struct Joined {
    /// How many base forms occur, the graph of their classes, and the class of each output of the
    /// first network.
    pub choices: Choices,
    /// The network of all nodes, the class of each of its nets, and how many nets there are behind
    /// each network.
    pub union: Network,
    pub nets: Classes,
    pub ends: Vec<u32>,
    /// The networks that are left out.
    pub left: Vec<Left>,
    /// What was done to find links.
    pub counts: Counts,
}

// How far links are looked for: conflicts of a pair each way, conflicts and values of all pairs.
const LIMITS: Limits = Limits {
    tries: 1000,
    conflicts: 300_000,
    steps: 4_000_000_000,
    sums: true,
};

// Where no links are looked for.
const NO_WORK: Counts = Counts {
    equal: 0,
    apart: 0,
    open: 0,
    conflicts: 0,
    links: 0,
};

// Links forms of equal value, where that is asked for.
fn link(alloc: Global, forms: &mut Forms, linked: bool) -> Result<Counts, AllocError>
    ensures { OnOk result (IsLinkedIf linked forms.old forms.new) }
{
    if !linked {
        return Ok(NO_WORK);
    }
    link_equal_forms(alloc, forms, LIMITS)
}

// The graph of forms whose splits are few.
fn built(alloc: Global, forms: &Forms, mode: Mode) -> Result<Graph, AllocError>
    requires { numbered_splits (law_mode mode) forms.now ≤ most_splits }
    ensures { IfOk result (IsBuilt (law_mode mode) forms.now) }
{
    let fault = match build(alloc, forms, mode) {
        Ok(graph) => return Ok(graph),
        Err(fault) => fault,
    };
    match fault {
        GraphFault::Limit => unreachable!(),
        GraphFault::Memory => Err(AllocError),
    }
}

// The classes of the sums of products of some nets.
fn classes_of(
    alloc: Global,
    nets: &[NetId],
    forms: &Forms,
    graph: &Graph,
) -> Result<Classes, AllocError>
    requires listed { All (λ (net : Net). net.0 < length forms.now.sops) nets.now }
    requires bases { length graph.now.forms ≡ length forms.now.bases }
    ensures classes { IfOk result (λ classes. numbers classes
        ≡ map (root_of forms.now graph.now) nets.now) }
    ensures within { IfOk result (All (λ (class : Class). class.0 < length graph.now.pairs)) }
{
    let _ = forms.nets();
    let mut classes = Vec::with_capacity(alloc, nets.len())?;
    for net in nets {
        classes.push(graph.class_of(forms.sop(*net)))?;
    }
    Ok(Classes::from_vec(classes))
}

// The classes of the sums of products of the first nets.
fn first_classes(
    alloc: Global,
    count: u32,
    forms: &Forms,
    graph: &Graph,
) -> Result<Classes, AllocError>
    requires listed { count ≤ length forms.now.sops }
    requires bases { length graph.now.forms ≡ length forms.now.bases }
{
    let _ = forms.nets();
    let mut classes = Vec::with_capacity(alloc, count as usize)?;
    for net in 0..count {
        classes.push(graph.class_of(forms.sop(NetId(net))))?;
    }
    Ok(Classes::from_vec(classes))
}

// The graph of a union, with links or without.
fn graph_of(
    alloc: Global,
    net: &Network,
    options: Options,
    linked: bool,
    listed: Listed,
    left: Vec<Left>,
) -> Result<Joined, AllocError>
    requires begins { BeginsWith (plain net.now) (plain listed.union.net) }
    requires listed { IsListedAs options listed.union.net listed.union.ends.items listed }
    ensures { IfOk result (IsJoinOf net.now options linked listed.union left.items) }
{
    let _ = net.inputs();
    let Listed { union, mut forms } = listed;
    let nets = union.net.nets();
    let counts = link(alloc, &mut forms, linked)?;
    let graph = built(alloc, &forms, options.mode)?;
    let roots = classes_of(alloc, net.outputs(), &forms, &graph)?;
    let nets = first_classes(alloc, nets, &forms, &graph)?;
    let count = forms.len();
    drop(forms);
    Ok(Joined {
        choices: Choices {
            options,
            forms: count,
            graph,
            roots,
        },
        union: union.net,
        nets,
        ends: union.ends,
        left,
        counts,
    })
}

/// The choices of decomposition that a network and further ones over its inputs leave to the first.
///
/// Each further network is taken as long as all together are within the limits. `Forms` and
/// `Splits` come exactly where the first network passes these alone. Where links are asked for,
/// listed forms that are found to have one value are linked.
pub fn join(
    alloc: Global,
    net: &Network,
    others: &[Other],
    options: Options,
    linked: bool,
) -> Result<Joined, MapFault>
    requires { All (FitsOther net.now) others.now }
    ensures joined { IfOk result (IsJoinedBy net.now others.now options linked) }
    ensures fault { IfErr result (IsChoiceFault (plain_options options) net.now) }
{
    let offer = Offer {
        net,
        others,
        options,
    };
    let _ = net.inputs();
    let Taken { listed, left } = offer.take(alloc)?;
    Ok(graph_of(alloc, net, options, linked, listed, left)?)
}
