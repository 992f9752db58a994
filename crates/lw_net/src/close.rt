// Drafts that are closed to networks.
ghost use Rattle.std.specs.Prelude.{◌≡◌, ◌-◌, ◌<◌, length, map, All, IfOk, IfErr, OnOk};
ghost use Rattle.lw_net.specs.Closing.{HasFault, network_in};
ghost use Rattle.lw_net.specs.Numbers.{draft_in, AreFaninNumbers, CanClose, HasDistinctSignals};
ghost use Rattle.lw_net.specs.Numbers.{StandsInOrder, IsTable};
ghost use Rattle.lw_net.specs.Ordering.{AreRight};
ghost use Rattle.lw_net.specs.Written.{names_in, net_placed, placed_node, IsWithin};

use crate::places::{copy_of, graph, places, row};
use crate::written::{NumberedNode, Written, signal_list};
use crate::{NetFault, Node, Nodes};
use indexmap::IndexSet;
use lw_dag::{find_levels, first_on_cycle, in_order};
use lw_pool::{Name, Names, NetId, Nets, Numbers};
use std::alloc::{AllocError, Global};
use std::mem;

// The depths of nodes with these heights.
fn depths_of(alloc: Global, heights: &[u32]) -> Result<Vec<u32>, AllocError>
    ensures { IfOk result (λ depths. depths.items ≡ map (λ h. h - 1) heights.now) }
{
    heights.iter().map(|h| h.saturating_sub(1)).collect(alloc)
}

// The places of the names of a draft among its signals.
fn table(alloc: Global, w: &Written) -> Result<Vec<u32>, AllocError>
    requires { HasDistinctSignals w.now }
    ensures { IfOk result (λ places. IsTable w.now places.items) }
{
    let signals = signal_list(alloc, &w.inputs, &w.nodes)?;
    places(alloc, w.names.len(), &signals)
}

// The numbers of the nodes' fan-ins among the signals of a draft, or the first signal that nothing
// drives.
fn graph_of(alloc: Global, w: &Written) -> Result<Vec<Numbers>, NetFault>
    requires { CanClose w.now }
    ensures graph { IfOk result (λ graph. AreFaninNumbers w.now graph.items) }
    ensures fault { IfErr result (HasFault (draft_in w.now)) }
{
    let places = table(alloc, w)?;
    let graph = graph(alloc, w, &places)?;
    let _outputs = row(alloc, w, &places, &w.outputs)?;
    Ok(graph)
}

// The depths of the nodes, or the first node on a cycle.
fn depths(alloc: Global, w: &Written, graph: &[Numbers]) -> Result<Vec<u32>, NetFault>
    requires draft { CanClose w.now }
    requires graph { AreFaninNumbers w.now graph.now }
    ensures right { IfOk result (λ depths. AreRight (draft_in w.now) depths.items) }
    ensures fault { IfErr result (HasFault (draft_in w.now)) }
{
    let inputs = w.inputs.len();
    let levels = find_levels(alloc, inputs, graph)?;
    let first = first_on_cycle(alloc, inputs, graph, &levels.heights)?;
    if let Some(place) = first {
        let node = &w.nodes[place];
        let name = copy_of(alloc, &w.names, node.out)?;
        return Err(NetFault::Cycle(name));
    }
    let depths = depths_of(alloc, &levels.heights[inputs..])?;
    Ok(depths)
}

// The depths of the nodes of a draft, or its fault.
fn draft_depths(alloc: Global, w: &Written) -> Result<Vec<u32>, NetFault>
    requires { CanClose w.now }
    ensures right { IfOk result (λ depths. AreRight (draft_in w.now) depths.items) }
    ensures fault { IfErr result (HasFault (draft_in w.now)) }
{
    let graph = graph_of(alloc, w)?;
    let depths = depths(alloc, w, &graph)?;
    Ok(depths)
}

// Puts the nodes of a draft in the order of its network. Behind an error the draft is of no use.
pub(crate) fn put_in_order(alloc: Global, w: &mut Written) -> Result<(), NetFault>
    requires { CanClose w.old }
    ensures order { OnOk result (StandsInOrder (draft_in w.old) w.new) }
    ensures fault { IfErr result (HasFault (draft_in w.old)) }
{
    let depths = draft_depths(alloc, w)?;
    let taken = mem::replace(&mut w.nodes, Vec::new(alloc));
    let nodes = in_order(alloc, taken, &depths)?;
    w.nodes = nodes;
    Ok(())
}

// The nets of names with these numbers.
fn nets(alloc: Global, places: &[u32], list: &[u32]) -> Result<Nets, AllocError>
    requires { All (λ n. n < length places.now) list.now }
    ensures { IfOk result (λ nets. nets ≡ map (net_placed places.now) list.now) }
{
    let mut nets = Vec::with_capacity(alloc, list.len())?;
    for number in list {
        nets.push(NetId(places[*number as usize].saturating_sub(1)))?;
    }
    Ok(Nets::from_vec(nets))
}

// A node with nets in place of names.
fn closed(alloc: Global, node: NumberedNode, places: &[u32]) -> Result<Node, AllocError>
    requires { IsWithin (length places.now) node }
    ensures { IfOk result (λ closed. closed ≡ placed_node places.now node) }
{
    let fanins = nets(alloc, places, node.fanins.as_slice())?;
    Ok(Node {
        out: NetId(places[node.out as usize].saturating_sub(1)),
        fanins,
        rows: node.rows,
        on: node.on,
    })
}

// The nodes with nets in place of names.
fn closed_nodes(
    alloc: Global,
    nodes: Vec<NumberedNode>,
    places: &[u32],
) -> Result<Vec<Node>, AllocError>
    requires { All (IsWithin (length places.now)) nodes.items }
    ensures { IfOk result (λ done. done.items ≡ map (placed_node places.now) nodes.items) }
{
    let mut done = Vec::with_capacity(alloc, nodes.len())?;
    let mut left = nodes.into_iter();
    'nodes: while let Some(node) = left.next() {
        done.push(closed(alloc, node, places)?)?;
    }
    Ok(done)
}

// Copies of the names with these numbers.
fn copies(alloc: Global, names: &IndexSet<Name>, list: &[u32]) -> Result<Vec<Name>, AllocError>
    requires { All (λ n. n < length names.now.keys) list.now }
    ensures { IfOk result (λ copies. copies.items ≡ names_in names.now.keys list.now) }
{
    let mut copies = Vec::with_capacity(alloc, list.len())?;
    for number in list {
        copies.push(copy_of(alloc, names, *number)?)?;
    }
    Ok(copies)
}

// The parts of a network, its model aside.
#[derive(Drop)]
pub(crate) struct Parts {
    pub(crate) names: Names,
    pub(crate) inputs: u32,
    pub(crate) nodes: Nodes,
    pub(crate) outputs: Nets,
}

// The parts of the network whose nodes stand as in the draft. The draft keeps no nodes.
pub(crate) fn parts_of(alloc: Global, w: &mut Written) -> Result<Parts, AllocError>
    requires { HasDistinctSignals w.old }
    ensures { IfOk result (λ p. record {
      model = w.new.model;
      names = p.names;
      inputs = p.inputs;
      nodes = p.nodes;
      outputs = p.outputs;
    } ≡ network_in (draft_in w.old) (draft_in w.old).nodes) }
{
    let places = table(alloc, w)?;
    let list = signal_list(alloc, &w.inputs, &w.nodes)?;
    let names = copies(alloc, &w.names, &list)?;
    let inputs = w.inputs.len();
    let outputs = nets(alloc, &places, &w.outputs)?;
    let taken = mem::replace(&mut w.nodes, Vec::new(alloc));
    let nodes = closed_nodes(alloc, taken, &places)?;
    Ok(Parts {
        names: Names::from_vec(names),
        inputs: inputs as u32,
        nodes: Nodes::from_vec(nodes),
        outputs,
    })
}
