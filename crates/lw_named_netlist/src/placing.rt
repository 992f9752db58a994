// Netlists of graphs, with the gates at given places.
ghost use Rattle.std.specs.Prelude.{◌≡◌, ◌+◌, ◌≤◌, ◌<◌, ◌++◌, ℕ, List, length, map, All, IfOk};
ghost use Rattle.std.specs.List.{range_with_len};
ghost use Rattle.std.specs.List.Sorted.{IsNonDecreasingBy, IsPermutation};
ghost use Rattle.lw_dag.specs.Ordering.{AreKeys, by_key};
ghost use Rattle.lw_named_netlist.specs.declared.draft.GateDraft.{GateDraft};
ghost use Rattle.lw_named_netlist.specs.Closing.{closed_gate, netlist_in};
ghost use Rattle.lw_named_netlist.specs.Numbered.{net_at, start_at};
ghost use Rattle.lw_named_netlist.specs.Ordering.{TellNets, net_by};
ghost use Rattle.lw_named_netlist.specs.Placing.{AreGatesBy, ArePlaces, AreTurned, CanBeNamed};
ghost use Rattle.lw_named_netlist.specs.Placing.{IsMadeOf};
ghost use Rattle.lw_named_netlist.specs.Placing.{IsNamed, IsPlaced, gate_at, gates_at, names_at};
ghost use Rattle.lw_named_netlist.specs.Placing.{signal_at};

use crate::SpelledNames;
use crate::closing::ports;
use crate::graph::Graph;
use crate::levels::places_below;
use lw_dag::in_order;
use lw_netlist::{Gate, Gates, Netlist, PortList};
use lw_pool::{Name, Names, NetId, Nets};
use std::alloc::{AllocError, Global};

// The places of gates with these depths, by depth and, at one depth, in order.
pub(crate) fn places_by(alloc: Global, depths: &[u32]) -> Result<Vec<u32>, AllocError>
    requires { All (λ d. 1 ≤ d) depths.now }
    ensures permutation { IfOk result (λ places. IsPermutation
        (range_with_len 0 (length depths.now)) places.items) }
    ensures rising { IfOk result (λ places. (depth : ℕ → ℕ) →
        AreKeys depths.now (range_with_len 0 (length depths.now)) depth →
        IsNonDecreasingBy depth places.items) }
    ensures order { IfOk result (λ places. (depth : ℕ → ℕ) →
        AreKeys depths.now (range_with_len 0 (length depths.now)) depth →
        places.items ≡ by_key depth (range_with_len 0 (length depths.now))) }
{
    let all = places_below(alloc, depths.len())?;
    in_order(alloc, all, depths)
}

// The names of the inputs, and then copies of those that the gates at these places drive.
fn names_by(
    alloc: Global,
    first: Vec<Name>,
    signals: &SpelledNames,
    inputs: usize,
    places: &[u32],
) -> Result<Vec<Name>, AllocError>
    requires { All (λ p. inputs + p < length signals.now) places.now }
    ensures { IfOk result (λ names. names.items
        ≡ first.items ++ map (signal_at inputs signals.now) places.now) }
{
    let _count = signals.len();
    let mut names = first;
    names.reserve(places.len())?;
    for place in places {
        let name = signals.get(inputs + *place as usize);
        names.push(Name::from_slice(alloc, name)?)?;
    }
    Ok(names)
}

// The numbers of inputs and gates among the nets, by their numbers among the signals.
fn turned(
    alloc: Global,
    inputs: usize,
    signals: usize,
    places: &[u32],
) -> Result<Vec<u32>, AllocError>
    requires { ArePlaces inputs signals places.now }
    ensures turned { IfOk result (λ turned. AreTurned inputs places.now turned.items) }
    ensures one_each { IfOk result (λ turned. length turned.items ≡ signals) }
{
    let mut turned = places_below(alloc, signals)?;
    'places: for k in 0..places.len() {
        turned[inputs + places[k] as usize] = (inputs + k) as u32;
    }
    Ok(turned)
}

// The nets of all signals, by the signals at which they start.
fn nets_by(alloc: Global, starts: &[u32], turned: &[u32]) -> Result<Vec<NetId>, AllocError>
    requires { All (λ s. s < length turned.now) starts.now }
    ensures { IfOk result (λ nets. nets.items
        ≡ map (λ s. record { 0 = start_at turned.now s }) starts.now) }
{
    starts
        .iter()
        .map(|start| NetId(turned[*start as usize]))
        .collect(alloc)
}

// The nets of numbers.
fn nets_at(alloc: Global, numbers: &[u32], nets: &[NetId]) -> Result<Vec<NetId>, AllocError>
    requires { All (λ s. s < length nets.now) numbers.now }
    ensures { IfOk result (λ found. found.items ≡ map (net_at nets.now) numbers.now) }
{
    numbers
        .iter()
        .map(|number| nets[*number as usize])
        .collect(alloc)
}

// The gate at a place with nets in place of names.
fn closed(alloc: Global, graph: &Graph, place: usize, nets: &[NetId]) -> Result<Gate, AllocError>
    requires made { (draft : GateDraft) × IsMadeOf draft graph.now }
    requires count { length nets.now ≡ length graph.now.signals }
    requires within { place < length graph.now.cells.items }
    ensures { IfOk result (λ closed. (draft : GateDraft) (net : List ℕ → ℕ) →
        IsMadeOf draft graph.now → TellNets graph.now.signals nets.now net →
        closed ≡ closed_gate net (gate_at draft.gates place)) }
{
    let pins = nets_at(alloc, graph.rows[place].as_slice(), nets)?;
    Ok(Gate {
        cell: graph.cells[place],
        pins: Nets::from_vec(pins),
        out: nets[graph.inputs + place],
    })
}

// The gates at these places with nets in place of names.
fn closed_gates(
    alloc: Global,
    graph: &Graph,
    places: &[u32],
    nets: &[NetId],
) -> Result<Vec<Gate>, AllocError>
    requires made { (draft : GateDraft) × IsMadeOf draft graph.now }
    requires count { length nets.now ≡ length graph.now.signals }
    requires within { All (λ p. p < length graph.now.cells.items) places.now }
    ensures { IfOk result (λ done. (draft : GateDraft) (net : List ℕ → ℕ) →
        IsMadeOf draft graph.now → TellNets graph.now.signals nets.now net →
        done.items ≡ map (closed_gate net) (gates_at draft.gates places.now)) }
{
    let mut done = Vec::with_capacity(alloc, places.len())?;
    for place in places {
        done.push(closed(alloc, graph, *place as usize, nets)?)?;
    }
    Ok(done)
}

// The nets of all signals, and the gates at these places with nets in place of names.
fn gates_by(
    alloc: Global,
    graph: &Graph,
    starts: &[u32],
    places: &[u32],
) -> Result<(Vec<NetId>, Vec<Gate>), AllocError>
    requires { (draft : GateDraft) × IsPlaced draft graph.now starts.now places.now }
    ensures { IfOk result (λ made.
        AreGatesBy graph.now starts.now places.now made.0.items made.1.items) }
{
    let turned = turned(alloc, graph.inputs, graph.signals.len(), places)?;
    let nets = nets_by(alloc, starts, &turned)?;
    let gates = closed_gates(alloc, graph, places, &nets)?;
    Ok((nets, gates))
}

// The model of a graph, the names of the nets, and the outputs with their nets.
fn named(
    alloc: Global,
    graph: Graph,
    places: &[u32],
    nets: &[NetId],
) -> Result<(Name, Names, PortList), AllocError>
    requires { CanBeNamed graph places.now nets.now }
    ensures { IfOk result (λ named. IsNamed graph places.now nets.now named.0 named.1 named.2) }
{
    let (inputs, signals) = (graph.inputs, graph.signals);
    drop(graph.cells);
    drop(graph.rows);
    let first = graph.first.into_vec();
    let Ok(names) = names_by(alloc, first, signals.names(), inputs, places) else {
        drop(graph.model);
        drop(graph.outputs);
        drop(signals);
        return Err(AllocError);
    };
    let Ok(ports) = ports(alloc, graph.outputs.into_vec(), &signals, nets) else {
        drop(graph.model);
        drop(names);
        drop(signals);
        return Err(AllocError);
    };
    drop(signals);
    Ok((
        graph.model,
        Names::from_vec(names),
        PortList::from_vec(ports),
    ))
}

// The netlist of a graph whose gates stand at these places.
pub(crate) fn placed(
    alloc: Global,
    graph: Graph,
    starts: &[u32],
    places: &[u32],
) -> Result<Netlist, AllocError>
    requires { (draft : GateDraft) × IsPlaced draft graph starts.now places.now }
    ensures { IfOk result (λ n. (draft : GateDraft) → IsPlaced draft graph starts.now places.now →
        n ≡ netlist_in draft (gates_at draft.gates places.now)
        (net_by graph.signals starts.now (names_at draft places.now))) }
{
    let inputs = graph.inputs as u32;
    let Ok((nets, gates)) = gates_by(alloc, &graph, starts, places) else {
        drop(graph);
        return Err(AllocError);
    };
    let Ok((model, names, outputs)) = named(alloc, graph, places, &nets) else {
        drop(nets);
        drop(gates);
        return Err(AllocError);
    };
    drop(nets);
    Ok(Netlist::new(model, names, inputs, Gates::from_vec(gates), outputs))
}
