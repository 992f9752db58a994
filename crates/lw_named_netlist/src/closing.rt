// Drafts that are closed to netlists.
ghost use Rattle.std.specs.Prelude.{◌≡◌, ◌<◌, ◌++◌, ℕ, List, length, map, All, Contains, IfOk};
ghost use Rattle.std.specs.Prelude.{MatchResult};
ghost use Rattle.std.specs.List.{flat_map};
ghost use Rattle.lw_dag.specs.Names.{number_in};
ghost use Rattle.lw_named_netlist.specs.declared.draft.GateDraft.{GateDraft};
ghost use Rattle.lw_named_netlist.specs.Closing.{HasFault, links, needs_of, port_at};
ghost use Rattle.lw_named_netlist.specs.Numbered.{FindsDriven, numbered};
ghost use Rattle.lw_named_netlist.specs.Ordering.{AreRight, TellNets};
ghost use Rattle.lw_named_netlist.specs.Placing.{AreLinksOf, IsMadeOf, cell_of};

use crate::graph::Graph;
use crate::levels::{Starts, find_starts};
use crate::naming::{driven, numbers, numbers_of, rows};
use crate::signals::Signals;
use crate::{GateDraft, NetlistFault, SpelledGate};
use lw_dag::{find_levels, first_on_cycle};
use lw_netlist::Port;
use lw_pool::{CellId, Name, NetId, Numbers};
use std::alloc::{AllocError, Global};

// The cells of gates.
fn cells_of(alloc: Global, gates: &[SpelledGate]) -> Result<Vec<CellId>, AllocError>
    ensures { IfOk result (λ cells. cells.items ≡ map cell_of gates.now) }
{
    gates.iter().map(|gate| gate.cell()).collect(alloc)
}

// What is made of the names of a draft: those that are driven, the numbers of what each gate and
// then each wire hangs on among them, and the cells of the gates.
#[derive(Drop)]
struct Links {
    cells: Vec<CellId>,
    signals: Signals,
    rows: Vec<Numbers>,
}

// The numbers of what each gate and then each wire of a draft hangs on, or the first name that
// nothing drives, by pins, sources of wires and then outputs.
fn linked(alloc: Global, draft: &GateDraft, signals: &Signals) -> Result<Vec<Numbers>, NetlistFault>
    ensures { FindsDriven signals.now
        (flat_map needs_of (links draft.now) ++ draft.now.outputs) result
        (λ rows. rows.items ≡ numbered signals.now (links draft.now)) }
{
    let rows = rows(
        alloc,
        draft.gates.as_slice(),
        draft.wires.as_slice(),
        signals,
    )?;
    // The numbers are not needed here, but the first output that nothing drives is a fault.
    let _outputs = numbers_of(alloc, draft.outputs.as_slice(), signals)?;
    Ok(rows)
}

// The links of a draft, or the first name that is driven twice, or else the first that nothing
// drives.
fn links_of(alloc: Global, draft: &GateDraft) -> Result<Links, NetlistFault>
    ensures { MatchResult result (AreLinksOf draft.now) (HasFault draft.now) }
{
    let names = driven(alloc, draft)?;
    let signals = numbers(alloc, names)?;
    let Ok(cells) = cells_of(alloc, draft.gates.as_slice()) else {
        drop(signals);
        return Err(NetlistFault::Memory);
    };
    match linked(alloc, draft, &signals) {
        Ok(rows) => Ok(Links {
            cells,
            signals,
            rows,
        }),
        Err(fault) => {
            drop(cells);
            drop(signals);
            Err(fault)
        }
    }
}

// The graph of a draft, or the first name that is driven twice, or else the first that nothing
// drives. The names of pins are let go one by one.
pub(crate) fn graph_of(alloc: Global, draft: GateDraft) -> Result<Graph, NetlistFault>
    ensures { MatchResult result (IsMadeOf draft) (HasFault draft) }
{
    let links = links_of(alloc, &draft)?;
    let GateDraft {
        model,
        inputs,
        outputs,
        gates,
        wires,
    } = draft;
    drop(gates);
    drop(wires);
    Ok(Graph {
        model,
        inputs: inputs.len(),
        first: inputs,
        outputs,
        cells: links.cells,
        signals: links.signals,
        rows: links.rows,
    })
}

// The depths and the starts of names, or the first gate or wire on a cycle.
pub(crate) fn starts_of(alloc: Global, graph: &Graph) -> Result<Starts, NetlistFault>
    requires { (draft : GateDraft) × IsMadeOf draft graph.now }
    ensures { (draft : GateDraft) → IsMadeOf draft graph.now → MatchResult result
        (λ found. AreRight draft found.depths.items found.starts.items) (HasFault draft) }
{
    let inputs = graph.inputs;
    let levels = find_levels(alloc, inputs, &graph.rows)?;
    let first = first_on_cycle(alloc, inputs, &graph.rows, &levels.heights)?;
    if let Some(place) = first {
        let name = graph.signals.names().get(inputs + place);
        let name = Name::from_slice(alloc, name)?;
        return Err(NetlistFault::Cycle(name));
    }
    let found = find_starts(alloc, inputs, graph.cells.len(), &graph.rows, &levels)?;
    Ok(found)
}

// The number of a name.
fn place_of(names: &Signals, name: &Name) -> usize
    requires { Contains names.now name.now }
    ensures number { result ≡ number_in names.now name.now }
    ensures within { result < length names.now }
{
    match names.find(name.as_bytes()) {
        Some(place) => place,
        None => 0,
    }
}

// An output with its net.
fn port(signals: &Signals, name: Name, nets: &[NetId]) -> Port
    requires count { length nets.now ≡ length signals.now }
    requires known { Contains signals.now name }
    ensures { (net : List ℕ → ℕ) → TellNets signals.now nets.now net →
        result ≡ port_at net name }
{
    let _ = signals.len();
    let net = nets[place_of(signals, &name)];
    Port { name, net }
}

// The outputs with their nets.
pub(crate) fn ports(
    alloc: Global,
    names: Vec<Name>,
    signals: &Signals,
    nets: &[NetId],
) -> Result<Vec<Port>, AllocError>
    requires count { length nets.now ≡ length signals.now }
    requires known { All (Contains signals.now) names.items }
    ensures { IfOk result (λ ports. (net : List ℕ → ℕ) → TellNets signals.now nets.now net →
        ports.items ≡ map (port_at net) names.items) }
{
    let mut done = Vec::with_capacity(alloc, names.len())?;
    let mut left = names.into_iter();
    'names: while let Some(name) = left.next() {
        done.push(port(signals, name, nets))?;
    }
    Ok(done)
}
