// The netlist of the gates that a walk has found.
ghost use Rattle.std.specs.Prelude.{◌≡◌, ◌+◌, ◌<◌, ◌≤◌, All, IfOk, length, map};
ghost use Rattle.std.specs.List.{range_with_len};
ghost use Rattle.std.specs.List.Sorted.{IsPermutation};
ghost use Rattle.lw_dag.specs.Graphs.{IsGraph, fanins_at, most_signals};
ghost use Rattle.lw_laws.specs.Names.{net_names};
ghost use Rattle.lw_trade.specs.Placed.{ArePlaces, ArePortsIn, FitPlaces, FitWalk, HasNet};
ghost use Rattle.lw_trade.specs.Placed.{HaveHeights, IsByHeight, MayBeNamed, gate_in, net_in};
ghost use Rattle.lw_trade.specs.Traded.{port_net};
ghost use Rattle.lw_trade.specs.Assembly.{AssemblesTo, MayAssemble};
ghost use Rattle.lw_pool.specs.Numbers.{numbers};

use lw_backtrace::{Targets, Walk};
use lw_dag::{find_levels, in_order};
use lw_naming::net_names;
use lw_netlist::{Gate, Gates, Netlist, Port, PortList};
use lw_pool::{ClassId, Name, Names, NetId, Nets, Numbers};
use std::alloc::{AllocError, Global};

/// The gates of a walk after so many inputs, and for each gate its place in the netlist.
#[derive(Drop)]
pub(crate) struct Placing<'a> {
    pub inputs: u32,
    pub places: &'a [u32],
    pub walk: &'a Walk,
}

/// The netlist of the gates that a walk has found, by depth, with the names of `targets`.
pub(crate) fn assemble(
    alloc: Global,
    inputs: u32,
    walk: &Walk,
    targets: &Targets,
) -> Result<Netlist, AllocError>
    requires walk { MayAssemble inputs walk.now targets.now }
    ensures { IfOk result (AssemblesTo inputs walk.now targets.now) }
{
    let order = by_depth(alloc, inputs as usize, &walk.pins)?;
    let places = places_in(alloc, &order)?;
    let at = Placing {
        inputs,
        places: &places,
        walk,
    };
    let gates = gates_of(alloc, &at, &order)?;
    let outputs = outputs(alloc, &at, targets.outputs.as_slice(), &walk.nets)?;
    let names = names_of(alloc, inputs, targets, &outputs, order.len())?;
    let model = Name::from_slice(alloc, targets.model.as_bytes())?;
    let gates = Gates::from_vec(gates);
    let outputs = PortList::from_vec(outputs);
    Ok(Netlist::new(model, names, inputs, gates, outputs))
}

// The gates by depth, and at one depth in the order in which they were found. `pins` has the nets
// of the pins of each.
fn by_depth(alloc: Global, inputs: usize, pins: &[Numbers]) -> Result<Vec<u32>, AllocError>
    requires graph { IsGraph inputs pins.now }
    requires few { inputs + length pins.now ≤ most_signals }
    requires high { HaveHeights inputs pins.now }
    ensures { IfOk result (λ order. IsByHeight inputs pins.now order.items) }
{
    let levels = find_levels(alloc, inputs, pins)?;
    let mut gates = Vec::with_capacity(alloc, pins.len())?;
    for gate in 0..pins.len() {
        gates.push(gate as u32)?;
    }
    in_order(alloc, gates, &levels.heights[inputs..])
}

// The place of each gate in an order.
fn places_in(alloc: Global, order: &[u32]) -> Result<Vec<u32>, AllocError>
    requires few { length order.now ≤ most_signals }
    requires moved { IsPermutation (range_with_len 0 (length order.now)) order.now }
    ensures { IfOk result (λ places. ArePlaces order.now places.items) }
{
    let mut places = vec![in alloc; 0; order.len()]?;
    for place in 0..order.len() {
        places[order[place] as usize] = place as u32;
    }
    Ok(places)
}

// The net of the netlist that a net of the walk is: an input's stays, and a gate's goes to the
// place of the gate.
fn net_at(at: &Placing, net: u32) -> NetId
    requires fit { FitPlaces at.now.inputs at.now.places.now }
    requires net { HasNet at.now net }
    ensures { result.0 ≡ net_in at.now net }
{
    if net < at.inputs {
        return NetId(net);
    }
    NetId(at.inputs + at.places[(net - at.inputs) as usize])
}

// The gate of the netlist that the gate of the walk with this number is.
fn gate_of(alloc: Global, at: &Placing, gate: u32) -> Result<Gate, AllocError>
    requires fit { FitWalk at.now.inputs at.now.places.now at.now.walk.now }
    requires gate { gate < length at.now.places.now }
    requires pins { All (HasNet at.now) (fanins_at at.now.walk.now.pins.items gate) }
    ensures { IfOk result (λ g. g ≡ gate_in at.now gate) }
{
    let row = at.walk.pins[gate as usize].as_slice();
    let mut nets = Vec::with_capacity(alloc, row.len())?;
    for pin in row {
        nets.push(net_at(at, *pin))?;
    }
    Ok(Gate {
        cell: at.walk.cells[gate as usize],
        pins: Nets::from_vec(nets),
        out: net_at(at, at.inputs + gate),
    })
}

// The gates of the netlist, from the gates of the walk in this order.
fn gates_of(alloc: Global, at: &Placing, order: &[u32]) -> Result<Vec<Gate>, AllocError>
    requires fit { FitWalk at.now.inputs at.now.places.now at.now.walk.now }
    requires order { All (λ j. j < length at.now.places.now) order.now }
    requires pins { IsGraph at.now.inputs at.now.walk.now.pins.items }
    ensures { IfOk result (λ gates. gates.items ≡ map (gate_in at.now) order.now) }
{
    let mut gates = Vec::with_capacity(alloc, order.len())?;
    for gate in order {
        gates.push(gate_of(alloc, at, *gate)?)?;
    }
    Ok(gates)
}

// The outputs with these names at these nets of the walk.
fn outputs(
    alloc: Global,
    at: &Placing,
    names: &[Name],
    nets: &[u32],
) -> Result<Vec<Port>, AllocError>
    requires fit { FitPlaces at.now.inputs at.now.places.now }
    requires nets { All (HasNet at.now) nets.now }
    requires one_each { length nets.now ≡ length names.now }
    ensures { IfOk result (λ ports. ArePortsIn at.now names.now nets.now ports.items) }
{
    let mut outputs = Vec::with_capacity(alloc, names.len())?;
    for k in 0..names.len() {
        let name = Name::from_slice(alloc, names[k].as_bytes())?;
        let net = net_at(at, nets[k]);
        outputs.push(Port { name, net })?;
    }
    Ok(outputs)
}

// The nets of the outputs as classes, since `net_names` names gates by the outputs of their
// classes.
fn classes_of_outputs(alloc: Global, outputs: &[Port]) -> Result<Vec<ClassId>, AllocError>
    ensures { IfOk result (λ classes. numbers classes.items ≡ map port_net outputs.now) }
{
    let mut classes = Vec::with_capacity(alloc, outputs.len())?;
    for port in outputs {
        classes.push(ClassId(port.net.0))?;
    }
    Ok(classes)
}

// The nets that so many gates drive after the inputs, as classes of their own.
fn classes_of_gates(alloc: Global, inputs: u32, gates: usize) -> Result<Vec<ClassId>, AllocError>
    requires { inputs + gates ≤ most_signals }
    ensures { IfOk result (λ classes. numbers classes.items ≡ range_with_len inputs gates) }
{
    let mut classes = Vec::with_capacity(alloc, gates)?;
    for gate in 0..gates {
        classes.push(ClassId(inputs + gate as u32))?;
    }
    Ok(classes)
}

// The names of the inputs, and of the nets that so many gates drive: of an output, or a free one.
fn names_of(
    alloc: Global,
    inputs: u32,
    targets: &Targets,
    outputs: &[Port],
    gates: usize,
) -> Result<Names, AllocError>
    requires { MayBeNamed targets.now inputs gates outputs.now }
    ensures { IfOk result (λ names. names ≡ net_names targets.now.inputs targets.now.outputs
        (map port_net outputs.now) (range_with_len inputs gates)) }
{
    let roots = classes_of_outputs(alloc, outputs)?;
    let own = classes_of_gates(alloc, inputs, gates)?;
    let nets = inputs as usize + gates;
    net_names(alloc, &targets.inputs, &targets.outputs, &roots, nets, &own)
}
