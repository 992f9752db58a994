// Gates and outputs over the nets of classes.
ghost use Rattle.std.specs.Prelude.{◌≡◌, ◌+◌, ◌<◌, ◌^◌, All, IfOk, Some, length, map};
ghost use Rattle.lw_netlist.specs.declared.gate.Port.{Port as PlainPort};
ghost use Rattle.lw_extract.specs.Gates.{AreGatesOf, HaveNets, IsGateOf};
ghost use Rattle.lw_extract.specs.Nets.{net_in};

use crate::Ports;
use crate::choosing::Chosen;
use lw_netlist::{Gate, Gates, Port, PortList};
use lw_pattern::Patterns;
use lw_pool::{ClassId, Name, NetId, Nets};
use std::alloc::{AllocError, Global};

// The nets of some classes, as `nets` has them by class.
fn nets_of(alloc: Global, nets: &[Option<NetId>], classes: &[ClassId]) -> Result<Nets, AllocError>
    requires { HaveNets nets.now classes.now }
    ensures { IfOk result (λ found. map Some found ≡ map (net_in nets.now) classes.now) }
{
    let mut found = Vec::with_capacity(alloc, classes.len())?;
    for class in classes {
        if let Some(net) = nets[class.0 as usize] {
            found.push(net)?;
        }
    }
    Ok(Nets::from_vec(found))
}

// The gate of a match, which drives the net `out`.
fn gate_of(
    alloc: Global,
    pats: &Patterns,
    nets: &[Option<NetId>],
    out: NetId,
    chosen: &Chosen,
) -> Result<Gate, AllocError>
    requires pattern { chosen.now.found.pat.0 < length pats.now }
    requires nets { HaveNets nets.now chosen.now.found.pins }
    ensures { IfOk result (λ gate. IsGateOf pats.now nets.now out.0 chosen.now gate) }
{
    let cell = pats.get(chosen.found.pat).cell;
    let pins = nets_of(alloc, nets, chosen.found.pins.as_slice())?;
    Ok(Gate { cell, pins, out })
}

// The gates of matches, in order. The j-th drives net `inputs + j`, after the nets of so many
// inputs.
pub(crate) fn gates_of(
    alloc: Global,
    pats: &Patterns,
    nets: &[Option<NetId>],
    inputs: u32,
    chosen: &[Chosen],
) -> Result<Gates, AllocError>
    requires few { inputs + length chosen.now < 2 ^ 32 }
    requires patterns { All (λ x. x.found.pat.0 < length pats.now) chosen.now }
    requires nets { All (λ x. HaveNets nets.now x.found.pins) chosen.now }
    ensures { IfOk result (λ gates. AreGatesOf pats.now nets.now inputs chosen.now gates) }
{
    let mut gates = Vec::with_capacity(alloc, chosen.len())?;
    for (j, x) in chosen.iter().enumerate() {
        let out = NetId(inputs + j as u32);
        gates.push(gate_of(alloc, pats, nets, out, x)?)?;
    }
    Ok(Gates::from_vec(gates))
}

// The outputs with their names, at the nets of their roots.
pub(crate) fn outputs_of(
    alloc: Global,
    nets: &[Option<NetId>],
    ports: &Ports,
) -> Result<PortList, AllocError>
    requires one_root { length ports.now.roots ≡ length ports.now.outputs }
    requires nets { HaveNets nets.now ports.now.roots }
    ensures names { IfOk result (λ outputs. map (λ (port : PlainPort). port.name) outputs
        ≡ ports.now.outputs) }
    ensures nets { IfOk result (λ outputs. map (λ (port : PlainPort). Some port.net) outputs
        ≡ map (net_in nets.now) ports.now.roots) }
{
    let mut outputs = Vec::with_capacity(alloc, ports.outputs.len())?;
    for (k, name) in ports.outputs.as_slice().iter().enumerate() {
        if let Some(net) = nets[ports.roots.get(k).0 as usize] {
            let name = Name::from_slice(alloc, name.as_bytes())?;
            outputs.push(Port { name, net })?;
        }
    }
    Ok(PortList::from_vec(outputs))
}
