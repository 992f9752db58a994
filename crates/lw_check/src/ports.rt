// Whether a netlist has the ports of a network, and its frame.
ghost use Rattle.std.specs.Prelude.{◌≡◌, ◌↔◌, ◌<◌, IsTrue, All, length, map};
ghost use Rattle.lw_pool.specs.declared.id.NetId.{NetId};
ghost use Rattle.lw_net.specs.Networks.{name_in};
ghost use Rattle.lw_check.specs.Cases.{claim_of};
ghost use Rattle.lw_check.specs.Claims.{HasSamePorts};
ghost use Rattle.lw_netlist.specs.Plain.{port_name};

use crate::case::Case;
use lw_net::Network;
use lw_netlist::Port;
use lw_pool::{Frame, Latch, Name, NetId};

// Whether the names of two lists are the same, in order.
fn are_same_names(left: &[Name], right: &[Name]) -> bool
    ensures { IsTrue result ↔ (left.now ≡ right.now) }
{
    left == right
}

// Whether outputs of a netlist have the names of these nets of a network, in order.
fn have_names(ports: &[Port], net: &Network, outputs: &[NetId]) -> bool
    requires { All (λ output. output.0 < length net.now.names) outputs.now }
    ensures { IsTrue result ↔ (map port_name ports.now ≡ map (name_in net.now) outputs.now) }
{
    if ports.len() != outputs.len() {
        return false;
    }
    for (k, port) in ports.iter().enumerate() {
        if port.name.as_bytes() != net.names()[outputs[k].0 as usize].as_bytes() {
            return false;
        }
    }
    true
}

// Whether two latches are the same.
fn is_same_latch(left: &Latch, right: &Latch) -> bool
    ensures { IsTrue result ↔ (left.now ≡ right.now) }
{
    left.input.as_bytes() == right.input.as_bytes()
        && left.output.as_bytes() == right.output.as_bytes()
        && are_same_names(left.rest.as_slice(), right.rest.as_slice())
}

// Whether the latches of two lists are the same, in order.
fn are_same_latches(left: &[Latch], right: &[Latch]) -> bool
    ensures { IsTrue result ↔ (left.now ≡ right.now) }
{
    if left.len() != right.len() {
        return false;
    }
    for (k, latch) in left.iter().enumerate() {
        if !is_same_latch(latch, &right[k]) {
            return false;
        }
    }
    true
}

// Whether two frames are the same.
fn is_same_frame(left: &Frame, right: &Frame) -> bool
    ensures { IsTrue result ↔ (left.now ≡ right.now) }
{
    left.inputs == right.inputs
        && left.outputs == right.outputs
        && are_same_latches(left.latches.as_slice(), right.latches.as_slice())
}

// The first test: whether the netlist has the network's inputs, outputs and frame.
pub(crate) fn has_same_ports(case: &Case) -> bool
    ensures { IsTrue result ↔ HasSamePorts (claim_of case.now) }
{
    let net = case.net;
    let netlist = &case.mapped.netlist;
    let inputs = &net.names()[..net.inputs() as usize];
    let mapped_inputs = &netlist.names()[..netlist.inputs() as usize];
    are_same_names(mapped_inputs, inputs)
        && have_names(netlist.outputs(), net, net.outputs())
        && is_same_frame(&case.mapped.frame, case.frame)
}
