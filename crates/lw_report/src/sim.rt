// Simulation.
ghost use Rattle.std.specs.Prelude.{◌≡◌, ◌≤◌, length, take, All, IfOk};
ghost use Rattle.lw_netlist.specs.Plain.{IsOver};
ghost use Rattle.lw_report.specs.Blocks.{IsBlock, block_vectors, vectors_in};
ghost use Rattle.lw_report.specs.Made.{CanSimulate, places_of};
ghost use Rattle.lw_report.specs.Mapped.{HasWords, IsMappedLine};
ghost use Rattle.lw_report.specs.Writes.{WritesLines};
ghost use Rattle.lw_report.specs.Simulated.{IsNetworkLine, IsNetworkSimulation};
ghost use Rattle.lw_report.specs.Simulated.{IsNetlistSimulation};
ghost use Rattle.lw_report.specs.Texts.{WritesValues};

use crate::Vectors;
use crate::block::Block;
use crate::gates::fill_gates;
use crate::mapped::Mapped;
use crate::nodes::fill_nodes;
use crate::outputs::{put_net_lines, put_port_lines};
use lw_genlib::Library;
use lw_io::{Failed, Sink, Writer};
use lw_net::Network;
use lw_netlist::Netlist;
use std::alloc::{AllocError, Global};

/// Simulates a network or a netlist, 64 vectors at a time: bit k of the word of a net is its value
/// in vector k.
#[derive(Drop)]
pub struct Sim {
    nets: Vec<u64>,
}

impl Sim {
    /// A simulator of a network: it has a place for each of its nets.
    pub fn of_network(alloc: Global, net: &Network) -> Result<Self, AllocError>
        ensures { IfOk result (λ sim. places_of sim ≡ length net.now.names) }
    {
        let nets = vec![in alloc; 0; net.names().len()]?;
        Ok(Sim { nets })
    }

    /// A simulator of a netlist: it has a place for each of its nets.
    pub fn of_netlist(alloc: Global, netlist: &Netlist) -> Result<Self, AllocError>
        ensures { IfOk result (λ sim. places_of sim ≡ length netlist.now.names) }
    {
        let nets = vec![in alloc; 0; netlist.names().len()]?;
        Ok(Sim { nets })
    }

    /// Writes the values of the network's outputs, a line for each vector. It takes no memory.
    pub fn network<S: Sink>(
        &mut self,
        net: &Network,
        vectors: &Vectors,
        sink: &mut S,
    ) -> Result<(), Failed>
        requires { CanSimulate self.old vectors.now (length net.now.names) net.now.inputs }
        ensures values { WritesValues (IsNetworkSimulation net.now) vectors.now (S.taken sink.old)
            (S.faults sink.old) (S.taken sink.new) (S.faults sink.new) result }
        ensures made { places_of self.new ≡ places_of self.old }
    {
        let mut out = Writer::new(sink);
        put_network(&mut out, net, vectors.blocks(), &mut self.nets);
        out.end()
    }

    /// Writes the values of the netlist's outputs, a line for each vector. It takes no memory.
    pub fn netlist<S: Sink>(
        &mut self,
        netlist: &Netlist,
        lib: &Library,
        vectors: &Vectors,
        sink: &mut S,
    ) -> Result<(), Failed>
        requires over { IsOver lib.now netlist.now }
        requires fits { CanSimulate self.old vectors.now (length netlist.now.names)
            netlist.now.inputs }
        ensures values { WritesValues (IsNetlistSimulation lib.now netlist.now) vectors.now
            (S.taken sink.old) (S.faults sink.old) (S.taken sink.new) (S.faults sink.new) result }
        ensures made { places_of self.new ≡ places_of self.old }
    {
        let mut out = Writer::new(sink);
        let of = Mapped { netlist, lib };
        put_netlist(&mut out, &of, vectors.blocks(), &mut self.nets);
        out.end()
    }
}

// Copies the words of inputs to the front.
fn copy_front(words: &[u64], nets: &mut [u64])
    requires { length words.now ≤ length nets.old }
    ensures { take (length words.now) nets.new ≡ words.now }
{
    nets[..words.len()].copy_from_slice(words);
}

// The lines of a block of vectors.
fn put_net_block<S: Sink>(out: &mut Writer<'_, S>, net: &Network, block: &Block, nets: &mut [u64])
    requires made { length nets.old ≡ length net.now.names }
    requires block { IsBlock net.now.inputs block.now }
    ensures { WritesLines (IsNetworkLine net.now) (block_vectors block.now) S.taken S.faults
        out.old out.new }
{
    let nodes = net.nodes();
    copy_front(&block.words, nets);
    fill_nodes(nodes, block.words.len(), nets);
    put_net_lines(out, net.outputs(), nets, block.count);
}

// The lines of blocks of vectors.
fn put_network<S: Sink>(out: &mut Writer<'_, S>, net: &Network, blocks: &[Block], nets: &mut [u64])
    requires made { length nets.old ≡ length net.now.names }
    requires blocks { All (IsBlock net.now.inputs) blocks.now }
    ensures { WritesLines (IsNetworkLine net.now) (vectors_in blocks.now) S.taken S.faults
        out.old out.new }
{
    for block in blocks {
        put_net_block(out, net, block, nets);
    }
}

// The lines of a block of vectors.
fn put_netlist_block<S: Sink>(out: &mut Writer<'_, S>, of: &Mapped, block: &Block, nets: &mut [u64])
    requires words { HasWords of.now nets.old }
    requires block { IsBlock of.now.netlist.now.inputs block.now }
    ensures { WritesLines (IsMappedLine of.now) (block_vectors block.now) S.taken S.faults
        out.old out.new }
{
    let gates = of.netlist.gates();
    copy_front(&block.words, nets);
    fill_gates(gates, of.lib, block.words.len(), nets);
    put_port_lines(out, of.netlist.outputs(), nets, block.count);
}

// The lines of blocks of vectors.
fn put_netlist<S: Sink>(out: &mut Writer<'_, S>, of: &Mapped, blocks: &[Block], nets: &mut [u64])
    requires words { HasWords of.now nets.old }
    requires blocks { All (IsBlock of.now.netlist.now.inputs) blocks.now }
    ensures { WritesLines (IsMappedLine of.now) (vectors_in blocks.now) S.taken S.faults
        out.old out.new }
{
    for block in blocks {
        put_netlist_block(out, of, block, nets);
    }
}
