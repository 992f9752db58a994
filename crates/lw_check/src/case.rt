// What is checked, and what it is checked against.
use lw_fixed::Micros;
use lw_genlib::Library;
use lw_graph::Graph;
use lw_mapped::Mapped;
use lw_net::Network;
use lw_pattern::Patterns;
use lw_pool::{Classes, Frame};

// A mapped netlist with its frame and certificate, and what it is checked against.
#[derive(Drop)]
pub(crate) struct Case<'a> {
    pub(crate) net: &'a Network,
    pub(crate) frame: &'a Frame,
    pub(crate) starts: &'a Micros,
    pub(crate) lib: &'a Library,
    pub(crate) graph: &'a Graph,
    pub(crate) pats: &'a Patterns,
    // The class of each output in the graph of the network.
    pub(crate) roots: &'a Classes,
    pub(crate) mapped: &'a Mapped,
}
