// What a netlist is extracted from.
use crate::Ports;
use lw_cost::Mark;
use lw_genlib::Library;
use lw_graph::Graph;
use lw_pattern::Patterns;

/// What a cover is made from: the labels of a graph's classes by patterns of a library's cells, and
/// the ports of the netlist.
#[derive(Drop)]
pub(crate) struct Job<'a, C> {
    pub(crate) graph: &'a Graph,
    pub(crate) pats: &'a Patterns,
    pub(crate) lib: &'a Library,
    pub(crate) cost: &'a C,
    pub(crate) marks: &'a [Option<Mark>],
    pub(crate) ports: &'a Ports,
}
