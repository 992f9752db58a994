// Networks that are joined over the inputs of one of them.
ghost use Rattle.std.specs.Prelude.{◌≡◌, ◌++◌, map, All, IfOk, OnOk};
ghost use Rattle.lw_net.specs.Unions.{CanPlace, CanPlaceNode, placed_in, placed_node_in};

use crate::{Cube, Cubes, Network, Node};
use lw_pool::{Name, NetId, Nets};
use std::alloc::{AllocError, Global};

/// Where the nets of a network stand that is joined to another: input i is the net at place i, and
/// the nets of its nodes stand from `first` on.
#[derive(Clone, Copy)]
pub(crate) struct Place<'a> {
    pub(crate) inputs: u32,
    pub(crate) first: u32,
    pub(crate) places: &'a [u32],
}

impl Place<'_> {
    // The net of the union.
    fn net(&self, net: NetId) -> NetId
        requires { CanPlace self.now net }
        ensures { result ≡ placed_in self.now net }
    {
        if net.0 < self.inputs {
            return NetId(self.places[net.0 as usize]);
        }
        NetId(self.first + (net.0 - self.inputs))
    }

    // The nets of the union.
    fn nets(&self, alloc: Global, nets: &[NetId]) -> Result<Nets, AllocError>
        requires { All (CanPlace self.now) nets.now }
        ensures { IfOk result (λ placed. placed ≡ map (placed_in self.now) nets.now) }
    {
        let mut placed = Vec::with_capacity(alloc, nets.len())?;
        for net in nets {
            placed.push(self.net(*net))?;
        }
        Ok(Nets::from_vec(placed))
    }

    // The node of the union.
    fn node(&self, alloc: Global, node: &Node) -> Result<Node, AllocError>
        requires { CanPlaceNode self.now node.now }
        ensures { IfOk result (λ placed. placed ≡ placed_node_in self.now node.now) }
    {
        let fanins = self.nets(alloc, node.fanins.as_slice())?;
        Ok(Node {
            out: self.net(node.out),
            fanins,
            rows: copied_rows(alloc, node.rows.as_slice())?,
            on: node.on,
        })
    }
}

// Copies of some rows.
fn copied_rows(alloc: Global, rows: &[Cube]) -> Result<Cubes, AllocError>
    ensures { IfOk result (λ copies. copies ≡ rows.now) }
{
    let mut copies = Vec::with_capacity(alloc, rows.len())?;
    for row in rows {
        copies.push(Cube::from_slice(alloc, row.as_slice())?)?;
    }
    Ok(Cubes::from_vec(copies))
}

/// Adds the nodes of a network that is joined.
pub(crate) fn add_nodes(
    alloc: Global,
    nodes: &mut Vec<Node>,
    place: &Place,
    others: &[Node],
) -> Result<(), AllocError>
    requires { All (CanPlaceNode place.now) others.now }
    ensures { OnOk result (nodes.new.items
        ≡ nodes.old.items ++ map (placed_node_in place.now) others.now) }
{
    nodes.reserve(others.len())?;
    for node in others {
        nodes.push(place.node(alloc, node)?)?;
    }
    Ok(())
}

/// Adds copies of some names.
pub(crate) fn add_names(
    alloc: Global,
    names: &mut Vec<Name>,
    others: &[Name],
) -> Result<(), AllocError>
    ensures { OnOk result (names.new.items ≡ names.old.items ++ others.now) }
{
    names.reserve(others.len())?;
    for name in others {
        names.push(Name::from_slice(alloc, name.as_bytes())?)?;
    }
    Ok(())
}
