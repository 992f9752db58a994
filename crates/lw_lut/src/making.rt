// The network of tables for some roots.
ghost use Rattle.std.specs.Prelude.{◌≡◌, ◌<◌, All, IfOk};
ghost use Rattle.lw_lut.specs.Depths.{AreLeastDepths};
ghost use Rattle.lw_lut.specs.Nets.{AreFit, IsTableNetOf};
ghost use Rattle.lw_lut.specs.Searches.{IsKnown};
ghost use Rattle.lw_pool.specs.Numbers.{numbers};

use crate::TablePorts;
use crate::choosing::choose;
use crate::found::Depths;
use crate::lists::Tables;
use crate::naming::names_of;
use crate::net::TableNet;
use crate::placing::places_of;
use lw_graph::Graph;
use lw_pool::{Classes, Name, Names};
use std::alloc::{AllocError, Global};

// The classes of the inputs.
fn inputs_of(alloc: Global, graph: &Graph) -> Result<Classes, AllocError>
    ensures { IfOk result (λ classes. numbers classes ≡ graph.now.leaves) }
{
    let mut classes = Vec::new(alloc);
    for input in 0..graph.inputs() {
        classes.push(graph.leaf(input))?;
    }
    Ok(Classes::from_vec(classes))
}

// A copy of some names.
fn copy_of(alloc: Global, names: &Names) -> Result<Names, AllocError>
    ensures { IfOk result (λ copy. copy ≡ names.now) }
{
    let mut copies = Vec::new(alloc);
    for name in names.as_slice() {
        copies.push(Name::from_slice(alloc, name.as_bytes())?)?;
    }
    Ok(Names::from_vec(copies))
}

// A copy of the ports.
fn copy_ports(alloc: Global, ports: &TablePorts) -> Result<TablePorts, AllocError>
    ensures { IfOk result (λ copy. copy ≡ ports.now) }
{
    Ok(TablePorts {
        model: Name::from_slice(alloc, ports.model.as_bytes())?,
        inputs: copy_of(alloc, &ports.inputs)?,
        outputs: copy_of(alloc, &ports.outputs)?,
        roots: Classes::from_vec(Vec::from_slice(alloc, ports.roots.as_slice())?),
    })
}

/// The network of tables of least depth for some roots of a graph: one table for each needed
/// class that is no input's. The depths are those of the graph and of this number of leaves, and
/// each root has one.
pub fn tables(
    alloc: Global,
    graph: &Graph,
    depths: &Depths,
    leaves: u8,
    ports: &TablePorts,
) -> Result<TableNet, AllocError>
    requires depths { AreLeastDepths graph.now leaves depths.now }
    requires fit { AreFit graph.now ports.now }
    requires known { All (λ root. IsKnown depths.now.depths root.0) ports.now.roots }
    ensures { IfOk result (IsTableNetOf graph.now leaves depths.now.depths ports.now) }
{
    // `leaves` is for the clauses alone.
    let _ = (graph.classes(), leaves);
    let chosen = choose(alloc, depths, ports.roots.as_slice())?;
    let names = names_of(alloc, depths.len(), ports, &chosen)?;
    let inputs = inputs_of(alloc, graph)?;
    let places = places_of(alloc, depths.len(), inputs.as_slice(), &chosen)?;
    Ok(TableNet {
        ports: copy_ports(alloc, ports)?,
        inputs,
        tables: Tables::from_vec(chosen),
        names,
        places,
    })
}
