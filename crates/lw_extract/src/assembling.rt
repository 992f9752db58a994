// The netlist of a list of matches.
ghost use Rattle.std.specs.Prelude.{◌≡◌, ◌<◌, All, IfOk, length};
ghost use Rattle.lw_pool.specs.Numbers.{numbers};
ghost use Rattle.lw_laws.specs.Names.{net_names};
ghost use Rattle.lw_extract.specs.Assembling.{CanAssemble, IsAssembled};
ghost use Rattle.lw_extract.specs.Choosing.{chosen_classes};
ghost use Rattle.lw_extract.specs.Covers.{AreFit};
ghost use Rattle.lw_extract.specs.Nets.{AreClassNets};

use crate::choosing::Chosen;
use crate::gates::{gates_of, outputs_of};
use crate::nets::{add_gates, input_nets};
use crate::{Cover, Ports};
use lw_graph::Graph;
use lw_naming::net_names;
use lw_netlist::Netlist;
use lw_pattern::Patterns;
use lw_pool::{ClassId, Classes, Name, Names, NetId};
use std::alloc::{AllocError, Global};

// The classes of the gates, in the order of a list of matches.
fn classes_of(alloc: Global, chosen: &[Chosen]) -> Result<Classes, AllocError>
    ensures { IfOk result (λ classes. numbers classes ≡ chosen_classes chosen.now) }
{
    let mut classes = Vec::with_capacity(alloc, chosen.len())?;
    for x in chosen {
        classes.push(x.class)?;
    }
    Ok(Classes::from_vec(classes))
}

// The names of all nets: of the inputs, and of the gates of these classes. A gate has the name of
// the first output of its class, and else a free one.
fn names_of(
    alloc: Global,
    graph: &Graph,
    ports: &Ports,
    gates: &[ClassId],
) -> Result<Names, AllocError>
    requires fit { AreFit graph.now ports.now }
    requires gates { All (λ gate. gate.0 < length graph.now.pairs) gates.now }
    ensures { IfOk result (λ names. names ≡ net_names ports.now.inputs ports.now.outputs
        (numbers ports.now.roots) (numbers gates.now)) }
{
    let classes = graph.classes() as usize;
    let (inputs, outputs, roots) = (&ports.inputs, &ports.outputs, ports.roots.as_slice());
    net_names(alloc, inputs, outputs, roots, classes, gates)
}

// The netlist of a list of matches. `nets` has the net of the class of each input and match, and
// none for other classes.
pub(crate) fn assemble_over(
    alloc: Global,
    graph: &Graph,
    pats: &Patterns,
    ports: &Ports,
    nets: &[Option<NetId>],
    chosen: &[Chosen],
) -> Result<Cover, AllocError>
    requires can { CanAssemble graph.now pats.now ports.now chosen.now }
    requires nets { AreClassNets graph.now (chosen_classes chosen.now) nets.now }
    ensures { IfOk result (IsAssembled graph.now pats.now ports.now chosen.now) }
{
    let inputs = graph.inputs();
    let gates = gates_of(alloc, pats, nets, inputs, chosen)?;
    let outputs = outputs_of(alloc, nets, ports)?;
    let classes = classes_of(alloc, chosen)?;
    let names = names_of(alloc, graph, ports, classes.as_slice())?;
    let model = Name::from_slice(alloc, ports.model.as_bytes())?;
    Ok(Cover {
        netlist: Netlist::new(model, names, inputs, gates, outputs),
        classes,
    })
}

/// The netlist that a list of matches makes, a gate for each in their order. Each match is one at
/// its class by some numbers of pins of the cells, and each pin is an input's class or stands
/// earlier in the list. No class stands twice or is an input's, and each output's class is an
/// input's or stands in the list.
pub fn assemble(
    alloc: Global,
    graph: &Graph,
    pats: &Patterns,
    ports: &Ports,
    chosen: &[Chosen],
) -> Result<Cover, AllocError>
    requires { CanAssemble graph.now pats.now ports.now chosen.now }
    ensures { IfOk result (IsAssembled graph.now pats.now ports.now chosen.now) }
{
    let mut nets = input_nets(alloc, graph)?;
    add_gates(&mut nets, graph.inputs(), chosen);
    assemble_over(alloc, graph, pats, ports, &nets, chosen)
}
