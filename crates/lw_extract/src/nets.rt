// The nets of classes.
ghost use Rattle.std.specs.Prelude.{◌≡◌, ◌+◌, ◌<◌, ◌^◌, All, IfOk, length};
ghost use Rattle.lw_extract.specs.Choosing.{chosen_classes};
ghost use Rattle.lw_extract.specs.Nets.{AreInputNets, AreClassNets};

use crate::choosing::Chosen;
use lw_graph::Graph;
use lw_pool::NetId;
use std::alloc::{AllocError, Global};

// A net or none for each class: net i for the class of input i, and none for the others.
pub(crate) fn input_nets(alloc: Global, graph: &Graph) -> Result<Vec<Option<NetId>>, AllocError>
    ensures { IfOk result (λ nets. AreInputNets graph.now nets.items) }
{
    let mut nets = vec![in alloc; None; graph.classes() as usize]?;
    for input in 0..graph.inputs() {
        nets[graph.leaf(input).0 as usize] = Some(NetId(input));
    }
    Ok(nets)
}

// Gives the class of the j-th match net `inputs + j`, after the nets of the inputs.
pub(crate) fn add_gates(nets: &mut [Option<NetId>], inputs: u32, chosen: &[Chosen])
    requires few { inputs + length chosen.now < 2 ^ 32 }
    requires in_range { All (λ x. x.class.0 < length nets.old) chosen.now }
    ensures { (g : _) → length g.leaves ≡ inputs → AreInputNets g nets.old →
        AreClassNets g (chosen_classes chosen.now) nets.new }
{
    for (j, gate) in chosen.iter().enumerate() {
        nets[gate.class.0 as usize] = Some(NetId(inputs + j as u32));
    }
}
