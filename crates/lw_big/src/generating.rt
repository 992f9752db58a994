// A network of many nodes from a number.
ghost use Rattle.std.specs.Prelude.{◌≡◌, ◌≤◌, IfOk};
ghost use Rattle.lw_net.specs.Plain.{HasRisingDepths};
ghost use Rattle.lw_big.specs.Generated.{most_nodes, drawn_draft, IsGenerated};

use crate::naming::{INPUTS, signal_names};
use crate::nodes::drawn_nodes;
use lw_net::{Draft, NetFault, Network};
use lw_pool::Name;
use std::alloc::{AllocError, Global};

// How many of the last nodes are outputs.
const OUTPUTS: u32 = 16;

// The network as it is written.
fn draft(alloc: Global, seed: u64, n: u32) -> Result<Draft, AllocError>
    requires { n ≤ most_nodes }
    ensures { IfOk result (λ draft. draft ≡ drawn_draft seed n) }
{
    let inner = n.saturating_sub(OUTPUTS);
    Ok(Draft {
        model: Name::from_slice(alloc, b"big")?,
        inputs: signal_names(alloc, 0, INPUTS)?,
        outputs: signal_names(alloc, INPUTS + inner, n - inner)?,
        nodes: drawn_nodes(alloc, seed, n)?,
    })
}

/// The network of n nodes that is drawn from a seed: 16 inputs, nodes of two fan-ins each, which
/// are inputs or earlier nodes, and the last 16 nodes as outputs. The same seed gives the same
/// network.
pub fn generate(alloc: Global, seed: u64, n: u32) -> Result<Network, AllocError>
    requires { n ≤ most_nodes }
    ensures generated { IfOk result (IsGenerated seed n) }
    ensures depths { IfOk result HasRisingDepths }
{
    let draft = draft(alloc, seed, n)?;
    match Network::close(alloc, draft) {
        Ok(network) => Ok(network),
        Err(NetFault::Memory) => Err(AllocError),
        Err(NetFault::Undefined(_)) => unreachable!(),
        Err(NetFault::Cycle(_)) => unreachable!(),
    }
}
