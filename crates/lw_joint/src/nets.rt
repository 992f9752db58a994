// The literals of all nets of a network.
ghost use Rattle.std.specs.Prelude.{◌≡◌, length, IfOk, IfSome, All};
ghost use Rattle.lw_aig.specs.Aigs.{IsBelow};
ghost use Rattle.lw_net.specs.Plain.{plain};
ghost use Rattle.lw_sweep.specs.Sweeps.{IsExtended};
ghost use Rattle.lw_joint.specs.Joint.{HaveNetValues};

use crate::nodes::node_literal;
use lw_aig::Literal;
use lw_net::Network;
use lw_sweep::Sweep;
use std::alloc::{AllocError, Global};

/// The literals of the nets of a network, whose inputs have these literals, or none where there is
/// no room for a node of the graph.
pub fn net_literals(
    sweep: &mut Sweep,
    alloc: Global,
    net: &Network,
    inputs: &[Literal],
) -> Result<Option<Vec<Literal>>, AllocError>
    requires one_each { length inputs.now ≡ net.now.inputs }
    requires within { All (IsBelow (length sweep.old)) inputs.now }
    ensures grows { IsExtended sweep.old sweep.new }
    ensures values { IfOk result (λ lits. IfSome lits (λ found.
        HaveNetValues sweep.new (plain net.now) inputs.now found.items)) }
    ensures whole { IfOk result (λ lits. IfSome lits (λ found.
        length found.items ≡ length net.now.names)) }
{
    let mut literals = Vec::new(alloc);
    literals.extend_from_slice(inputs)?;
    'nodes: for node in net.nodes() {
        let Some(literal) = node_literal(sweep, alloc, node, &literals)? else {
            return Ok(None);
        };
        literals.push(literal)?;
    }
    Ok(Some(literals))
}
