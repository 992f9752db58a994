// The literals of nodes.
ghost use Rattle.std.specs.Prelude.{◌≡◌, ◌<◌, length, IfOk, IfSome, All};
ghost use Rattle.lw_aig.specs.Aigs.{IsBelow};
ghost use Rattle.lw_laws.specs.Networks.{node_value};
ghost use Rattle.lw_net.specs.Plain.{plain_node};
ghost use Rattle.lw_sweep.specs.Sweeps.{IsExtended};
ghost use Rattle.lw_joint.specs.Joint.{Computes};

use crate::rows::sum;
use lw_aig::Literal;
use lw_net::Node;
use lw_sweep::Sweep;
use std::alloc::{AllocError, Global};

// The literal of a node, or none where there is no room for a node of the graph.
pub(crate) fn node_literal(
    sweep: &mut Sweep,
    alloc: Global,
    node: &Node,
    literals: &[Literal],
) -> Result<Option<Literal>, AllocError>
    requires columns { All (λ row. length row ≡ length node.now.fanins) node.now.rows }
    requires known { All (λ net. net.0 < length literals.now) node.now.fanins }
    requires within { All (IsBelow (length sweep.old)) literals.now }
    ensures grows { IsExtended sweep.old sweep.new }
    ensures literal { IfOk result (λ l. IfSome l (Computes sweep.new literals.now
        (λ values. node_value values (plain_node node.now)))) }
{
    let rows = node.rows.as_slice();
    let fanins = node.fanins.as_slice();
    let Some(some) = sum(sweep, alloc, rows, fanins, literals)? else {
        return Ok(None);
    };
    if node.on {
        return Ok(Some(some));
    }
    Ok(Some(some.flip()))
}
