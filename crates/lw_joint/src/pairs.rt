// Networks over shared inputs, and comparisons of their nets.
ghost use Rattle.std.specs.Prelude.{◌≡◌, ◌<◌, ◌^◌, length, map, IfOk, IfSome, All};
ghost use Rattle.lw_aig.specs.Aigs.{IsAig, IsBelow};
ghost use Rattle.lw_sweep.specs.Sweeps.{IsExtended};
ghost use Rattle.lw_joint.specs.Pairs.{HasInputs, IsPlaced, TellsNets, input_literal};

use crate::nets::net_literals;
use lw_aig::{Gate, Literal};
use lw_net::Network;
use lw_pool::NetId;
use lw_search::Found;
use lw_sweep::Sweep;
use std::alloc::{AllocError, Global};

/// A network over shared inputs: the number of the shared input of each input, and a literal for
/// each net.
#[derive(Clone, Copy)]
pub struct Placed<'a> {
    pub net: &'a Network,
    pub places: &'a [u32],
    pub literals: &'a [Literal],
}

/// The literals of shared inputs.
pub fn input_literals(
    alloc: Global,
    gates: &[Gate],
    places: &[u32],
) -> Result<Vec<Literal>, AllocError>
    requires aig { IsAig gates.now }
    requires inputs { HasInputs gates.now places.now }
    ensures literals { IfOk result (λ lits. lits.items ≡ map input_literal places.now) }
    ensures within { IfOk result (λ lits. All (IsBelow (length gates.now)) lits.items) }
{
    let mut literals = Vec::new(alloc);
    for place in places {
        literals.push(Literal::of(*place + 1))?;
    }
    Ok(literals)
}

/// The literals of the nets of a network whose inputs are these shared inputs, or none where there
/// is no room for a node of the graph.
pub fn place_network(
    sweep: &mut Sweep,
    alloc: Global,
    net: &Network,
    places: &[u32],
) -> Result<Option<Vec<Literal>>, AllocError>
    requires inputs { HasInputs sweep.old places.now }
    requires one_each { length places.now ≡ net.now.inputs }
    ensures grows { IsExtended sweep.old sweep.new }
    ensures placed { IfOk result (λ lits. IfSome lits (λ found.
        IsPlaced sweep.new net.now places.now found.items)) }
{
    let inputs = input_literals(alloc, sweep.aig().gates(), places)?;
    let literals = net_literals(sweep, alloc, net, &inputs)?;
    Ok(literals)
}

/// Whether net k of one network and net m of another have one value under every assignment of the
/// shared inputs, with so many conflicts each way at most.
pub fn compare_nets(
    sweep: &mut Sweep,
    alloc: Global,
    one: &Placed,
    k: NetId,
    other: &Placed,
    m: NetId,
    tries: u32,
) -> Result<Found, AllocError>
    requires one { IsPlaced sweep.old one.now.net.now one.now.places.now one.now.literals.now }
    requires other { IsPlaced sweep.old other.now.net.now other.now.places.now
        other.now.literals.now }
    requires k { k.0 < length one.now.net.now.names }
    requires m { m.0 < length other.now.net.now.names }
    ensures kept { sweep.new ≡ sweep.old }
    ensures told { IfOk result (TellsNets one.now.net.now one.now.places.now k.0
        other.now.net.now other.now.places.now m.0) }
{
    let _ = sweep.aig().gates();
    let left = one.literals[k.0 as usize];
    let right = other.literals[m.0 as usize];
    let found = sweep.decide(alloc, left, right, tries)?;
    Ok(found)
}
