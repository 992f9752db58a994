// How deep names are, and where their nets start.
ghost use Rattle.std.specs.Prelude.{◌≡◌, ◌+◌, ◌<◌, ◌≤◌, length, replicate, IfOk, All};
ghost use Rattle.std.specs.List.{range_with_len};
ghost use Rattle.lw_dag.specs.Graphs.{IsGraph, most_signals};
ghost use Rattle.lw_named_netlist.specs.Numbered.{AreSettled, deepest, own_start, step_of};
ghost use Rattle.lw_named_netlist.specs.Starting.{AreLevelsOf, CanPlace, PlacesNode};

use lw_dag::Levels;
use lw_pool::Numbers;
use std::alloc::{AllocError, Global};

// The depths of names, and the names at which their nets start.
#[derive(Drop)]
pub(crate) struct Starts {
    pub(crate) depths: Vec<u32>,
    pub(crate) starts: Vec<u32>,
}

// The greatest depth of some names.
fn deepest_of(needs: &[u32], depths: &[u32]) -> u32
    requires { All (λ s. s < length depths.now) needs.now }
    ensures { result ≡ deepest depths.now needs.now }
{
    let mut most = 0;
    for s in needs {
        most = most.max(depths[*s as usize]);
    }
    most
}

// What a node adds to a depth.
fn step(gates: usize, j: usize) -> u32
    ensures { result ≡ step_of gates j }
{
    if j < gates { 1 } else { 0 }
}

// Where a node starts: a gate at itself, and a wire where its source does.
fn start_of(gates: usize, j: usize, own: u32, needs: &[u32], starts: &[u32]) -> u32
    requires { All (λ s. s < length starts.now) needs.now }
    ensures { result ≡ own_start gates j starts.now own needs.now }
{
    if j < gates || needs.is_empty() {
        own
    } else {
        starts[needs[0] as usize]
    }
}

// Gives a node its depth and its start, where what it hangs on has them.
fn place(found: &mut Starts, inputs: usize, gates: usize, j: usize, needs: &[u32])
    requires { CanPlace (inputs + j) needs.now found.old }
    ensures { PlacesNode gates j (inputs + j) needs.now found.old found.new }
{
    let own = inputs + j;
    let depth = step(gates, j) + deepest_of(needs, &found.depths);
    let start = start_of(gates, j, own as u32, needs, &found.starts);
    found.depths[own] = depth;
    found.starts[own] = start;
}

// All places below a number. For more of them than there are numbers there is no memory.
pub(crate) fn places_below(alloc: Global, count: usize) -> Result<Vec<u32>, AllocError>
    ensures { IfOk result (λ places. places.items ≡ range_with_len 0 count) }
{
    let Ok(end) = u32::try_from(count) else {
        return Err(AllocError);
    };
    (0..end).collect(alloc)
}

// No depth, and each name at itself.
fn start(alloc: Global, names: usize) -> Result<Starts, AllocError>
    ensures depths { IfOk result (λ l. l.depths.items ≡ replicate names 0) }
    ensures starts { IfOk result (λ l. l.starts.items ≡ range_with_len 0 names) }
{
    let depths = vec![in alloc; 0; names]?;
    let starts = places_below(alloc, names)?;
    Ok(Starts { depths, starts })
}

// The depths and the starts of all names, in the order in which each node is behind what it hangs
// on.
pub(crate) fn find_starts(
    alloc: Global,
    inputs: usize,
    gates: usize,
    graph: &[Numbers],
    levels: &Levels,
) -> Result<Starts, AllocError>
    requires graph { IsGraph inputs graph.now }
    requires few { inputs + length graph.now ≤ most_signals }
    requires levels { AreLevelsOf inputs graph.now levels.now }
    ensures { IfOk result (λ l. AreSettled inputs gates graph.now levels.now.heights.items
        levels.now.order.items l.depths.items l.starts.items) }
{
    let mut found = start(alloc, inputs + graph.len())?;
    'nodes: for at in 0..levels.order.len() {
        let j = levels.order[at] as usize;
        place(&mut found, inputs, gates, j, graph[j].as_slice());
    }
    Ok(found)
}
