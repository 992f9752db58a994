// An order of the nodes: that in which a walk through the graph turned round, depth first, leaves
// them.
ghost use Rattle.std.specs.Prelude.{◌≡◌, ◌+◌, ◌<◌, [], length, replicate, vec_len, IfOk, OnOk, All};
ghost use Rattle.lw_dag.specs.Ranking.{AreUserRows, AreWithin, IsWalk};

use crate::graph::SmallGraph;
use lw_pool::Numbers;
use std::alloc::{AllocError, Global};

// A node on the way, and how many of its users were looked at.
#[derive(Drop)]
struct Stop {
    node: u32,
    at: usize,
}

// The nodes that were seen, the way to where the walk is, and the nodes that it left.
#[derive(Drop)]
struct Walk {
    seen: Vec<bool>,
    way: Vec<Stop>,
    left: Vec<u32>,
}

/// So many rows without entries.
pub(crate) fn empty_rows(alloc: Global, n: usize) -> Result<Vec<Numbers>, AllocError>
    ensures { IfOk result (λ rows. rows.items ≡ replicate n []) }
{
    let mut rows = Vec::with_capacity(alloc, n)?;
    for _made in 0..n {
        rows.push(Numbers::empty(alloc))?;
    }
    Ok(rows)
}

// Notes a user of a signal, where a node drives it.
fn note_user(rows: &mut Vec<Numbers>, inputs: usize, s: u32, user: u32) -> Result<(), AllocError>
    requires signal { s < inputs + vec_len rows.old }
    requires user { user < vec_len rows.old }
    requires rows { AreUserRows (vec_len rows.old) rows.old }
    ensures { OnOk result (AreUserRows (vec_len rows.old) rows.new) }
{
    if (s as usize) < inputs {
        return Ok(());
    }
    let row = &mut rows[s as usize - inputs];
    row.push(user)?;
    Ok(())
}

// Notes a user of some signals.
fn note_users(
    rows: &mut Vec<Numbers>,
    inputs: usize,
    fanins: &[u32],
    user: u32,
) -> Result<(), AllocError>
    requires signals { All (λ s. s < inputs + vec_len rows.old) fanins.now }
    requires user { user < vec_len rows.old }
    requires rows { AreUserRows (vec_len rows.old) rows.old }
    ensures { OnOk result (AreUserRows (vec_len rows.old) rows.new) }
{
    for s in fanins {
        note_user(rows, inputs, *s, user)?;
    }
    Ok(())
}

// The users of each node.
fn turned_round(alloc: Global, graph: &SmallGraph) -> Result<Vec<Numbers>, AllocError>
    ensures { IfOk result (AreUserRows (length graph.now.nodes.now)) }
{
    let mut rows = empty_rows(alloc, graph.nodes.len())?;
    for j in 0..graph.nodes.len() {
        note_users(&mut rows, graph.inputs, graph.nodes[j].as_slice(), j as u32)?;
    }
    Ok(rows)
}

// Goes to a node, where it wasn't seen.
fn enter(walk: &mut Walk, node: u32) -> Result<(), AllocError>
    requires walk { IsWalk (vec_len walk.old.seen) walk.old }
    requires node { node < vec_len walk.old.seen }
    ensures len { vec_len walk.new.seen ≡ vec_len walk.old.seen }
    ensures walk { OnOk result (IsWalk (vec_len walk.new.seen) walk.new) }
{
    if walk.seen[node as usize] {
        return Ok(());
    }
    walk.seen[node as usize] = true;
    walk.way.push(Stop { node, at: 0 })?;
    Ok(())
}

// Goes on to the next user of the node where the walk is, or leaves the node. Whether there was
// one.
fn step(walk: &mut Walk, rows: &[Numbers]) -> Result<bool, AllocError>
    requires walk { IsWalk (length rows.now) walk.old }
    requires rows { AreWithin (length rows.now) rows.now }
    ensures walk { OnOk result (IsWalk (length rows.now) walk.new) }
{
    let Some(stop) = walk.way.pop() else {
        return Ok(false);
    };
    let Stop { node, at } = stop;
    let users = rows[node as usize].as_slice();
    if at >= users.len() {
        walk.left.push(node)?;
        return Ok(true);
    }
    walk.way.push(Stop { node, at: at + 1 })?;
    enter(walk, users[at])?;
    Ok(true)
}

// Walks from a node, until all that was entered is left.
fn walk_from(walk: &mut Walk, rows: &[Numbers], start: u32) -> Result<(), AllocError>
    requires walk { IsWalk (length rows.now) walk.old }
    requires rows { AreWithin (length rows.now) rows.now }
    requires start { start < length rows.now }
    ensures walk { OnOk result (IsWalk (length rows.now) walk.new) }
{
    enter(walk, start)?;
    for _ in 0..usize::MAX {
        if !step(walk, rows)? {
            break;
        }
    }
    Ok(())
}

// The nodes in the order in which the walk leaves them.
pub(crate) fn turned_order(alloc: Global, graph: &SmallGraph) -> Result<Vec<u32>, AllocError>
    ensures { IfOk result (λ order. All (λ j. j < length graph.now.nodes.now) order.items) }
{
    let rows = turned_round(alloc, graph)?;
    let mut walk = Walk {
        seen: vec![in alloc; false; graph.nodes.len()]?,
        way: Vec::new(alloc),
        left: Vec::with_capacity(alloc, graph.nodes.len())?,
    };
    for j in 0..graph.nodes.len() {
        walk_from(&mut walk, &rows, j as u32)?;
    }
    Ok(walk.left)
}
