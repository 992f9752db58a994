// The nodes that are drawn.
ghost use Rattle.std.specs.Prelude.{◌≡◌, ◌+◌, ◌*◌, ◌<◌, ◌≤◌, [], ◌∷◌, ℕ, All, IfOk};
ghost use Rattle.lw_net.specs.Signs.{IsSign};
ghost use Rattle.lw_big.specs.Drawing.{HasDrawn};
ghost use Rattle.lw_big.specs.Generated.{most_nodes, signal_name, first_fanin, other_than};
ghost use Rattle.lw_big.specs.Generated.{second_fanin, node_kind, rows_of, node_with, drawn_nodes};

use crate::draws::Draws;
use crate::naming::{INPUTS, signal_name};
use lw_net::{Cube, Cubes, DraftNode, DraftNodes};
use lw_pool::Names;
use std::alloc::{AllocError, Global};

// What is drawn for a node: its fan-ins, as numbers of signals, and its kind.
#[derive(Clone, Copy)]
struct Drawn {
    first: u32,
    second: u32,
    kind: u32,
}

// The number that is drawn, or, where the first fan-in has it, that of the signal behind it.
fn other_than(first: u32, drawn: u32, signals: u32) -> u32
    requires { first < signals }
    ensures { result ≡ other_than first drawn signals }
{
    if drawn == first {
        return (first + 1) % signals;
    }
    drawn
}

// Draws what makes node k.
fn draw_node(draws: &mut Draws, k: u32) -> Drawn
    requires { k < most_nodes }
    ensures first { (seed : ℕ) → HasDrawn seed (3 * k) draws.old →
        result.first ≡ first_fanin seed k }
    ensures second { (seed : ℕ) → HasDrawn seed (3 * k) draws.old →
        result.second ≡ second_fanin seed k }
    ensures kind { (seed : ℕ) → HasDrawn seed (3 * k) draws.old → result.kind ≡ node_kind seed k }
    ensures draws { (seed : ℕ) → HasDrawn seed (3 * k) draws.old →
        HasDrawn seed (3 * (k + 1)) draws.new }
{
    let signals = INPUTS + k;
    let first = draws.draw() % signals;
    let second = other_than(first, draws.draw() % signals, signals);
    let kind = draws.draw() % 4;
    Drawn {
        first,
        second,
        kind,
    }
}

// One row.
fn one_row(alloc: Global, row: &[u8]) -> Result<Cubes, AllocError>
    requires { All IsSign row.now }
    ensures { IfOk result (λ rows. rows ≡ row.now ∷ []) }
{
    let mut rows = Cubes::new(alloc);
    rows.push(Cube::from_slice(alloc, row)?)?;
    Ok(rows)
}

// Two rows.
fn two_rows(alloc: Global, first: &[u8], second: &[u8]) -> Result<Cubes, AllocError>
    requires first { All IsSign first.now }
    requires second { All IsSign second.now }
    ensures { IfOk result (λ rows. rows ≡ first.now ∷ second.now ∷ []) }
{
    let mut rows = one_row(alloc, first)?;
    rows.push(Cube::from_slice(alloc, second)?)?;
    Ok(rows)
}

// The rows of a kind of node.
fn rows(alloc: Global, kind: u32) -> Result<Cubes, AllocError>
    ensures { IfOk result (λ rows. rows ≡ rows_of kind) }
{
    match kind {
        1 => two_rows(alloc, b"1-", b"-1"),
        2 => two_rows(alloc, b"10", b"01"),
        _ => one_row(alloc, b"11"),
    }
}

// The names of two signals.
fn fanins(alloc: Global, first: u32, second: u32) -> Result<Names, AllocError>
    ensures { IfOk result (λ names. names ≡ signal_name first ∷ signal_name second ∷ []) }
{
    let mut names = Vec::with_capacity(alloc, 2)?;
    names.push(signal_name(alloc, first)?)?;
    names.push(signal_name(alloc, second)?)?;
    Ok(Names::from_vec(names))
}

// Node k.
fn node(alloc: Global, k: u32, drawn: Drawn) -> Result<DraftNode, AllocError>
    requires { k < most_nodes }
    ensures { IfOk result (λ node. node ≡ node_with k drawn.first drawn.second drawn.kind) }
{
    let out = signal_name(alloc, INPUTS + k)?;
    let fanins = fanins(alloc, drawn.first, drawn.second)?;
    let rows = rows(alloc, drawn.kind)?;
    let on = drawn.kind != 3;
    Ok(DraftNode {
        out,
        fanins,
        rows,
        on,
    })
}

// The first n nodes that are drawn from a seed.
pub(crate) fn drawn_nodes(alloc: Global, seed: u64, n: u32) -> Result<DraftNodes, AllocError>
    requires { n ≤ most_nodes }
    ensures { IfOk result (λ nodes. nodes ≡ drawn_nodes seed 0 n) }
{
    let mut draws = Draws::new(seed);
    let mut nodes = DraftNodes::new(alloc);
    for k in 0..n {
        let drawn = draw_node(&mut draws, k);
        nodes.push(node(alloc, k, drawn)?)?;
    }
    Ok(nodes)
}
