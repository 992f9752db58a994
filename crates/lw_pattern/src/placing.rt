// The nodes of a tree.
ghost use Rattle.std.specs.Prelude.{◌≡◌, ◌≤◌, ◌<◌, ◌++◌, ◌∷◌, [], vec_len, reverse, IfOk};
ghost use Rattle.lw_pattern.specs.Nodes.{node_count, nodes_of};
ghost use Rattle.lw_pattern.specs.Placing.{taken, node_by, untaken};

use crate::shape::Shape;
use crate::step::Step;
use crate::{PatNode, PatNodes};
use std::alloc::{AllocError, Global};

/// The nodes of a tree.
pub(crate) fn nodes(alloc: Global, tree: &Shape) -> Result<PatNodes, AllocError>
    requires { node_count tree.now ≤ 254 }
    ensures { IfOk result (λ nodes. nodes ≡ nodes_of tree.now) }
{
    let steps = tree.steps();
    let mut nodes = Vec::with_capacity(alloc, steps.len())?;
    let mut roots = Vec::new(alloc);
    for (place, step) in steps.iter().enumerate() {
        nodes.push_reserved(node_by(&mut roots, *step));
        roots.push(place as u8)?;
    }
    Ok(PatNodes::from_vec(nodes))
}

// The node of a step, given the places of the trees that await an operator. It takes its operands
// from them.
fn node_by(roots: &mut Vec<u8>, step: Step) -> PatNode
    requires { taken step ≤ vec_len roots.old }
    ensures node { result ≡ node_by (reverse roots.old.items) step }
    ensures left { reverse roots.new.items ≡ untaken (reverse roots.old.items) step }
{
    match step {
        Step::Leaf(pin) => PatNode::Pin(pin),
        Step::True => PatNode::One,
        Step::False => PatNode::Zero,
        Step::Not => PatNode::Inv(last_root(roots)),
        Step::Both => {
            let right = last_root(roots);
            let left = last_root(roots);
            PatNode::Nand(left, right)
        }
    }
}

fn last_root(roots: &mut Vec<u8>) -> u8
    requires { 0 < vec_len roots.old }
    ensures { roots.old.items ≡ roots.new.items ++ result ∷ [] }
{
    match roots.pop() {
        Some(root) => root,
        None => unreachable!(),
    }
}
