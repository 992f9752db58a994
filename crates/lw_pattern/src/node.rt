ghost use Rattle.std.specs.Prelude.{◌≡◌, ◌<◌, ◌↔◌, [], length, IsTrue, Some, slice_get};

use std::marker::Model;

/// A node of a pattern. Its operands are places of earlier nodes.
#[derive(Clone, Copy, PartialEq, Eq)]
pub enum PatNode {
    /// A pin of the cell.
    Pin(u8),
    /// The constant true.
    One,
    /// The constant false.
    Zero,
    /// The complement of the node at a place.
    Inv(u8),
    /// The NAND of the nodes at two places.
    Nand(u8, u8),
}

/// Nodes in order.
#[derive(Drop)]
pub struct PatNodes {
    items: Vec<PatNode>,
}

impl Model for PatNodes {
    ghost use Rattle.std.specs.Prelude.{List};
    ghost use Rattle.lw_pattern.specs.declared.node.PatNode.{PatNode};

    ghost Value = { List PatNode };

    ghost view = { λ l. l.items.items };
}

impl PatNodes {
    /// The entries of a vector, without memory.
    pub fn from_vec(items: Vec<PatNode>) -> Self
        ensures { result ≡ items.items }
    {
        PatNodes { items }
    }

    /// How many nodes there are.
    pub fn len(&self) -> usize
        ensures { result ≡ length self.now }
    {
        self.items.len()
    }

    /// Whether there are no nodes.
    pub fn is_empty(&self) -> bool
        ensures { IsTrue result ↔ (self.now ≡ []) }
    {
        self.items.is_empty()
    }

    /// The nodes, in order.
    pub fn as_slice(&self) -> &[PatNode]
        ensures { result.now ≡ self.now }
    {
        &self.items
    }

    /// The entry at a place.
    pub fn get(&self, place: usize) -> PatNode
        requires { place < length self.now }
        ensures { slice_get self.now place ≡ Some result }
    {
        self.items[place]
    }
}
