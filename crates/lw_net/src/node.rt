ghost use Rattle.std.specs.Prelude.{◌≡◌, ◌+◌, ◌<◌, ◌++◌, [], ◌∷◌, ◌↔◌, List, ℕ, length, IsTrue};
ghost use Rattle.std.specs.Prelude.{IfOk, MatchResult, Some, slice_get, All};
ghost use Rattle.lw_net.specs.Signs.{IsSign};

use lw_pool::{NetId, Nets};
use smallvec::SmallVec;
use std::alloc::{AllocError, Global};
use std::marker::Model;

/// A row of a node: a byte `0`, `1` or `-` for each fan-in, in columns. Up to 16 of them take no
/// memory of their own.
#[derive(Drop)]
pub struct Cube {
    signs: SmallVec<u8, 16>,
}

impl Model for Cube {
    ghost use Rattle.std.specs.Prelude.{List, ℕ, All};
    ghost use Rattle.lw_net.specs.Signs.{IsSign};

    ghost Value = { List ℕ };

    ghost view = { λ c. c.signs.items };

    ghost invariant = { λ c. All IsSign c.signs.items };
}

impl Cube {
    /// The row of these bytes, without memory.
    pub fn new(signs: Vec<u8>) -> Self
        requires { All IsSign signs.items }
        ensures { result ≡ signs.items }
    {
        Cube {
            signs: SmallVec::from_vec(signs),
        }
    }

    /// A row of a copy of these bytes.
    pub fn from_slice(alloc: Global, signs: &[u8]) -> Result<Self, AllocError>
        requires { All IsSign signs.now }
        ensures { IfOk result (λ cube. cube ≡ signs.now) }
    {
        let signs = SmallVec::from_slice(alloc, signs)?;
        Ok(Cube { signs })
    }

    /// The bytes, by columns.
    pub fn as_slice(&self) -> &[u8]
        ensures bytes { result.now ≡ self.now }
        ensures signs { All IsSign self.now }
    {
        self.signs.as_slice()
    }

    /// How many columns there are.
    pub fn len(&self) -> usize
        ensures { result ≡ length self.now }
    {
        self.signs.len()
    }

    /// Whether there is no column.
    pub fn is_empty(&self) -> bool
        ensures { IsTrue result ↔ (self.now ≡ []) }
    {
        self.signs.is_empty()
    }
}

/// Whether each byte is `0`, `1` or `-`.
pub fn are_signs(bytes: &[u8]) -> bool
    ensures { IsTrue result ↔ All IsSign bytes.now }
{
    bytes.iter().all(|sign| matches!(*sign, b'0' | b'1' | b'-'))
}

/// Rows in order.
#[derive(Drop)]
pub struct Cubes {
    items: Vec<Cube>,
}

impl Model for Cubes {
    ghost use Rattle.std.specs.Prelude.{List, ℕ};

    ghost Value = { List (List ℕ) };

    ghost view = { λ l. l.items.items };
}

impl Cubes {
    /// No entries. Growth takes memory from `alloc`.
    pub fn new(alloc: Global) -> Self
        ensures { result ≡ [] }
    {
        Cubes {
            items: Vec::new(alloc),
        }
    }

    /// The entries of a vector, without memory.
    pub fn from_vec(items: Vec<Cube>) -> Self
        ensures { result ≡ items.items }
    {
        Cubes { items }
    }

    /// The entries, without memory.
    pub fn into_vec(self) -> Vec<Cube>
        ensures { result.items ≡ self }
    {
        self.items
    }

    /// How many rows there are.
    pub fn len(&self) -> usize
        ensures { result ≡ length self.now }
    {
        self.items.len()
    }

    /// Whether there are no rows.
    pub fn is_empty(&self) -> bool
        ensures { IsTrue result ↔ (self.now ≡ []) }
    {
        self.items.is_empty()
    }

    /// The rows, in order.
    pub fn as_slice(&self) -> &[Cube]
        ensures { result.now ≡ self.now }
    {
        &self.items
    }

    /// The entry at a place.
    pub fn get(&self, place: usize) -> &Cube
        requires { place < length self.now }
        ensures { slice_get self.now place ≡ Some result.now }
    {
        &self.items[place]
    }

    /// Appends an entry. If memory runs out, nothing is changed. The first takes no more room than
    /// its own, since many nodes have one row.
    pub fn push(&mut self, item: Cube) -> Result<(), AllocError>
        ensures { MatchResult result (λ _. self.new ≡ self.old ++ item ∷ [])
            (λ _. self.new ≡ self.old) }
    {
        if self.items.is_empty() {
            self.items.reserve_exact(1)?;
        }
        self.items.push(item)?;
        Ok(())
    }
}

/// A node: the net that it drives, its fan-ins in columns, and its rows. Where `on` is true the
/// node is true where some row holds, else where none does. A fan-in may repeat.
#[derive(Drop)]
pub struct Node {
    pub out: NetId,
    pub fanins: Nets,
    pub rows: Cubes,
    pub on: bool,
}

/// Nodes in order.
#[derive(Drop)]
pub struct Nodes {
    items: Vec<Node>,
}

impl Model for Nodes {
    ghost use Rattle.std.specs.Prelude.{List};
    ghost use Rattle.lw_net.specs.declared.node.Node.{Node};

    ghost Value = { List Node };

    ghost view = { λ l. l.items.items };
}

impl Nodes {
    /// No entries. Growth takes memory from `alloc`.
    pub fn new(alloc: Global) -> Self
        ensures { result ≡ [] }
    {
        Nodes {
            items: Vec::new(alloc),
        }
    }

    /// The entries of a vector, without memory.
    pub fn from_vec(items: Vec<Node>) -> Self
        ensures { result ≡ items.items }
    {
        Nodes { items }
    }

    /// The entries, without memory.
    pub fn into_vec(self) -> Vec<Node>
        ensures { result.items ≡ self }
    {
        self.items
    }

    /// How many nodes there are.
    pub fn len(&self) -> usize
        ensures { result ≡ length self.now }
    {
        self.items.len()
    }

    /// Whether there are no nodes.
    pub fn is_empty(&self) -> bool
        ensures { IsTrue result ↔ (self.now ≡ []) }
    {
        self.items.is_empty()
    }

    /// The nodes, in order.
    pub fn as_slice(&self) -> &[Node]
        ensures { result.now ≡ self.now }
    {
        &self.items
    }

    /// The entry at a place.
    pub fn get(&self, place: usize) -> &Node
        requires { place < length self.now }
        ensures { slice_get self.now place ≡ Some result.now }
    {
        &self.items[place]
    }

    /// Appends an entry. If memory runs out, nothing is changed.
    pub fn push(&mut self, item: Node) -> Result<(), AllocError>
        ensures { MatchResult result (λ _. self.new ≡ self.old ++ item ∷ [])
            (λ _. self.new ≡ self.old) }
    {
        self.items.push(item)?;
        Ok(())
    }
}
