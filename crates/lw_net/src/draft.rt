ghost use Rattle.std.specs.Prelude.{◌≡◌, ◌<◌, ◌++◌, [], ◌∷◌, ◌↔◌, length, map, IsTrue, MatchResult};
ghost use Rattle.std.specs.Prelude.{Some, slice_get, All};

use crate::Cubes;
use crate::naming::{differ, number, numbers, signals};
use crate::written::NumberedNode;
use indexmap::IndexSet;
use lw_pool::{Name, Names, Numbers};
use std::alloc::{AllocError, Global};
use std::marker::Model;

/// A node as it is written: the name of its output, those of its fan-ins in columns, and its rows.
#[derive(Drop)]
pub struct DraftNode {
    pub out: Name,
    pub fanins: Names,
    pub rows: Cubes,
    pub on: bool,
}

/// Written nodes in the order of the file. Each of their names is kept once.
#[derive(Drop)]
pub struct DraftNodes {
    names: IndexSet<Name>,
    nodes: Vec<NumberedNode>,
}

impl Model for DraftNodes {
    ghost use Rattle.std.specs.Prelude.{List, length, All};
    ghost use Rattle.lw_net.specs.declared.draft.DraftNode.{DraftNode};
    ghost use Rattle.lw_net.specs.Written.{named_nodes, IsWithin};

    ghost Value = { List DraftNode };

    ghost view = { λ l. named_nodes l.names.keys l.nodes.items };

    ghost invariant = { λ l. All (IsWithin (length l.names.keys)) l.nodes.items };
}

impl DraftNodes {
    ghost use Rattle.lw_net.specs.Closing.{out_of};
    ghost use Rattle.lw_net.specs.Written.{named_nodes, IsWithin};

    /// No entries. Growth takes memory from `alloc`.
    pub fn new(alloc: Global) -> Self
        ensures { result ≡ [] }
    {
        DraftNodes {
            names: IndexSet::new(alloc),
            nodes: Vec::new(alloc),
        }
    }

    /// How many nodes there are.
    pub fn len(&self) -> usize
        ensures { result ≡ length self.now }
    {
        self.nodes.len()
    }

    /// Whether there are no nodes.
    pub fn is_empty(&self) -> bool
        ensures { IsTrue result ↔ (self.now ≡ []) }
    {
        self.nodes.is_empty()
    }

    /// The name that the node at a place drives.
    pub fn out(&self, place: usize) -> &Name
        requires { place < length self.now }
        ensures { slice_get (map out_of self.now) place ≡ Some result.now }
    {
        let names = self.names.as_slice();
        &names[self.nodes[place].out as usize]
    }

    /// Appends an entry. If memory runs out, nothing is changed.
    pub fn push(&mut self, item: DraftNode) -> Result<(), AllocError>
        ensures { MatchResult result (λ _. self.new ≡ self.old ++ item ∷ [])
            (λ _. self.new ≡ self.old) }
    {
        let DraftNode {
            out,
            fanins,
            rows,
            on,
        } = item;
        let alloc = *self.names.allocator();
        let fanins = Numbers::new(numbers(alloc, &mut self.names, fanins)?);
        let out = number(&mut self.names, out)?;
        self.nodes.push(NumberedNode {
            out,
            fanins,
            rows,
            on,
        })?;
        Ok(())
    }

    // Whether each row of each node has one byte per fan-in.
    fn have_columns(&self) -> bool
        ensures { IsTrue result ↔ All (λ node. All
            (λ row. length row ≡ length node.fanins) node.rows) self.now }
    {
        nodes_have_columns(&self.nodes)
    }

    // The names, and the nodes by their numbers.
    pub(crate) fn into_parts(self) -> (IndexSet<Name>, Vec<NumberedNode>)
        ensures nodes { named_nodes result.0.keys result.1.items ≡ self }
        ensures within { All (IsWithin (length result.0.keys)) result.1.items }
    {
        (self.names, self.nodes)
    }
}

/// The most signals of a network.
const MOST_SIGNALS: usize = 262_144;

/// A network as it is written, whose signals are known by their names.
#[derive(Drop)]
pub struct Draft {
    pub model: Name,
    pub inputs: Names,
    pub outputs: Names,
    pub nodes: DraftNodes,
}

impl Draft {
    ghost use Rattle.std.specs.Prelude.{IfOk};
    ghost use Rattle.lw_net.specs.Closing.{IsDraft};

    /// Whether it may be closed: inputs and node outputs differ, outputs differ, each row has one
    /// byte per fan-in, and there are at most 262,144 signals. It is for callers of the library,
    /// who have a draft from elsewhere: the draft of a text that was read may be closed.
    pub fn may_close(&self, alloc: Global) -> Result<bool, AllocError>
        ensures { IfOk result (λ may. IsTrue may ↔ IsDraft self.now) }
    {
        let names = signals(alloc, self.inputs.as_slice(), &self.nodes)?;
        if names.len() > MOST_SIGNALS || !self.nodes.have_columns() {
            return Ok(false);
        }
        if !differ(alloc, &names)? {
            return Ok(false);
        }
        differ(alloc, self.outputs.as_slice())
    }
}

// Whether each row of a node has one byte per fan-in.
fn has_columns(node: &NumberedNode) -> bool
    ensures { IsTrue result ↔ All (λ row. length row ≡ length node.now.fanins) node.now.rows }
{
    let columns = node.fanins.len();
    node.rows.as_slice().iter().all(|row| row.len() == columns)
}

// Whether that is so of each node.
fn nodes_have_columns(nodes: &[NumberedNode]) -> bool
    ensures { IsTrue result ↔ All (λ node. All (λ row. length row ≡ length node.fanins) node.rows)
        nodes.now }
{
    nodes.iter().all(|node| has_columns(node))
}
