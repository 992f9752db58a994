use crate::PatNodes;
use lw_pool::{CellId, PatId};
use std::marker::Model;

/// A pattern: the function of a cell as a tree whose leaves are the cell's pins. The last node is
/// the root.
#[derive(Drop)]
pub struct Pattern {
    pub cell: CellId,
    pub nodes: PatNodes,
}

/// The patterns of the cells of a library, in the order of cells, their forms, and the bracketings
/// of a form.
///
/// Each has at most 254 nodes, each of them an operand of one later node but the root, and pins
/// from 0 on without a gap.
#[derive(Drop)]
pub struct Patterns {
    items: Vec<Pattern>,
}

impl Model for Patterns {
    ghost use Rattle.std.specs.Prelude.{List, map};
    ghost use Rattle.std.specs.Coded.{coded_list};
    ghost use Rattle.lw_laws.specs.Covers.{Pattern as TreeOfCell};
    ghost use Rattle.lw_pattern.specs.Codes.{pattern_code};

    ghost Value = { List TreeOfCell };

    ghost coded = { coded_list pattern_code };

    ghost use Rattle.lw_pattern.specs.Listed.{pattern_of, AreKept};

    ghost view = { λ l. map pattern_of l.items.items };

    ghost invariant = { λ l. AreKept l.items.items };
}

impl Patterns {
    ghost use Rattle.std.specs.Prelude.{◌≡◌, ◌<◌, ◌≤◌, Some, length, map, slice_get};
    ghost use Rattle.lw_pattern.specs.Listed.{pattern_of, most_patterns, IsKept, AreKept};

    pub(crate) fn new(items: Vec<Pattern>) -> Self
        requires { AreKept items.items }
        ensures { result ≡ map pattern_of items.items }
    {
        Patterns { items }
    }

    /// The number of patterns.
    pub fn len(&self) -> u32
        ensures len { result ≡ length self.now }
        ensures few { result ≤ most_patterns }
    {
        self.items.len() as u32
    }

    /// The pattern with a number.
    pub fn get(&self, id: PatId) -> &Pattern
        requires { id.0 < length self.now }
        ensures listed { slice_get self.now id.0 ≡ Some (pattern_of result.now) }
        ensures kept { IsKept result.now.nodes }
    {
        &self.items[id.0 as usize]
    }
}
