// Where sides are compared.
ghost use Rattle.std.specs.Prelude.{◌≡◌, ◌++◌, [], ◌∷◌, length, MatchResult};

use lw_pool::Name;
use std::alloc::{AllocError, Global};
use std::marker::Model;

/// What a side gives at a point.
#[derive(Clone, Copy, Debug, PartialEq, Eq)]
pub enum Kind {
    /// An output of the circuit.
    Output,
    /// What a latch stores.
    Data,
    /// The control of a latch, where both sides' latches have one.
    Control,
}

/// Where sides are compared: at an output by its name, or at what a latch reads by the name of the
/// latch's output.
#[derive(Debug, Drop)]
pub struct Point {
    pub kind: Kind,
    pub name: Name,
}

/// Points in order.
#[derive(Debug, Drop)]
pub struct Points {
    items: Vec<Point>,
}

impl Model for Points {
    ghost use Rattle.std.specs.Prelude.{List};
    ghost use Rattle.lw_equal.specs.declared.point.Point.{Point};

    ghost Value = { List Point };

    ghost view = { λ l. l.items.items };
}

impl Points {
    /// No entries. Growth takes memory from `alloc`.
    pub fn new(alloc: Global) -> Self
        ensures { result ≡ [] }
    {
        Points {
            items: Vec::new(alloc),
        }
    }

    /// The entries, in order.
    pub fn as_slice(&self) -> &[Point]
        ensures { result.now ≡ self.now }
    {
        &self.items
    }

    /// How many entries there are.
    pub fn len(&self) -> usize
        ensures { result ≡ length self.now }
    {
        self.items.len()
    }

    /// Appends an entry. If memory runs out, nothing is changed.
    pub(crate) fn push(&mut self, item: Point) -> Result<(), AllocError>
        ensures { MatchResult result (λ _. self.new ≡ self.old ++ item ∷ [])
            (λ _. self.new ≡ self.old) }
    {
        self.items.push(item)?;
        Ok(())
    }
}
