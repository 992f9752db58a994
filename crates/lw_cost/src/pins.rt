// The pins of a match.
ghost use Rattle.std.specs.Prelude.{◌≡◌, ◌<◌, ◌≤◌, ◌+◌, ◌++◌, [], ◌∷◌, ◌↔◌, List, length, take};
ghost use Rattle.std.specs.Prelude.{IsTrue, Some, slice_get};

use lw_pool::ClassId;
use std::marker::Model;

/// The classes of the pins of a match, in pin order. There are at most 16.
#[derive(Drop)]
pub struct Pins {
    classes: [ClassId; 16],
    len: usize,
}

impl Model for Pins {
    ghost use Rattle.std.specs.Prelude.{List, ◌≤◌, take};
    ghost use Rattle.lw_pool.specs.declared.id.ClassId.{ClassId};

    ghost Value = { List ClassId };

    ghost view = { λ p. take p.len p.classes };

    ghost invariant = { λ p. p.len ≤ 16 };
}

impl Pins {
    /// No pins.
    pub fn new() -> Self
        ensures { result ≡ [] }
    {
        Pins {
            classes: [ClassId(0); 16],
            len: 0,
        }
    }

    /// How many pins there are.
    pub fn len(&self) -> usize
        ensures len { result ≡ length self.now }
        ensures few { result ≤ 16 }
    {
        self.as_slice().len()
    }

    /// Whether there is none.
    pub fn is_empty(&self) -> bool
        ensures { IsTrue result ↔ (self.now ≡ []) }
    {
        self.as_slice().is_empty()
    }

    /// The classes, in order.
    pub fn as_slice(&self) -> &[ClassId]
        ensures classes { result.now ≡ self.now }
        ensures few { length result.now ≤ 16 }
    {
        &self.classes[..self.len]
    }

    /// The class of a pin.
    pub fn get(&self, pin: usize) -> ClassId
        requires { pin < length self.now }
        ensures { slice_get self.now pin ≡ Some result }
    {
        self.as_slice()[pin]
    }

    /// Appends the class of the next pin.
    pub fn push(&mut self, class: ClassId)
        requires { length self.old < 16 }
        ensures { self.new ≡ self.old ++ class ∷ [] }
    {
        self.classes[self.len] = class;
        self.len += 1;
    }
}
