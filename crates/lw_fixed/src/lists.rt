ghost use Rattle.std.specs.Prelude.{◌≡◌, ◌<◌, length, Some, slice_get};

use crate::Micro;
use std::marker::Model;

/// Numbers of millionths in order.
#[derive(Drop)]
pub struct Micros {
    items: Vec<Micro>,
}

impl Model for Micros {
    ghost use Rattle.std.specs.Prelude.{List};
    ghost use Rattle.lw_fixed.specs.declared.micro.Micro.{Micro};

    ghost Value = { List Micro };

    ghost view = { λ l. l.items.items };
}

impl Micros {
    /// The entries of a vector, without memory.
    pub fn from_vec(items: Vec<Micro>) -> Self
        ensures { result ≡ items.items }
    {
        Micros { items }
    }

    /// The times, in order.
    pub fn as_slice(&self) -> &[Micro]
        ensures { result.now ≡ self.now }
    {
        &self.items
    }

    /// The entry at a place.
    pub fn get(&self, place: usize) -> Micro
        requires { place < length self.now }
        ensures { slice_get self.now place ≡ Some result }
    {
        self.items[place]
    }
}
