ghost use Rattle.std.specs.Prelude.{◌≡◌, map, IfOk};
ghost use Rattle.lw_net.specs.Signs.{asked};

use smallvec::SmallVec;
use std::alloc::{AllocError, Global};
use std::marker::Model;

// A row of a node's table (a cube): for each fan-in, by column, the value that it asks for, or
// none. Factoring looks for a sign that many rows have.
#[derive(Drop)]
pub(crate) struct Row {
    signs: SmallVec<u8, 16>,
}

impl Model for Row {
    ghost use Rattle.std.specs.Prelude.{List, Bool, Option};

    ghost Value = { List (Option Bool) };

    ghost use Rattle.std.specs.Prelude.{map};
    ghost use Rattle.lw_net.specs.Signs.{asked};

    ghost view = { λ r. map asked r.signs.items };
}

// The value that a sign asks for.
pub(crate) fn ask(sign: u8) -> Option<bool>
    ensures { result ≡ asked sign }
{
    match sign {
        b'1' => Some(true),
        b'0' => Some(false),
        _ => None,
    }
}

impl Row {
    ghost use Rattle.lw_laws.specs.Signals.{has_at, cleared_at};

    // The row of these signs.
    pub(crate) fn of_signs(alloc: Global, signs: &[u8]) -> Result<Self, AllocError>
        ensures { IfOk result (λ row. row ≡ map asked signs.now) }
    {
        let signs = SmallVec::from_slice(alloc, signs)?;
        Ok(Row { signs })
    }

    pub(crate) fn as_slice(&self) -> &[u8]
        ensures { map asked result.now ≡ self.now }
    {
        self.signs.as_slice()
    }

    // Whether the row asks for this value in this column.
    pub(crate) fn has(&self, column: usize, sign: bool) -> bool
        ensures { result ≡ has_at column sign self.now }
    {
        if column >= self.signs.len() {
            return false;
        }
        match ask(self.signs[column]) {
            Some(asked) => asked == sign,
            None => false,
        }
    }

    // Takes the column away.
    pub(crate) fn clear(&mut self, column: usize)
        ensures { self.new ≡ cleared_at column self.old }
    {
        if column < self.signs.len() {
            self.signs[column] = b'-';
        }
    }
}
