ghost use Rattle.std.specs.Prelude.{◌≡◌, ◌<◌, ◌≤◌, [], length, Some, slice_get, IfOk, IfNone};
ghost use Rattle.std.specs.Prelude.{IfSome, OnOk};
ghost use Rattle.lw_pool.specs.Numbers.{most_signals};

use crate::FormIds;
use indexmap::IndexSet;
use std::alloc::{AllocError, Global};
use std::marker::Model;

// A number of a form, twice its base form's or one more, is below 2^32.
const MOST_FORMS: usize = 2147483648;

// The forms that were made so far, each once: true, the inputs, and Ands, whose operands were made
// before.
#[derive(Drop)]
pub(crate) struct FormTable {
    inputs: u32,
    ands: IndexSet<FormIds>,
}

impl Model for FormTable {
    ghost use Rattle.lw_form.specs.Tables.{Table, IsTable};

    ghost Value = { Table };

    ghost view = { λ t. record { inputs = t.inputs; keys = t.ands.keys } };

    ghost invariant = { λ t. IsTable (record { inputs = t.inputs; keys = t.ands.keys }) };
}

impl FormTable {
    ghost use Rattle.lw_laws.specs.Occurring.{appended};
    ghost use Rattle.lw_form.specs.Renumbered.{simple_at};
    ghost use Rattle.lw_form.specs.Tables.{made, spelled, AreBelow, CountsMade, IsSpelledAt};

    // True and the inputs, with room for so many Ands.
    pub(crate) fn with_capacity(alloc: Global, inputs: u32, ands: usize) -> Result<Self, AllocError>
        requires { inputs ≤ most_signals }
        ensures { IfOk result (λ table. table ≡ record { inputs = inputs; keys = [] }) }
    {
        let ands = IndexSet::with_capacity(alloc, ands)?;
        Ok(FormTable { inputs, ands })
    }

    // The number of forms that were made.
    pub(crate) fn len(&self) -> usize
        ensures { CountsMade (made self.now) result }
    {
        1 + self.inputs as usize + self.ands.len()
    }

    // The place of the And of these operands, which is made where it isn't there.
    pub(crate) fn add(&mut self, ids: FormIds) -> Result<u32, AllocError>
        requires { AreBelow (length (made self.old)) ids }
        ensures made { OnOk result (made self.new
            ≡ appended (spelled (made self.old) ids) (made self.old)) }
        ensures place { IfOk result (λ b. slice_get (made self.new) b
            ≡ Some (spelled (made self.old) ids)) }
        ensures inputs { self.new.inputs ≡ self.old.inputs }
    {
        if self.len() >= MOST_FORMS {
            return Err(AllocError);
        }
        let (place, _fresh) = self.ands.insert_full(ids)?;
        Ok(1 + self.inputs + place as u32)
    }

    // The operands of the And at a place, or none at that of true or of an input.
    pub(crate) fn operands(&self, b: u32) -> Option<&FormIds>
        requires { b < length (made self.now) }
        ensures simple { IfNone result (slice_get (made self.now) b ≡ Some (simple_at b)) }
        ensures spelled { IfSome result (λ ids. IsSpelledAt (made self.now) b ids.now) }
    {
        if b <= self.inputs {
            return None;
        }
        let ands = self.ands.as_slice();
        Some(&ands[(b - self.inputs - 1) as usize])
    }
}
