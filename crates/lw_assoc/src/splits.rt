// How many splits there are.
ghost use Rattle.std.specs.Prelude.{◌≡◌, ◌-◌, ◌^◌, ◌<◌, ◌≤◌, length, slice_get, Some};
ghost use Rattle.lw_laws.specs.NumberedForms.{Base as PlainBase};
ghost use Rattle.lw_form.specs.Kept.{AreForms};
ghost use Rattle.lw_laws.specs.Occurring.{splits_of};
ghost use Rattle.lw_assoc.specs.Modes.{law_mode};
ghost use Rattle.lw_assoc.specs.Splits.{base_splits, numbered_splits};

use crate::Mode;
use lw_form::{Base, Forms};

/// The greatest number of splits.
pub(crate) const MOST_SPLITS: u64 = 16_777_216;

// The powers of three.
const POWERS: [u32; 9] = [1, 3, 9, 27, 81, 243, 729, 2187, 6561];

/// How many sub-lists of so many operands leave the last one out.
pub(crate) fn half_of(count: usize) -> u32
    requires some { 1 ≤ count }
    requires few { count ≤ 8 }
    ensures half { result ≡ 2 ^ (count - 1) }
    ensures some { 1 ≤ result }
    ensures few { result ≤ 128 }
{
    1 << (count - 1)
}

// Three to the power of a count.
fn threes(count: usize) -> u32
    requires { count ≤ 8 }
    ensures { result ≡ 3 ^ count }
{
    POWERS[count]
}

// The splits of an And of so many operands.
fn splits_of(mode: Mode, count: usize) -> u32
    requires some { 2 ≤ count }
    requires few { count ≤ 8 }
    ensures splits { result ≡ splits_of (law_mode mode) count }
    ensures few { result ≤ 3279 }
{
    match mode {
        Mode::Plain => half_of(count) - 1,
        Mode::Idempotent => (threes(count) - 3) / 2,
    }
}

// The splits of a base form, of which an And alone has some.
fn splits_at(forms: &Forms, b: u32, mode: Mode) -> u32
    requires { b < length forms.now.bases }
    ensures splits { (base : PlainBase) → slice_get forms.now.bases b ≡ Some base →
        result ≡ base_splits (law_mode mode) base }
    ensures few { result ≤ 3279 }
{
    let Base::And(ids) = forms.base(b) else {
        return 0;
    };
    splits_of(mode, ids.len())
}

/// The splits of all base forms.
pub fn split_count(forms: &Forms, mode: Mode) -> u64
    ensures count { result ≡ numbered_splits (law_mode mode) forms.now }
    ensures kept { AreForms forms.now }
{
    let mut count = 0;
    for b in 0..forms.len() {
        count += splits_at(forms, b, mode) as u64;
    }
    count
}
