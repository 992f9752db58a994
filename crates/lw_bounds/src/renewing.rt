// Numbers of the parts at a class, as its pairs give them.
ghost use Rattle.std.specs.Prelude.{◌≡◌, ◌+◌, ◌<◌, ◌≤◌, ◌||◌, ◌⊎◌, ℕ, length, slice_index};
ghost use Rattle.std.specs.List.{slice_range};
ghost use Rattle.lw_bounds.specs.Bounds.{total};
ghost use Rattle.lw_bounds.specs.Lowering.{IsRenewal};
ghost use Rattle.lw_bounds.specs.Numbers.{reading};
ghost use Rattle.lw_bounds.specs.Renewing.{IsRenewedBy, reading_by};

use crate::lowering::{Plan, lower_by_all};
use crate::numbers::{Numbers, start_of};
use lw_cost::Mark;
use lw_graph::Graph;
use lw_pool::ClassId;

/// A class whose numbers are renewed, and what they are renewed from.
#[derive(Clone, Copy)]
pub struct Renewal<'a> {
    pub graph: &'a Graph,
    pub marks: &'a [Option<Mark>],
    pub starts: &'a [u32],
    pub class: ClassId,
}

// Whether one of the two is true.
pub(crate) fn either(one: bool, other: bool) -> bool
    ensures { result ≡ (one || other) }
{
    one || other
}

// Copies a row, one number for each part, into the table of numbers at `start`.
pub(crate) fn put_row(numbers: &mut [u64], start: usize, row: &[u64])
    requires within { start + length row.now ≤ length numbers.old }
    ensures less { total row.now < total (slice_range numbers.old start (start + length row.now)) →
        total numbers.new < total numbers.old }
    ensures row { (k : ℕ) → k < length row.now →
        slice_index numbers.new (start + k) ≡ slice_index row.now k }
    ensures others { (k : ℕ) → (k < start) ⊎ (start + length row.now ≤ k) →
        slice_index numbers.new k ≡ slice_index numbers.old k }
{
    numbers[start..start + row.len()].copy_from_slice(row);
}

// What the numbers of sides are read from, as the table stands now.
fn numbers_by<'a>(renewal: Renewal<'a>, plan: Plan, numbers: &'a [u64]) -> Numbers<'a>
    ensures { reading result ≡ reading_by renewal.entry plan.entry numbers.entry.now }
{
    Numbers {
        one: renewal.graph.one(),
        marks: renewal.marks,
        width: plan.parts.len(),
        starts: renewal.starts,
        numbers,
    }
}

// Lets the numbers of all parts at a class fall to what its pairs give, and says whether one fell.
// `numbers` is the whole table, and `least` a row of room to work in.
pub(crate) fn renew_parts(
    renewal: Renewal,
    plan: Plan,
    least: &mut [u64],
    numbers: &mut [u64],
) -> bool
    requires { IsRenewal renewal plan least.old numbers.old }
    ensures { IsRenewedBy renewal.entry plan.entry numbers.old numbers.new result }
{
    let pairs = renewal.graph.nands(renewal.class);
    if pairs.is_empty() {
        return false;
    }
    let at = numbers_by(renewal, plan, numbers);
    let start = start_of(renewal.starts, renewal.class) as usize;
    least.copy_from_slice(&at.numbers[start..start + at.width]);
    let fell = lower_by_all(at, plan, pairs, least);
    if fell {
        put_row(numbers, start, least);
    }
    fell
}
