// What is known of each choice while points are found: its class, and no more than its area by what
// the groups of its pins have seen.
ghost use Rattle.std.specs.Prelude.{◌≡◌, ◌+◌, ◌^◌, ◌<◌, ◌≤◌, ℕ, List, All, IfOk};
ghost use Rattle.lw_genlib.specs.Cells.{CellParts};
ghost use Rattle.lw_choices.specs.Choices.{Choice, IsOfLibrary, pin_count};
ghost use Rattle.lw_choices.specs.GroupChoices.{AreGroupChoices};
ghost use Rattle.lw_choices.specs.Stands.{plain_part, plain_row};
ghost use Rattle.lw_curves.specs.Tallies.{AreFirstTallies, AreTallies, HasFallen, IsBoundOf};
ghost use Rattle.lw_curves.specs.Tallies.{IsFirstTally, IsLowered, bound_of};
ghost use Rattle.lw_choices.specs.PinGroups.{AreUses};

use lw_choices::{ListedChoice, Listing, MOST_AREA, PinGroups, Stand};
use lw_genlib::Library;
use lw_pool::ClassId;
use std::alloc::{AllocError, Global};

/// The class of a choice, and no more than the area of its cell and what the groups of its pins
/// have seen together: a bound in millionths, below 2^96. It is in two parts, since a `u128` would
/// double the size.
#[derive(Clone, Copy)]
pub(crate) struct Tally {
    low: u64,
    high: u32,
    pub class: ClassId,
}

// There is one for each choice, so it is kept small.
const _: () = prove!(size_of::<Tally>() == 16);

// What the upper part of a bound counts in.
const HIGH_UNIT: u128 = 1 << 64;

impl Tally {
    /// The tally of a class with a bound, which is put in two parts.
    pub(crate) fn new(bound: u128, class: ClassId) -> Self
        requires { bound < 2 ^ 96 }
        ensures bound { bound_of result ≡ bound }
        ensures class { result.class ≡ class }
    {
        Tally {
            low: (bound % HIGH_UNIT) as u64,
            high: (bound / HIGH_UNIT) as u32,
            class,
        }
    }

    /// Its bound.
    pub(crate) fn bound(&self) -> u128
        ensures { IsBoundOf self.now result }
    {
        self.high as u128 * HIGH_UNIT + self.low as u128
    }
}

// What stands for a group that has seen no point: more than a cell and 16 pins have together that
// have seen some.
pub(crate) const UNSEEN: u128 = 147_573_952_589_676_412_928;

/// The tallies of all choices at the start, when no group has seen a point.
pub(crate) fn first_tallies(
    alloc: Global,
    rows: &Listing,
    lib: &Library,
) -> Result<Vec<Tally>, AllocError>
    requires { All (λ (r : Choice). IsOfLibrary lib.now r.part) rows.now }
    ensures { IfOk result (λ tallies. AreFirstTallies lib.now rows.now tallies.items) }
{
    let mut tallies = Vec::with_capacity(alloc, rows.len())?;
    for number in 0..rows.len() {
        tallies.push(first_tally(lib, &rows.at(number)))?;
    }
    Ok(tallies)
}

/// Lets the bounds of the choices with a pin in a group fall by `fall`, by which the area fell that
/// the group has seen: once for each such pin.
pub(crate) fn lower_tallies(pin_groups: &PinGroups, tallies: &mut [Tally], group: u32, fall: u128)
    requires group { group < pin_groups.now.members.count }
    requires by_group { AreGroupChoices pin_groups.now }
    ensures { (cells : List CellParts) (xs : List Choice) (seen fallen : List ℕ) →
        AreUses cells xs pin_groups.now → HasFallen group fall seen fallen →
        AreTallies cells xs pin_groups.now seen tallies.old →
        AreTallies cells xs pin_groups.now fallen tallies.new }
{
    let first = pin_groups.by_group.starts[group as usize];
    let end = pin_groups.by_group.starts[group as usize + 1];
    for at in first..end {
        lower_tally(tallies, pin_groups.by_group.numbers[at], fall);
    }
}

// The tally of a choice at the start: the area of its cell, and `UNSEEN` for each pin.
fn first_tally(lib: &Library, row: &ListedChoice) -> Tally
    requires of_library { IsOfLibrary lib.now (plain_part row.now.stand) }
    requires few { pin_count (plain_part row.now.stand) ≤ 16 }
    ensures { IsFirstTally lib.now (plain_row row.now) result }
{
    let class = row.class;
    match &row.stand {
        Stand::Input(_) => Tally::new(0, class),
        Stand::Gate(gate) => {
            let area = lib.cell(gate.cell).area().0.min(MOST_AREA);
            let bound = area as u128 + gate.pins.len() as u128 * UNSEEN;
            Tally::new(bound, class)
        }
    }
}

// Lets the bound of the choice with this number fall.
fn lower_tally(tallies: &mut [Tally], number: u32, fall: u128)
    ensures { IsLowered tallies.old tallies.new number fall }
{
    let number = number as usize;
    if number >= tallies.len() {
        return;
    }
    let tally = tallies[number];
    tallies[number] = Tally::new(tally.bound().saturating_sub(fall), tally.class);
}
