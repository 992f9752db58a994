// Where the numbers of sides at classes are read from.
ghost use Rattle.std.specs.Prelude.{◌≡◌, ◌<◌, length};
ghost use Rattle.lw_bounds.specs.Shapes.{KindFits, SideFits};
ghost use Rattle.lw_bounds.specs.Numbers.{reading, no_reading, start_of, shifted, mark_number};
ghost use Rattle.lw_bounds.specs.Numbers.{part_number, class_below, kind_number, side_number};
ghost use Rattle.lw_bounds.specs.Numbers.{IsReading};
ghost use Rattle.lw_bounds.specs.declared.parts.Kind.TheVariants.{One};

use crate::parts::{Kind, Side};
use lw_cost::Mark;
use lw_pool::ClassId;

/// Where the row of a class would start that has none.
pub(crate) const NO_ROW: u32 = u32::MAX;

/// What the numbers of sides at classes are read from: the class of true, the marks of the classes,
/// where the row of each class starts, and the numbers of the parts in these rows.
#[derive(Clone, Copy)]
pub struct Numbers<'a> {
    pub one: ClassId,
    pub marks: &'a [Option<Mark>],
    pub width: usize,
    pub starts: &'a [u32],
    pub numbers: &'a [u64],
}

impl<'a> Numbers<'a> {
    /// What nothing is read from.
    pub(crate) fn none() -> Numbers<'a>
        ensures { reading result ≡ no_reading }
    {
        Numbers {
            one: ClassId(0),
            marks: &[],
            width: 0,
            starts: &[],
            numbers: &[],
        }
    }
}

/// Where the row of a class starts in the table of numbers, `NO_ROW` if it has none.
pub(crate) fn start_of(starts: &[u32], class: ClassId) -> u32
    ensures { result ≡ start_of starts.now class.0 }
{
    let place = class.0 as usize;
    if place < starts.len() {
        starts[place]
    } else {
        NO_ROW
    }
}

/// A number with its shift. What is `u64::MAX` stays so, and nothing else becomes it.
pub fn shifted(number: u64, shift: u64) -> u64
    ensures { result ≡ shifted number shift }
{
    number.saturating_add(shift).min(u64::MAX - 1).max(number)
}

/// The number of a pin: the cost of its class, and `u64::MAX` where the class has none.
pub(crate) fn mark_number(mark: Option<Mark>) -> u64
    ensures { result ≡ mark_number mark }
{
    match mark {
        Some(mark) => mark.cost.min(u64::MAX - 1),
        None => u64::MAX,
    }
}

/// The number of the constant true at a class: 0 at its own class, `u64::MAX` elsewhere.
pub(crate) fn one_number(at: Numbers, class: ClassId) -> u64
    ensures { result ≡ kind_number (reading at.entry) One class.0 }
{
    if class == at.one { 0 } else { u64::MAX }
}

/// The number of a part at a class, `u64::MAX` at a class without a row.
fn part_number(at: Numbers, part: u32, class: ClassId) -> u64
    requires reading { IsReading (reading at) }
    requires class { class.0 < length at.marks.now }
    requires part { part < at.width }
    ensures { result ≡ part_number (reading at.entry) part class.0 }
{
    let start = start_of(at.starts, class);
    if start == NO_ROW {
        return u64::MAX;
    }
    at.numbers[start as usize + part as usize]
}

/// The class at which the part of a side has to stand if the side stands at `class`: the complement
/// if the side has an inverter.
fn class_below(side: Side, class: ClassId) -> ClassId
    ensures { result.0 ≡ class_below side class.0 }
{
    if side.flipped { class.flip() } else { class }
}

/// The number that a side without its inverter has at a class, with its shift.
fn kind_number(at: Numbers, kind: Kind, class: ClassId) -> u64
    requires reading { IsReading (reading at) }
    requires class { class.0 < length at.marks.now }
    requires kind { KindFits at.width kind }
    ensures { result ≡ kind_number (reading at.entry) kind class.0 }
{
    match kind {
        Kind::Any => 0,
        Kind::Leaf(shift) => shifted(mark_number(at.marks[class.0 as usize]), shift),
        Kind::One => one_number(at, class),
        Kind::Joined(part, shift) => shifted(part_number(at, part, class), shift),
    }
}

/// The number of a side at a class: what its pins cost at least, with their gaps, if it stands
/// there.
pub fn side_number(at: Numbers, side: Side, class: ClassId) -> u64
    requires reading { IsReading (reading at) }
    requires class { class.0 < length at.marks.now }
    requires side { SideFits at.width side }
    ensures { result ≡ side_number (reading at.entry) side class.0 }
{
    kind_number(at, side.kind, class_below(side, class))
}
