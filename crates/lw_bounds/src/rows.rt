// Lists of the numbers of sides at a class.
ghost use Rattle.std.specs.Prelude.{◌≡◌, ◌<◌, ℕ, length, slice_index_or};
ghost use Rattle.lw_bounds.specs.Numbers.{reading, never, shifted, part_number, IsReading};
ghost use Rattle.lw_bounds.specs.Places.{leaves_of, list_at, view_number, HasSides, IsRow, IsView};

use crate::numbers::{NO_ROW, Numbers, mark_number, one_number, shifted, start_of};
use crate::parts::{Kind, Side};
use lw_pool::ClassId;

/// The numbers of sides at a class: those of pins and constants, and the rows of the class and of
/// its complement, which are empty where there are none.
#[derive(Clone, Copy)]
pub struct View<'a> {
    pub leaves: &'a [u64],
    pub row: &'a [u64],
    pub other: &'a [u64],
}

/// The number of a part in a row, with a shift; `u64::MAX` if the row is empty.
pub fn row_number(row: &[u64], part: u32, shift: u64) -> u64
    ensures { result ≡ shifted (slice_index_or row.now part never) shift }
{
    let place = part as usize;
    if place < row.len() {
        shifted(row[place], shift)
    } else {
        u64::MAX
    }
}

/// The number of a side, read from the three lists of a class.
pub fn view_number(view: View, side: Side) -> u64
    requires { length view.leaves.now ≡ 5 }
    ensures { result ≡ view_number view.entry side }
{
    match side.kind {
        Kind::Joined(part, shift) => {
            let row = if side.flipped { view.other } else { view.row };
            row_number(row, part, shift)
        }
        Kind::Leaf(shift) => {
            let place = if side.flipped { 1 } else { 0 };
            shifted(view.leaves[place], shift)
        }
        Kind::One => {
            let place = if side.flipped { 3 } else { 2 };
            view.leaves[place]
        }
        Kind::Any => view.leaves[4],
    }
}

// The row of a class, which is empty where it has none.
fn row_at<'a>(at: Numbers<'a>, class: ClassId) -> &'a [u64]
    requires reading { IsReading (reading at) }
    requires class { class.0 < length at.marks.now }
    ensures row { IsRow at.entry.width result.now }
    ensures numbers { (n : ℕ) → n < at.entry.width →
        slice_index_or result.now n never ≡ part_number (reading at.entry) n class.0 }
{
    let start = start_of(at.starts, class);
    if start == NO_ROW {
        return &[];
    }
    let start = start as usize;
    &at.numbers[start..start + at.width]
}

/// List 0 of a class: the numbers of a pin, of an inverted pin, of true, of false, and of any tree.
pub fn leaves_at(at: Numbers, class: ClassId) -> [u64; 5]
    requires reading { IsReading (reading at) }
    requires class { class.0 < length at.marks.now }
    ensures { result ≡ leaves_of (reading at.entry) class.0 }
{
    let other = class.flip();
    let mark = at.marks[class.0 as usize];
    let other_mark = at.marks[other.0 as usize];
    [
        mark_number(mark),
        mark_number(other_mark),
        one_number(at, class),
        one_number(at, other),
        0,
    ]
}

/// The three lists of a class, given list 0.
pub fn view_at<'a>(at: Numbers<'a>, leaves: &'a [u64], class: ClassId) -> View<'a>
    requires reading { IsReading (reading at) }
    requires class { class.0 < length at.marks.now }
    requires leaves { leaves.now ≡ leaves_of (reading at) class.0 }
    ensures view { IsView at.entry.width result }
    ensures sides { HasSides (reading at.entry) class.0 result }
{
    View {
        leaves,
        row: row_at(at, class),
        other: row_at(at, class.flip()),
    }
}

/// One of the three lists: 0 the pins and constants, 1 the row of the class, 2 the row of its
/// complement.
pub fn list_at<'a>(view: View<'a>, list: u8) -> &'a [u64]
    ensures { result.now ≡ list_at view.entry list }
{
    match list {
        0 => view.leaves,
        1 => view.row,
        _ => view.other,
    }
}
