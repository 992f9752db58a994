// The rows of tables.
ghost use Rattle.std.specs.Prelude.{◌≡◌, ◌+◌, ◌<◌, ◌≤◌, ◌^◌, [], length, take, if◌then◌else◌};
ghost use Rattle.std.specs.Int.{bit_at};
ghost use Rattle.lw_io.specs.Writers.{Writes};
ghost use Rattle.lw_lut.specs.Cuts.{is_set};
ghost use Rattle.lw_lut.specs.Texts.{binary, row, rows_from, table_rows, is_buffer};

use crate::cut::{PinCount, is_set, numbers_of};
use crate::table::Table;
use lw_io::{Sink, Writer};

// The digit of a bit.
fn digit(place: u32, bit: usize) -> u8
    requires { bit < 6 }
    ensures { result ≡ 48 + bit_at place bit }
{
    b'0' + ((place >> bit) & 1) as u8
}

// A number by so many bits, the highest first.
fn binary(bits: PinCount, place: u32) -> [u8; 6]
    ensures { take bits.count result ≡ binary bits.count place }
{
    let mut digits = [b'0'; 6];
    for k in 0..bits.count {
        digits[k] = digit(place, bits.count - 1 - k);
    }
    digits
}

// The row of a number.
fn put_row<S: Sink>(out: &mut Writer<'_, S>, bits: PinCount, place: u32)
    ensures { Writes S.taken S.faults out.old out.new (row bits.count place) }
{
    let count = bits.count;
    if count == 0 {
        out.put(b"1\n");
        return;
    }
    out.put(&binary(bits, place)[..count]);
    out.put(b" 1\n");
}

// A table with no more than six fan-ins.
#[derive(Clone, Copy)]
pub(crate) struct SmallTable<'a> {
    pub(crate) table: &'a Table,
    ghost few: { length table.now.fanins ≤ 6 },
}

// The row of a number, where its bit is set.
fn put_row_at<S: Sink>(out: &mut Writer<'_, S>, small: &SmallTable, place: u32)
    ensures { let table = small.now.table.now in
        Writes S.taken S.faults out.old out.new
        (if is_set table.bits place then row (length table.fanins) place else []) }
{
    let table = small.table;
    if is_set(table.bits, place) {
        let count = table.fanins.len();
        put_row(out, PinCount { count }, place);
    }
}

// The rows where the table is true.
fn put_true_rows<S: Sink>(out: &mut Writer<'_, S>, small: &SmallTable)
    ensures { let table = small.now.table.now in
        Writes S.taken S.faults out.old out.new (rows_from table 0 (2 ^ length table.fanins)) }
{
    let count = small.table.fanins.len();
    for place in 0..numbers_of(PinCount { count }) {
        put_row_at(out, small, place);
    }
}

// Whether the table has the value of its one fan-in.
fn is_buffer(table: &Table) -> bool
    ensures { result ≡ is_buffer table.now }
{
    table.fanins.len() == 1 && !is_set(table.bits, 0) && is_set(table.bits, 1)
}

pub(crate) fn put_rows<S: Sink>(out: &mut Writer<'_, S>, small: &SmallTable)
    ensures { Writes S.taken S.faults out.old out.new (table_rows small.now.table.now) }
{
    let table = small.table;
    if is_buffer(table) {
        out.put(b"0 0\n");
    } else {
        put_true_rows(out, small);
    }
}
