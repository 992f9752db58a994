// Pieces of a text, put one after another.
ghost use Rattle.std.specs.Prelude.{◌++◌, decimal};
ghost use Rattle.lw_fixed.specs.Printed.{decimal_text};
ghost use Rattle.lw_io.specs.Writers.{Writes};

use itoa::Buffer;
use lw_fixed::{Micro, print};
use lw_io::{Sink, Writer};

/// Writes a whole number in decimal.
pub fn put_number<S: Sink>(out: &mut Writer<'_, S>, number: u128)
    ensures { Writes S.taken S.faults out.old out.new (decimal number) }
{
    let mut digits = Buffer::new();
    out.put(digits.format(number).as_bytes());
}

/// Writes a time, which is in millionths, as a decimal in units.
pub fn put_time<S: Sink>(out: &mut Writer<'_, S>, time: Micro)
    ensures { Writes S.taken S.faults out.old out.new (decimal_text time.0) }
{
    let mut text = [0; 21];
    let count = print(time, &mut text);
    out.put(&text[..count]);
}

/// Writes two pieces, one after the other.
pub fn put_two<S: Sink>(out: &mut Writer<'_, S>, first: &[u8], second: &[u8])
    ensures { Writes S.taken S.faults out.old out.new (first.now ++ second.now) }
{
    out.put(first);
    out.put(second);
}

/// Writes three pieces, one after another.
pub fn put_three<S: Sink>(out: &mut Writer<'_, S>, first: &[u8], second: &[u8], third: &[u8])
    ensures { Writes S.taken S.faults out.old out.new (first.now ++ (second.now ++ third.now)) }
{
    out.put(first);
    put_two(out, second, third);
}

/// Writes four pieces, one after another.
pub fn put_four<S: Sink>(
    out: &mut Writer<'_, S>,
    first: &[u8],
    second: &[u8],
    third: &[u8],
    fourth: &[u8],
)
    ensures { Writes S.taken S.faults out.old out.new
        (first.now ++ (second.now ++ (third.now ++ fourth.now))) }
{
    out.put(first);
    put_three(out, second, third, fourth);
}

/// Writes a piece, a number in decimal after it, and another piece.
pub fn put_count<S: Sink>(out: &mut Writer<'_, S>, before: &[u8], number: u128, behind: &[u8])
    ensures { Writes S.taken S.faults out.old out.new
        (before.now ++ (decimal number ++ behind.now)) }
{
    out.put(before);
    put_number(out, number);
    out.put(behind);
}
