// Bytes as a line shows them.
ghost use Rattle.std.specs.Prelude.{◌≡◌, ◌<◌};
ghost use Rattle.lw_io.specs.Writers.{Writes};
ghost use Rattle.lw_shown.specs.Shown.{is_escaped, hex_digit, shown_byte, shown};

use lw_io::{Sink, Writer};

// A byte that a terminal would take for an order, and the backslash, with which those are written.
fn is_escaped(byte: u8) -> bool
    ensures { result ≡ is_escaped byte }
{
    byte < 32 || byte == 92 || byte == 127
}

fn hex_digit(value: u8) -> u8
    requires { value < 16 }
    ensures { result ≡ hex_digit value }
{
    if value < 10 { 48 + value } else { 87 + value }
}

// Such a byte as `\x` and two digits, and any other as it is.
fn put_byte<S: Sink>(out: &mut Writer<'_, S>, byte: u8)
    ensures { Writes S.taken S.faults out.old out.new (shown_byte byte) }
{
    if is_escaped(byte) {
        out.put(&[92, 120, hex_digit(byte / 16), hex_digit(byte % 16)]);
    } else {
        out.put(&[byte]);
    }
}

/// Puts bytes, the control bytes and backslashes among them escaped.
pub fn put_shown<S: Sink>(out: &mut Writer<'_, S>, bytes: &[u8])
    ensures { Writes S.taken S.faults out.old out.new (shown bytes.now) }
{
    for byte in bytes {
        put_byte(out, *byte);
    }
}
