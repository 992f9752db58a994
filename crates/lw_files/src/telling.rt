// The text of each fault.
ghost use Rattle.lw_io.specs.Writers.{Writes};
ghost use Rattle.lw_files.specs.Faults.{broken_text, fault_text};

use crate::FileFault;
use crate::kinds::{blif_text, lib_text, mapped_kind_text};
use crate::putting::{put_four, put_number, put_three, put_two};
use lw_io::{Sink, Writer};

/// Writes that a line of a file breaks a rule: `file` is the word for the file, `number` that of
/// the line, from 1, and `text` that of the rule.
pub fn put_broken<E: Sink>(out: &mut Writer<'_, E>, file: &[u8], number: u32, text: &[u8])
    ensures { Writes E.taken E.faults out.old out.new (broken_text file.now number text.now) }
{
    out.put(file);
    out.put(b" line ");
    put_number(out, u128::from(number));
    out.put(b": ");
    out.put(text);
}

/// Writes what is wrong with the file that the word `file` names.
pub fn put_fault<E: Sink>(out: &mut Writer<'_, E>, file: &[u8], fault: &FileFault)
    ensures { Writes E.taken E.faults out.old out.new (fault_text file.now fault.now) }
{
    match fault {
        FileFault::Unread => put_two(out, b"cannot read ", file),
        FileFault::TooLong => put_three(out, LIMIT, file, TOO_LONG),
        FileFault::Library(n, kind) => put_broken(out, file, *n, lib_text(kind)),
        FileFault::Network(n, kind) => put_broken(out, file, *n, blif_text(kind)),
        FileFault::Undefined(s) => put_three(out, file, UNDEFINED, s.as_bytes()),
        FileFault::Cycle(s) => put_three(out, file, CYCLE, s.as_bytes()),
        FileFault::Mapped(n, kind) => put_broken(out, file, *n, mapped_kind_text(kind)),
        FileFault::Twice(net) => put_four(out, file, NET, net.as_bytes(), TWICE),
        FileFault::Undriven(net) => put_four(out, file, NET, net.as_bytes(), UNDRIVEN),
        FileFault::NetCycle(net) => put_three(out, file, CYCLE, net.as_bytes()),
        FileFault::Memory => out.put(b"out of memory"),
    }
}

const LIMIT: &[u8] = b"limit: ";

const TOO_LONG: &[u8] = b" has more than 67108864 bytes";

const UNDEFINED: &[u8] = b": undefined signal ";

const CYCLE: &[u8] = b": cycle through ";

const NET: &[u8] = b": net ";

const TWICE: &[u8] = b" driven twice";

const UNDRIVEN: &[u8] = b" not driven";
