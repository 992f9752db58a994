// What is wrong with a file.
ghost use Rattle.std.specs.Prelude.{◌++◌, []};
ghost use Rattle.lw_io.specs.Writers.{Writes};
ghost use Rattle.lw_files.specs.Faults.{fault_text};
ghost use Rattle.lw_shown.specs.Shown.{shown};
ghost use Rattle.lw_shown.specs.Faults.{named, shown_fault};

use crate::bytes::put_shown;
use lw_files::{FileFault, put_fault};
use lw_io::{Sink, Writer};

/// A name, what is said of it, and another name.
pub fn put_named<S: Sink>(out: &mut Writer<'_, S>, first: &[u8], what: &[u8], second: &[u8])
    ensures { Writes S.taken S.faults out.old out.new (named first.now what.now second.now) }
{
    put_shown(out, first);
    out.put(what);
    put_shown(out, second);
}

/// A name, what is said of it, another name, and what is said behind that.
pub fn put_behind<S: Sink>(
    out: &mut Writer<'_, S>,
    first: &[u8],
    what: &[u8],
    second: &[u8],
    behind: &[u8],
)
    ensures { Writes S.taken S.faults out.old out.new
        (named first.now what.now second.now ++ behind.now) }
{
    put_named(out, first, what, second);
    out.put(behind);
}

// A fault whose text names nothing but its file.
fn put_plain_fault<S: Sink>(out: &mut Writer<'_, S>, file: &[u8], fault: &FileFault)
    ensures { Writes S.taken S.faults out.old out.new
        (shown file.now ++ fault_text [] fault.now) }
{
    put_shown(out, file);
    put_fault(out, b"", fault);
}

/// What is wrong with the file that this word names.
pub fn put_shown_fault<S: Sink>(out: &mut Writer<'_, S>, file: &[u8], fault: &FileFault)
    ensures { Writes S.taken S.faults out.old out.new (shown_fault file.now fault.now) }
{
    match fault {
        FileFault::Unread => put_named(out, b"", b"cannot read ", file),
        FileFault::TooLong => put_behind(out, b"", b"limit: ", file, TOO_LONG),
        FileFault::Undefined(s) => put_named(out, file, b": undefined signal ", s.as_bytes()),
        FileFault::Cycle(s) => put_named(out, file, b": cycle through ", s.as_bytes()),
        FileFault::NetCycle(s) => put_named(out, file, b": cycle through ", s.as_bytes()),
        FileFault::Twice(s) => put_behind(out, file, b": net ", s.as_bytes(), b" driven twice"),
        FileFault::Undriven(s) => put_behind(out, file, b": net ", s.as_bytes(), b" not driven"),
        FileFault::Library(..) => put_plain_fault(out, file, fault),
        FileFault::Network(..) => put_plain_fault(out, file, fault),
        FileFault::Mapped(..) => put_plain_fault(out, file, fault),
        FileFault::Memory => put_fault(out, b"", fault),
    }
}

const TOO_LONG: &[u8] = b" has more than 67108864 bytes";
