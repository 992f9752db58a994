// A writer: a sink with room for the bytes that wait, so that short pieces go out together.
ghost use Rattle.std.specs.Prelude.{◌≡◌, ◌≤◌, ◌+◌, ◌-◌, ◌++◌, [], false, length, take};
ghost use Rattle.lw_io.specs.Waitings.{Puts, Ends};
ghost use Rattle.lw_io.specs.declared.waiting.TheConstants.{ROOM};

use crate::{Failed, Sink, write_all};
use std::marker::Model;

// How many bytes wait at most.
const ROOM: usize = 2048;

// Bytes that wait to go to a sink, and whether it has failed. After that nothing more is given to
// it.
#[derive(Drop)]
pub(crate) struct Waiting {
    bytes: [u8; ROOM],
    used: usize,
    failed: bool,
    ghost fits: { used ≤ ROOM },
}

impl Model for Waiting {
    ghost use Rattle.std.specs.Prelude.{take};
    ghost use Rattle.lw_io.specs.Waitings.{Pending};

    ghost Value = { Pending };

    ghost view = { λ w. record { bytes = take w.used w.bytes; failed = w.failed } };
}

impl Waiting {
    // Nothing waits.
    pub(crate) fn new() -> Self
        ensures bytes { result.bytes ≡ [] }
        ensures failed { result.failed ≡ false }
    {
        Waiting {
            bytes: [0; ROOM],
            used: 0,
            failed: false,
        }
    }

    // Keeps a piece that there is room for.
    #[inline(always)]
    fn keep(&mut self, piece: &[u8])
        requires { length piece.now + length self.old.bytes ≤ ROOM }
        ensures bytes { self.new.bytes ≡ self.old.bytes ++ piece.now }
        ensures failed { self.new.failed ≡ self.old.failed }
    {
        self.bytes[self.used..self.used + piece.len()].copy_from_slice(piece);
        self.used += piece.len();
    }
}

// Gives the sink what waits.
fn flush<S: Sink>(sink: &mut S, waiting: &mut Waiting)
    ensures puts { Puts (S.taken sink.old) (S.faults sink.old) waiting.old (S.taken sink.new)
        (S.faults sink.new) waiting.new [] }
    ensures empty { waiting.new.failed ≡ false → waiting.new.bytes ≡ [] }
{
    if waiting.failed {
        return;
    }
    match write_all(sink, &waiting.bytes[..waiting.used]) {
        Ok(()) => waiting.used = 0,
        Err(Failed) => waiting.failed = true,
    }
}

// Puts a piece behind what was put before. It takes no memory.
#[inline(always)]
pub(crate) fn put<S: Sink>(sink: &mut S, waiting: &mut Waiting, piece: &[u8])
    ensures { Puts (S.taken sink.old) (S.faults sink.old) waiting.old (S.taken sink.new)
        (S.faults sink.new) waiting.new piece.now }
{
    if piece.len() <= ROOM - waiting.used {
        waiting.keep(piece);
        return;
    }
    put_over(sink, waiting, piece);
}

// Puts a piece for which there may be no room, out of the way of those that there is room for.
#[inline(never)]
fn put_over<S: Sink>(sink: &mut S, waiting: &mut Waiting, piece: &[u8])
    ensures { Puts (S.taken sink.old) (S.faults sink.old) waiting.old (S.taken sink.new)
        (S.faults sink.new) waiting.new piece.now }
{
    flush(sink, waiting);
    if piece.len() <= ROOM - waiting.used {
        waiting.keep(piece);
        return;
    }
    if waiting.failed {
        return;
    }
    put_through(sink, waiting, piece);
}

// Gives a long piece to the sink at once. Nothing waits.
fn put_through<S: Sink>(sink: &mut S, waiting: &mut Waiting, piece: &[u8])
    requires open { waiting.old.failed ≡ false }
    requires empty { waiting.old.bytes ≡ [] }
    ensures { Puts (S.taken sink.old) (S.faults sink.old) waiting.old (S.taken sink.new)
        (S.faults sink.new) waiting.new piece.now }
{
    match write_all(sink, piece) {
        Ok(()) => {}
        Err(Failed) => waiting.failed = true,
    }
}

// Gives the sink what waits, and says whether it took all that was put.
pub(crate) fn end<S: Sink>(sink: &mut S, waiting: &mut Waiting) -> Result<(), Failed>
    ensures { Ends (S.taken sink.old) (S.faults sink.old) waiting.old (S.taken sink.new)
        (S.faults sink.new) result }
{
    flush(sink, waiting);
    if waiting.failed {
        return Err(Failed);
    }
    Ok(())
}
