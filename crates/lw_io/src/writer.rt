// A sink that is written piece by piece.
ghost use Rattle.lw_io.specs.Writers.{Begins, Writes, Ended};

use crate::waiting::{Waiting, end, put};
use crate::{Failed, Sink};

/// A sink that is written piece by piece, with a room before it, so that short pieces go out
/// together. Once the sink has failed nothing more is given to it.
#[derive(Drop)]
pub struct Writer<'a, S: Sink> {
    sink: &'a mut S,
    waiting: Waiting,
}

impl<'a, S: Sink> Writer<'a, S> {
    /// Nothing is put yet.
    pub fn new(sink: &'a mut S) -> Self
        ensures { Begins sink.entry result }
    {
        Writer {
            sink,
            waiting: Waiting::new(),
        }
    }

    /// Puts a piece behind what was put before. It takes no memory.
    #[inline(always)]
    pub fn put(&mut self, piece: &[u8])
        ensures { Writes S.taken S.faults self.old self.new piece.now }
    {
        put(self.sink, &mut self.waiting, piece);
    }

    /// Gives the sink what waits, and says whether it took all that was put.
    pub fn end(&mut self) -> Result<(), Failed>
        ensures { Ended S.taken S.faults self.old self.new result }
    {
        end(self.sink, &mut self.waiting)
    }
}
