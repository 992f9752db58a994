ghost use Rattle.std.specs.Prelude.{IfSome};
ghost use Rattle.lw_genlib.specs.Expects.{CanExpect, HasRoom, one_expect, one_open};

use crate::state_parts::{CellsSoFar, Entry, Expect};

/// What was read, and what is read next.
#[derive(Drop)]
pub(crate) struct ReaderState {
    pub(crate) so_far: CellsSoFar,
    pub(crate) expect: Expect,
    ghost kept: { CanExpect expect so_far.cells } by { one_expect expect so_far.cells },
}

/// The cells so far, where there is room for one more entry.
#[derive(Drop)]
pub(crate) struct CellsWithRoom {
    pub(crate) so_far: CellsSoFar,
    ghost room: { HasRoom so_far.cells },
}

/// The cells so far, and the entry whose pins may follow, if there is one.
#[derive(Drop)]
pub(crate) struct OpenCells {
    pub(crate) so_far: CellsSoFar,
    pub(crate) entry: Option<Entry>,
    ghost room: { IfSome entry (λ e. HasRoom so_far.cells) } by { one_open entry so_far.cells },
}
