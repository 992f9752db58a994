// The pairs of each class, in a pool of those of all classes.
ghost use Rattle.std.specs.Prelude.{◌≡◌, ◌<◌, ◌^◌, length, slice_index};
ghost use Rattle.std.specs.List.{slice_range};
ghost use Rattle.lw_graph.specs.Rows.{AreEnds, one_cut, start_at};

use crate::Pair;
use lw_pool::{PairId, Pool};

// The pairs of all classes, one class after the other, and where those of each class end. Numbers
// of 32 bits count the classes.
#[derive(Clone, Copy)]
pub(crate) struct Parts<'a> {
    pub(crate) pairs: &'a Pool<PairId, Pair>,
    pub(crate) ends: &'a [u32],
    ghost cut: { AreEnds (length pairs.now.items) 0 ends.now } by { one_cut
        (length pairs.now.items) 0 ends.now },
    ghost few: { length ends.now < 2 ^ 32 },
}

impl<'a> Parts<'a> {
    // The pairs of a class, which start where those of the class before it end.
    pub(crate) fn row(&self, class: usize) -> &'a [Pair]
        requires { class < length self.now.ends.now }
        ensures { result.now ≡ slice_range self.now.pairs.now.items
            (start_at 0 self.now.ends.now class) (slice_index self.now.ends.now class) }
    {
        let start = if class == 0 { 0 } else { self.ends[class - 1] };
        self.pairs.part(start, self.ends[class] - start)
    }
}
