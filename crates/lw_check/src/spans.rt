// Where the patterns of a cell stand among all.
ghost use Rattle.std.specs.Prelude.{◌≤◌, ◌<◌, ◌+◌, IfOk};
ghost use Rattle.lw_check.specs.Spans.{AreSpans, IsWith, HasCellsBelow};
ghost use Rattle.lw_pool.specs.Numbers.{most_signals};

use lw_pattern::Patterns;
use lw_pool::PatId;
use std::alloc::{AllocError, Global};

// Places in a row, from the first to one before the end.
#[derive(Clone, Copy)]
pub(crate) struct Span {
    pub(crate) first: u32,
    pub(crate) end: u32,
}

impl Span {
    // This span with a place after it: an empty one begins there, and another goes on to it.
    fn with(self, place: u32) -> Span
        requires behind { self.end ≤ place }
        requires few { place ≤ most_signals }
        ensures { IsWith self place result }
    {
        let first = if self.first < self.end {
            self.first
        } else {
            place
        };
        Span {
            first,
            end: place + 1,
        }
    }
}

// For each of so many cells the span from its first pattern to its last, which is empty without
// one.
pub(crate) fn spans_of(
    alloc: Global,
    cells: usize,
    pats: &Patterns,
) -> Result<Vec<Span>, AllocError>
    requires { HasCellsBelow cells pats.now }
    ensures { IfOk result (λ spans. AreSpans cells pats.now spans.items) }
{
    let mut spans = vec![in alloc; Span { first: 0, end: 0 }; cells]?;
    for number in 0..pats.len() {
        let cell = pats.get(PatId(number)).cell.0 as usize;
        spans[cell] = spans[cell].with(number);
    }
    Ok(spans)
}
