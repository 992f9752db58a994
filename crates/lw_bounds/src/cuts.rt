// What searches are cut by, as it is read from the tables of bounds.
ghost use Rattle.std.specs.Prelude.{◌≡◌, map, [], slice_index_or};
ghost use Rattle.lw_bounds.specs.Numbers.{reading};
ghost use Rattle.lw_bounds.specs.Cuts.{cuts_state, cuts_reading};
ghost use Rattle.lw_bounds.specs.NoCuts.{AreNoCuts};

use crate::numbers::Numbers;
use crate::parts::{Root, Side};
use lw_cost::Mark;
use lw_graph::Graph;
use lw_pool::PatId;

/// What searches are cut by. With no sides no search is cut.
#[derive(Clone, Copy)]
pub struct Cuts<'a> {
    /// The side that each node is, by pattern.
    pub sides: &'a [Vec<Side>],
    /// The side that the root is, by pattern.
    pub roots: &'a [Side],
    /// The roots that are pins or constants, whose numbers stand with those of the class.
    pub leaf_roots: &'a [Root],
    /// The roots whose numbers stand in the row of the class.
    pub row_roots: &'a [Root],
    /// The roots whose numbers stand in the row of the complement.
    pub other_roots: &'a [Root],
    /// How many numbers a row has: one for each part of the patterns.
    pub width: usize,
    /// Where the row of each class starts in the numbers.
    pub starts: &'a [u32],
    /// The numbers of the parts, row by row: what the pins of a part cost at least there.
    pub numbers: &'a [u64],
    /// What each pin is guessed to cost less than its cell, by pattern.
    pub gaps: &'a [[u64; 16]],
    /// The side that each node is in a second table, of the heights that pins have at least.
    pub height_sides: &'a [Vec<Side>],
    /// What the numbers of those sides are read from.
    pub heights: Numbers<'a>,
}

impl<'a> Cuts<'a> {
    /// Cuts by which no search is cut: all lists are empty.
    pub fn none() -> Cuts<'a>
        ensures { AreNoCuts result }
    {
        Cuts {
            sides: &[],
            roots: &[],
            leaf_roots: &[],
            row_roots: &[],
            other_roots: &[],
            width: 0,
            starts: &[],
            numbers: &[],
            gaps: &[],
            height_sides: &[],
            heights: Numbers::none(),
        }
    }
}

/// What the numbers of sides are read from.
pub fn numbers_of<'a>(graph: &Graph, marks: &'a [Option<Mark>], cuts: &Cuts<'a>) -> Numbers<'a>
    ensures { reading result ≡ cuts_reading (cuts_state cuts.now) graph.now marks.entry.now }
{
    Numbers {
        one: graph.one(),
        marks,
        width: cuts.width,
        starts: cuts.starts,
        numbers: cuts.numbers,
    }
}

/// The sides that the nodes of a pattern are, one for each node; an empty list where `all` has
/// none.
pub fn sides_at<'a>(all: &'a [Vec<Side>], pat: PatId) -> &'a [Side]
    ensures { result.now ≡ slice_index_or (map (λ sides. sides.items) all.now) pat.0 [] }
{
    match all.get(pat.0 as usize) {
        Some(sides) => sides.as_slice(),
        None => &[],
    }
}
