// The table of bounds: what the pins of parts of patterns cost at least, class by class.
ghost use Rattle.std.specs.Prelude.{◌≡◌, ◌<◌, ◌≤◌, ◌*◌, ℕ, List, [], IfOk, IsTrue, IsFalse, length};
ghost use Rattle.std.specs.Prelude.{slice_index};
ghost use Rattle.lw_laws.specs.Covers.{Pattern as TreeOfCell};
ghost use Rattle.lw_bounds.specs.Numbers.{most_numbers};

use crate::cuts::Cuts;
use crate::gaps::{all_guesses, no_gaps};
use crate::lowering::Plan;
use crate::making::{
    RootLists, Rows, Sides, bare_patterns, lists_by, row_count, rows_by, sides_by,
};
use crate::numbers::{NO_ROW, Numbers, start_of};
use crate::renewing::{Renewal, put_row, renew_parts};
use lw_cost::{Cost, Mark};
use lw_graph::Graph;
use lw_pattern::Patterns;
use lw_pool::{ClassId, PatId};
use std::alloc::{AllocError, Global};
use std::marker::Model;

/// The most numbers that a table has.
const MOST_NUMBERS: u32 = 67108864;

// How many parts may have numbers, so that a table of so many rows has at most `MOST_NUMBERS`.
fn room_for(rows: u32) -> u32
    ensures room { result * rows ≤ most_numbers }
    ensures few { result ≤ most_numbers }
{
    MOST_NUMBERS / rows.max(1)
}

/// Numbers of the parts of patterns at the classes of a graph: what a pin costs at least, with what
/// its gap is above the part's shift, where a part stands there. Where it stands nowhere, or by
/// pins without marks alone, the number is `u64::MAX`; a class without pairs has no numbers.
#[derive(Drop)]
pub struct Bounds {
    gaps: Vec<[u64; 16]>,
    sides: Sides,
    roots: RootLists,
    rows: Rows,
    // the patterns without NANDs
    bare: Vec<PatId>,
}

impl Model for Bounds {
    ghost use Rattle.std.specs.Prelude.{map};
    ghost use Rattle.lw_bounds.specs.Bounds.{BoundsState};
    ghost use Rattle.lw_bounds.specs.Places.{HasRoom};

    ghost Value = { BoundsState };

    ghost view = { λ b. record {
      parts = b.sides.parts.keys;
      gaps = b.gaps.items;
      sides = map (λ side. side.items) b.sides.all.items;
      roots = b.sides.roots.items;
      starts = b.rows.starts.items;
      numbers = b.rows.numbers.items;
    } };

    ghost invariant = { λ b. HasRoom b.sides.parts.keys b.rows.groups.items b.rows.least.items
        b.sides.roots.items b.roots.leaf.items b.roots.row.items b.roots.other.items };
}

impl Bounds {
    ghost use Rattle.lw_graph.specs.Graphs.{IsGraph};
    ghost use Rattle.lw_bounds.specs.Bounds.{BoundsFit, AreApart, AreLowered, AreRows};
    ghost use Rattle.lw_bounds.specs.Bounds.{AreSettledAt, AreZero, IsFreshTable, IsTableBut};
    ghost use Rattle.lw_bounds.specs.Bounds.{bounds_reading, bounds_weight, with_numbers};
    ghost use Rattle.lw_bounds.specs.HeightBounds.{AreFlat};
    ghost use Rattle.lw_bounds.specs.Numbers.{AreStarts, never, no_reading, number_from, start_of};
    ghost use Rattle.lw_bounds.specs.Cuts.{cuts_state};
    ghost use Rattle.lw_cost.specs.Least.{AreOfCells};
    ghost use Rattle.lw_bounds.specs.Places.{AreRootsListed};

    /// A table whose numbers are all 0, so that it is one of bounds. All memory is taken here.
    /// Where there would be too many numbers, only the first parts have some.
    pub fn new<C: Cost>(
        alloc: Global,
        graph: &Graph,
        pats: &Patterns,
        cost: &C,
    ) -> Result<Bounds, AllocError>
        requires { AreOfCells (C.costs cost.now).pin_counts pats.now }
        ensures fits { IfOk result (λ b. BoundsFit b pats.now graph.now) }
        ensures zero { IfOk result (λ b. AreZero b.numbers) }
    {
        let gaps = all_guesses(alloc, pats, cost)?;
        Bounds::with_gaps(alloc, graph, pats, gaps)
    }

    /// A table for heights whose numbers are all 0: what a match has above its pins is one,
    /// whichever the pin, so no pin has a gap.
    pub fn of_heights(alloc: Global, graph: &Graph, pats: &Patterns) -> Result<Bounds, AllocError>
        ensures fits { IfOk result (λ b. BoundsFit b pats.now graph.now) }
        ensures zero { IfOk result (λ b. AreZero b.numbers) }
        ensures gaps { IfOk result (λ b. AreFlat b.gaps) }
    {
        let gaps = no_gaps(alloc, pats)?;
        Bounds::with_gaps(alloc, graph, pats, gaps)
    }

    // A table with these gaps, whose numbers are all 0.
    fn with_gaps(
        alloc: Global,
        graph: &Graph,
        pats: &Patterns,
        gaps: Vec<[u64; 16]>,
    ) -> Result<Bounds, AllocError>
        ensures { IfOk result (IsFreshTable pats.now graph.now gaps.items) }
    {
        let room = room_for(row_count(graph)) as usize;
        let _ = pats.len();
        let bare = bare_patterns(alloc, pats)?;
        let sides = sides_by(alloc, room, &gaps, pats)?;
        let roots = lists_by(alloc, &sides.roots)?;
        let rows = rows_by(alloc, graph, sides.parts.as_slice())?;
        Ok(Bounds {
            gaps,
            sides,
            roots,
            rows,
            bare,
        })
    }

    /// Lets the numbers of a class fall to what its pairs give now, and says whether one fell. It
    /// takes no memory.
    pub fn renew(&mut self, graph: &Graph, marks: &[Option<Mark>], class: ClassId) -> bool
        requires class { class.0 < length graph.now.pairs }
        requires one_each { length marks.now ≡ length graph.now.pairs }
        requires rows { AreRows self.old.parts self.old.starts self.old.numbers graph.now }
        ensures fits { (pats : List TreeOfCell) → BoundsFit self.old pats graph.now →
            BoundsFit self.new pats graph.now }
        ensures falls { IsTrue result → bounds_weight self.new < bounds_weight self.old }
        ensures same { IsFalse result → self.new ≡ self.old }
        ensures settled { IsFalse result → AreSettledAt self.old graph.now marks.now class.0 }
        ensures never_rises { bounds_weight self.new ≤ bounds_weight self.old }
        ensures gaps { self.new.gaps ≡ self.old.gaps }
        ensures others { IsTableBut (λ c. c ≡ class.0) self.old self.new }
        ensures lowered { AreLowered graph.now (bounds_reading self.old graph.now marks.now)
            self.old.parts self.new.numbers class.0 }
    {
        let _ = graph.classes();
        let renewal = Renewal {
            graph,
            marks,
            starts: &self.rows.starts,
            class,
        };
        let plan = Plan {
            parts: self.sides.parts.as_slice(),
            groups: &self.rows.groups,
        };
        renew_parts(renewal, plan, &mut self.rows.least, &mut self.rows.numbers)
    }

    /// Puts the numbers of a class back to `u64::MAX`, from where they can fall.
    pub fn forget(&mut self, class: ClassId)
        requires rows { AreStarts (length self.old.parts) self.old.starts
            (length self.old.numbers) }
        requires apart { AreApart (length self.old.parts) self.old.starts }
        ensures others { IsTableBut (λ c. c ≡ class.0) self.old self.new }
        ensures never { (n : ℕ) → n < length self.old.parts →
            number_from self.new.numbers n (start_of self.old.starts class.0) ≡ never }
    {
        let start = start_of(&self.rows.starts, class);
        if start != NO_ROW {
            self.rows.least.fill(u64::MAX);
            put_row(&mut self.rows.numbers, start as usize, &self.rows.least);
        }
    }

    /// Puts the numbers of all classes back to `u64::MAX`.
    pub(crate) fn forget_all(&mut self)
        ensures size { length self.new.numbers ≡ length self.old.numbers }
        ensures table { self.new ≡ with_numbers self.old self.new.numbers }
        ensures never { (k : ℕ) → k < length self.new.numbers →
            slice_index self.new.numbers k ≡ never }
    {
        self.rows.numbers.fill(u64::MAX);
    }

    /// The patterns without NANDs.
    pub fn bare(&self) -> &[PatId] {
        &self.bare
    }

    /// A view of the table for searches: sides, roots, rows and gaps, all borrowed. A root is the
    /// side of a whole pattern; the lists `leaf_roots`, `row_roots` and `other_roots` go by where
    /// its number stands: in list 0, 1 or 2. What cuts by height stays empty till `with_heights`.
    pub fn cuts(&self) -> Cuts
        ensures state { cuts_state result ≡ record {
          sides = self.now.sides;
          roots = self.now.roots;
          width = length self.now.parts;
          starts = self.now.starts;
          numbers = self.now.numbers;
          gaps = self.now.gaps;
          height_sides = [];
          heights = no_reading;
        } }
        ensures roots { AreRootsListed result.roots.now result.leaf_roots.now result.row_roots.now
            result.other_roots.now }
    {
        Cuts {
            sides: &self.sides.all,
            roots: &self.sides.roots,
            leaf_roots: &self.roots.leaf,
            row_roots: &self.roots.row,
            other_roots: &self.roots.other,
            width: self.sides.parts.len(),
            starts: &self.rows.starts,
            numbers: &self.rows.numbers,
            gaps: &self.gaps,
            height_sides: &[],
            heights: Numbers::none(),
        }
    }
}
