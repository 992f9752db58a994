// What is done with moves and curves: which covers to begin with, in which order, and what is kept.
use crate::cover::{Cover, Kept, Root};
use crate::curves::Curves;
use crate::drawing::Nodes;
use crate::matches::{Gates, NONE};
use crate::moves::{Limits, Moves, Want};
use crate::stock::Stock;
use lw_cost::{Mark, Match};
use lw_genlib::Library;
use lw_graph::Graph;
use lw_kinds::{Space, Table};
use lw_pattern::Patterns;
use std::alloc::{AllocError, Global};

/// How much is tried.
#[derive(Clone, Copy, PartialEq, Eq)]
pub enum Effort {
    /// Passes alone.
    Passes,
    /// Curves, and rounds of covers drawn from them.
    Curves,
    /// Passes by chance, too.
    Chance,
}

const LIMITS: Limits = Limits {
    steps: 200,
    tries: 32,
    depth: 16,
    asked: 200,
};

/// Steps of the walk for one kind by which matches are put in stock.
const STOCK_STEPS: u32 = 20;

/// Rounds of draws from each start, and passes after each draw.
const ROUNDS: u32 = 2;

const PASSES: u32 = 2;

/// Passes over the first cover.
const FIRST_PASSES: u32 = 4;

/// Passes by chance, at most and at least; between these as many as make so many steps together.
const MOST_HEATS: u64 = 400;

const LEAST_HEATS: u64 = 20;

const HEAT_STEPS: u64 = 100_000_000;

/// Passes go on while they bring one part of so many.
const PART: u64 = 500;

/// The moves, and the least cover in time that was met.
#[derive(Drop)]
struct Recovery<'a> {
    moves: Moves<'a>,
    best: Kept,
    /// The latest that anything may arrive.
    horizon: u64,
}

/// What covers are drawn from: matches in stock, and the gates of networks.
#[derive(Drop)]
struct Sources {
    stock: Stock,
    owns: Vec<Table<u32>>,
}

impl<'a> Recovery<'a> {
    // Begins with the present cover, which is in time.
    fn new(moves: Moves<'a>) -> Result<Self, AllocError> {
        let cover = &moves.cover;
        let area = cover.area()?;
        let sel = cover.copy_sel()?;
        let mut horizon = 0;
        for root in &cover.roots {
            horizon = root.time.max(horizon);
        }
        Ok(Recovery {
            moves,
            best: Kept { area, sel },
            horizon,
        })
    }

    // Keeps the present cover, if it is the least so far and in time.
    fn keep(&mut self) -> Result<(), AllocError> {
        let area = self.moves.cover.area()?;
        if self.moves.sound && area < self.best.area && self.moves.cover.is_in_time() {
            self.best.area = area;
            self.best.sel.copy(&self.moves.cover.sel);
        }
        Ok(())
    }

    // Takes a cover, if it has no cycle.
    fn adopt(&mut self, sel: &Table<u32>) -> Result<bool, AllocError> {
        let adopted = self.moves.cover.adopt(sel)?;
        if adopted {
            self.moves.sound = true;
        }
        Ok(adopted)
    }

    fn passes(&mut self, most: u32, curves: Option<&Curves>) -> Result<(), AllocError> {
        self.moves.passes(most, PART, curves)?;
        self.keep()
    }

    // How often each class is used, at least once, in parts of 256.
    fn uses(&self) -> Result<Table<u32>, AllocError> {
        let mut uses = self.moves.cover.copy_refs()?;
        for number in 0..uses.len() {
            let count = uses.get(number).clamp(1, 1 << 20);
            uses.set(number, count * 256);
        }
        Ok(uses)
    }

    // Uses between those of the last cover and those before.
    fn average(&self, uses: &mut Table<u32>) {
        for number in 0..uses.len() {
            let now = self.moves.cover.refs.get(number).min(1 << 20) * 256;
            let both = uses.get(number).min(1 << 30).saturating_add(now) / 2;
            uses.set(number, both.max(256));
        }
    }

    // Covers drawn from curves, and passes over each: the curves, each round's in the place of the
    // one's before.
    fn rounds(&mut self, of: &Sources, first: Curves) -> Result<Curves, AllocError> {
        let mut curves = first;
        let mut uses = self.uses()?;
        for _ in 0..ROUNDS {
            let cover = &mut self.moves.cover;
            curves = cover.again(&of.stock, &curves, &of.owns, &uses, self.horizon)?;
            let sel = cover.draw(&curves)?;
            if !self.adopt(&sel)? {
                break;
            }
            self.passes(PASSES, Some(&curves))?;
            self.average(&mut uses);
        }
        Ok(curves)
    }

    // The gates of a network, those of others where it has none, and else the fastest.
    fn own_cover(&mut self, owns: &[Table<u32>], place: usize) -> Result<Table<u32>, AllocError> {
        let cover = &mut self.moves.cover;
        let classes = cover.sel.len() as usize;
        let mut sel = Table::new(cover.alloc, classes, NONE)?;
        let mut stack = Vec::new(cover.alloc);
        for root in &cover.roots {
            stack.push(root.class)?;
        }
        for _ in 0..cover.most_steps() {
            let Some(class) = stack.pop() else {
                break;
            };
            if sel.get(class.0) != NONE || cover.space.is_leaf(class) {
                continue;
            }
            let chosen = match chosen_in(owns, place, class.0) {
                NONE => cover.fastest(class)?,
                chosen => chosen,
            };
            sel.set(class.0, chosen);
            let of = cover.matches.get(chosen);
            for leg in of.first..of.end {
                stack.push(cover.matches.leg(leg).class)?;
            }
        }
        Ok(sel)
    }

    // Takes the cover of a network's own gates, which is small and mostly late. In time or not, its
    // uses are what the next curves begin with. Whether it is a cover.
    fn start_own(&mut self, owns: &[Table<u32>], place: usize) -> Result<bool, AllocError> {
        let sel = self.own_cover(owns, place)?;
        if !self.adopt(&sel)? {
            return Ok(false);
        }
        if self.moves.cover.is_in_time() {
            self.passes(PASSES, None)?;
        }
        Ok(true)
    }

    // Takes the best cover again.
    fn take_best(&mut self) -> Result<bool, AllocError> {
        let adopted = self.moves.cover.adopt(&self.best.sel)?;
        self.moves.sound = adopted;
        Ok(adopted)
    }

    // How many passes by chance there are, where one makes so many steps.
    fn heats(&self, steps: u64) -> u64 {
        let breadth = u64::from(self.moves.cover.space.breadth().max(1));
        let most = (HEAT_STEPS / steps.max(1)).min(MOST_HEATS / breadth);
        most.max(LEAST_HEATS)
    }

    // A pass by chance. Whether the cover is one afterwards.
    fn heat(&mut self, pass: u64, curves: Option<&Curves>) -> Result<bool, AllocError> {
        self.moves.chance.begin(pass);
        self.moves.pass(pass % 2 == 1, Want::Heat, curves)?;
        if pass % 20 == 19 {
            self.keep()?;
        }
        Ok(self.moves.sound || self.take_best()?)
    }

    // Passes by chance from the best, cooling; then passes that only gain.
    fn anneal(&mut self, curves: Option<&Curves>) -> Result<(), AllocError> {
        let space = self.moves.cover.space;
        let unit = space
            .inverter
            .map_or(space.least_other, |inverter| inverter.area);
        if !self.take_best()? {
            return Ok(());
        }
        self.moves.chance.warm(unit, 1);
        let before = self.moves.spent;
        if !self.heat(0, curves)? {
            return Ok(());
        }
        let passes = self.heats(self.moves.spent.saturating_sub(before));
        self.moves.chance.warm(unit, passes);
        for pass in 1..passes {
            self.moves.chance.cool();
            if !self.heat(pass, curves)? {
                return Ok(());
            }
        }
        self.passes(4, curves)
    }

    // Curves and rounds, from the present cover and from the networks' own gates; passes alone,
    // from the same cover; then chance.
    fn curves(&mut self, effort: Effort, networks: &[Nodes]) -> Result<(), AllocError> {
        let uses = self.uses()?;
        let cover = &mut self.moves.cover;
        let start = cover.copy_sel()?;
        let mut owns = Vec::new(cover.alloc);
        let (stock, first) = cover.stock(&uses, STOCK_STEPS, self.horizon)?;
        if effort == Effort::Chance {
            for nodes in networks {
                owns.push(cover.own(nodes)?)?;
            }
        }
        let sources = Sources { stock, owns };
        let mut last = self.rounds(&sources, first)?;
        for place in 0..sources.owns.len() {
            if self.start_own(&sources.owns, place)? {
                last = self.rounds(&sources, last)?;
            }
        }
        if self.adopt(&start)? {
            self.passes(FIRST_PASSES, None)?;
        }
        drop(start);
        if effort == Effort::Chance {
            self.anneal(Some(&last))?;
        }
        Ok(())
    }
}

// The match of a class in the first of some covers, or else in any of them.
fn chosen_in(owns: &[Table<u32>], place: usize, number: u32) -> u32 {
    let own = owns.get(place).map_or(NONE, |own| own.get(number));
    if own != NONE {
        return own;
    }
    for other in owns {
        if other.get(number) != NONE {
            return other.get(number);
        }
    }
    NONE
}

/// A smaller cover of the roots, each by its time, which is no earlier than its label. None where
/// no cover was found. The networks are what the graph was made of.
pub fn recover(
    alloc: Global,
    graph: &Graph,
    lib: &Library,
    pats: &Patterns,
    marks: &[Option<Mark>],
    attained: &[Option<Match>],
    roots: &[Root],
    networks: &[Nodes],
    effort: Effort,
) -> Result<Option<Gates>, AllocError> {
    let space = Space::new(alloc, graph, lib, pats, marks)?;
    let mut cover = Cover::new(alloc, &space, attained, roots)?;
    if !cover.start()? {
        return Ok(None);
    }
    let mut recovery = Recovery::new(Moves::new(cover, LIMITS)?)?;
    match effort {
        Effort::Passes => recovery.passes(FIRST_PASSES, None)?,
        _ => recovery.curves(effort, networks)?,
    }
    if !recovery.take_best()? {
        return Ok(None);
    }
    Ok(Some(recovery.moves.cover.listed()?))
}
