// What a table of bounds is made of.
ghost use Rattle.std.specs.Prelude.{◌≡◌, ◌<◌, ◌≤◌, ◌^◌, length, IfOk, ◌*◌};
ghost use Rattle.lw_bounds.specs.Making.{AreFew, AreFreshRows, AreSidesOf, rows_in};
ghost use Rattle.lw_bounds.specs.Places.{AreRootsListed};
ghost use Rattle.lw_pattern.specs.Listed.{most_patterns};
ghost use Rattle.lw_bounds.specs.Numbers.{AreStarts, most_numbers};
ghost use Rattle.lw_bounds.specs.Bounds.{AreApart, AreBare};

use crate::numbers::NO_ROW;
use crate::parts::{Group, Part, Root, Side};
use crate::places::{groups_of, roots_in};
use crate::shapes::{Parts, all_sides, root_sides};
use indexmap::IndexSet;
use lw_graph::Graph;
use lw_pattern::{PatNode, Patterns};
use lw_pool::{ClassId, PatId};
use std::alloc::{AllocError, Global};

/// The parts of patterns, and the sides that all their nodes and their roots are.
#[derive(Drop)]
pub(crate) struct Sides {
    pub parts: IndexSet<Part>,
    pub all: Vec<Vec<Side>>,
    pub roots: Vec<Side>,
}

/// The roots of patterns, in lists by where their numbers stand: with those of pins and constants,
/// in the row of the class, and in that of its complement.
#[derive(Drop)]
pub(crate) struct RootLists {
    pub leaf: Vec<Root>,
    pub row: Vec<Root>,
    pub other: Vec<Root>,
}

/// The rows of classes, with a number for each part.
#[derive(Drop)]
pub(crate) struct Rows {
    /// Where the row of each class starts in the numbers.
    pub starts: Vec<u32>,
    pub numbers: Vec<u64>,
    /// How the numbers of the parts follow from those of their sides.
    pub groups: Vec<Group>,
    /// Room to work in: what the pairs of a class give.
    pub least: Vec<u64>,
}

/// The parts of patterns whose pins have these gaps, of which only the first are kept where there
/// is no room for more, and the sides that nodes and roots are.
pub(crate) fn sides_by(
    alloc: Global,
    room: usize,
    gaps: &[[u64; 16]],
    pats: &Patterns,
) -> Result<Sides, AllocError>
    requires room { room < 2 ^ 32 }
    ensures { IfOk result (AreSidesOf room gaps.now pats.now) }
{
    let mut parts = Parts::new(alloc, room);
    let all = all_sides(alloc, &mut parts, gaps, pats)?;
    let roots = root_sides(alloc, pats, &all)?;
    let parts = parts.all;
    Ok(Sides { parts, all, roots })
}

/// The roots of all patterns in three lists, given the side that each root is.
pub(crate) fn lists_by(alloc: Global, roots: &[Side]) -> Result<RootLists, AllocError>
    requires few { length roots.now ≤ most_patterns }
    ensures { IfOk result (λ lists.
        AreRootsListed roots.now lists.leaf.items lists.row.items lists.other.items) }
{
    let leaf = roots_in(alloc, roots, 0)?;
    let row = roots_in(alloc, roots, 1)?;
    let other = roots_in(alloc, roots, 2)?;
    Ok(RootLists { leaf, row, other })
}

/// The rows of a new table: for each class that has pairs one number per part, in units of cost.
/// All are 0, which is a lower bound anywhere; `Bounds::forget` and `forget_all` put them to
/// `u64::MAX`, from where they fall.
pub(crate) fn rows_by(alloc: Global, graph: &Graph, parts: &[Part]) -> Result<Rows, AllocError>
    requires { AreFew graph.now parts.now }
    ensures { IfOk result (AreFreshRows graph.now parts.now) }
{
    let groups = groups_of(alloc, parts)?;
    let least = vec![in alloc; 0; parts.len()]?;
    let rows = starts_of(alloc, graph, parts.len() as u32)?;
    let numbers = vec![in alloc; 0; rows.size as usize]?;
    Ok(Rows {
        starts: rows.starts,
        numbers,
        groups,
        least,
    })
}

/// How many classes have pairs, and so a row.
pub(crate) fn row_count(graph: &Graph) -> u32
    ensures { result ≡ rows_in graph.now }
{
    let mut rows = 0;
    for number in 0..graph.classes() {
        if !graph.nands(ClassId(number)).is_empty() {
            rows += 1;
        }
    }
    rows
}

/// Where the rows start, and how many numbers they have.
#[derive(Drop)]
pub(crate) struct Starts {
    pub starts: Vec<u32>,
    pub size: u32,
}

/// Rows of a width, one for each class that has pairs.
pub(crate) fn starts_of(alloc: Global, graph: &Graph, width: u32) -> Result<Starts, AllocError>
    requires { width * rows_in graph.now ≤ most_numbers }
    ensures rows { IfOk result (λ s. AreStarts width s.starts.items s.size) }
    ensures bare { IfOk result (λ s. AreBare s.starts.items graph.now) }
    ensures apart { IfOk result (λ s. AreApart width s.starts.items) }
{
    let mut starts = Vec::new(alloc);
    let mut size = 0;
    for number in 0..graph.classes() {
        if graph.nands(ClassId(number)).is_empty() {
            starts.push(NO_ROW)?;
        } else {
            starts.push(size)?;
            size += width;
        }
    }
    Ok(Starts { starts, size })
}

// Whether one of the nodes is a NAND.
fn has_nand(nodes: &[PatNode]) -> bool {
    for node in nodes {
        if let PatNode::Nand(_, _) = node {
            return true;
        }
    }
    false
}

/// The patterns without NANDs: pins, constants and inverters. They stand at a class by its mark
/// alone, so that no table cuts them.
pub(crate) fn bare_patterns(alloc: Global, pats: &Patterns) -> Result<Vec<PatId>, AllocError> {
    let mut bare = Vec::new(alloc);
    for number in 0..pats.len() {
        if !has_nand(pats.get(PatId(number)).nodes.as_slice()) {
            bare.push(PatId(number))?;
        }
    }
    Ok(bare)
}
