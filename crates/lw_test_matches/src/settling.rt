// Stores against the matches of cursors, and marks that are settled against those that are found in
// rounds, in graphs that are drawn; the sizes of stores that are known.
ghost use Rattle.std.specs.Prelude.{◌≡◌, ◌<◌, ℕ, length, OnOk};
ghost use Rattle.lw_cost.specs.Least.{AreOfCells};
ghost use Rattle.lw_test_matches.specs.Fitting.{Fits};

use crate::drawing::{Dice, drawn_graphs};
use crate::finding::LIBRARIES;
use crate::libraries::{Cells, NANDS, inverters, library_of, no_starts, patterns_of};
use crate::plain::all_matches;
use crate::sketch::{AND_OF_THREE, Sketch, graph_of};
use crate::steep::SteepCost;
use lw_genlib::Library;
use lw_graph::Graph;
use lw_label::{DelayCost, relabel};
use lw_match::{Cost, Mark, Match};
use lw_pattern::Patterns;
use lw_pool::ClassId;
use lw_settle::{Store, StoreFault, settle, store_matches};
use std::alloc::{AllocError, Global};
use std::process::Abort;
use std::test::Fail;

/// The graphs that are drawn with each library.
const GRAPHS: [(u32, u32, u32, u32, u32); 3] = [(1, 3, 4, 0, 8), (3, 6, 9, 1, 4), (4, 8, 16, 2, 2)];

/// A class, and the classes of the pins of a match at it, in order.
type Line = (usize, Vec<u32>);

// The matches of cursors.
fn lines_of(alloc: Global, matches: &[Vec<Match>]) -> Result<Vec<Line>, AllocError> {
    let mut lines = Vec::new(alloc);
    for (class, at) in matches.iter().enumerate() {
        for found in at {
            let mut pins = Vec::new(alloc);
            for pin in found.pins.as_slice() {
                pins.push(pin.0)?;
            }
            pins.sort()?;
            lines.push((class, pins))?;
        }
    }
    Ok(lines)
}

// Adds a class to the matches that its uses tell.
fn add_uses(store: &mut Store, class: ClassId, lines: &mut [Line]) -> Result<(), AllocError>
    requires { class.0 < length store.old.lists }
    ensures { OnOk result (store.new.lists ≡ store.old.lists) }
{
    for n in 0..store.uses(class) {
        if store.done() < 1_000_000_000 {
            let place = store.use_at(class, n);
            if let Some((_class, pins)) = lines.get_mut(place as usize) {
                pins.push(class.0)?;
            }
        }
    }
    Ok(())
}

// The matches of a store: their classes by their heads, and their pins by the uses of each class.
fn stored_lines(alloc: Global, store: &mut Store, graph: &Graph) -> Result<Vec<Line>, AllocError>
    requires { length store.old.lists ≡ length graph.now.pairs }
{
    let mut lines = Vec::new(alloc);
    for place in 0..store.matches() {
        lines.push((store.head(place).class.0 as usize, Vec::new(alloc)))?;
    }
    for class in 0..graph.classes() {
        add_uses(store, ClassId(class), &mut lines)?;
    }
    Ok(lines)
}

// How often settling reads a match: once for each pin that has a mark, and once where all have one.
fn steps_of(marks: &[Option<Mark>], matches: &[Vec<Match>]) -> u64 {
    let mut steps: u64 = 0;
    for found in matches.iter().flatten() {
        let pins = found.pins.as_slice();
        let marked = pins
            .iter()
            .filter(|pin| marks.get(pin.0 as usize).copied().flatten().is_some())
            .count();
        let priced = if marked == pins.len() { 1 } else { 0 };
        steps = steps.saturating_add(marked as u64).saturating_add(priced);
    }
    steps
}

// Settles a graph by a cost whose inputs cost nothing, compares with marks by rounds, and says how
// often a match was read.
fn check_cost<C: Cost>(
    rt: &impl Abort,
    alloc: Global,
    graph: &Graph,
    pats: &Patterns,
    cost: &C,
    matches: &[Vec<Match>],
) -> Result<u64, Fail>
    requires of_cells { AreOfCells (C.costs cost.now).pin_counts pats.now }
    requires none { (i : ℕ) → (C.costs cost.now).leaf i ≡ 0 }
{
    let labels = relabel(alloc, graph, pats, cost)?;
    let mut store = store_matches(alloc, graph, pats)?;
    let settled = settle(alloc, &mut store, graph, cost)?;
    assert_eq!(rt; settled.marks(), labels.marks());
    drop(settled);
    assert_eq!(rt; store.done(), steps_of(labels.marks(), matches));
    Ok(store.done())
}

fn check_store(
    rt: &impl Abort,
    alloc: Global,
    graph: &Graph,
    pats: &Patterns,
    matches: &[Vec<Match>],
) -> Result<(), Fail> {
    let mut store = store_matches(alloc, graph, pats)?;
    let mut stored = stored_lines(alloc, &mut store, graph)?;
    stored.sort()?;
    let mut wanted = lines_of(alloc, matches)?;
    wanted.sort()?;
    assert_eq!(rt; stored, wanted);
    Ok(())
}

fn check_graph(rt: &impl Abort, alloc: Global, cells: Cells<'_>, graph: &Graph) -> Result<(), Fail>
    requires { Fits cells.lib.now cells.pats.now }
{
    let Cells { lib, pats } = cells;
    let matches = all_matches(alloc, graph, pats)?;
    check_store(rt, alloc, graph, pats, &matches)?;
    let starts = no_starts(alloc);
    let delays = DelayCost::new(lib, &starts);
    check_cost(rt, alloc, graph, pats, &delays, &matches)?;
    for (from, rise) in [(0, 1), (3, 1_000)] {
        let cost = SteepCost { lib, from, rise };
        check_cost(rt, alloc, graph, pats, &cost, &matches)?;
    }
    Ok(())
}

// Looks at graphs that are drawn, by the patterns of a library.
fn check_library(rt: &impl Abort, alloc: Global, text: &str, dice: &mut Dice) -> Result<(), Fail> {
    let lib = library_of(alloc, text)?;
    let pats = patterns_of(alloc, &lib)?;
    let (lib, pats) = (&lib, &pats);
    let graphs = drawn_graphs(alloc, dice, &GRAPHS)?;
    for graph in &graphs {
        check_graph(rt, alloc, Cells { lib, pats }, graph)?;
    }
    Ok(())
}

#[test]
fn stores_settle_as_rounds(rt: HostRuntime) -> Result<(), Fail> {
    let mut dice = Dice::new(28);
    for text in LIBRARIES {
        check_library(&rt, rt.alloc(), text, &mut dice)?;
    }
    Ok(())
}

// Stores the matches in the graph of `AND_OF_THREE` and settles it.
fn check_and_of_three(
    rt: &impl Abort,
    alloc: Global,
    cells: Cells<'_>,
    graph: &Graph,
) -> Result<(), Fail>
    requires { Fits cells.lib.now cells.pats.now }
{
    let Cells { lib, pats } = cells;
    let store = store_matches(alloc, graph, pats)?;
    assert_eq!(rt; store.matches(), 40);
    assert_eq!(rt; store.pins(), 76);
    assert_eq!(rt; store.done(), 0);
    drop(store);
    let matches = all_matches(alloc, graph, pats)?;
    let starts = no_starts(alloc);
    let delays = DelayCost::new(lib, &starts);
    let readings = check_cost(rt, alloc, graph, pats, &delays, &matches)?;
    assert_eq!(rt; readings, 112);
    Ok(())
}

// The classes of true and false have no label: 74 uses and 38 prices are read.
#[test]
fn an_and_of_three_is_settled_by_112_readings(rt: HostRuntime) -> Result<(), Fail> {
    let alloc = rt.alloc();
    let lib = library_of(alloc, NANDS)?;
    let pats = patterns_of(alloc, &lib)?;
    let (lib, pats) = (&lib, &pats);
    let graph = graph_of(alloc, AND_OF_THREE)?;
    check_and_of_three(&rt, alloc, Cells { lib, pats }, &graph)
}

// How many matches are stored in the graph of so many inputs alone.
fn stored_over(alloc: Global, pats: &Patterns, inputs: u32) -> Result<Option<u32>, Fail> {
    let sketch = Sketch {
        inputs,
        samples: &[],
        facts: &[],
        links: &[],
    };
    let graph = graph_of(alloc, sketch)?;
    match store_matches(alloc, &graph, pats) {
        Ok(store) => Ok(Some(store.matches())),
        Err(StoreFault::TooMany) => Ok(None),
        Err(StoreFault::Memory) => Err(Fail::from("there is memory for a store")),
    }
}

// Each of 2,048 classes has 4,096 matches, which are as many as are stored; one input more has two
// classes more.
#[test]
fn the_most_matches_are_stored(rt: HostRuntime) -> Result<(), Fail> {
    let alloc = rt.alloc();
    let lib = inverters(alloc, 4096)?;
    let pats = patterns_of(alloc, &lib)?;
    drop(lib);
    assert_eq!(rt; stored_over(alloc, &pats, 1023)?, Some(8_388_608));
    assert_eq!(rt; stored_over(alloc, &pats, 1024)?, None);
    Ok(())
}
