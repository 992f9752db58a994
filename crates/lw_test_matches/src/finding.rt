// The least match against the matches of a cursor, and marks against rounds over all matches, in
// graphs that are drawn.
ghost use Rattle.std.specs.Prelude.{◌≡◌, ◌<◌, All, length};
ghost use Rattle.lw_cost.specs.Values.{AreInRange};
ghost use Rattle.lw_genlib.specs.Cells.{IsSmall};
ghost use Rattle.lw_test_matches.specs.Fitting.{Fits};
ghost use Rattle.lw_label.specs.Delays.{most_time};

use crate::drawing::{Dice, drawn_graphs, drawn_marks};
use crate::libraries::{Cells, library_of, no_starts, patterns_of};
use crate::plain::{
    MOST_MATCHES, all_matches, are_once_and_rising, is_same, least_of, marks_by_rounds,
};
use lw_fixed::Micros;
use lw_graph::Graph;
use lw_label::{DelayCost, relabel};
use lw_match::{Best, Mark, Match, least};
use lw_pool::ClassId;
use std::alloc::{AllocError, Global};
use std::process::Abort;
use std::test::Fail;

/// Libraries: small cells; cells with pins that stand twice; constants, a pin alone and no delays;
/// cells of many pins; and cells that tie.
pub(crate) const LIBRARIES: [&str; 5] = [
    "GATE inv 1 O=!a;PIN * INV 1 999 1 0 1 0\nGATE nand2 2 O=!(a*b);PIN * INV 1 999 1.5 0 1.5 0\nGATE nand3 3 O=!(a*b*c);PIN * INV 1 999 2 0 2 0\n",
    "GATE inv 1 O=!a;PIN * INV 1 999 .5 0 .5 0\nGATE square 1 O=!(a*a);PIN * INV 1 999 1 0 1 0\nGATE xor 5 O=a*!b+!a*b;PIN a UNKNOWN 1 999 2 0 2 0 PIN b UNKNOWN 1 999 1.5 0 1.5 0\nGATE majority 6 O=a*b+a*c+b*c;PIN * NONINV 1 999 2.5 0 2.5 0\nGATE mux 4 O=s*a+!s*b;PIN * UNKNOWN 1 999 2 0 2 0\n",
    "GATE zero 0 O=CONST0;\nGATE one 0 O=CONST1;\nGATE wire 0 O=a;PIN * NONINV 1 999 0 0 0 0\nGATE inv 0 O=!a;PIN * INV 1 999 0 0 0 0\nGATE nand2 0 O=!(a*b);PIN * INV 1 999 0 0 0 0\n",
    "GATE inv 1 O=!a;PIN * INV 1 999 1 0 1 0\nGATE and4 4 O=a*b*c*d;PIN a NONINV 1 999 1 0 1 0 PIN b NONINV 1 999 2 0 2 0 PIN c NONINV 1 999 3 0 3 0 PIN d NONINV 1 999 4 0 4 0\nGATE aoi22 4 O=!(a*b+c*d);PIN * INV 1 999 2 0 2 0\nGATE or2 2 O=a+b;PIN * NONINV 1 999 1 0 1 0\nGATE oai211 4 O=!((a+b)*c*d);PIN * INV 1 999 2 0 2 0\n",
    "GATE first 1 O=!(a*b);PIN * INV 1 999 1 0 1 0\nGATE second 1 O=!(a*b);PIN * INV 1 999 1 0 1 0\nGATE inv 1 O=!a;PIN * INV 1 999 0 0 0 0\nGATE nor2 1 O=!(a+b);PIN a INV 1 999 1 0 1 0 PIN b INV 1 999 .5 0 1 0\nGATE wire 1 O=a;PIN * NONINV 1 999 .5 0 .5 0\n",
];

/// The graphs that are drawn with each library.
const GRAPHS: [(u32, u32, u32, u32, u32); 4] = [
    (1, 3, 4, 0, 12),
    (3, 6, 9, 1, 12),
    (4, 8, 16, 2, 8),
    (5, 5, 20, 0, 4),
];

/// A graph, a library with its patterns, and all matches.
#[derive(Drop)]
struct Case<'a> {
    cells: Cells<'a>,
    starts: &'a Micros,
    graph: &'a Graph,
    matches: &'a [Vec<Match>],
    ghost small: { All IsSmall starts.now },
}

// Whether the least match that was found is this one.
fn is_found(found: &Option<Best>, wanted: Option<(Mark, &Match)>) -> bool {
    match (found, wanted) {
        (None, None) => true,
        (Some(best), Some((mark, other))) => best.mark == mark && is_same(&best.found, other),
        _ => false,
    }
}

// Looks for the least match at a class, and compares it with the least of the list of all matches.
fn check_class(
    rt: &impl Abort,
    case: &Case<'_>,
    marks: &[Option<Mark>],
    class: ClassId,
    matches: &[Match],
)
    requires of_cells { Fits case.now.cells.lib.now case.now.cells.pats.now }
    requires class { class.0 < length case.now.graph.now.pairs }
    requires one_each { length marks.now ≡ length case.now.graph.now.pairs }
    requires in_range { AreInRange most_time marks.now }
{
    let wanted = least_of(&case.cells, marks, matches);
    let cost = DelayCost::new(case.cells.lib, case.starts);
    let found = least(case.graph, case.cells.pats, marks, class, &cost);
    assert!(rt; is_found(&found, wanted), "class {class:?}");
}

fn check_classes(rt: &impl Abort, case: &Case<'_>, marks: &[Option<Mark>])
    requires of_cells { Fits case.now.cells.lib.now case.now.cells.pats.now }
    requires one_each { length marks.now ≡ length case.now.graph.now.pairs }
    requires in_range { AreInRange most_time marks.now }
{
    for number in 0..case.graph.classes() {
        if let Some(matches) = case.matches.get(number as usize) {
            check_class(rt, case, marks, ClassId(number), matches);
        }
    }
}

// Whether there are few matches at each class, each once and by rising patterns.
fn are_listed(matches: &[Vec<Match>]) -> bool {
    matches
        .iter()
        .all(|at| at.len() < MOST_MATCHES && are_once_and_rising(at))
}

// Checks the labels, and the least matches under these.
fn check_labels(rt: &impl Abort, alloc: Global, case: &Case<'_>) -> Result<(), AllocError>
    requires { Fits case.now.cells.lib.now case.now.cells.pats.now }
{
    let cost = DelayCost::new(case.cells.lib, case.starts);
    let labels = relabel(alloc, case.graph, case.cells.pats, &cost)?;
    let wanted = marks_by_rounds(alloc, &case.cells, case.graph, case.matches);
    let checked = match wanted {
        Ok(wanted) => {
            assert_eq!(rt; labels.marks(), wanted.as_slice());
            check_classes(rt, case, labels.marks());
            Ok(())
        }
        Err(fault) => Err(fault),
    };
    drop(labels);
    checked
}

// Checks the least matches under marks that are drawn.
fn check_drawn(
    rt: &impl Abort,
    alloc: Global,
    case: &Case<'_>,
    dice: &mut Dice,
    high: bool,
) -> Result<(), AllocError>
    requires { Fits case.now.cells.lib.now case.now.cells.pats.now }
{
    let marks = drawn_marks(alloc, dice, case.graph, high)?;
    check_classes(rt, case, &marks);
    Ok(())
}

// Checks the labels, and the least matches under these and under drawn marks.
fn check_case(
    rt: &impl Abort,
    alloc: Global,
    case: &Case<'_>,
    dice: &mut Dice,
) -> Result<(), AllocError>
    requires { Fits case.now.cells.lib.now case.now.cells.pats.now }
{
    check_labels(rt, alloc, case)?;
    check_drawn(rt, alloc, case, dice, false)?;
    check_drawn(rt, alloc, case, dice, true)
}

// Checks the matches at each class of a graph, and what is found among them.
fn check_graph(
    rt: &impl Abort,
    alloc: Global,
    cells: Cells<'_>,
    graph: &Graph,
    dice: &mut Dice,
) -> Result<(), AllocError>
    requires { Fits cells.lib.now cells.pats.now }
{
    let matches = all_matches(alloc, graph, cells.pats)?;
    assert_eq!(rt; matches.len(), graph.classes() as usize);
    assert!(rt; are_listed(&matches), "each match once, by rising patterns");
    let starts = no_starts(alloc);
    let case = Case {
        cells,
        starts: &starts,
        graph,
        matches: &matches,
    };
    check_case(rt, alloc, &case, dice)
}

// Looks at graphs that are drawn, by the patterns of a library.
fn check_library(rt: &impl Abort, alloc: Global, text: &str, dice: &mut Dice) -> Result<(), Fail> {
    let lib = library_of(alloc, text)?;
    let pats = patterns_of(alloc, &lib)?;
    let (lib, pats) = (&lib, &pats);
    let graphs = drawn_graphs(alloc, dice, &GRAPHS)?;
    for graph in &graphs {
        check_graph(rt, alloc, Cells { lib, pats }, graph, dice)?;
    }
    Ok(())
}

#[test]
fn the_least_is_that_of_all_matches(rt: HostRuntime) -> Result<(), Fail> {
    let mut dice = Dice::new(1);
    for text in LIBRARIES {
        check_library(&rt, rt.alloc(), text, &mut dice)?;
    }
    Ok(())
}
