// Labels and heights of classes.
ghost use Rattle.lw_test_matches.specs.Fitting.{Fits};
ghost use Rattle.std.specs.Prelude.{map};

use crate::libraries::{Cells, library_of, no_starts, patterns_of};
use crate::sketch::{Sketch, graph_of};
use lw_genlib::Library;
use lw_graph::Graph;
use lw_label::{DelayCost, relabel};
use lw_match::Mark;
use lw_pattern::Patterns;
use std::alloc::Global;
use std::process::Abort;
use std::test::Fail;

/// A library, a graph, and for some classes the time in millionths and the height, or none.
#[derive(Clone, Copy)]
struct Row {
    name: &'static str,
    library: &'static str,
    sketch: Sketch<'static>,
    marks: &'static [(usize, Option<(u64, u32)>)],
}

const ROWS: [Row; 6] = [
    Row {
        name: "the And of three inputs, without constants",
        library: "GATE inv 1 O=!a;PIN * INV 1 999 1 0 1 0\nGATE nand2 2 O=!(a*b);PIN * INV 1 999 1.5 0 1.5 0\nGATE nand3 3 O=!(a*b*c);PIN * INV 1 999 2 0 2 0\n",
        sketch: Sketch {
            inputs: 3,
            samples: &[false, false, false, false],
            facts: &[
                (9, 2, 4),
                (11, 2, 6),
                (13, 4, 6),
                (15, 2, 12),
                (15, 4, 10),
                (15, 6, 8),
            ],
            links: &[],
        },
        marks: &[
            (0, None),
            (1, None),
            (2, Some((0, 0))),
            (3, Some((1_000_000, 1))),
            (4, Some((0, 0))),
            (5, Some((1_000_000, 1))),
            (6, Some((0, 0))),
            (7, Some((1_000_000, 1))),
            (8, Some((2_500_000, 2))),
            (9, Some((1_500_000, 1))),
            (10, Some((2_500_000, 2))),
            (11, Some((1_500_000, 1))),
            (12, Some((2_500_000, 2))),
            (13, Some((1_500_000, 1))),
            (14, Some((3_000_000, 2))),
            (15, Some((2_000_000, 1))),
        ],
    },
    Row {
        name: "cells without delay about an inverter pair",
        library: "GATE inv 1 O=!a;PIN * INV 1 999 0 0 0 0\nGATE buf 1 O=a;PIN * NONINV 1 999 0 0 0 0\n",
        sketch: Sketch {
            inputs: 1,
            samples: &[],
            facts: &[],
            links: &[],
        },
        marks: &[(0, None), (1, None), (2, Some((0, 0))), (3, Some((0, 1)))],
    },
    Row {
        name: "forms that reach only each other have no label, and the constants have theirs",
        library: "GATE inv 1 O=!a;PIN * INV 1 999 1 0 1 0\nGATE nand2 2 O=!(a*b);PIN * INV 1 999 1.5 0 1.5 0\nGATE one 0 O=CONST1;\n",
        sketch: Sketch {
            inputs: 1,
            samples: &[true, true],
            facts: &[(4, 6, 2), (6, 4, 2)],
            links: &[],
        },
        marks: &[
            (0, Some((0, 1))),
            (1, Some((1_000_000, 2))),
            (2, Some((0, 0))),
            (3, Some((1_000_000, 1))),
            (4, None),
            (5, None),
            (6, None),
            (7, None),
        ],
    },
    Row {
        name: "the height is the least among the matches that attain the label",
        library: "GATE inv 1 O=!a;PIN * INV 1 999 0 0 0 0\nGATE nand2 2 O=!(a*b);PIN * INV 1 999 0 0 0 0\n",
        sketch: Sketch {
            inputs: 4,
            samples: &[true, true],
            facts: &[(10, 2, 4), (12, 10, 4), (12, 6, 8)],
            links: &[],
        },
        marks: &[
            (2, Some((0, 0))),
            (3, Some((0, 1))),
            (10, Some((0, 1))),
            (11, Some((0, 2))),
            (12, Some((0, 1))),
            (13, Some((0, 2))),
        ],
    },
    Row {
        name: "a match of less height that costs more is left out",
        library: "GATE fast 1 O=!(a*b);PIN a INV 1 999 1 0 1 0 PIN b INV 1 999 3 0 3 0\nGATE slow 1 O=!(a*b*c);PIN * INV 1 999 7 0 7 0\nGATE inv 1 O=!a;PIN * INV 1 999 1 0 1 0\n",
        sketch: Sketch {
            inputs: 3,
            samples: &[true, true],
            facts: &[(8, 2, 4), (10, 9, 6)],
            links: &[],
        },
        marks: &[
            (8, Some((3_000_000, 1))),
            (9, Some((4_000_000, 2))),
            (10, Some((5_000_000, 3))),
            (11, Some((6_000_000, 4))),
        ],
    },
    Row {
        name: "four chains of NANDs lead to class 36, and the shorter a chain is, the later it is found",
        library: "GATE inv 1 O=!a;PIN * INV 1 999 1 0 1 0\nGATE nand2 1 O=!(a*b);PIN * INV 1 999 1 0 1 0\n",
        sketch: Sketch {
            inputs: 8,
            samples: &[
                true, true, true, true, true, true, true, true, true, true, true, true, true, true,
                true, true, true, true, true, true, true, true, true, true, true, true,
            ],
            facts: &[
                (18, 2, 4),
                (20, 18, 4),
                (22, 20, 4),
                (24, 22, 4),
                (26, 24, 4),
                (28, 26, 4),
                (30, 28, 4),
                (32, 30, 4),
                (34, 32, 4),
                (36, 34, 4),
                (36, 50, 8),
                (36, 52, 12),
                (36, 62, 16),
                (38, 6, 8),
                (40, 38, 8),
                (42, 40, 8),
                (44, 42, 8),
                (46, 44, 8),
                (48, 46, 8),
                (50, 48, 8),
                (52, 54, 12),
                (54, 60, 12),
                (56, 10, 12),
                (58, 56, 12),
                (60, 58, 12),
                (62, 64, 16),
                (64, 66, 16),
                (66, 68, 16),
                (68, 14, 16),
            ],
            links: &[],
        },
        marks: &[
            (34, Some((9_000_000, 9))),
            (50, Some((7_000_000, 7))),
            (52, Some((5_000_000, 5))),
            (62, Some((4_000_000, 4))),
            (36, Some((5_000_000, 5))),
            (37, Some((6_000_000, 6))),
        ],
    },
];

// Labels a graph by the patterns of a library, and looks at the classes of a row.
fn check_labels(
    rt: &impl Abort,
    alloc: Global,
    row: Row,
    cells: Cells<'_>,
    graph: &Graph,
) -> Result<(), Fail>
    requires { Fits cells.lib.now cells.pats.now }
{
    let starts = no_starts(alloc);
    let cost = DelayCost::new(cells.lib, &starts);
    let labels = relabel(alloc, graph, cells.pats, &cost)?;
    for (class, wanted) in row.marks {
        let mark = labels.marks().get(*class).copied().flatten();
        let wanted = wanted.map(|(cost, height)| Mark { cost, height });
        assert_eq!(rt; mark, wanted, "{}: class {class}", row.name);
    }
    Ok(())
}

// Looks at the classes of a row, given its library.
fn check_cells(rt: &impl Abort, alloc: Global, row: Row, lib: &Library) -> Result<(), Fail> {
    let pats = &patterns_of(alloc, lib)?;
    let graph = graph_of(alloc, row.sketch)?;
    check_labels(rt, alloc, row, Cells { lib, pats }, &graph)
}

fn check(rt: &impl Abort, alloc: Global, row: Row) -> Result<(), Fail> {
    let lib = library_of(alloc, row.library)?;
    let checked = check_cells(rt, alloc, row, &lib);
    drop(lib);
    checked
}

#[test]
fn classes_have_their_labels(rt: HostRuntime) -> Result<(), Fail> {
    for row in ROWS {
        check(&rt, rt.alloc(), row)?;
    }
    Ok(())
}
