// The look at a list of matches: a list that is right, in time and not too large is taken, and
// lists that are wrong in one way each are refused.
ghost use Rattle.std.specs.Prelude.{◌≡◌, All, IfOk, length};
ghost use Rattle.lw_genlib.specs.Cells.{IsSmall};
ghost use Rattle.lw_extract.specs.Covers.{AreFit};
ghost use Rattle.lw_look.specs.Looks.{IsFit, IsLook};
ghost use Rattle.lw_test_matches.specs.Fitting.{Fits};

use crate::libraries::{Cells, library_of, no_starts, patterns_of};
use crate::sketch::{AND_OF_THREE, graph_of};
use lw_cost::{Match, Pins};
use lw_extract::{Chosen, Cover, Ports, extract};
use lw_fixed::{Micro, Micros};
use lw_graph::Graph;
use lw_label::{DelayCost, relabel};
use lw_look::{Look, Looked};
use lw_netlist::Netlist;
use lw_pattern::Patterns;
use lw_pool::{ClassId, Classes, Name, Names, PatId};
use std::alloc::{AllocError, Global};
use std::process::Abort;
use std::test::Fail;

/// Small cells, and two for the And of three inputs: `fast`, whose gate is the first cover, and
/// `large`, which takes more.
const LIBRARY: &str =
    "GATE inv 1 O=!a;PIN * INV 1 999 1 0 1 0\nGATE nand2 2 O=!(a*b);PIN * INV 1 999 1.5 0 1.5 0\nGATE nand3 3 O=!(a*b*c);PIN * INV 1 999 2 0 2 0\nGATE fast 20 O=a*b*c;PIN * NONINV 1 999 1 0 1 0\nGATE large 21 O=a*b*c;PIN * NONINV 1 999 1.5 0 1.5 0\nGATE but 2 O=a*!b;PIN * UNKNOWN 1 999 1 0 1 0\n";

// The cells by their numbers in the library, and the number of none.
const INV: u32 = 0;

const NAND2: u32 = 1;

const NAND3: u32 = 2;

const FAST: u32 = 3;

const LARGE: u32 = 4;

const BUT: u32 = 5;

const NO_CELL: u32 = 6;

/// A gate: its class, its cell, and the classes of its pins.
type Line = (u32, u32, &'static [u32]);

/// A list of matches, by when the output has to arrive in millionths, and whether the list is to be
/// refused. The output is the And of the inputs 2, 4 and 6, whose class is 14. Each list but the one
/// that is too large takes at most the area of the first cover, and each but the one that is late
/// has time enough.
#[derive(Clone, Copy)]
struct Row {
    name: &'static str,
    gates: &'static [Line],
    time: u64,
    refused: bool,
}

const FIRST: &[Line] = &[(14, FAST, &[2, 4, 6])];

const SMALLER: &[Line] = &[(15, NAND3, &[2, 4, 6]), (14, INV, &[15])];

const ROWS: [Row; 20] = [
    Row {
        name: "the first cover itself, just in time",
        gates: FIRST,
        time: 1_000_000,
        refused: false,
    },
    Row {
        name: "a smaller cover, just in time",
        gates: SMALLER,
        time: 3_000_000,
        refused: false,
    },
    Row {
        name: "the same one step late",
        gates: SMALLER,
        time: 2_999_999,
        refused: true,
    },
    Row {
        name: "a larger cover, in time",
        gates: &[(14, LARGE, &[2, 4, 6])],
        time: 9_000_000,
        refused: true,
    },
    Row {
        name: "a chain of four gates",
        gates: &[
            (9, NAND2, &[2, 4]),
            (8, INV, &[9]),
            (15, NAND2, &[8, 6]),
            (14, INV, &[15]),
        ],
        time: 9_000_000,
        refused: false,
    },
    Row {
        name: "no gate",
        gates: &[],
        time: 9_000_000,
        refused: true,
    },
    Row {
        name: "no gate for the output",
        gates: &[(15, NAND3, &[2, 4, 6])],
        time: 9_000_000,
        refused: true,
    },
    Row {
        name: "nothing drives a pin",
        gates: &[(14, INV, &[15])],
        time: 9_000_000,
        refused: true,
    },
    Row {
        name: "the gate that drives a pin stands behind it",
        gates: &[(14, INV, &[15]), (15, NAND3, &[2, 4, 6])],
        time: 9_000_000,
        refused: true,
    },
    Row {
        name: "a pin at a class that is not there",
        gates: &[(15, NAND3, &[2, 4, 16]), (14, INV, &[15])],
        time: 9_000_000,
        refused: true,
    },
    Row {
        name: "a class twice",
        gates: &[
            (15, NAND3, &[2, 4, 6]),
            (15, NAND3, &[2, 4, 6]),
            (14, INV, &[15]),
        ],
        time: 9_000_000,
        refused: true,
    },
    Row {
        name: "a gate at the class of an input",
        gates: &[
            (7, INV, &[6]),
            (15, NAND3, &[2, 4, 6]),
            (6, INV, &[7]),
            (14, INV, &[15]),
        ],
        time: 9_000_000,
        refused: true,
    },
    Row {
        name: "a gate at a class that is not there",
        gates: &[(16, INV, &[2]), (15, NAND3, &[2, 4, 6]), (14, INV, &[15])],
        time: 9_000_000,
        refused: true,
    },
    Row {
        name: "another cell's pattern",
        gates: &[(15, FAST, &[2, 4, 6]), (14, INV, &[15])],
        time: 9_000_000,
        refused: true,
    },
    Row {
        name: "a pattern that is not there",
        gates: &[(15, NO_CELL, &[2, 4, 6]), (14, INV, &[15])],
        time: 9_000_000,
        refused: true,
    },
    Row {
        name: "a pin too few",
        gates: &[(15, NAND3, &[2, 4]), (14, INV, &[15])],
        time: 9_000_000,
        refused: true,
    },
    Row {
        name: "pins in their order",
        gates: &[
            (9, NAND2, &[2, 4]),
            (7, INV, &[6]),
            (8, INV, &[9]),
            (14, BUT, &[8, 7]),
        ],
        time: 9_000_000,
        refused: false,
    },
    Row {
        name: "the same pins exchanged",
        gates: &[
            (9, NAND2, &[2, 4]),
            (7, INV, &[6]),
            (8, INV, &[9]),
            (14, BUT, &[7, 8]),
        ],
        time: 9_000_000,
        refused: true,
    },
    Row {
        name: "a gate that nothing needs, by depth",
        gates: &[
            (15, NAND3, &[2, 4, 6]),
            (9, NAND2, &[2, 4]),
            (14, INV, &[15]),
        ],
        time: 9_000_000,
        refused: false,
    },
    Row {
        name: "the same gates, one behind a deeper one",
        gates: &[
            (15, NAND3, &[2, 4, 6]),
            (14, INV, &[15]),
            (9, NAND2, &[2, 4]),
        ],
        time: 9_000_000,
        refused: true,
    },
];

// The first pattern of a cell, and the number of no pattern where it has none.
fn pattern_of(pats: &Patterns, cell: u32) -> PatId {
    for number in 0..pats.len() {
        if pats.get(PatId(number)).cell.0 == cell {
            return PatId(number);
        }
    }
    PatId(pats.len())
}

fn pins_of(classes: &[u32]) -> Pins {
    let mut pins = Pins::new();
    for class in classes {
        if pins.len() < 16 {
            pins.push(ClassId(*class));
        }
    }
    pins
}

// The matches of lines.
fn list_of(alloc: Global, pats: &Patterns, lines: &[Line]) -> Result<Vec<Chosen>, AllocError> {
    let mut list = Vec::new(alloc);
    for (class, cell, pins) in lines {
        let found = Match {
            pat: pattern_of(pats, *cell),
            pins: pins_of(pins),
        };
        list.push(Chosen {
            class: ClassId(*class),
            found,
        })?;
    }
    Ok(list)
}

// Whether the gates of a netlist are of the cells of lines.
fn has_cells(netlist: &Netlist, lines: &[Line]) -> bool {
    let gates = netlist.gates();
    let same = gates
        .iter()
        .zip(lines)
        .filter(|(gate, (_class, cell, _pins))| gate.cell.0 == *cell)
        .count();
    gates.len() == lines.len() && same == lines.len()
}

// One name.
fn output_names(alloc: Global) -> Result<Names, AllocError>
    ensures { IfOk result (λ names. length names ≡ 1) }
{
    let mut names = Names::new(alloc);
    names.push(Name::from_slice(alloc, b"o")?)?;
    Ok(names)
}

// Three names.
fn input_names(alloc: Global) -> Result<Names, AllocError>
    ensures { IfOk result (λ names. length names ≡ 3) }
{
    let mut names = Names::new(alloc);
    names.push(Name::from_slice(alloc, b"a")?)?;
    names.push(Name::from_slice(alloc, b"b")?)?;
    names.push(Name::from_slice(alloc, b"c")?)?;
    Ok(names)
}

// The ports of a graph of three inputs, with one output.
fn ports_of(alloc: Global, graph: &Graph, root: ClassId) -> Result<Ports, Fail>
    ensures { IfOk result (AreFit graph.now) }
{
    if graph.inputs() != 3 || graph.classes() > 1000 || root.0 >= graph.classes() {
        return Err(Fail::from("a small graph of three inputs has the output's class"));
    }
    let mut roots = Classes::new(alloc);
    roots.push(root)?;
    Ok(Ports {
        model: Name::from_slice(alloc, b"m")?,
        inputs: input_names(alloc)?,
        outputs: output_names(alloc)?,
        roots,
    })
}

// A start at 0 for each of so many inputs.
fn starts_of(alloc: Global, inputs: u32) -> Result<Micros, AllocError>
    ensures small { IfOk result (All IsSmall) }
    ensures one_each { IfOk result (λ starts. length starts ≡ inputs) }
{
    Ok(Micros::from_vec(vec![in alloc; Micro(0); inputs as usize]?))
}

// The first cover: that of the labels.
fn first_of(alloc: Global, look: &Look<'_>) -> Result<Cover, Fail>
    requires { IsLook look.now }
    ensures { IfOk result (λ cover. IsFit look.now cover.netlist) }
{
    let (graph, pats, lib) = (look.graph, look.pats, look.lib);
    let starts = no_starts(alloc);
    let cost = DelayCost::new(lib, &starts);
    let labels = relabel(alloc, graph, pats, &cost)?;
    let Ok(cover) = extract(alloc, graph, pats, lib, &labels, look.ports, &cost) else {
        return Err(Fail::from("the output has a cover"));
    };
    if cover.netlist.inputs() != graph.inputs() || cover.netlist.gates().len() > 1000 {
        return Err(Fail::from("a cover is over the inputs of its graph"));
    }
    Ok(cover)
}

// Looks at what comes back for the list of a row: the cover of the list, or else the first one.
fn check_looked(rt: &impl Abort, looked: &Looked, row: Row) {
    assert!(rt; looked.refused == row.refused, "{}", row.name);
    let wanted = if row.refused { FIRST } else { row.gates };
    assert!(rt; has_cells(&looked.cover.netlist, wanted), "{}", row.name);
}

// Looks at the list of a row.
fn check_row(rt: &impl Abort, alloc: Global, look: &Look<'_>, row: Row) -> Result<(), Fail>
    requires { IsLook look.now }
{
    let first = first_of(alloc, look)?;
    assert!(rt; has_cells(&first.netlist, FIRST), "the first cover");
    let list = list_of(alloc, look.pats, row.gates)?;
    let looked = look.choose(alloc, &list, first)?;
    check_looked(rt, &looked, row);
    Ok(())
}

fn check_rows(
    rt: &impl Abort,
    alloc: Global,
    cells: Cells<'_>,
    graph: &Graph,
    ports: &Ports,
) -> Result<(), Fail>
    requires cells { Fits cells.lib.now cells.pats.now }
    requires fit { AreFit graph.now ports.now }
{
    let Cells { lib, pats } = cells;
    let starts = &starts_of(alloc, graph.inputs())?;
    for row in ROWS {
        let times = [Micro(row.time)];
        let look = Look {
            graph,
            pats,
            lib,
            starts,
            ports,
            times: &times,
        };
        check_row(rt, alloc, &look, row)?;
    }
    Ok(())
}

#[test]
fn wrong_lists_are_refused(rt: HostRuntime) -> Result<(), Fail> {
    let alloc = rt.alloc();
    let lib = library_of(alloc, LIBRARY)?;
    let pats = patterns_of(alloc, &lib)?;
    let (lib, pats) = (&lib, &pats);
    let graph = graph_of(alloc, AND_OF_THREE)?;
    let ports = ports_of(alloc, &graph, ClassId(14))?;
    check_rows(&rt, alloc, Cells { lib, pats }, &graph, &ports)
}
