// Forms that share a class, and pairs that are found with and without an index.
use crate::sketch::{AND_OF_THREE, Sketch, graph_of};
use lw_graph::{Graph, Pair};
use lw_pool::ClassId;
use std::process::Abort;
use std::test::Fail;

/// Two forms that are NANDs of the same two inputs, in both orders, and one that is linked to their
/// complement.
const SHARED: Sketch<'static> = Sketch {
    inputs: 2,
    samples: &[true, true, false],
    facts: &[(6, 2, 4), (8, 4, 2)],
    links: &[(10, 7)],
};

/// Two classes, and the class that holds their pair.
type Held = (u32, u32, Option<ClassId>);

const SHARED_HOLDERS: [Held; 4] = [
    (2, 4, Some(ClassId(6))),
    (4, 2, Some(ClassId(6))),
    (2, 2, None),
    (6, 2, None),
];

const HOLDERS_OF_THREE: [Held; 6] = [
    (4, 2, Some(ClassId(9))),
    (2, 4, Some(ClassId(9))),
    (8, 6, Some(ClassId(15))),
    (6, 8, Some(ClassId(15))),
    (2, 2, None),
    (9, 15, None),
];

fn check_holders(rt: &impl Abort, graph: &Graph, holders: &[Held]) -> Result<(), Fail> {
    for (x, y, class) in holders {
        if *x >= graph.classes() || *y >= graph.classes() {
            return Err(Fail::from("the graph has the classes"));
        }
        assert!(rt;
            graph.holder(ClassId(*x), ClassId(*y)) == *class,
            "{x} and {y}"
        );
    }
    Ok(())
}

// Looks for pairs without an index and with one.
fn check_index(rt: &impl Abort, graph: &mut Graph, holders: &[Held]) -> Result<(), Fail> {
    check_holders(rt, graph, holders)?;
    graph.make_index()?;
    check_holders(rt, graph, holders)
}

// Looks at the classes of the graph of `SHARED`, and for their pairs.
fn check_shared(rt: &impl Abort, graph: &mut Graph) -> Result<(), Fail> {
    if graph.classes() != 8 {
        return Err(Fail::from("the forms have eight classes"));
    }
    let pair = Pair {
        x: ClassId(2),
        y: ClassId(4),
    };
    assert!(rt; graph.nands(ClassId(6)) == [pair].as_slice());
    check_index(rt, graph, &SHARED_HOLDERS)
}

#[test]
fn forms_share_classes_whose_pairs_are_found(rt: HostRuntime) -> Result<(), Fail> {
    let mut graph = graph_of(rt.alloc(), SHARED)?;
    check_shared(&rt, &mut graph)
}

#[test]
fn pairs_of_an_and_of_three_are_found(rt: HostRuntime) -> Result<(), Fail> {
    let mut graph = graph_of(rt.alloc(), AND_OF_THREE)?;
    check_index(&rt, &mut graph, &HOLDERS_OF_THREE)
}
