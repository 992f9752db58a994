// The class at which a pattern stands, from its pins upward.
ghost use Rattle.std.specs.Prelude.{◌≡◌, ◌<◌, ℕ, List, IfSome, length, slice_get};
ghost use Rattle.lw_laws.specs.Trees.{inv, nand, Tree};
ghost use Rattle.lw_pattern.specs.Listed.{IsKept};
ghost use Rattle.lw_pattern.specs.Nodes.{tree_of};
ghost use Rattle.lw_check.specs.Standing.{AreClassesBefore, AreWithin, IsClassAt, IsPlaced};
ghost use Rattle.lw_check.specs.Standing.{StandsAlone};
ghost use Rattle.lw_pool.specs.Numbers.{numbers};

use lw_graph::Graph;
use lw_pattern::{PatNode, PatNodes};
use lw_pool::ClassId;

// The class of a pin, and none past the last.
fn class_of_pin(pins: &[ClassId], pin: u8) -> Option<ClassId>
    ensures { result ≡ slice_get pins.now pin }
{
    let place = pin as usize;
    if place < pins.len() {
        return Some(pins[place]);
    }
    None
}

// The class at which the inverter of a tree stands, given that of the tree; none if the tree stands
// at none.
fn complement(graph: &Graph, class: Option<ClassId>) -> Option<ClassId>
    ensures { (w : List ℕ) (t : Tree) → StandsAlone graph.now w t class →
        StandsAlone graph.now w (inv t) result }
{
    let _ = graph.classes();
    match class {
        Some(class) => Some(class.flip()),
        None => None,
    }
}

// The class at which the NAND of two trees stands, given those of the trees: the class that holds
// their pair, if there is one.
fn class_of_pair(graph: &Graph, left: Option<ClassId>, right: Option<ClassId>) -> Option<ClassId>
    requires left { IfSome left (λ class. class.0 < length graph.now.pairs) }
    requires right { IfSome right (λ class. class.0 < length graph.now.pairs) }
    ensures { (w : List ℕ) (t u : Tree) → StandsAlone graph.now w t left →
        StandsAlone graph.now w u right → StandsAlone graph.now w (nand t u) result }
{
    let _ = graph.classes();
    match (left, right) {
        (Some(left), Some(right)) => graph.holder(left, right),
        _ => None,
    }
}

// A pattern with its pins at classes of a graph.
#[derive(Drop)]
struct Placed<'a> {
    graph: &'a Graph,
    nodes: &'a PatNodes,
    pins: &'a [ClassId],
}

impl Placed<'_> {
    // The class at which the node at a place stands, given those of the nodes before it.
    fn class_of_node(&self, place: usize, classes: &[Option<ClassId>]) -> Option<ClassId>
        requires placed { IsPlaced self.now }
        requires before { AreClassesBefore self.now place classes.now }
        ensures { IsClassAt self.now place result }
    {
        let graph = self.graph;
        let _ = graph.classes();
        match self.nodes.get(place) {
            PatNode::Pin(pin) => class_of_pin(self.pins, pin),
            PatNode::One => Some(graph.one()),
            PatNode::Zero => Some(graph.one().flip()),
            PatNode::Inv(operand) => complement(graph, classes[operand as usize]),
            PatNode::Nand(left, right) => {
                class_of_pair(graph, classes[left as usize], classes[right as usize])
            }
        }
    }
}

/// The class at which a pattern stands with its pins at these classes, if there is one. The graph's
/// index makes it fast.
pub fn class_of_pattern(graph: &Graph, nodes: &PatNodes, pins: &[ClassId]) -> Option<ClassId>
    requires kept { IsKept nodes.now }
    requires pins { AreWithin graph.now pins.now }
    ensures { StandsAlone graph.now (numbers pins.now) (tree_of nodes.now) result }
{
    let placed = Placed { graph, nodes, pins };
    let mut classes = [None; 254];
    for place in 0..nodes.len() {
        classes[place] = placed.class_of_node(place, &classes);
    }
    classes[nodes.len() - 1]
}
