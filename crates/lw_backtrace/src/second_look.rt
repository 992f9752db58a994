// What a walk has found, looked through.
ghost use Rattle.std.specs.Prelude.{◌≡◌, ◌+◌, IsTrue};
ghost use Rattle.lw_backtrace.specs.SecondLook.{ArePinsRight, AreRootsRight, HasNumber, IsEven};
ghost use Rattle.lw_backtrace.specs.SecondLook.{IsNodeFor, IsCut, IsNetBy, IsNodeBy, IsGateRight};
ghost use Rattle.lw_backtrace.specs.SecondLook.{IsNodeRight, IsOnlyGate, IsOwned, IsRightWalk};
ghost use Rattle.lw_backtrace.specs.SecondLook.{IsRootBy, IsSpare, IsUsedEarlier};

use crate::trail::{MOST_GATES, Node, Trail, User};
use crate::wants::{Demand, Plan, Want, demand_of, pin_want, root_want};
use lw_choices::MOST_AREA;
use lw_curves::{Curves, last_by};
use lw_fixed::Micro;
use lw_pool::{CellId, ClassId, Numbers};

/// Whether the last point of a class by a time has the cut area 2^62, the greatest there is.
pub(crate) fn is_cut(curves: &Curves, class: ClassId, time: u64) -> bool
    ensures { IsTrue result → IsCut curves.now.points class.0 time }
{
    let Some(points) = curves.get(class) else {
        return false;
    };
    let Some(place) = last_by(points, 0, time) else {
        return false;
    };
    points[place].area >= MOST_AREA
}

/// Whether what a walk has found is right. There are no more gates than points, and each is that of
/// a point of its own, has its cell and the nets of its pins, and is used. The roots have their
/// nets.
pub(crate) fn is_right(plan: &Plan, trail: &Trail) -> bool
    ensures { IsTrue result → IsRightWalk plan.now trail.now }
{
    if !is_even(trail) {
        return false;
    }
    for j in 0..trail.nodes.len() {
        if !is_gate(plan, trail, j) {
            return false;
        }
    }
    are_roots(plan, trail, &trail.walk.nets)
}

// Whether a node is an exact one at a place, or for a shared use any one at this place or before.
fn is_at(node: Node, exact: bool, place: usize) -> bool
    ensures { IsTrue result → IsNodeFor node exact place }
{
    let own = node.place as usize;
    if exact {
        node.exact && own == place
    } else {
        own <= place
    }
}

// Whether the gate with a number is of a node for what is wanted. `place` is that of the last point
// of the class by the time.
fn is_node_by(trail: &Trail, want: Want, place: usize, number: usize) -> bool
    ensures { IsTrue result →
        IsNodeBy trail.now.nodes.items want.exact want.class.0 place number }
{
    if number >= trail.nodes.len() {
        return false;
    }
    let node = trail.nodes[number];
    node.class.0 == want.class.0 && is_at(node, want.exact, place)
}

// Whether a net is that of a point of the class that is wanted, by its time less the delay: for an
// exact use that of the last one.
fn is_net(plan: &Plan, trail: &Trail, want: Want, net: u32) -> bool
    ensures { IsTrue result → IsNetBy plan.now trail.now want net }
{
    if want.class.0 as usize >= plan.inputs.len() {
        return false;
    }
    let Some(place) = plan.curves.last_by(want.class, want.delay, want.time) else {
        return false;
    };
    if let Some(input) = plan.inputs[want.class.0 as usize] {
        return net == input;
    }
    net >= plan.count && is_node_by(trail, want, place, (net - plan.count) as usize)
}

// Whether the net is that of a root's last point by its time, or of any by then where that is cut.
fn is_root(plan: &Plan, trail: &Trail, root: ClassId, time: Micro, net: u32) -> bool
    ensures { IsTrue result → IsRootBy plan.now trail.now root time net }
{
    if is_net(plan, trail, root_want(root, time, true), net) {
        return true;
    }
    is_cut(plan.curves, root, time.0) && is_net(plan, trail, root_want(root, time, false), net)
}

// Whether the nets of the roots are right, each by its time.
fn are_roots(plan: &Plan, trail: &Trail, nets: &[u32]) -> bool
    ensures { IsTrue result → AreRootsRight plan.now trail.now nets.now }
{
    if nets.len() != plan.roots.len() || plan.times.len() != plan.roots.len() {
        return false;
    }
    for k in 0..plan.roots.len() {
        if !is_root(plan, trail, plan.roots[k], plan.times[k], nets[k]) {
            return false;
        }
    }
    true
}

// Whether the nets of the pins of a cell are right, each for what the pin asks for.
fn are_pins(plan: &Plan, trail: &Trail, demand: &Demand, nets: &[u32]) -> bool
    ensures { IsTrue result → ArePinsRight plan.now trail.now demand.now nets.now }
{
    if nets.len() != demand.pins.len() || demand.delays.len() != demand.pins.len() {
        return false;
    }
    for k in 0..demand.pins.len() {
        if !is_net(plan, trail, pin_want(demand, k), nets[k]) {
            return false;
        }
    }
    true
}

// Whether a gate has the cell of its point's choice, and the nets of its pins.
fn is_node(plan: &Plan, trail: &Trail, node: Node, cell: CellId, nets: &[u32]) -> bool
    ensures { IsTrue result → IsNodeRight plan.now trail.now node cell nets.now }
{
    match demand_of(plan, node) {
        Some(demand) => demand.cell.0 == cell.0 && are_pins(plan, trail, &demand, nets),
        None => false,
    }
}

// Whether a net is that of the gate with a number, after the nets of `count` inputs.
fn is_of_gate(count: u32, net: u32, number: usize) -> bool
    ensures { IsTrue result → net ≡ count + number }
{
    net >= count && (net - count) as usize == number
}

// Whether the net of the gate with a number is used as `user` says: by a root, or by a pin of an
// earlier gate.
fn is_used(count: u32, pins: &[Numbers], nets: &[u32], user: User, number: usize) -> bool
    ensures { IsTrue result → IsUsedEarlier count pins.now nets.now number }
{
    let place = user.place as usize;
    let Some(gate) = user.gate else {
        return place < nets.len() && is_of_gate(count, nets[place], number);
    };
    let gate = gate as usize;
    if gate >= number || gate >= pins.len() {
        return false;
    }
    let row = pins[gate].as_slice();
    place < row.len() && is_of_gate(count, row[place], number)
}

// Whether the gate with a number is the exact gate of the node's point.
fn is_owned(owners: &[Vec<u32>], node: Node, number: usize) -> bool
    ensures { IsTrue result → IsOwned owners.now node number }
{
    let class = node.class.0 as usize;
    if class >= owners.len() {
        return false;
    }
    let row = &owners[class];
    let place = node.place as usize;
    if place >= row.len() || row[place] as usize != number {
        return false;
    }
    true
}

// Whether the gate with a number is the shared gate of the node's class.
fn is_spare(spares: &[u32], node: Node, number: usize) -> bool
    ensures { IsTrue result → IsSpare spares.now node number }
{
    let class = node.class.0 as usize;
    if class >= spares.len() || spares[class] as usize != number {
        return false;
    }
    true
}

// Whether no other gate stands at the point of a node for the same use.
fn is_own(trail: &Trail, node: Node, number: usize) -> bool
    ensures { IsTrue result →
        IsOnlyGate trail.now.owners.items trail.now.spares.items node number }
{
    if node.exact {
        is_owned(&trail.owners, node, number)
    } else {
        is_spare(&trail.spares, node, number)
    }
}

// Whether the gate with a number is right: it has its cell and nets, is used, and is the only one
// of its node.
fn is_gate(plan: &Plan, trail: &Trail, number: usize) -> bool
    requires { HasNumber trail.now number }
    ensures { IsTrue result → IsGateRight plan.now trail.now number }
{
    let (node, pins) = (trail.nodes[number], trail.walk.pins.as_slice());
    let (cell, nets) = (trail.walk.cells[number], pins[number].as_slice());
    if !is_node(plan, trail, node, cell, nets)
        || !is_used(
            plan.count,
            pins,
            &trail.walk.nets,
            trail.users[number],
            number,
        )
        || !is_own(trail, node, number)
    {
        return false;
    }
    true
}

// Whether each gate that a walk has found has a user, a cell and nets, and there are no more of
// them than points.
fn is_even(trail: &Trail) -> bool
    ensures { IsTrue result → IsEven trail.now }
{
    let number = trail.nodes.len();
    if number > MOST_GATES
        || trail.walk.cells.len() != number
        || trail.walk.pins.len() != number
        || trail.users.len() != number
    {
        return false;
    }
    true
}
