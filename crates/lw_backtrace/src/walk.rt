// The walk from the roots down.
ghost use Rattle.std.specs.Prelude.{◌<◌, IfOk, IsTrue, length};
ghost use Rattle.lw_backtrace.specs.SecondLook.{IsRightWalk};
ghost use Rattle.lw_backtrace.specs.Walks.{AreInputsTo, IsWalkBy, IsWalkDown};

use crate::second_look::{is_cut, is_right};
use crate::shared_points::share;
use crate::targets::Targets;
use crate::trail::{MOST_GATES, Node, Trail, User, Walk, gate_at, no_trail};
use crate::wants::{Plan, Want, demand_of, pin_want, root_want, to_u32};
use lw_curves::Curves;
use lw_genlib::Library;
use lw_graph::Graph;
use lw_pool::{ClassId, Numbers};
use std::alloc::{AllocError, Global};

/// Walks from the roots down. Each root takes the last point of its class by its time. Each pin of
/// the gate of a point takes the last point of the pin's class by the point's time, less the delay
/// of the pin. But a root whose last point has the cut area 2^62 takes any point that comes by its
/// time, and shares gates. Where that fails, a walk in which no root does so is tried. Where that
/// fails too, the answer is that memory is out.
pub fn walk_down(
    alloc: Global,
    graph: &Graph,
    lib: &Library,
    curves: &Curves,
    targets: &Targets,
) -> Result<Walk, AllocError>
    ensures { IfOk result (IsWalkDown graph.now lib.now curves.now targets.now) }
{
    let inputs = inputs_of(alloc, graph)?;
    let plan = Plan {
        curves,
        inputs: &inputs,
        count: graph.inputs(),
        lib,
        roots: targets.roots.as_slice(),
        times: targets.times.as_slice(),
    };
    walk_either(alloc, &plan)
}

// The input of each class, none where it has no input.
fn inputs_of(alloc: Global, graph: &Graph) -> Result<Vec<Option<u32>>, AllocError>
    ensures { IfOk result (λ inputs. AreInputsTo graph.now (length graph.now.leaves) inputs.items) }
{
    let mut inputs = vec![in alloc; None; graph.classes() as usize]?;
    for input in 0..graph.inputs() {
        inputs[graph.leaf(input).0 as usize] = Some(input);
    }
    Ok(inputs)
}

// The place of the point that is wanted: of the last one by the time, or for a shared use of the
// one that `share` chose for the class.
fn place_for(plan: &Plan, trail: &Trail, want: Want) -> Option<u32> {
    if !want.exact {
        return Some(*trail.places.get(want.class.0 as usize)?);
    }
    let last = plan.curves.last_by(want.class, want.delay, want.time)?;
    u32::try_from(last).ok()
}

// The point that is wanted, as a node; none if the class has no point by the time.
fn node_for(plan: &Plan, trail: &Trail, want: Want) -> Option<Node> {
    Some(Node {
        class: want.class,
        place: place_for(plan, trail, want)?,
        exact: want.exact,
    })
}

// The net that is wanted: that of the input of the class, or of a point's gate, which `user` may be
// the first to use.
fn net_for(plan: &Plan, trail: &mut Trail, want: Want, user: User) -> Result<u32, AllocError> {
    let input = plan.inputs.get(want.class.0 as usize).ok_or(AllocError)?;
    if let Some(input) = *input {
        return Ok(input);
    }
    let node = node_for(plan, trail, want).ok_or(AllocError)?;
    let gate = gate_at(trail, node, user)?;
    plan.count.checked_add(gate).ok_or(AllocError)
}

// Appends the nets of the roots, of which those that are cut may share gates.
fn push_roots(plan: &Plan, trail: &mut Trail) -> Result<(), AllocError> {
    trail.walk.nets.reserve(plan.roots.len())?;
    for (k, (root, time)) in plan.roots.iter().zip(plan.times).enumerate() {
        let exact = !trail.sharing || !is_cut(plan.curves, *root, time.0);
        let (want, place) = (root_want(*root, *time, exact), to_u32(k)?);
        let net = net_for(plan, trail, want, User { gate: None, place })?;
        trail.walk.nets.push(net)?;
    }
    Ok(())
}

// Finds the exact gates of the roots whose last points by their times are not cut.
fn start_at_roots(plan: &Plan, trail: &mut Trail) -> Result<(), AllocError> {
    for (k, (root, time)) in plan.roots.iter().zip(plan.times).enumerate() {
        let place = to_u32(k)?;
        if !is_cut(plan.curves, *root, time.0) {
            let want = root_want(*root, *time, true);
            net_for(plan, trail, want, User { gate: None, place })?;
        }
    }
    Ok(())
}

// Goes on to the pins of the gate with the number `at`: notes its cell and the nets of its pins,
// which may be of new gates.
fn go_through(alloc: Global, plan: &Plan, trail: &mut Trail, at: usize) -> Result<(), AllocError>
    requires { at < length trail.old.nodes.items }
{
    let demand = demand_of(plan, trail.nodes[at]).ok_or(AllocError)?;
    let gate = Some(to_u32(at)?);
    let mut row = Vec::with_capacity(alloc, demand.pins.len())?;
    for pin in 0..demand.pins.len().min(demand.delays.len()) {
        let place = to_u32(pin)?;
        let want = pin_want(&demand, pin);
        row.push(net_for(plan, trail, want, User { gate, place })?)?;
    }
    trail.walk.cells.push(demand.cell)?;
    trail.walk.pins.push(Numbers::new(row))?;
    Ok(())
}

// Goes on to the pins of each gate that was found and not yet gone through.
fn walk_on(alloc: Global, plan: &Plan, trail: &mut Trail) -> Result<(), AllocError> {
    for at in trail.walk.cells.len()..MOST_GATES {
        if at >= trail.nodes.len() {
            break;
        }
        go_through(alloc, plan, trail, at)?;
    }
    Ok(())
}

// Walks from the roots that are not cut, and then chooses the points that the others share.
fn walk_first(alloc: Global, plan: &Plan, trail: &mut Trail) -> Result<(), AllocError> {
    start_at_roots(plan, trail)?;
    walk_on(alloc, plan, trail)?;
    share(alloc, plan, trail)
}

// Walks from the roots down, and says whether what was found is right.
fn walk_through(alloc: Global, plan: &Plan, trail: &mut Trail) -> Result<bool, AllocError>
    ensures { IfOk result (λ right. IsTrue right → IsRightWalk plan.now trail.new) }
{
    if trail.sharing {
        walk_first(alloc, plan, trail)?;
    }
    push_roots(plan, trail)?;
    walk_on(alloc, plan, trail)?;
    Ok(is_right(plan, trail))
}

// Walks from the roots down, of which those that are cut may share gates. What was found is looked
// through once more, so that the walk itself need not be known to be right.
fn walk_by(alloc: Global, plan: &Plan, sharing: bool) -> Result<Walk, AllocError>
    ensures { IfOk result (IsWalkBy plan.now) }
{
    let mut trail = no_trail(alloc, plan, sharing)?;
    if walk_through(alloc, plan, &mut trail)? {
        return Ok(trail.walk);
    }
    Err(AllocError)
}

// Whether some root is cut.
fn has_cut(plan: &Plan) -> bool {
    for (root, time) in plan.roots.iter().zip(plan.times) {
        if is_cut(plan.curves, *root, time.0) {
            return true;
        }
    }
    false
}

// Walks from the roots down. A root whose last point has the cut area 2^62 takes any point that
// comes by its time, and shares gates. Where that fails, a walk in which no root does so is tried.
fn walk_either(alloc: Global, plan: &Plan) -> Result<Walk, AllocError>
    ensures { IfOk result (IsWalkBy plan.now) }
{
    if has_cut(plan) {
        if let Ok(walk) = walk_by(alloc, plan, true) {
            return Ok(walk);
        }
    }
    walk_by(alloc, plan, false)
}
