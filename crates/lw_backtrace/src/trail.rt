// What a walk has found so far.
use crate::wants::{Plan, to_u32};
use lw_pool::{CellId, ClassId, Numbers};
use std::alloc::{AllocError, Global};

/// The gates that a walk has found. The inputs are the first nets, and each gate drives the next
/// one.
#[derive(Drop)]
pub struct Walk {
    /// The cell of each gate.
    pub cells: Vec<CellId>,
    /// The nets of the pins of each gate.
    pub pins: Vec<Numbers>,
    /// The nets of the roots.
    pub nets: Vec<u32>,
}

/// A point that gets a gate.
#[derive(Clone, Copy)]
pub(crate) struct Node {
    pub class: ClassId,
    /// Its place among the points of the class.
    pub place: u32,
    /// Whether its gate has the area of the point. Else the gate is shared: it has only to come by
    /// the time of the point.
    pub exact: bool,
}

/// What uses the net of a gate.
#[derive(Clone, Copy)]
pub(crate) struct User {
    /// The gate with the pin that uses it, or none where a root uses it.
    pub gate: Option<u32>,
    /// The place of the pin or the root.
    pub place: u32,
}

/// What a walk has found so far, and what it goes on by.
#[derive(Drop)]
pub(crate) struct Trail {
    /// The points that get a gate, in the order in which they were found.
    pub nodes: Vec<Node>,
    /// What uses the net of each gate first.
    pub users: Vec<User>,
    /// The exact gate of each point of each class.
    pub owners: Vec<Vec<u32>>,
    /// The shared gate of each class.
    pub spares: Vec<u32>,
    /// The place of the point of each class that shared uses take.
    pub places: Vec<u32>,
    /// The time by which shared uses need each class.
    pub needs: Vec<Option<u64>>,
    /// Whether roots that are cut share gates.
    pub sharing: bool,
    /// The gates.
    pub walk: Walk,
}

/// The gate of a point that has none.
pub(crate) const NO_GATE: u32 = u32::MAX;

/// How many gates there are at most.
pub(crate) const MOST_GATES: usize = 8_000_000;

/// Nothing is found yet: no class or point has a gate, and no class is needed.
pub(crate) fn no_trail(alloc: Global, plan: &Plan, sharing: bool) -> Result<Trail, AllocError> {
    Ok(Trail {
        nodes: Vec::new(alloc),
        users: Vec::new(alloc),
        owners: no_owners(alloc, plan)?,
        spares: vec![in alloc; NO_GATE; plan.inputs.len()]?,
        places: vec![in alloc; NO_GATE; plan.inputs.len()]?,
        needs: vec![in alloc; None; plan.inputs.len()]?,
        sharing,
        walk: no_walk(alloc),
    })
}

/// The number of the gate of a node. If it has none yet, it becomes the next gate, and `user` is
/// the first to use it.
pub(crate) fn gate_at(trail: &mut Trail, node: Node, user: User) -> Result<u32, AllocError> {
    let gate = gate_of_node(trail, node).ok_or(AllocError)?;
    if gate != NO_GATE {
        return Ok(gate);
    }
    let gate = to_u32(trail.nodes.len())?;
    trail.nodes.push(node)?;
    trail.users.push(user)?;
    note_gate(trail, node, gate);
    Ok(gate)
}

// No gates yet.
fn no_walk(alloc: Global) -> Walk {
    Walk {
        cells: Vec::new(alloc),
        pins: Vec::new(alloc),
        nets: Vec::new(alloc),
    }
}

// `NO_GATE` for each point of each class.
fn no_owners(alloc: Global, plan: &Plan) -> Result<Vec<Vec<u32>>, AllocError> {
    let mut owners = Vec::with_capacity(alloc, plan.inputs.len())?;
    for class in 0..plan.inputs.len() {
        let points = plan.curves.get(ClassId(to_u32(class)?)).ok_or(AllocError)?;
        owners.push(vec![in alloc; NO_GATE; points.len()]?)?;
    }
    Ok(owners)
}

// The gate of a node: for a shared use the exact gate of its point, or else the class's shared one.
// `NO_GATE` stands for no gate yet, and none for a point that is not there.
fn gate_of_node(trail: &Trail, node: Node) -> Option<u32> {
    let row = trail.owners.get(node.class.0 as usize)?;
    let own = *row.get(node.place as usize)?;
    if node.exact || own != NO_GATE {
        return Some(own);
    }
    Some(*trail.spares.get(node.class.0 as usize)?)
}

// Notes the gate of a node, as exact for its point or as shared for its class.
fn note_gate(trail: &mut Trail, node: Node, gate: u32) {
    let (class, place) = (node.class.0 as usize, node.place as usize);
    if !node.exact {
        if class < trail.spares.len() {
            trail.spares[class] = gate;
        }
    } else if class < trail.owners.len() && place < trail.owners[class].len() {
        trail.owners[class][place] = gate;
    }
}
