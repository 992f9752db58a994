// The points whose gates are shared, where any cover in time will do.
use crate::second_look::is_cut;
use crate::trail::{NO_GATE, Node, Trail};
use crate::wants::{Plan, demand_of, to_u32};
use lw_choices::Stand;
use lw_curves::Curves;
use lw_fixed::Micro;
use lw_pool::ClassId;
use std::alloc::{AllocError, Global};

/// What the first point of a class is. Classes are gone through by it, from the highest down.
#[derive(Clone, Copy, PartialEq, Eq, PartialOrd, Ord)]
struct Rank {
    time: Micro,
    area: u64,
    order: u64,
    class: ClassId,
}

/// Chooses the place of the point of each class that is shared, given the exact gates of each, the
/// highest class first. Each class is needed by a time by roots, or by the pins of those that are
/// chosen before it.
pub(crate) fn share(alloc: Global, plan: &Plan, trail: &mut Trail) -> Result<(), AllocError> {
    need_roots(plan, trail);
    let ranks = ranks_of(alloc, plan)?;
    for rank in ranks.iter().rev() {
        choose(plan, trail, *rank)?;
    }
    Ok(())
}

// The rank of a class, if it has a point.
fn rank_of(curves: &Curves, class: ClassId) -> Option<Rank> {
    let first = curves.get(class)?.first()?;
    let way = curves.ways_of(class)?.first()?;
    Some(Rank {
        time: first.time,
        area: first.area,
        order: way.order,
        class,
    })
}

// The ranks of the classes that no input has, the lowest first.
fn ranks_of(alloc: Global, plan: &Plan) -> Result<Vec<Rank>, AllocError> {
    let mut ranks = Vec::new(alloc);
    for class in 0..plan.inputs.len() {
        let number = ClassId(to_u32(class)?);
        if let (None, Some(rank)) = (plan.inputs[class], rank_of(plan.curves, number)) {
            ranks.push(rank)?;
        }
    }
    ranks.sort_unstable();
    Ok(ranks)
}

// Whether a class is an input's, or of lower rank than `rank`.
fn is_lower(plan: &Plan, class: ClassId, rank: Rank) -> bool {
    match plan.inputs.get(class.0 as usize) {
        None => false,
        Some(Some(_)) => true,
        Some(None) => match rank_of(plan.curves, class) {
            Some(own) => own < rank,
            None => false,
        },
    }
}

// Whether each pin of the gate of a point, of the class with this rank, is an input's or of lower
// rank. Shared gates make no cycle then.
fn fits(plan: &Plan, rank: Rank, place: u32) -> bool {
    let Some(Stand::Gate(gate)) = plan.curves.stand(rank.class, place) else {
        return false;
    };
    for pin in gate.pins {
        if !is_lower(plan, *pin, rank) {
            return false;
        }
    }
    true
}

// The latest place up to `last` whose point has an exact gate. `gates` has the exact gate of each
// point of a class.
fn owned_place(gates: &[u32], last: u32) -> Option<u32> {
    for place in (0..gates.len()).rev() {
        if gates[place] != NO_GATE && place <= last as usize {
            return u32::try_from(place).ok();
        }
    }
    None
}

// The latest place up to `last` whose gate has pins of lower rank only.
fn fitting_place(plan: &Plan, rank: Rank, last: u32) -> Option<u32> {
    if fits(plan, rank, last) {
        return Some(last);
    }
    for place in (0..last).rev() {
        if fits(plan, rank, place) {
            return Some(place);
        }
    }
    None
}

// Notes that a class is needed by a time: the earliest such time stays.
fn need(needs: &mut Vec<Option<u64>>, class: ClassId, time: u64) {
    let class = class.0 as usize;
    if class < needs.len() {
        needs[class] = match needs[class] {
            Some(known) if known < time => Some(known),
            _ => Some(time),
        };
    }
}

// Notes by which times the pins of the gate of a point need their classes.
fn need_pins(plan: &Plan, trail: &mut Trail, class: ClassId, place: u32) -> Result<(), AllocError> {
    let node = Node {
        class,
        place,
        exact: false,
    };
    let demand = demand_of(plan, node).ok_or(AllocError)?;
    for (pin, delay) in demand.pins.iter().zip(demand.delays) {
        need(&mut trail.needs, *pin, demand.time.saturating_sub(delay.0));
    }
    Ok(())
}

// Notes the times by which the roots that are cut need their classes.
fn need_roots(plan: &Plan, trail: &mut Trail) {
    for (root, time) in plan.roots.iter().zip(plan.times) {
        if is_cut(plan.curves, *root, time.0) {
            need(&mut trail.needs, *root, time.0);
        }
    }
}

// The place of the point that is shared of a class needed by a time: the latest with an exact gate,
// or else the latest that fits. Then the pins of its gate need their classes.
fn place_by(plan: &Plan, trail: &mut Trail, rank: Rank, time: u64) -> Result<u32, AllocError> {
    let last = to_u32(plan.curves.last_by(rank.class, 0, time).ok_or(AllocError)?)?;
    let gates = trail.owners.get(rank.class.0 as usize).ok_or(AllocError)?;
    if let Some(place) = owned_place(gates.as_slice(), last) {
        return Ok(place);
    }
    let place = fitting_place(plan, rank, last).ok_or(AllocError)?;
    need_pins(plan, trail, rank.class, place)?;
    Ok(place)
}

// Chooses the place of the point that is shared of a class, if that is needed.
fn choose(plan: &Plan, trail: &mut Trail, rank: Rank) -> Result<(), AllocError> {
    let class = rank.class.0 as usize;
    if let Some(time) = *trail.needs.get(class).ok_or(AllocError)? {
        let place = place_by(plan, trail, rank, time)?;
        if class < trail.places.len() {
            trail.places[class] = place;
        }
    }
    Ok(())
}
