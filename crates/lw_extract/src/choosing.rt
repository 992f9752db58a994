// The classes that are needed, each with its chosen match.
ghost use Rattle.std.specs.Prelude.{IfOk, reverse};
ghost use Rattle.lw_match.specs.Cutting.{AreKnown};
ghost use Rattle.lw_extract.specs.Jobs.{AreJobBounds, AreJobChoices, AreJobLabels, CanCover};
ghost use Rattle.lw_extract.specs.Jobs.{FindsChoice, IsInnerClass};
ghost use Rattle.lw_extract.specs.Orders.{AreByHeight};
ghost use Rattle.lw_extract.specs.Nets.{AreInputNets};

use crate::job::Job;
use crate::ordering::by_height;
use lw_bounds::Bounds;
use lw_cost::{Cost, Mark, Match};
use lw_match::{Tops, least_before};
use lw_needed::{Place, need, needed_by};
use lw_pool::{ClassId, NetId};
use std::alloc::{AllocError, Global};

/// A class with a gate, and the match that the gate is.
#[derive(Drop)]
pub struct Chosen {
    pub class: ClassId,
    pub found: Match,
}

// The chosen match of a class: the first of those that attain its label and its height, and none if
// it has no label.
pub(crate) fn choice<C: Cost>(
    job: &Job<C>,
    bounds: &Bounds,
    tops: &mut Tops,
    class: ClassId,
) -> Option<Match>
    requires labels { AreJobLabels C.costs job.now }
    requires bounds { AreJobBounds job.now bounds.now }
    requires class { IsInnerClass job.now.graph.now class.0 }
    requires known { AreKnown (C.costs job.now.cost.now) job.now.pats.now bounds.now.gaps tops.old }
    ensures known { AreKnown (C.costs job.now.cost.now) job.now.pats.now bounds.now.gaps tops.new }
    ensures choice { FindsChoice C.costs job.now class.0 result }
{
    let mark = job.marks[class.0 as usize]?;
    let bound = Mark {
        cost: mark.cost,
        height: mark.height + 1,
    };
    let (graph, pats, marks) = (job.graph, job.pats, job.marks);
    let best = least_before(graph, pats, bounds, marks, class, job.cost, tops, bound)?;
    Some(best.found)
}

// The needed classes of these places that are no input's, from the highest down, each with its
// chosen match. A class is lower than each whose chosen match has it as a pin.
fn choose_down<C: Cost>(
    alloc: Global,
    job: &Job<C>,
    bounds: &Bounds,
    places: &[Place],
) -> Result<Vec<Chosen>, AllocError>
    requires ready { CanCover C.costs job.now }
    requires bounds { AreJobBounds job.now bounds.now }
    requires places { (nets : _) × AreInputNets job.now.graph.now nets ×
        AreByHeight nets job.now.marks.now places.now }
    ensures { IfOk result (λ chosen.
        AreJobChoices C.costs job.now (reverse chosen.items)) }
{
    let roots = job.ports.roots.as_slice();
    let mut needed = needed_by(alloc, roots, job.graph.classes() as usize)?;
    let mut tops = Tops::new(alloc, job.pats, job.cost, bounds)?;
    let mut chosen = Vec::new(alloc);
    for place in places.iter().rev() {
        let class = place.class;
        if needed[class.0 as usize] {
            if let Some(found) = choice(job, bounds, &mut tops, class) {
                need(&mut needed, found.pins.as_slice());
                chosen.push(Chosen { class, found })?;
            }
        }
    }
    Ok(chosen)
}

// The needed classes that are no input's, by height and then class, each with its chosen match.
// Here `nets` has the nets of the inputs' classes alone.
pub(crate) fn choose<C: Cost>(
    alloc: Global,
    job: &Job<C>,
    bounds: &Bounds,
    nets: &[Option<NetId>],
) -> Result<Vec<Chosen>, AllocError>
    requires ready { CanCover C.costs job.now }
    requires bounds { AreJobBounds job.now bounds.now }
    requires nets { AreInputNets job.now.graph.now nets.now }
    ensures { IfOk result (λ chosen. AreJobChoices C.costs job.now chosen.items) }
{
    let _ = job.graph.classes();
    let places = by_height(alloc, nets, job.marks)?;
    let mut chosen = choose_down(alloc, job, bounds, &places)?;
    chosen.reverse();
    Ok(chosen)
}
