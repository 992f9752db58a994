// Matches that attain the labels and the heights of all classes.
ghost use Rattle.std.specs.Prelude.{◌<◌, IfOk, length};
ghost use Rattle.lw_bounds.specs.Bounds.{BoundsFit, AreBounds};
ghost use Rattle.lw_match.specs.Cutting.{AreKnown};
ghost use Rattle.lw_extract.specs.Choosing.{AreClassChoices, IsClassChoice};
ghost use Rattle.lw_extract.specs.Covers.{AreLibraryLabels};
ghost use Rattle.lw_extract.specs.Jobs.{AreJobBounds, AreJobLabels};
ghost use Rattle.lw_extract.specs.Nets.{AreInputNets};

use crate::Ports;
use crate::choosing::choice;
use crate::job::Job;
use crate::nets::input_nets;
use lw_bounds::Bounds;
use lw_cost::{Cost, Match};
use lw_genlib::Library;
use lw_graph::Graph;
use lw_label::Labels;
use lw_match::Tops;
use lw_pattern::Patterns;
use lw_pool::{ClassId, NetId};
use std::alloc::{AllocError, Global};

// The chosen match of a class that has a label and is no input's.
fn class_choice<C: Cost>(
    job: &Job<C>,
    bounds: &Bounds,
    tops: &mut Tops,
    nets: &[Option<NetId>],
    class: ClassId,
) -> Option<Match>
    requires labels { AreJobLabels C.costs job.now }
    requires bounds { AreJobBounds job.now bounds.now }
    requires nets { AreInputNets job.now.graph.now nets.now }
    requires within { class.0 < length job.now.graph.now.pairs }
    requires known { AreKnown (C.costs job.now.cost.now) job.now.pats.now bounds.now.gaps tops.old }
    ensures known { AreKnown (C.costs job.now.cost.now) job.now.pats.now bounds.now.gaps tops.new }
    ensures choice { IsClassChoice job.now.graph.now (C.costs job.now.cost.now) job.now.pats.now
        job.now.marks.now class.0 result }
{
    let place = class.0 as usize;
    if nets[place].is_some() {
        return None;
    }
    if job.marks[place].is_none() {
        return None;
    }
    choice(job, bounds, tops, class)
}

// What all classes have.
fn class_choices<C: Cost>(
    alloc: Global,
    job: &Job<C>,
    bounds: &Bounds,
) -> Result<Vec<Option<Match>>, AllocError>
    requires labels { AreJobLabels C.costs job.now }
    requires bounds { AreJobBounds job.now bounds.now }
    ensures { IfOk result (λ all. AreClassChoices job.now.graph.now (C.costs job.now.cost.now)
        job.now.pats.now job.now.marks.now all.items) }
{
    let nets = input_nets(alloc, job.graph)?;
    let mut tops = Tops::new(alloc, job.pats, job.cost, bounds)?;
    let mut all = Vec::new(alloc);
    for number in 0..job.graph.classes() {
        all.push(class_choice(job, bounds, &mut tops, &nets, ClassId(number)))?;
    }
    Ok(all)
}

/// For each class of a graph that has a label and is no input's its chosen match, which is the
/// first of those that attain its label and its height. The others have none.
pub fn attaining_matches<C: Cost>(
    alloc: Global,
    graph: &Graph,
    pats: &Patterns,
    lib: &Library,
    labels: &Labels,
    bounds: &Bounds,
    ports: &Ports,
    cost: &C,
) -> Result<Vec<Option<Match>>, AllocError>
    requires labels { AreLibraryLabels graph.now (C.costs cost.now) pats.now lib.now labels.now }
    requires fits { BoundsFit bounds.now pats.now graph.now }
    requires bounds { AreBounds bounds.now graph.now labels.now }
    ensures { IfOk result (λ all. AreClassChoices graph.now (C.costs cost.now) pats.now labels.now
        all.items) }
{
    let marks = labels.marks();
    let job = Job {
        graph,
        pats,
        lib,
        cost,
        marks,
        ports,
    };
    class_choices(alloc, &job, bounds)
}
