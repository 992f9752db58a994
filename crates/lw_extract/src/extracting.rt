// The netlist that labels give to some outputs.
ghost use Rattle.std.specs.Prelude.{◌≡◌, ◌<◌, ◌^◌, ◌↔◌, ℕ, All, IfOk, IfSome, IsSome, None, Err};
ghost use Rattle.std.specs.Prelude.{length, slice_index_or, MatchOption};
ghost use Rattle.lw_bounds.specs.Bounds.{BoundsFit, AreBounds};
ghost use Rattle.lw_extract.specs.declared.fault.ExtractFault.TheVariants.{NoCover};
ghost use Rattle.lw_extract.specs.Covers.{AreFit, AreLibraryLabels, IsCoverBy, IsFirstUncovered};
ghost use Rattle.lw_extract.specs.Jobs.{AreJobBounds, CanCover, IsJobCover};

use crate::assembling::assemble_over;
use crate::choosing::choose;
use crate::job::Job;
use crate::nets::{add_gates, input_nets};
use crate::{Cover, ExtractFault, Ports};
use lw_bounds::Bounds;
use lw_cost::{Cost, Mark};
use lw_genlib::Library;
use lw_graph::Graph;
use lw_label::Labels;
use lw_pattern::Patterns;
use lw_pool::ClassId;
use std::alloc::{AllocError, Global};

// The place, from 0, of the first root that has no mark, and none if each has one.
fn first_uncovered(marks: &[Option<Mark>], roots: &[ClassId]) -> Option<u32>
    requires few { length roots.now < 2 ^ 32 }
    requires in_range { All (λ root. root.0 < length marks.now) roots.now }
    ensures { MatchOption result (All
        (λ root. IsSome (slice_index_or marks.now root.0 None)) roots.now)
        (IsFirstUncovered marks.now roots.now) }
{
    for (k, root) in roots.iter().enumerate() {
        if marks[root.0 as usize].is_none() {
            return Some(k as u32);
        }
    }
    None
}

// The netlist of the chosen matches, by a table of bounds for the labels.
fn cover<C: Cost>(alloc: Global, job: &Job<C>, bounds: &Bounds) -> Result<Cover, AllocError>
    requires ready { CanCover C.costs job.now }
    requires bounds { AreJobBounds job.now bounds.now }
    ensures { IfOk result (IsJobCover C.costs job.now) }
{
    let _ = job.lib.len();
    let mut nets = input_nets(alloc, job.graph)?;
    let chosen = choose(alloc, job, bounds, &nets)?;
    add_gates(&mut nets, job.graph.inputs(), &chosen);
    let cover = assemble_over(alloc, job.graph, job.pats, job.ports, &nets, &chosen)?;
    Ok(cover)
}

// The netlist of the chosen matches, by a table of bounds that is at hand or is made here.
fn cover_with<C: Cost>(
    alloc: Global,
    job: &Job<C>,
    bounds: Option<&Bounds>,
) -> Result<Cover, AllocError>
    requires ready { CanCover C.costs job.now }
    requires bounds { IfSome bounds (λ b. AreJobBounds job.now b.now) }
    ensures { IfOk result (IsJobCover C.costs job.now) }
{
    if let Some(bounds) = bounds {
        return cover(alloc, job, bounds);
    }
    let bounds = Bounds::settled(alloc, job.graph, job.pats, job.marks, job.cost)?;
    cover(alloc, job, &bounds)
}

/// The netlist that the labels of a graph's classes give to some outputs, by a table of bounds for
/// them where one is at hand. It has a gate for each class that is needed, the chosen match of the
/// class. Each net costs the label of its class. `NoCover` comes exactly where the class of an
/// output has no label.
pub fn extract_with<C: Cost>(
    alloc: Global,
    graph: &Graph,
    pats: &Patterns,
    lib: &Library,
    labels: &Labels,
    bounds: Option<&Bounds>,
    ports: &Ports,
    cost: &C,
) -> Result<Cover, ExtractFault>
    requires labels { AreLibraryLabels graph.now (C.costs cost.now) pats.now lib.now labels.now }
    requires fits { IfSome bounds (λ b. BoundsFit b.now pats.now graph.now) }
    requires bounds { IfSome bounds (λ b. AreBounds b.now graph.now labels.now) }
    requires fit { AreFit graph.now ports.now }
    ensures no_cover { (k : ℕ) → (result ≡ Err (NoCover k)) ↔
        IsFirstUncovered labels.now ports.now.roots k }
    ensures cover { IfOk result
        (IsCoverBy graph.now (C.costs cost.now) pats.now lib.now labels.now ports.now) }
{
    let marks = labels.marks();
    if let Some(output) = first_uncovered(marks, ports.roots.as_slice()) {
        return Err(ExtractFault::NoCover(output));
    }
    let job = Job {
        graph,
        pats,
        lib,
        cost,
        marks,
        ports,
    };
    match cover_with(alloc, &job, bounds) {
        Ok(cover) => Ok(cover),
        Err(_) => Err(ExtractFault::Memory),
    }
}

/// The netlist that the labels of a graph's classes give to some outputs, as `extract_with` gives
/// it without a table.
pub fn extract<C: Cost>(
    alloc: Global,
    graph: &Graph,
    pats: &Patterns,
    lib: &Library,
    labels: &Labels,
    ports: &Ports,
    cost: &C,
) -> Result<Cover, ExtractFault>
    requires labels { AreLibraryLabels graph.now (C.costs cost.now) pats.now lib.now labels.now }
    requires fit { AreFit graph.now ports.now }
    ensures no_cover { (k : ℕ) → (result ≡ Err (NoCover k)) ↔
        IsFirstUncovered labels.now ports.now.roots k }
    ensures cover { IfOk result
        (IsCoverBy graph.now (C.costs cost.now) pats.now lib.now labels.now ports.now) }
{
    extract_with(alloc, graph, pats, lib, labels, None, ports, cost)
}
