// Whether the labels of a certificate are a potential, by searches that a table cuts.
ghost use Rattle.std.specs.Prelude.{◌≡◌, ◌≤◌, ℕ, Some, IfOk, None, map, option_map, slice_index_or};
ghost use Rattle.lw_genlib.specs.Tables.{millionths};
ghost use Rattle.lw_laws.specs.Laws.{IsLeafCost};
ghost use Rattle.lw_laws.specs.Rounds.{labels_in};
ghost use Rattle.lw_check.specs.Cases.{claim_of, PassesGates, Tells};
ghost use Rattle.lw_check.specs.Claims.{HasPotential};
ghost use Rattle.lw_check.specs.Labelling.{FindsUnboundedIn, HasCells};
ghost use Rattle.lw_check.specs.Least.{ArePlainLabels, flat_mark, IsLeastOf, lesser_of};

use crate::Reason;
use crate::case::Case;
use crate::labelling::{Labelling, Prices, Trial};
use crate::trial::Unbounded;
use lw_bounds::Bounds;
use lw_cost::{Cost, Mark};
use lw_fixed::Micro;
use lw_graph::Graph;
use lw_label::DelayCost;
use lw_match::Scratch;
use lw_pool::ClassId;
use std::alloc::{AllocError, Global};

// The label of a class in a certificate, and none past the last.
pub(crate) fn label_of(labels: &[Option<Micro>], class: ClassId) -> Option<Micro>
    ensures { result ≡ slice_index_or labels.now class.0 None }
{
    let place = class.0 as usize;
    if place < labels.len() {
        return labels[place];
    }
    None
}

// A label as a plain number of millionths.
fn plain(label: Option<Micro>) -> Option<u64>
    ensures { result ≡ option_map millionths label }
{
    match label {
        Some(label) => Some(label.0),
        None => None,
    }
}

// The labels of so many classes as plain numbers of millionths, none where the certificate has
// none.
fn labels_of(
    alloc: Global,
    labels: &[Option<Micro>],
    classes: u32,
) -> Result<Vec<Option<u64>>, AllocError>
    ensures { IfOk result (λ plain. ArePlainLabels labels.now classes plain.items) }
{
    let mut numbers = Vec::with_capacity(alloc, classes as usize)?;
    for class in 0..classes {
        numbers.push(plain(label_of(labels, ClassId(class))))?;
    }
    Ok(numbers)
}

// A mark with this cost, and no height.
fn flat(label: Option<u64>) -> Option<Mark>
    ensures { result ≡ flat_mark label }
{
    match label {
        Some(cost) => Some(Mark { cost, height: 0 }),
        None => None,
    }
}

// Marks that have these labels as costs, and no height; none where a class has no label.
fn marks_of(alloc: Global, labels: &[Option<u64>]) -> Result<Vec<Option<Mark>>, AllocError>
    ensures { IfOk result (λ marks. marks.items ≡ map flat_mark labels.now) }
{
    let mut marks = Vec::with_capacity(alloc, labels.len())?;
    for label in labels {
        marks.push(flat(*label))?;
    }
    Ok(marks)
}

// The lesser of two numbers, or the one that there is.
pub(crate) fn lesser(one: Option<u64>, other: Option<u64>) -> Option<u64>
    ensures { result ≡ lesser_of one other }
{
    match (one, other) {
        (Some(first), Some(second)) if second < first => other,
        (Some(_), _) => one,
        (None, _) => other,
    }
}

// The least that an input of a class costs, and none if the class is no input's.
pub(crate) fn least_input<C: Cost>(graph: &Graph, cost: &C, class: ClassId) -> Option<u64>
    ensures { IsLeastOf (IsLeafCost graph.now (C.costs cost.now) class.0) result }
{
    let mut least = None;
    for input in 0..graph.inputs() {
        if graph.leaf(input) == class {
            least = lesser(least, Some(cost.leaf(input)));
        }
    }
    least
}

// The first class whose label is no bound, with what shows it, by a table that is made for the
// labels.
fn sought<C: Cost>(alloc: Global, given: &Labelling<C>) -> Result<Option<Unbounded>, AllocError>
    requires capped { (c l : ℕ) → labels_in given.now.labels.now c ≡ Some l → l ≤ C.CAP }
    requires of_cells { HasCells C.costs given.now }
    ensures { IfOk result (FindsUnboundedIn C.costs given.now) }
{
    let marks = marks_of(alloc, given.labels)?;
    let by = &given.by;
    let bounds = Bounds::settled(alloc, given.graph, by.pats, &marks, by.cost)?;
    let trial = Trial {
        given,
        marks: &marks,
        bounds: &bounds,
    };
    let mut scratch = Scratch::with_room(alloc)?;
    Ok(trial.first_unbounded(&mut scratch))
}

// The fourth test: the reason against the first class whose label is no bound, or none.
pub(crate) fn label_reason(alloc: Global, case: &Case) -> Result<Option<Reason>, AllocError>
    requires { PassesGates (claim_of case.now) }
    ensures { IfOk result (Tells (claim_of case.now) (HasPotential (claim_of case.now))) }
{
    let given = case.mapped.cert.labels.as_slice();
    let (graph, pats) = (case.graph, case.pats);
    let labels = labels_of(alloc, given, graph.classes())?;
    let cost = &DelayCost::new(case.lib, case.starts);
    let (by, labels) = (Prices { pats, cost }, &labels);
    let Some(found) = sought(alloc, &Labelling { graph, labels, by })? else {
        return Ok(None);
    };
    let label = label_of(given, found.class);
    Ok(Some(Reason::Label(found.class, label, Micro(found.value))))
}
