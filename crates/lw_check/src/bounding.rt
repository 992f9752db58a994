// Whether labels are a potential, by a look at each match.
ghost use Rattle.std.specs.Prelude.{◌≡◌, ◌↔◌, ◌<◌, ◌≤◌, IfSome, IsNone, IsTrue, length, option_map};
ghost use Rattle.std.specs.Prelude.{take};
ghost use Rattle.lw_laws.specs.Laws.{BoundsCovers};
ghost use Rattle.lw_laws.specs.Mapped.{IsPotentialOf};
ghost use Rattle.lw_laws.specs.Rounds.{labels_in};
ghost use Rattle.lw_cost.specs.Least.{AreOfCells};
ghost use Rattle.lw_cost.specs.Values.{plain_match};
ghost use Rattle.lw_check.specs.Claims.{class_number};
ghost use Rattle.lw_check.specs.Failing.{IsAbove, IsFirstFailing};
ghost use Rattle.lw_check.specs.Labelling.{HasCells, HasPattern, IsCostBy, IsLateIn, IsLowBy};
ghost use Rattle.lw_check.specs.Labelling.{IsLowIn};
ghost use Rattle.lw_check.specs.Least.{IsLeastOf, ReadsLabels, lesser_of};
ghost use Rattle.lw_pool.specs.Numbers.{numbers};

use crate::labelling::{Labelling, Prices};
use lw_cost::{Cost, Match};
use lw_cursor::Cursor;
use lw_graph::Graph;
use lw_pattern::Patterns;
use lw_pool::ClassId;

// The label of a class, and none past the last.
fn label_at(labels: &[Option<u64>], class: ClassId) -> Option<u64>
    ensures { result ≡ labels_in labels.now class.0 }
{
    let place = class.0 as usize;
    if place < labels.len() {
        return labels[place];
    }
    None
}

// Whether there is no label, or one above the value.
fn is_above(label: Option<u64>, value: u64) -> bool
    ensures { IsTrue result ↔ IsAbove label value }
{
    match label {
        Some(label) => value < label,
        None => true,
    }
}

// The one with the lesser number of two classes, or the one that there is.
pub(crate) fn earlier(one: Option<ClassId>, other: Option<ClassId>) -> Option<ClassId>
    ensures { option_map class_number result
        ≡ lesser_of (option_map class_number one) (option_map class_number other) }
{
    match (one, other) {
        (Some(first), Some(second)) if second.0 < first.0 => other,
        (Some(_), _) => one,
        (None, _) => other,
    }
}

// Puts the labels of some classes at the front of `values`, and says whether each has one.
fn read_labels(labels: &[Option<u64>], classes: &[ClassId], values: &mut [u64]) -> bool
    requires { length classes.now ≤ length values.old }
    ensures read { ReadsLabels (labels_in labels.now) (numbers classes.now)
        (take (length classes.now) values.new) result }
    ensures length { length values.new ≡ length values.old }
{
    for (k, class) in classes.iter().enumerate() {
        let Some(label) = label_at(labels, *class) else {
            return false;
        };
        values[k] = label;
    }
    true
}

impl<C: Cost> Labelling<'_, C> {
    /// The least class of an input that costs less than the class's label, or whose class has none.
    pub fn first_late_input(&self) -> Option<ClassId>
        ensures { IsLeastOf (IsLateIn C.costs self.now) (option_map class_number result) }
    {
        let mut first = None;
        for input in 0..self.graph.inputs() {
            let class = self.graph.leaf(input);
            if is_above(label_at(self.labels, class), self.by.cost.leaf(input)) {
                first = earlier(first, Some(class));
            }
        }
        first
    }

    // What a match costs by the labels of its pins, and none if a pin has no label.
    fn cost_of_match(&self, found: &Match) -> Option<u64>
        requires { HasPattern C.costs self.now (plain_match found.now) }
        ensures { IsCostBy C.costs self.now (plain_match found.now) result }
    {
        let pins = found.pins.as_slice();
        let mut values = [0; 16];
        if !read_labels(self.labels, pins, &mut values) {
            return None;
        }
        let cell = self.by.pats.get(found.pat).cell;
        Some(self.by.cost.value(cell, &values[..pins.len()]))
    }

    // Whether a match at a class with this label has labelled pins and costs less than that, or the
    // class has none.
    fn is_low(&self, found: &Match, label: Option<u64>) -> bool
        requires { HasPattern C.costs self.now (plain_match found.now) }
        ensures { IsTrue result ↔ IsLowBy C.costs self.now label (plain_match found.now) }
    {
        match self.cost_of_match(found) {
            Some(value) => is_above(label, value),
            None => false,
        }
    }

    // Whether some match at a class with labelled pins costs less than its label, or the class has
    // none.
    fn has_low_match(&self, class: ClassId) -> bool
        requires class { class.0 < length self.now.graph.now.pairs }
        requires of_cells { HasCells C.costs self.now }
        ensures { IsTrue result ↔ IsLowIn C.costs self.now class.0 }
    {
        let _ = self.graph.classes();
        let label = label_at(self.labels, class);
        let mut cursor = Cursor::new(class);
        while let Some(found) = cursor.next(self.graph, self.by.pats) {
            if self.is_low(&found, label) {
                return true;
            }
        }
        false
    }

    // The first class of which `has_low_match` holds, and none if it holds of no class.
    fn first_low_class(&self) -> Option<ClassId>
        requires { HasCells C.costs self.now }
        ensures { IsLeastOf (IsLowIn C.costs self.now) (option_map class_number result) }
    {
        for number in 0..self.graph.classes() {
            if self.has_low_match(ClassId(number)) {
                return Some(ClassId(number));
            }
        }
        None
    }
}

/// The first class that fails, and none exactly where the labels are a potential. A class fails if
/// an input of it, or a match at it whose pins are all labelled, costs less than its label, or it
/// has none. Where no class fails, each cover costs at least the label of its class. It takes no
/// memory.
pub fn bound<C: Cost>(
    graph: &Graph,
    pats: &Patterns,
    cost: &C,
    labels: &[Option<u64>],
) -> Option<ClassId>
    requires one_each { length labels.now ≡ length graph.now.pairs }
    requires of_cells { AreOfCells (C.costs cost.now).pin_counts pats.now }
    ensures none { IsNone result ↔ IsPotentialOf graph.now pats.now (C.costs cost.now) labels.now }
    ensures some { IfSome result (λ c. IsFirstFailing graph.now (C.costs cost.now) pats.now
        (labels_in labels.now) c.0) }
    ensures covers { IsNone result → BoundsCovers graph.now pats.now (C.costs cost.now) labels.now }
{
    let by = Prices { pats, cost };
    let labelling = Labelling { graph, labels, by };
    let _ = graph.classes();
    earlier(labelling.first_late_input(), labelling.first_low_class())
}
