// Whether a list has matches in order that are a cover of the outputs.
ghost use Rattle.std.specs.Prelude.{◌≡◌, ◌↔◌, ℕ, All, IfOk, IsTrue, List, Some, false, length};
ghost use Rattle.std.specs.Prelude.{true};
ghost use Rattle.lw_check.specs.Standing.{AreWithin};
ghost use Rattle.lw_cost.specs.Least.{AreOfCells};
ghost use Rattle.lw_extract.specs.Choosing.{chosen_classes};
ghost use Rattle.lw_look.specs.Lists.{AllStand, AreSeen, IsMatchOfCell, IsNew, IsRightList};
ghost use Rattle.lw_look.specs.Lists.{MayStand, is_seen, pin_counts};

use crate::Look;
use lw_check::class_of_pattern;
use lw_extract::Chosen;
use lw_graph::Graph;
use lw_pool::ClassId;
use std::alloc::{AllocError, Global};

// Whether a class is one of the graph, for which `seen` has a place, and has not been seen.
fn is_new(seen: &[bool], class: ClassId) -> bool
    ensures { IsTrue result ↔ IsNew seen.now class.0 }
{
    let place = class.0 as usize;
    place < seen.len() && !seen[place]
}

// Whether each of some classes has been seen.
fn are_seen(seen: &[bool], classes: &[ClassId]) -> bool
    ensures { IsTrue result ↔ All (λ class. is_seen seen.now class.0 ≡ true) classes.now }
{
    for class in classes {
        let place = class.0 as usize;
        if place >= seen.len() || !seen[place] {
            return false;
        }
    }
    true
}

// Marks the classes of the inputs as seen, where none is.
fn see_inputs(graph: &Graph, seen: &mut [bool])
    requires one_each { length seen.old ≡ length graph.now.pairs }
    requires none { (c : ℕ) → is_seen seen.old c ≡ false }
    ensures { (gates : List ℕ) → AreSeen graph.now gates 0 seen.new }
{
    for input in 0..graph.inputs() {
        seen[graph.leaf(input).0 as usize] = true;
    }
}

// Whether a class was found, and is this one.
fn is_at(found: Option<ClassId>, class: ClassId) -> bool
    ensures { IsTrue result ↔ (found ≡ Some class) }
{
    match found {
        Some(found) => found == class,
        None => false,
    }
}

impl Look<'_> {
    // Whether a match of the list is one: its pattern is there, is of a cell with so many pins, and
    // stands at its class with its pins at theirs.
    fn is_match(&self, gate: &Chosen) -> bool
        requires of_cells { AreOfCells (pin_counts self.now) self.now.pats.now }
        requires pins { AreWithin self.now.graph.now gate.now.found.pins }
        ensures { IsTrue result ↔ IsMatchOfCell self.now gate.now }
    {
        let _ = self.lib.len();
        if gate.found.pat.0 >= self.pats.len() {
            return false;
        }
        let pattern = self.pats.get(gate.found.pat);
        let cell = self.lib.cell(pattern.cell);
        if cell.pins().len() != gate.found.pins.len() {
            return false;
        }
        let found = class_of_pattern(self.graph, &pattern.nodes, gate.found.pins.as_slice());
        is_at(found, gate.class)
    }

    // Whether a match may stand after those that marked their classes: its class is new, those of
    // its pins are seen, and it is a match at its class.
    fn may_stand(&self, seen: &[bool], gate: &Chosen) -> bool
        requires of_cells { AreOfCells (pin_counts self.now) self.now.pats.now }
        requires seen { length seen.now ≡ length self.now.graph.now.pairs }
        ensures { (gates : List ℕ) (j : ℕ) → AreSeen self.now.graph.now gates j seen.now →
            IsTrue result ↔ MayStand self.now gates j gate.now }
    {
        if !is_new(seen, gate.class) {
            return false;
        }
        if !are_seen(seen, gate.found.pins.as_slice()) {
            return false;
        }
        self.is_match(gate)
    }

    // Whether each match of a list may stand where it is. `seen` has the inputs' classes at first,
    // and then that of each match that was looked at.
    fn all_stand(&self, list: &[Chosen], seen: &mut [bool]) -> bool
        requires of_cells { AreOfCells (pin_counts self.now) self.now.pats.now }
        requires inputs { AreSeen self.now.graph.now (chosen_classes list.now) 0 seen.old }
        ensures stand { IsTrue result ↔ AllStand self.now list.now }
        ensures seen { IsTrue result →
            AreSeen self.now.graph.now (chosen_classes list.now) (length list.now) seen.new }
    {
        for (j, gate) in list.iter().enumerate() {
            if !self.may_stand(seen, gate) {
                return false;
            }
            seen[gate.class.0 as usize] = true;
        }
        true
    }

    /// Whether the list has matches in order, and each output's class is an input's or a match's.
    pub(crate) fn is_right_list(&self, alloc: Global, list: &[Chosen]) -> Result<bool, AllocError>
        requires { AreOfCells (pin_counts self.now) self.now.pats.now }
        ensures { IfOk result (λ yes. IsTrue yes ↔ IsRightList self.now list.now) }
    {
        let mut seen = vec![in alloc; false; self.graph.classes() as usize]?;
        see_inputs(self.graph, &mut seen);
        if !self.all_stand(list, &mut seen) {
            return Ok(false);
        }
        Ok(are_seen(&seen, self.ports.roots.as_slice()))
    }
}
