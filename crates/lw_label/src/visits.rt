// Which classes are visited again.
ghost use Rattle.std.specs.Prelude.{◌≡◌, ◌<◌, ◌*◌, ◌/◌, ℕ, true, false, IfOk, IfSome, Some, None};
ghost use Rattle.std.specs.Prelude.{length, replicate, slice_index_or};
ghost use Rattle.lw_label.specs.Orders.{ArePartsStill, AreVisitsAfter, IsClassAmong, IsOrder};
ghost use Rattle.lw_label.specs.Orders.{IsPlaceAmong, IsPlaceAt, IsReady, IsStillIn, IsVisitOf};
ghost use Rattle.lw_label.specs.Orders.{places_of};

use crate::order::order_of;
use lw_graph::Graph;
use lw_pool::ClassId;
use std::alloc::{AllocError, Global};
use std::marker::Model;

// The order of visits, by places, each of which is a class with its complement. It has when each
// place was visited last, and when something changed there, or in its parts, their parts and so on.
// Times are numbers of visits. They decide what is passed over, and so how fast labels come, but
// not which: what rests on nothing being left to change is a round that passes over nothing.
#[derive(Drop)]
pub(crate) struct Visits {
    order: Vec<u32>,
    // 0 for a place that was not visited
    seen: Vec<u32>,
    changed: Vec<u32>,
    clock: u32,
    // whether a place and all its parts are known to stay as they are
    still: Vec<bool>,
}

impl Model for Visits {
    ghost use Rattle.std.specs.Prelude.{◌≡◌, length};
    ghost use Rattle.lw_label.specs.Orders.{IsOrder, VisitState};

    ghost Value = { VisitState };

    ghost view = { λ v. record {
      order = v.order.items;
      places = length v.seen.items;
      still = v.still.items;
    } };

    ghost invariant = { λ v. IsOrder (length v.seen.items) v.order.items
        × (length v.changed.items ≡ length v.seen.items)
        × (length v.still.items ≡ length v.seen.items) };
}

// The later of two times.
fn later(a: u32, b: u32) -> u32 {
    if a < b { b } else { a }
}

// The greatest time at which a place of the pairs of a class changed, 0 if none did.
fn last_change_in(graph: &Graph, changed: &[u32], class: ClassId) -> u32
    requires { IsClassAmong graph.now (length changed.now) class.0 }
{
    let _ = graph.classes();
    let mut last = 0;
    for pair in graph.nands(class) {
        last = later(last, changed[(pair.x.0 / 2) as usize]);
        last = later(last, changed[(pair.y.0 / 2) as usize]);
    }
    last
}

// The greatest time at which a part of a place changed, 0 if none did.
fn last_change(graph: &Graph, changed: &[u32], place: u32) -> u32
    requires { IsPlaceAmong graph.now (length changed.now) place }
{
    let _ = graph.classes();
    let even = last_change_in(graph, changed, ClassId(place * 2));
    let odd = last_change_in(graph, changed, ClassId(place * 2 + 1));
    later(even, odd)
}

// Whether the places of the classes in the pairs of a class are still: they keep what they have.
fn are_still_in(graph: &Graph, still: &[bool], class: ClassId) -> bool
    requires { IsClassAmong graph.now (length still.now) class.0 }
    ensures { result ≡ true → ArePartsStill graph.now still.now class.0 }
{
    let _ = graph.classes();
    for pair in graph.nands(class) {
        if !still[(pair.x.0 / 2) as usize] {
            return false;
        }
        if !still[(pair.y.0 / 2) as usize] {
            return false;
        }
    }
    true
}

// Whether the parts of a place are still.
fn are_parts_still(graph: &Graph, still: &[bool], place: u32) -> bool
    requires { IsPlaceAmong graph.now (length still.now) place }
    ensures { result ≡ true → (c : ℕ) → c / 2 ≡ place → ArePartsStill graph.now still.now c }
{
    let _ = graph.classes();
    if !are_still_in(graph, still, ClassId(place * 2)) {
        return false;
    }
    are_still_in(graph, still, ClassId(place * 2 + 1))
}

impl Visits {
    // No place was visited, and none is still.
    pub(crate) fn new(alloc: Global, graph: &Graph) -> Result<Visits, AllocError>
        ensures places { IfOk result (λ visits. visits.places ≡ places_of graph.now) }
        ensures still { IfOk result (λ visits.
            visits.still ≡ replicate (places_of graph.now) false) }
    {
        let places = (graph.classes() / 2) as usize;
        Ok(Visits {
            order: order_of(alloc, graph)?,
            seen: vec![in alloc; 0; places]?,
            changed: vec![in alloc; 0; places]?,
            clock: 1,
            still: vec![in alloc; false; places]?,
        })
    }

    // How many visits a round has that passes over none.
    pub(crate) fn len(&self) -> usize
        ensures len { result ≡ length self.now.order }
        ensures order { IsOrder self.now.places self.now.order }
    {
        self.order.len()
    }

    // Forgets that places were visited, and which are still.
    pub(crate) fn restart(&mut self)
        ensures order { self.new.order ≡ self.old.order }
        ensures places { self.new.places ≡ self.old.places }
        ensures still { self.new.still ≡ replicate self.old.places false }
    {
        self.seen.fill(0);
        self.still.fill(false);
    }

    // Whether the place of a class is still.
    pub(crate) fn is_still(&self, class: ClassId) -> bool
        requires { class.0 / 2 < self.now.places }
        ensures { result ≡ slice_index_or self.now.still (class.0 / 2) false }
    {
        self.still[(class.0 / 2) as usize]
    }

    // Whether the parts of a place are still.
    pub(crate) fn has_still_parts(&self, graph: &Graph, place: u32) -> bool
        requires place { place < self.now.places }
        requires places { self.now.places ≡ places_of graph.now }
        ensures { result ≡ true → (c : ℕ) → c / 2 ≡ place →
            ArePartsStill graph.now self.now.still c }
    {
        are_parts_still(graph, &self.still, place)
    }

    // The place of the visit with this number, if it is not still, but its parts are, so that its
    // labels can be found to their end.
    pub(crate) fn ready(&self, graph: &Graph, number: usize) -> Option<u32>
        requires { IsVisitOf graph.now self.now number }
        ensures { IfSome result (IsReady graph.now self.now) }
    {
        let place = self.order[number];
        if self.still[place as usize] {
            return None;
        }
        if !are_parts_still(graph, &self.still, place) {
            return None;
        }
        Some(place)
    }

    // The place of the visit with this number, if it has to be visited: in a whole round, or where
    // it was not yet, or where a part has changed since. A change of a part counts from now on as
    // one of the place, for the places that it is a part of.
    pub(crate) fn due(&mut self, graph: &Graph, number: usize, whole: bool) -> Option<u32>
        requires { IsVisitOf graph.now self.old number }
        ensures kept { self.new ≡ self.old }
        ensures at { IfSome result (IsPlaceAt self.old number) }
        ensures whole { whole ≡ true → result ≡ None → ⊥ }
    {
        let place = self.order[number];
        let at = place as usize;
        let last = last_change(graph, &self.changed, place);
        self.changed[at] = later(self.changed[at], last);
        if whole || self.seen[at] == 0 || self.seen[at] < last {
            return Some(place);
        }
        None
    }

    // The place of the visit with this number as `due` gives it, but never one that is still.
    pub(crate) fn due_unless_still(
        &mut self,
        graph: &Graph,
        number: usize,
        whole: bool,
    ) -> Option<u32>
        requires { IsVisitOf graph.now self.old number }
        ensures kept { self.new ≡ self.old }
        ensures at { IfSome result (IsPlaceAt self.old number) }
        ensures moving { IfSome result (λ place.
            slice_index_or self.old.still place false ≡ false) }
        ensures whole { whole ≡ true → result ≡ None → IsStillIn self.old number }
    {
        if self.still[self.order[number] as usize] {
            return None;
        }
        self.due(graph, number, whole)
    }

    // Takes note that a place stays as it is as long as its parts do, if they are still.
    pub(crate) fn settle(&mut self, graph: &Graph, place: u32)
        requires places { self.old.places ≡ places_of graph.now }
        requires place { place < self.old.places }
        ensures { AreVisitsAfter graph.now place self.old self.new }
    {
        if are_parts_still(graph, &self.still, place) {
            self.keep(graph, place);
        }
    }

    // Takes note that a place stays as it is, since its parts do.
    pub(crate) fn keep(&mut self, graph: &Graph, place: u32)
        requires place { place < self.old.places }
        requires parts { (c : ℕ) → c / 2 ≡ place → ArePartsStill graph.now self.old.still c }
        ensures { AreVisitsAfter graph.now place self.old self.new }
    {
        self.still[place as usize] = true;
    }

    // Takes note of a visit of a place, and whether it changed something. Such a change is later
    // than the visit, so that a place that is a part of its own parts is visited again.
    pub(crate) fn note(&mut self, place: u32, changed: bool)
        requires { place < self.old.places }
        ensures { self.new ≡ self.old }
    {
        let at = place as usize;
        self.seen[at] = self.clock;
        self.clock = self.clock.saturating_add(1);
        if changed {
            self.changed[at] = self.clock;
        }
    }
}
