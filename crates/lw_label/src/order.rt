// The order in which classes are visited.
ghost use Rattle.std.specs.Prelude.{◌≡◌, ◌+◌, ◌-◌, ◌<◌, ◌≤◌, ◌/◌, ◌^◌, true, false, IfOk, OnOk};
ghost use Rattle.std.specs.Prelude.{IfSome, [], length, slice_index_or};
ghost use Rattle.lw_label.specs.Orders.{IsOrder, places_of, IsWalk, StaysEntered, steps_left};

use lw_graph::Graph;
use lw_pool::ClassId;
use std::alloc::{AllocError, Global};

// A walk in depth over places, each of which is a class with its complement. The parts of a place
// are the places of the classes in its pairs.
#[derive(Drop)]
pub(crate) struct Walk {
    // how many parts of each place were looked at
    next: Vec<usize>,
    entered: Vec<bool>,
    // the places that are entered and not left
    path: Vec<u32>,
    // the places that are left
    order: Vec<u32>,
}

// The part of a place with this number, two for each pair, of the even class first and then of the
// odd one; none past the last.
fn part(graph: &Graph, place: u32, number: usize) -> Option<u32>
    requires { place < places_of graph.now }
    ensures within { IfSome result (λ part. part < places_of graph.now) }
    ensures few { IfSome result (λ part. number < 2 ^ 64 - 1) }
{
    let _ = graph.classes();
    let even = graph.nands(ClassId(place * 2));
    let odd = graph.nands(ClassId(place * 2 + 1));
    let pair = match even.get(number / 2) {
        Some(pair) => pair,
        None => odd.get(number / 2 - even.len())?,
    };
    let class = if number % 2 == 0 { pair.x } else { pair.y };
    Some(class.0 / 2)
}

impl Walk {
    // A walk that has entered no place.
    fn new(alloc: Global, graph: &Graph) -> Result<Walk, AllocError>
        ensures { IfOk result (λ walk. IsWalk (places_of graph.now) walk × (walk.path.items ≡ [])) }
    {
        let places = (graph.classes() / 2) as usize;
        Ok(Walk {
            next: vec![in alloc; 0; places]?,
            entered: vec![in alloc; false; places]?,
            path: Vec::with_capacity(alloc, places)?,
            order: Vec::with_capacity(alloc, places)?,
        })
    }

    // Enters a place, if it is new: it comes to the end of the path.
    fn enter(&mut self, place: u32) -> Result<(), AllocError>
        requires place { place < length self.old.next.items }
        requires walk { IsWalk (length self.old.next.items) self.old }
        ensures walk { OnOk result (IsWalk (length self.old.next.items) self.new) }
        ensures entered { OnOk result (slice_index_or self.new.entered.items place false ≡ true) }
        ensures stays { StaysEntered self.old self.new }
        ensures next { self.new.next.items ≡ self.old.next.items }
        ensures path { length self.new.path.items ≤ length self.old.path.items + 1 }
    {
        if !self.entered[place as usize] {
            self.path.push(place)?;
            self.entered[place as usize] = true;
        }
        Ok(())
    }

    // Looks at the next part of the place at the end of the path, or leaves that place if there is
    // none. The answer is false once the path is empty.
    fn step(&mut self, graph: &Graph) -> Result<bool, AllocError>
        requires { IsWalk (places_of graph.now) self.old }
        ensures walk { OnOk result (IsWalk (places_of graph.now) self.new) }
        ensures stays { OnOk result (StaysEntered self.old self.new) }
        ensures falls { IfOk result (λ more. more ≡ true →
            steps_left self.new < steps_left self.old) }
        ensures ends { IfOk result (λ more. more ≡ false → self.new.path.items ≡ []) }
    {
        let Some(place) = self.path.pop() else {
            return Ok(false);
        };
        match part(graph, place, self.next[place as usize]) {
            Some(part) => {
                self.next[place as usize] += 1;
                self.path.push(place)?;
                self.enter(part)?;
            }
            None => self.order.push(place)?,
        }
        Ok(true)
    }

    // Enters a place, and goes on until all that was entered is left.
    fn go(&mut self, graph: &Graph, place: u32) -> Result<(), AllocError>
        requires place { place < places_of graph.now }
        requires walk { IsWalk (places_of graph.now) self.old }
        ensures walk { OnOk result (IsWalk (places_of graph.now) self.new) }
        ensures stays { OnOk result (StaysEntered self.old self.new) }
        ensures entered { OnOk result (slice_index_or self.new.entered.items place false ≡ true) }
        ensures ends { OnOk result (self.new.path.items ≡ []) }
    {
        self.enter(place)?;
        while self.step(graph)? {}
        Ok(())
    }
}

// All places of a graph, those of its parts before a place wherever no cycle leads back to it: then
// most marks settle the first time. It takes time in the number of places and pairs.
pub(crate) fn order_of(alloc: Global, graph: &Graph) -> Result<Vec<u32>, AllocError>
    ensures { IfOk result (λ order. IsOrder (places_of graph.now) order.items) }
{
    let mut walk = Walk::new(alloc, graph)?;
    for place in 0..graph.classes() / 2 {
        walk.go(graph, place)?;
    }
    Ok(walk.order)
}
