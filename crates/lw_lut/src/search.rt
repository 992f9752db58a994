// The search for depths, leaf count by leaf count.
ghost use Rattle.std.specs.Prelude.{◌≡◌, ◌+◌, ◌*◌, ◌/◌, ◌<◌, ◌≤◌, ◌^◌, ◌||◌, length, All};
ghost use Rattle.std.specs.Prelude.{MatchOption, Some, None};
ghost use Rattle.lw_lut.specs.Searches.{HasFewer, HasSide, IsBoundedAt, IsDeepened, IsServing};
ghost use Rattle.lw_lut.specs.Searches.{ServesAsSide, count_at};
ghost use Rattle.lw_lut.specs.Reaches.{AreBoundedBut};
ghost use Rattle.lw_lut.specs.Sweeps.{AreInPlace, Deepens, IsAtDepth, IsSweptBut, LowersCount};
ghost use Rattle.lw_lut.specs.Sweeps.{LowersAll, LowersIn, LowersRound, MayLower, SeesPlace};
ghost use Rattle.lw_lut.specs.Sweeps.{Settles, SettlesAll};
ghost use Rattle.lw_pool.specs.declared.id.ClassId.{ClassId};

use crate::cut::{Cut, Joint, joined};
use crate::span::Span;
use crate::task::Task;
use lw_graph::{Graph, Pair};
use lw_pool::ClassId;
use std::alloc::{AllocError, Global};

// For each place, which is a class and its complement: how many leaves a table there has at least
// over the classes that have a depth, one more than a table may have where it has too many; the
// cut with these leaves, or from when it got its depth; and the class of the place that serves as
// a pin, once there is one. And the depth of each class, where it is known.
#[derive(Drop)]
pub(crate) struct Search {
    pub(crate) counts: Vec<u8>,
    pub(crate) cuts: Vec<Cut>,
    pub(crate) pins: Vec<Option<ClassId>>,
    pub(crate) depths: Vec<Option<u32>>,
}

// The place of a class.
fn place_of(class: ClassId) -> usize
    ensures { result ≡ class.0 / 2 }
{
    (class.0 / 2) as usize
}

// Whether one of the two is true.
fn either(one: bool, other: bool) -> bool
    ensures { result ≡ (one || other) }
{
    one || other
}

// The leaves of a pair.
fn leaves_of(counts: &[u8], pair: Pair) -> u8
    requires x { pair.x.0 / 2 < length counts.now }
    requires y { pair.y.0 / 2 < length counts.now }
    requires few { All (λ n. n ≤ 7) counts.now }
    ensures { result ≡ count_at counts.now pair.x.0 + count_at counts.now pair.y.0 }
{
    counts[place_of(pair.x)] + counts[place_of(pair.y)]
}

// The pair of a class with the fewest leaves, if it has fewer than the class.
fn better_pair(graph: &Graph, counts: &[u8], class: ClassId) -> Option<Pair>
    requires class { class.0 < length graph.now.pairs }
    requires places { length graph.now.pairs ≡ 2 * length counts.now }
    requires few { All (λ n. n ≤ 7) counts.now }
    ensures { MatchOption result (IsBoundedAt graph.now counts.now class.0)
        (HasFewer graph.now counts.now class.0) }
{
    let mut best = counts[place_of(class)];
    let mut found = None;
    for pair in graph.nands(class) {
        let leaves = leaves_of(counts, *pair);
        if leaves < best {
            best = leaves;
            found = Some(*pair);
        }
    }
    found
}

// The pin of a place that has this many leaves, where it stands for itself.
fn serving(pin: Option<ClassId>, leaves: u8) -> Option<ClassId>
    ensures { IsServing pin leaves result }
{
    if leaves == 1 { pin } else { None }
}

// Gives the classes of a place this depth, where they have none, and says whether one had none.
fn deepen(depths: &mut Vec<Option<u32>>, place: usize, depth: u32) -> bool
    requires { 2 * place + 1 < length depths.old.items }
    ensures { IsDeepened depths.old.items place depth depths.new.items result }
{
    let (first, second) = (depths[2 * place], depths[2 * place + 1]);
    depths[2 * place] = Some(first.unwrap_or(depth));
    depths[2 * place + 1] = Some(second.unwrap_or(depth));
    either(second.is_none(), first.is_none())
}

// The pin that a place has, or else its first class.
fn pin_of(pin: Option<ClassId>, place: usize) -> ClassId
    requires { place < 2 ^ 31 }
    ensures some { (q : ClassId) → pin ≡ Some q → result ≡ q }
    ensures none { pin ≡ None → result.0 ≡ 2 * place }
{
    match pin {
        Some(pin) => pin,
        None => ClassId(2 * place as u32),
    }
}

impl Search {
    // The cut of the place of a class: its pin, where it has one and no constant stands there, or
    // its own cut.
    fn side(&self, class: ClassId) -> Cut
        requires { HasSide self.now class.0 }
        ensures { ServesAsSide self.now class.0 result }
    {
        let place = place_of(class);
        match serving(self.pins[place], self.counts[place]) {
            Some(pin) => Cut::pin(pin),
            None => self.cuts[place].copy(),
        }
    }

    // Gives the place of a class the cut of a pair of the class that has fewer leaves, if there
    // is one.
    fn lower(&mut self, task: &Task, class: ClassId) -> bool
        requires class { class.0 < length task.now.graph.now.pairs }
        requires may { MayLower task.now self.old }
        ensures { LowersCount task.now self.old self.new class.0 result }
    {
        let Some(pair) = better_pair(task.graph, &self.counts, class) else {
            return false;
        };
        let (left, right) = (self.side(pair.x), self.side(pair.y));
        let (x, y) = (&left, &right);
        let cut = joined(&Joint { x, y, pair, class });
        let place = (class.0 / 2) as usize;
        self.counts[place] = cut.pins().len() as u8;
        self.cuts[place] = cut;
        true
    }

    // Gives the place of a class the cut of a pair of the class that has fewer leaves, if there
    // is one. Where its count falls, the class and those that hold pairs with its place are to be
    // looked at again: the span that goes out has them.
    fn lower_at(&mut self, task: &Task, class: ClassId, next: Span) -> Span
        requires class { class.0 < length task.now.graph.now.pairs }
        requires may { MayLower task.now self.old }
        ensures { LowersIn task.now self.old self.new class.0 next result }
    {
        let _ = task.graph.classes();
        if !self.lower(task, class) {
            return next;
        }
        next.join(task.reach[place_of(class)]).with(class)
    }

    // Goes once through the classes of a span. What is to be looked at again is answered.
    fn lower_round(&mut self, task: &Task, span: Span) -> Span
        requires may { MayLower task.now self.old }
        requires bounded { AreBoundedBut task.now.graph.now self.old.counts.items span }
        ensures { LowersRound task.now self.old self.new span result }
    {
        let mut next = Span::nothing();
        for class in span.low..span.high.min(task.graph.classes()) {
            next = self.lower_at(task, ClassId(class), next);
        }
        next
    }

    // Lets counts fall until no pair would lower one. Only classes of the span are not bounded. A
    // span with the places where counts have fallen is answered.
    fn lower_all(&mut self, task: &Task, span: Span) -> Span
        requires may { MayLower task.now self.old }
        requires bounded { AreBoundedBut task.now.graph.now self.old.counts.items span }
        ensures { LowersAll task.now self.old self.new span result }
    {
        let (mut span, mut swept) = (span, span);
        while span.low < span.high {
            span = self.lower_round(task, span);
            swept = swept.join(span);
        }
        swept
    }

    // Gives the classes of a place with few enough leaves this depth, where they have none, and a
    // pin to the place.
    fn settle(&mut self, leaves: u8, place: usize, depth: u32) -> bool
        requires place { place < length self.old.counts.items }
        requires places { AreInPlace self.old }
        ensures { Settles leaves depth self.old self.new place result }
    {
        if self.counts[place] > leaves {
            return false;
        }
        let deeper = deepen(&mut self.depths, place, depth);
        self.pins[place] = Some(pin_of(self.pins[place], place));
        self.counts[place] = self.counts[place].min(1);
        deeper
    }

    // A span with those that hold pairs with a place whose count falls when it is settled.
    fn seen(&self, task: &Task, place: usize, next: Span) -> Span
        requires place { place < length self.now.counts.items }
        requires places { length task.now.reach.now ≡ length self.now.counts.items }
        ensures { SeesPlace task.now self.now place next result }
    {
        if self.counts[place] > 1 && self.counts[place] <= task.leaves {
            return next.join(task.reach[place]);
        }
        next
    }

    // Settles the places of a span, and says whether a depth fell. The classes of the others that
    // have few enough leaves have depths. The other span grows by the classes that are then to be
    // looked at.
    fn settle_all(&mut self, task: &Task, depth: u32, swept: Span, next: &mut Span) -> bool
        requires places { AreInPlace self.old }
        requires reach { length task.now.reach.now ≡ length self.old.counts.items }
        ensures { SettlesAll task.now depth self.old self.new swept next.new result }
    {
        let places = self.counts.len();
        let first = ((swept.low / 2) as usize).min(places);
        let last = ((swept.high / 2) as usize + 1).min(places);
        let mut changed = false;
        for place in first..last {
            *next = self.seen(task, place, *next);
            let deeper = self.settle(task.leaves, place, depth);
            changed = either(deeper, changed);
        }
        changed
    }

    // One depth more: the classes whose tables need no deeper pins get it. Says whether there are
    // any. Only classes of the span are not bounded, or have few enough leaves and no depth.
    pub(crate) fn deepen_all(&mut self, task: &Task, depth: u32, span: &mut Span) -> bool
        requires at { IsAtDepth task.now.graph.now task.now.leaves depth self.old }
        requires swept { IsSweptBut task.now.graph.now task.now.leaves self.old span.old }
        ensures { Deepens task.now depth self.old self.new span.new result }
    {
        let _ = task.graph.classes();
        let swept = self.lower_all(task, *span);
        *span = Span::nothing();
        self.settle_all(task, depth, swept, span)
    }
}
