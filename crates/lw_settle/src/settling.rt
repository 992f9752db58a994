// Marks of classes by stored matches.
ghost use Rattle.std.specs.Prelude.{◌≡◌, ◌+◌, ◌^◌, ◌<◌, None, IfOk, OnErr, length, map, replicate};
ghost use Rattle.lw_laws.specs.Rounds.{labels_in};
ghost use Rattle.lw_cost.specs.Labels.{costs_of};
ghost use Rattle.lw_cost.specs.Values.{marks_in, plain_mark};
ghost use Rattle.lw_settle.specs.Settled.{AreSettledMarks, AreUnsettled, HaveLeafCosts};
ghost use Rattle.lw_settle.specs.Settled.{IsSettledBy, MaySettle, settle_steps};
ghost use Rattle.lw_settle.specs.Settling.{AreAllTaken, AreInputsOffered, HasOfferedPinless};
ghost use Rattle.lw_settle.specs.Settling.{HasPriced, HasRead, IsOffering, MayOffer};
ghost use Rattle.lw_settle.specs.Settling.{MayOfferPinless, MayPrice, MayRead, MayTakeAll};
ghost use Rattle.lw_settle.specs.Settling.{pin_count};
ghost use Rattle.lw_settle.specs.Stores.{AreOfStoredCells, placed, uses_of};

use crate::queue::Queue;
use crate::store::Store;
use lw_cost::{Cost, Labels, Mark};
use lw_graph::Graph;
use lw_pool::ClassId;
use std::alloc::{AllocError, Global};

/// Marks each class by the stored matches: the least cost of its covers, and its height. Classes
/// are taken by rising cost and height; each use of a class that is taken is read once, and each
/// match whose pins are all taken is priced once. The memory is taken first.
pub fn settle<C: Cost>(
    alloc: Global,
    store: &mut Store,
    graph: &Graph,
    cost: &C,
) -> Result<Labels, AllocError>
    requires of_cells { AreOfStoredCells (C.costs cost.now).pin_counts store.old.lists }
    requires one_each { length store.old.lists ≡ length graph.now.pairs }
    requires leaves { HaveLeafCosts graph.now (C.costs cost.now) store.old.lists }
    requires fresh { store.old.done < 2 ^ 62 }
    ensures marks { IfOk result (AreSettledMarks graph.now (C.costs cost.now) store.old.lists) }
    ensures lists { store.new.lists ≡ store.old.lists }
    ensures done { IfOk result (λ labels. store.new.done
        ≡ store.old.done + settle_steps (labels_in (costs_of labels)) store.old.lists) }
    ensures err { OnErr result (store.new ≡ store.old) }
{
    let classes = graph.classes() as usize;
    let mut marks = vec![in alloc; None; classes]?;
    let mut queue = Queue::new(alloc, classes)?;
    let mut left = vec![in alloc; 0u8; store.matches() as usize]?;
    settle_all(store, graph, cost, &mut marks, &mut queue, &mut left);
    Ok(Labels::from_marks(marks))
}

// Offers a mark to a class, unless the class was taken, so that it has its own.
fn offer(queue: &mut Queue, marks: &[Option<Mark>], class: ClassId, mark: Mark)
    requires { MayOffer marks.now queue.old class.0 mark }
    ensures offering { IsOffering (marks_in marks.now) (marks_in queue.old)
        (marks_in queue.new) class.0 (plain_mark mark) }
    ensures one_each { length queue.new ≡ length queue.old }
{
    if marks[class.0 as usize].is_none() {
        queue.offer(class, mark);
    }
}

// Prices the match with the number `place`, all of whose pins have marks, and offers what it costs
// to its class.
fn offer_match<C: Cost>(
    store: &mut Store,
    cost: &C,
    marks: &[Option<Mark>],
    queue: &mut Queue,
    place: u32,
)
    requires { MayPrice (C.costs cost.now) store.old place marks.now queue.old }
    ensures { HasPriced (C.costs cost.now) store.old store.new place marks.now
        queue.old queue.new }
{
    let _ = store.matches();
    let head = store.head(place);
    let mark = store.price(place, cost, marks);
    offer(queue, marks, head.class, mark);
}

// Offers to each input's class the cost of the input, with height 0.
fn offer_inputs<C: Cost>(graph: &Graph, cost: &C, queue: &mut Queue)
    requires { queue.old ≡ replicate (length graph.now.pairs) None }
    ensures { AreInputsOffered graph.now (C.costs cost.now) (length graph.now.leaves) queue.new }
{
    let _ = graph.classes();
    for input in 0..graph.inputs() {
        let mark = Mark {
            cost: cost.leaf(input),
            height: 0,
        };
        queue.offer(graph.leaf(input), mark);
    }
}

// Puts in `left` how many pins each match has: at first no class is taken.
fn count_pins(store: &Store, left: &mut [u8])
    requires { length left.old ≡ length (placed store.now.lists) }
    ensures { left.new ≡ map pin_count (placed store.now.lists) }
{
    let _ = store.matches();
    for place in 0..left.len() {
        left[place] = store.head(place as u32).pins;
    }
}

// Offers the matches without pins to their classes, since no use of a class leads to them.
fn offer_pinless<C: Cost>(
    store: &mut Store,
    cost: &C,
    marks: &[Option<Mark>],
    queue: &mut Queue,
    left: &[u8],
)
    requires { MayOfferPinless (C.costs cost.now) store.old marks.now queue.old left.now }
    ensures { HasOfferedPinless (C.costs cost.now) store.old store.new marks.now queue.old
        queue.new left.now }
{
    for place in 0..store.matches() {
        if left[place as usize] == 0 {
            offer_match(store, cost, marks, queue, place);
        }
    }
}

// Reads the use of a class with the number `n`: one pin less is left of its match, which is offered
// to its class where that was the last one.
fn read_use<C: Cost>(
    store: &mut Store,
    cost: &C,
    marks: &[Option<Mark>],
    queue: &mut Queue,
    left: &mut [u8],
    class: ClassId,
    n: u32,
)
    requires within { n < length (uses_of store.old.lists class.0) }
    requires may { MayRead (C.costs cost.now) store.old class.0 n marks.now queue.old left.old }
    ensures { HasRead (C.costs cost.now) store.old store.new class.0 n (n + 1) marks.now
        queue.old queue.new left.old left.new }
{
    let _ = store.matches();
    let place = store.use_at(class, n);
    left[place as usize] -= 1;
    if left[place as usize] == 0 {
        offer_match(store, cost, marks, queue, place);
    }
}

// Reads the uses of a class that was taken, one after the other.
fn read_uses<C: Cost>(
    store: &mut Store,
    cost: &C,
    marks: &[Option<Mark>],
    queue: &mut Queue,
    left: &mut [u8],
    class: ClassId,
)
    requires { MayRead (C.costs cost.now) store.old class.0 0 marks.now queue.old left.old }
    ensures { HasRead (C.costs cost.now) store.old store.new class.0 0
        (length (uses_of store.old.lists class.0)) marks.now queue.old queue.new left.old left.new }
{
    for n in 0..store.uses(class) {
        read_use(store, cost, marks, queue, left, class, n);
    }
}

// Takes the classes in the order of their marks, until none waits, and reads the uses of each.
fn settle_classes<C: Cost>(
    store: &mut Store,
    cost: &C,
    marks: &mut [Option<Mark>],
    queue: &mut Queue,
    left: &mut [u8],
)
    requires { MayTakeAll (C.costs cost.now) store.old marks.old queue.old left.old }
    ensures { AreAllTaken (C.costs cost.now) store.old store.new marks.old marks.new
        queue.old queue.new left.old left.new }
{
    while let Some(taken) = queue.take() {
        marks[taken.class.0 as usize] = Some(taken.mark);
        read_uses(store, cost, marks, queue, left, taken.class);
    }
}

// Settles all classes. At first none has a mark in `marks` or waits in `queue`; inputs and matches
// without pins are offered, and then the classes are taken.
fn settle_all<C: Cost>(
    store: &mut Store,
    graph: &Graph,
    cost: &C,
    marks: &mut [Option<Mark>],
    queue: &mut Queue,
    left: &mut [u8],
)
    requires may { MaySettle graph.now (C.costs cost.now) store.old }
    requires none { AreUnsettled graph.now store.old marks.old queue.old left.old }
    ensures { IsSettledBy graph.now (C.costs cost.now) store.old store.new marks.new }
{
    let _ = graph.classes();
    let _ = store.matches();
    offer_inputs(graph, cost, queue);
    count_pins(store, left);
    offer_pinless(store, cost, marks, queue, left);
    settle_classes(store, cost, marks, queue, left);
}
