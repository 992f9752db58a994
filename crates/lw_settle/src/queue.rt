// The classes that wait, in a tree by their marks.
ghost use Rattle.std.specs.Prelude.{◌≡◌, ◌+◌, ◌*◌, ◌/◌, ◌^◌, ◌-◌, ◌<◌, None, IfOk, length, drop};
ghost use Rattle.std.specs.Prelude.{replicate, slice_set};
ghost use Rattle.lw_settle.specs.Queues.{IsLowered, IsWonBut, TakesFirst};

use crate::entry::{Entry, is_before, lesser, no_mark, with_mark};
use lw_cost::Mark;
use lw_pool::ClassId;
use std::alloc::{AllocError, Global};
use std::marker::Model;

/// A class, and the mark with which it waited.
#[derive(Clone, Copy)]
pub(crate) struct Taken {
    pub class: ClassId,
    pub mark: Mark,
}

/// The classes that wait, by their marks.
///
/// They are the leaves of a tree in one array, in which node i is the lesser of nodes 2i and 2i +
/// 1. Each class has a place of its own, so that no call but `new` takes memory.
#[derive(Drop)]
pub(crate) struct Queue {
    tree: Vec<Entry>,
    classes: usize,
}

impl Model for Queue {
    ghost use Rattle.std.specs.Prelude.{List, Option};
    ghost use Rattle.lw_cost.specs.declared.mark.Mark.{Mark};

    ghost Value = { List (Option Mark) };

    ghost use Rattle.lw_settle.specs.Queues.{waiting, IsTree};

    ghost view = { λ q. waiting q.classes q.tree.items };

    ghost invariant = { λ q. IsTree q.classes q.tree.items };
}

impl Queue {
    /// A queue of so many classes, none of which waits.
    pub(crate) fn new(alloc: Global, classes: usize) -> Result<Queue, AllocError>
        requires some { 0 < classes }
        requires few { classes < 2 ^ 32 }
        ensures { IfOk result (λ queue. queue ≡ replicate classes None) }
    {
        let mut tree = vec![in alloc; no_mark(0); 2 * classes]?;
        for class in 0..classes {
            set_leaf(&mut tree, classes, class, no_mark(class as u32));
        }
        Ok(Queue { tree, classes })
    }

    /// Lets a class wait with a mark, unless it waits with one that is not after it.
    pub(crate) fn offer(&mut self, class: ClassId, mark: Mark)
        requires class { class.0 < length self.old }
        requires height { mark.height < 2 ^ 32 - 1 }
        ensures { IsLowered self.old self.new class.0 mark }
    {
        let entry = with_mark(class.0, mark);
        if is_before(entry, self.tree[self.classes + class.0 as usize]) {
            set_leaf(&mut self.tree, self.classes, class.0 as usize, entry);
        }
    }

    /// Takes the class with the least mark of those that wait, and none where none waits.
    pub(crate) fn take(&mut self) -> Option<Taken>
        ensures { TakesFirst self.old self.new result }
    {
        let first = self.tree[1];
        if first.height == u32::MAX {
            return None;
        }
        set_leaf(
            &mut self.tree,
            self.classes,
            first.class as usize,
            no_mark(first.class),
        );
        Some(Taken {
            class: ClassId(first.class),
            mark: Mark {
                cost: first.cost,
                height: first.height,
            },
        })
    }
}

// Finds anew the entries of the nodes above the one at `place`, up to node 1: each is the lesser of
// the two below it.
fn renew(tree: &mut [Entry], classes: usize, place: usize)
    requires place { place < 2 * classes }
    requires tree { IsWonBut classes tree.old (place / 2) }
    ensures tree { IsWonBut classes tree.new 0 }
    ensures leaves { drop classes tree.new ≡ drop classes tree.old }
{
    let mut at = place / 2;
    while at > 0 {
        tree[at] = lesser(tree[2 * at], tree[2 * at + 1]);
        at /= 2;
    }
}

// Puts an entry at the leaf of a class, and what follows from it at the nodes above.
fn set_leaf(tree: &mut [Entry], classes: usize, class: usize, entry: Entry)
    requires class { class < classes }
    requires tree { IsWonBut classes tree.old 0 }
    ensures tree { IsWonBut classes tree.new 0 }
    ensures leaves { drop classes tree.new ≡ slice_set (drop classes tree.old) class entry }
{
    tree[classes + class] = entry;
    renew(tree, classes, classes + class);
}
