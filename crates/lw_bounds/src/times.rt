// Which classes are renewed again.
ghost use Rattle.std.specs.Prelude.{◌≡◌, ◌<◌, IfOk, length};
ghost use Rattle.lw_bounds.specs.Times.{IsClassOf, IsClassAmongPairs};

use lw_graph::Graph;
use lw_pool::ClassId;
use std::alloc::{AllocError, Global};
use std::marker::Model;

// When each class was renewed last, and when a number of each class or of its complement fell last.
// Times are numbers of visits. They decide what is passed over, and so how fast numbers settle, but
// not to what: what rests on nothing being left to fall is a round that passes over nothing.
#[derive(Drop)]
pub(crate) struct Times {
    // 0 for a class that was not renewed
    seen: Vec<u32>,
    fell: Vec<u32>,
    clock: u32,
}

impl Model for Times {
    ghost use Rattle.std.specs.Prelude.{ℕ, ◌≡◌, ◌+◌, ◌/◌, length};

    ghost Value = { ℕ };

    ghost view = { λ t. length t.seen.items };

    ghost invariant = { λ t. length t.fell.items ≡ length t.seen.items / 2 + 1 };
}

// The last time at which a number fell at a class in the pairs of `class`, or at the complement of
// one; 0 if none did.
fn last_fall(graph: &Graph, fell: &[u32], class: ClassId) -> u32
    requires { IsClassAmongPairs graph.now (length fell.now) class.0 }
{
    let mut last = 0;
    for pair in graph.nands(class) {
        last = last.max(fell[(pair.x.0 / 2) as usize]);
        last = last.max(fell[(pair.y.0 / 2) as usize]);
    }
    last
}

impl Times {
    // No class was renewed.
    pub(crate) fn new(alloc: Global, graph: &Graph) -> Result<Times, AllocError>
        ensures { IfOk result (λ times. times ≡ length graph.now.pairs) }
    {
        let classes = graph.classes() as usize;
        Ok(Times {
            seen: vec![in alloc; 0; classes]?,
            fell: vec![in alloc; 0; classes / 2 + 1]?,
            clock: 1,
        })
    }

    // Whether a class is to be renewed: it was not yet, or a class in its pairs fell since.
    pub(crate) fn is_due(&self, graph: &Graph, class: ClassId) -> bool
        requires { IsClassOf graph.now self.now class.0 }
    {
        let seen = self.seen[class.0 as usize];
        seen == 0 || seen < last_fall(graph, &self.fell, class)
    }

    // Takes note of a visit of a class, and whether its numbers fell. That is later than the visit,
    // so that a class that stands in its own pairs is renewed again.
    pub(crate) fn note(&mut self, class: ClassId, fell: bool)
        requires { class.0 < self.old }
        ensures { self.new ≡ self.old }
    {
        self.seen[class.0 as usize] = self.clock;
        self.clock = self.clock.saturating_add(1);
        if fell {
            self.fell[(class.0 / 2) as usize] = self.clock;
        }
    }
}
