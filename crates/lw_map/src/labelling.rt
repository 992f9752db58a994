// Labels of the classes of a graph.
ghost use Rattle.std.specs.Prelude.{IfOk};
ghost use Rattle.lw_cost.specs.Least.{AreOfCells};
ghost use Rattle.lw_map.specs.Covering.{CanBeMapped};
ghost use Rattle.lw_map.specs.Labelled.{AreFoundBy};

use crate::problem::Problem;
use lw_bounds::Bounds;
use lw_cost::Cost;
use lw_label::{Labels, relabel_with_bounds};
use lw_settle::{StoreFault, settle, store_matches};
use std::alloc::AllocError;

/// How labels are found.
#[derive(Clone, Copy)]
pub enum Labeller {
    /// In rounds, which store no match.
    Rounds,
    /// By stored matches, of which each reading counts.
    Store,
}

/// The labels of the classes of a graph, the table of bounds for them where they are found in
/// rounds, and how often a stored match was read to find them. No match is stored in rounds, which
/// are taken too where there are too many matches to store.
#[derive(Drop)]
pub(crate) struct Labelled {
    pub labels: Labels,
    pub bounds: Option<Bounds>,
    pub steps: Option<u64>,
}

impl Problem<'_> {
    // The least cost of a cover of each class, and the height of the class, in rounds.
    fn by_rounds<C: Cost>(&self, cost: &C) -> Result<Labelled, AllocError>
        requires { AreOfCells (C.costs cost.now).pin_counts self.now.pats }
        ensures { IfOk result (AreFoundBy Labeller.Rounds (C.costs cost.now) self.now) }
    {
        let found = relabel_with_bounds(self.alloc, &self.choices.graph, &self.pats, cost)?;
        Ok(Labelled {
            labels: found.labels,
            bounds: Some(found.bounds),
            steps: None,
        })
    }

    // The least cost of a cover of each class, and the height of the class, by stored matches.
    fn settled<C: Cost>(&self, cost: &C) -> Result<Labelled, AllocError>
        requires { CanBeMapped (C.costs cost.now) self.now }
        ensures { IfOk result (AreFoundBy Labeller.Store (C.costs cost.now) self.now) }
    {
        let _ = self.choices.graph.classes();
        let mut store = match store_matches(self.alloc, &self.choices.graph, &self.pats) {
            Ok(store) => store,
            Err(StoreFault::TooMany) => return self.by_rounds(cost),
            Err(StoreFault::Memory) => return Err(AllocError),
        };
        let labels = settle(self.alloc, &mut store, &self.choices.graph, cost);
        let steps = Some(store.done());
        drop(store);
        Ok(Labelled {
            labels: labels?,
            bounds: None,
            steps,
        })
    }

    /// The least cost of a cover of each class, and the height of the class.
    pub fn label<C: Cost>(&self, cost: &C, labeller: Labeller) -> Result<Labelled, AllocError>
        requires { CanBeMapped (C.costs cost.now) self.now }
        ensures { IfOk result (AreFoundBy labeller (C.costs cost.now) self.now) }
    {
        match labeller {
            Labeller::Rounds => self.by_rounds(cost),
            Labeller::Store => self.settled(cost),
        }
    }
}
