// Visits: the best match of a gate is looked for and put, one gate after another.
use crate::curves::Curves;
use crate::matches::NONE;
use crate::moves::{Budget, Found, Moves, Want, again_in};
use crate::times::Linked;
use crate::trial::{Entry, Terms};
use lw_kinds::{LATE, MOST_LEAVES, Matched, Walk};
use lw_pool::ClassId;
use std::alloc::AllocError;

impl<'a> Moves<'a> {
    // The pattern of a match, and the classes of its pins.
    fn matched(&self, found: &Found) -> Option<Matched> {
        let (space, leaves) = (self.cover.space, found.pins);
        let kind = space.kinds.get(found.kind)?;
        kind.matched(found.by, found.way, &leaves)
    }

    // Whether a match is the present one of the top.
    fn is_present(&self, found: &Matched) -> bool {
        let of = self.cover.matches.get(self.cover.sel.get(self.top.0));
        match self.cover.space.cell_of(found.pat) {
            Some((cell, _)) if cell == of.cell => {}
            _ => return false,
        }
        for (place, pin) in (of.first..of.end).zip(&found.pins) {
            if self.cover.matches.leg(place).class != *pin {
                return false;
            }
        }
        true
    }

    // Which leaves are in the cover. That is asked before any is taken: a pin that comes into use
    // below another one must not be passed over.
    fn inside(&self, found: &Found, leaves: usize) -> [bool; 16] {
        let mut inside = [false; 16];
        for leaf in 0..leaves.min(MOST_LEAVES) {
            inside[leaf] = self.is_used(found.pins[leaf]);
        }
        inside
    }

    // Takes the leaves of a match, those in the cover first: the area of all, and the arrival.
    fn take_leaves(
        &mut self,
        found: &Found,
        curves: Option<&Curves>,
    ) -> Result<Option<Budget>, AllocError> {
        let space = self.cover.space;
        let Some(kind) = space.kinds.get(found.kind) else {
            return Ok(None);
        };
        let (Some(by), Some(way)) = (kind.uses.get(found.by), kind.way_at(found.by, found.way))
        else {
            return Ok(None);
        };
        let inside = self.inside(found, kind.leaves);
        let (mut area, mut time) = (by.area, 0);
        for turn in 0..2 {
            for leaf in 0..kind.leaves.min(MOST_LEAVES) {
                if inside[leaf] != (turn == 0) {
                    continue;
                }
                let terms = Terms {
                    time: self.latest.saturating_sub(way.delays[leaf]),
                    budget: self.budget.area.saturating_sub(area),
                    depth: self.limits.depth,
                };
                let Some(taken) = self.take(found.pins[leaf], terms, curves)? else {
                    return Ok(None);
                };
                area = area.saturating_add(taken.area);
                time = time.max(taken.time.saturating_add(way.delays[leaf]));
            }
        }
        let again = again_in(&found.pins, kind.leaves);
        Ok(Some(Budget { area, time, again }))
    }

    // Notes what the trial has linked.
    fn note_links(&mut self) -> Result<(), AllocError> {
        self.links.clear();
        for k in 0..self.log.len() {
            if let Some(Entry::Link(class, _, _)) = self.log.get(k).copied() {
                let number = self.cover.sel.get(class.0);
                self.links.push(Linked { class, number })?;
            }
        }
        Ok(())
    }

    // Tries a match whose pins are not all in the cover.
    fn attempt(&mut self, found: Found, curves: Option<&Curves>) -> Result<(), AllocError> {
        self.asked = self.limits.asked;
        if let Some(taken) = self.take_leaves(&found, curves)? {
            if taken.area <= self.budget.area && self.is_better(taken) {
                self.best = Some(found);
                self.note_links()?;
            }
        }
        let asked = self.limits.asked.saturating_sub(self.asked);
        self.spent = self.spent.saturating_add(u64::from(asked));
        self.undo(0);
        Ok(())
    }

    // Walks over the kinds that are within the budget.
    fn walk(&mut self, class: ClassId) -> Result<(), AllocError> {
        let (space, steps) = (self.cover.space, self.limits.steps);
        let mut walk = Walk::new(space);
        for (number, kind) in space.kinds.iter().enumerate() {
            if kind.least_area > self.budget.area {
                break;
            }
            walk.over(self, number, class, steps)?;
            self.spent = self
                .spent
                .saturating_add(u64::from(steps.saturating_sub(walk.steps)));
        }
        Ok(())
    }

    // Tries what was noted, the least first.
    fn attempts(&mut self, curves: Option<&Curves>) -> Result<(), AllocError> {
        self.noted.sort_by_key(|noted| noted.low)?;
        for k in 0..self.noted.len().min(self.limits.tries) {
            let Some(noted) = self.noted.get(k).copied() else {
                break;
            };
            if noted.low > self.budget.area {
                break;
            }
            self.attempt(noted.found, curves)?;
        }
        Ok(())
    }

    // Puts the best match that a visit has found in the place of the top's.
    fn put_best(&mut self) -> Result<(), AllocError> {
        let Some(best) = self.best else {
            return Ok(());
        };
        let Some(found) = self.matched(&best) else {
            return Ok(());
        };
        if self.want == Want::Heat && self.is_present(&found) {
            return Ok(());
        }
        let number = self.cover.matches.put(found.pat, &found.pins)?;
        if number == NONE {
            return Ok(());
        }
        if !self.cover.apply(self.top, number, &self.links)? {
            self.sound = self.cover.retime()?;
        }
        Ok(())
    }

    // Looks for a better match of a gate, and puts it.
    fn visit(&mut self, class: ClassId, curves: Option<&Curves>) -> Result<(), AllocError> {
        let old = self.cover.sel.get(class.0);
        self.top = class;
        self.now = self.cover.arr.get(class.0);
        self.latest = self.cover.req.get(class.0);
        self.round = self.round.wrapping_add(1);
        let freed = self.let_go(old)?;
        let gate = self.cover.matches.gate(class, old);
        let again = again_in(&gate.pins, gate.count);
        self.budget = match self.want {
            Want::Area => Budget {
                area: freed,
                time: self.now,
                again,
            },
            Want::Heat => Budget {
                area: freed.saturating_add(self.chance.room()),
                time: LATE,
                again,
            },
        };
        self.best = None;
        self.score = i64::MAX;
        self.noted.clear();
        self.walk(class)?;
        self.attempts(curves)?;
        self.take_back(old)?;
        self.put_best()
    }

    // The gates by rising arrival, or by falling required time.
    fn in_order(&self, down: bool) -> Result<Vec<ClassId>, AllocError> {
        let mut gates = self.cover.gates()?;
        let (arr, req) = (&self.cover.arr, &self.cover.req);
        gates.sort_by_key(|class| arr.get(class.0))?;
        if down {
            gates.sort_by_key(|class| LATE - req.get(class.0))?;
        }
        Ok(gates)
    }

    /// One visit of each gate, from the inputs up or from the roots down.
    pub(crate) fn pass(
        &mut self,
        down: bool,
        want: Want,
        curves: Option<&Curves>,
    ) -> Result<(), AllocError> {
        self.want = want;
        for class in &self.in_order(down)? {
            if self.sound && self.cover.refs.get(class.0) > 0 {
                self.visit(*class, curves)?;
            }
        }
        Ok(())
    }

    /// Passes up and down in turn, until none brings a part of so many any more.
    pub(crate) fn passes(
        &mut self,
        most: u32,
        part: u64,
        curves: Option<&Curves>,
    ) -> Result<(), AllocError> {
        let mut area = self.cover.area()?;
        for k in 0..most {
            self.pass(k % 2 == 1, Want::Area, curves)?;
            let now = self.cover.area()?;
            let small = area.saturating_sub(now).saturating_mul(part) <= area;
            area = now;
            if k > 0 && small {
                break;
            }
        }
        Ok(())
    }
}
