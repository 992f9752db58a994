// Trials: classes are brought into use and taken away again, with exact area and arrivals.
//
// In a trial `refs`, `sel` and `arr` of the cover change for classes that were not in use; links,
// required times and all of the gates in use stay. Everything is noted, and `undo` takes it back.
// The top of a trial is the gate whose match is looked for: its old match is let go, and no class
// that has it in its cone may be taken.
use crate::curves::Curves;
use crate::matches::{NONE, Put};
use crate::moves::{Mark, Moves, Want};
use lw_pool::ClassId;
use std::alloc::AllocError;

/// What a trial has changed.
#[derive(Clone, Copy)]
pub(crate) enum Entry {
    /// One use more of a class.
    Use(ClassId),
    /// A class that came into use, and its match and arrival before.
    Link(ClassId, u32, u64),
}

/// What a class that was taken adds, and when it arrives.
#[derive(Clone, Copy)]
pub(crate) struct Taken {
    pub area: u64,
    pub time: u64,
}

/// By when something has to arrive, for how much area, and how deep its cone may be.
#[derive(Clone, Copy)]
pub(crate) struct Terms {
    pub time: u64,
    pub budget: u64,
    pub depth: u32,
}

impl<'a> Moves<'a> {
    /// Whether a class is in use or an input's.
    #[inline]
    pub(crate) fn is_used(&self, class: ClassId) -> bool {
        self.cover.refs.get(class.0) > 0 || self.cover.space.is_leaf(class)
    }

    /// Takes away the uses of a match's pins, and the gates that are then of no use: their area.
    pub(crate) fn let_go(&mut self, number: u32) -> Result<u64, AllocError> {
        let mut area = 0u64;
        self.numbers.clear();
        self.numbers.push(number)?;
        for _ in 0..self.cover.most_steps() {
            let Some(number) = self.numbers.pop() else {
                break;
            };
            let of = self.cover.matches.get(number);
            area = area.saturating_add(of.area);
            for place in of.first..of.end {
                let class = self.cover.matches.leg(place).class;
                let count = self.cover.refs.get(class.0).saturating_sub(1);
                self.cover.refs.set(class.0, count);
                if count == 0 && !self.cover.space.is_leaf(class) {
                    self.numbers.push(self.cover.sel.get(class.0))?;
                }
            }
        }
        Ok(area)
    }

    /// The contrary.
    pub(crate) fn take_back(&mut self, number: u32) -> Result<(), AllocError> {
        self.numbers.clear();
        self.numbers.push(number)?;
        for _ in 0..self.cover.most_steps() {
            let Some(number) = self.numbers.pop() else {
                break;
            };
            let of = self.cover.matches.get(number);
            for place in of.first..of.end {
                let class = self.cover.matches.leg(place).class;
                let count = self.cover.refs.get(class.0).saturating_add(1);
                self.cover.refs.set(class.0, count);
                if count == 1 && !self.cover.space.is_leaf(class) {
                    self.numbers.push(self.cover.sel.get(class.0))?;
                }
            }
        }
        Ok(())
    }

    fn drop_use(&mut self, class: ClassId) {
        let count = self.cover.refs.get(class.0).saturating_sub(1);
        self.cover.refs.set(class.0, count);
    }

    /// Takes back all that the trial did behind this place in the log.
    pub(crate) fn undo(&mut self, to: usize) {
        for _ in to..self.log.len() {
            match self.log.pop() {
                Some(Entry::Use(class)) => self.drop_use(class),
                Some(Entry::Link(class, number, time)) => {
                    self.drop_use(class);
                    self.cover.sel.set(class.0, number);
                    self.cover.arr.set(class.0, time);
                }
                None => {}
            }
        }
    }

    // Whether the top is the class or in its cone, where that is known without a walk. Only gates
    // that arrive no earlier than the top can have it there.
    fn known_above(&self, class: ClassId) -> Option<bool> {
        if class == self.top {
            return Some(true);
        }
        if self.cover.space.is_leaf(class) || self.cover.arr.get(class.0) < self.now {
            return Some(false);
        }
        let mark = self.marks.get(class.0);
        if mark.round == self.round {
            Some(mark.above)
        } else {
            None
        }
    }

    // The match that a class has now.
    fn present(&self, class: ClassId) -> Put {
        self.cover.matches.get(self.cover.sel.get(class.0))
    }

    // Begins the walk below a class.
    fn go_below(&mut self, class: ClassId) -> Result<(), AllocError> {
        self.marks.set(
            class.0,
            Mark {
                round: self.round,
                above: false,
            },
        );
        let first = self.present(class).first;
        self.cover.stack.push((class, first))?;
        Ok(())
    }

    // Marks what the walk has come through as above the top.
    fn mark_way(&mut self) {
        for k in 0..self.cover.stack.len() {
            let Some((class, _)) = self.cover.stack.get(k).copied() else {
                break;
            };
            self.marks.set(
                class.0,
                Mark {
                    round: self.round,
                    above: true,
                },
            );
        }
    }

    /// Whether the top is the class or in its cone.
    pub(crate) fn is_above(&mut self, class: ClassId) -> Result<bool, AllocError> {
        if let Some(known) = self.known_above(class) {
            return Ok(known);
        }
        self.cover.stack.clear();
        self.go_below(class)?;
        for _ in 0..self.cover.most_steps() {
            let Some((gate, place)) = self.cover.stack.pop() else {
                return Ok(false);
            };
            if place >= self.present(gate).end {
                continue;
            }
            self.cover.stack.push((gate, place.saturating_add(1)))?;
            let pin = self.cover.matches.leg(place).class;
            match self.known_above(pin) {
                Some(false) => {}
                Some(true) => {
                    self.mark_way();
                    return Ok(true);
                }
                None => self.go_below(pin)?,
            }
        }
        Ok(true)
    }

    // Counts one more use of a class that is in use.
    fn use_more(&mut self, class: ClassId) -> Result<(), AllocError> {
        let count = self.cover.refs.get(class.0).saturating_add(1);
        self.cover.refs.set(class.0, count);
        self.log.push(Entry::Use(class))?;
        Ok(())
    }

    /// Tries to bring a class into the cover: what that adds, and when it arrives.
    #[cycle(taking)]
    pub(crate) fn take(
        &mut self,
        class: ClassId,
        terms: Terms,
        curves: Option<&Curves>,
    ) -> Result<Option<Taken>, AllocError> {
        if self.is_used(class) {
            let time = self.cover.arr.get(class.0);
            if time > terms.time || self.is_above(class)? {
                return Ok(None);
            }
            self.use_more(class)?;
            return Ok(Some(Taken { area: 0, time }));
        }
        let is_late = self.cover.space.label(class) > terms.time;
        if terms.depth == 0 || self.asked == 0 || self.busy.get(class.0) || is_late {
            return Ok(None);
        }
        self.asked -= 1;
        self.busy.set(class.0, true);
        let mut taken = self.take_inverted(class, terms)?;
        if taken.is_none() {
            taken = self.take_linked(class, terms, curves)?;
        }
        self.busy.set(class.0, false);
        Ok(taken)
    }

    // By an inverter, where the complement is in use and in time.
    fn take_inverted(&mut self, class: ClassId, terms: Terms) -> Result<Option<Taken>, AllocError> {
        let Some(inverter) = self.cover.space.inverter else {
            return Ok(None);
        };
        let under = class.flip();
        let time = self.cover.arr.get(under.0).saturating_add(inverter.delay);
        if !self.is_used(under) || inverter.area > terms.budget || time > terms.time {
            return Ok(None);
        }
        if self.is_above(under)? {
            return Ok(None);
        }
        let number = self.cover.inverted(class)?;
        self.use_more(under)?;
        Ok(Some(self.linked(
            class,
            number,
            Taken {
                area: inverter.area,
                time,
            },
        )?))
    }

    // By a match: the last one that the class had, the curve's by this time, the fastest.
    #[cycle(taking)]
    fn take_linked(
        &mut self,
        class: ClassId,
        terms: Terms,
        curves: Option<&Curves>,
    ) -> Result<Option<Taken>, AllocError> {
        let old = self.cover.sel.get(class.0);
        let point = curves.map_or(NONE, |curves| curves.at(class, terms.time));
        let mut all = [old, point, self.cover.fastest(class)?];
        if self.want == Want::Heat {
            self.chance.shuffle(&mut all);
        }
        for k in 0..3 {
            let number = all[k];
            if number == NONE || all[..k].contains(&number) {
                continue;
            }
            let mark = self.log.len();
            if let Some(taken) = self.take_pins(number, terms, curves)? {
                return Ok(Some(self.linked(class, number, taken)?));
            }
            self.undo(mark);
        }
        Ok(None)
    }

    // Notes that a class has come into use by a match.
    fn linked(&mut self, class: ClassId, number: u32, taken: Taken) -> Result<Taken, AllocError> {
        let (sel, arr) = (self.cover.sel.get(class.0), self.cover.arr.get(class.0));
        self.log.push(Entry::Link(class, sel, arr))?;
        let count = self.cover.refs.get(class.0).saturating_add(1);
        self.cover.refs.set(class.0, count);
        self.cover.sel.set(class.0, number);
        self.cover.arr.set(class.0, taken.time);
        Ok(taken)
    }

    // Tries to bring all pins of a match into the cover.
    #[cycle(taking)]
    fn take_pins(
        &mut self,
        number: u32,
        terms: Terms,
        curves: Option<&Curves>,
    ) -> Result<Option<Taken>, AllocError> {
        let of = self.cover.matches.get(number);
        let mut all = Taken {
            area: of.area,
            time: 0,
        };
        for place in of.first..of.end {
            let leg = self.cover.matches.leg(place);
            if leg.delay > terms.time || all.area > terms.budget || terms.depth == 0 {
                return Ok(None);
            }
            let below = Terms {
                time: terms.time - leg.delay,
                budget: terms.budget - all.area,
                depth: terms.depth - 1,
            };
            let Some(taken) = self.take(leg.class, below, curves)? else {
                return Ok(None);
            };
            all.area = all.area.saturating_add(taken.area);
            all.time = all.time.max(taken.time.saturating_add(leg.delay));
        }
        Ok(if all.area <= terms.budget {
            Some(all)
        } else {
            None
        })
    }
}
