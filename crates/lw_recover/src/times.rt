// Times of a cover, and how a match is put in the place of another.
use crate::cover::Cover;
use crate::matches::NONE;
use lw_kinds::Table;
use lw_pool::ClassId;
use std::alloc::AllocError;
use std::cmp::Reverse;

/// A class that comes into use, and its match.
#[derive(Clone, Copy)]
pub(crate) struct Linked {
    pub class: ClassId,
    pub number: u32,
}

impl<'a> Cover<'a> {
    /// When a match arrives.
    #[inline]
    pub(crate) fn through(&self, number: u32) -> u64 {
        let of = self.matches.get(number);
        let mut latest = 0;
        for place in of.first..of.end {
            let leg = self.matches.leg(place);
            latest = latest.max(self.arr.get(leg.class.0).saturating_add(leg.delay));
        }
        latest
    }

    /// All times of the cover, whose gates these are, pins first.
    pub(crate) fn time(&mut self, gates: &[ClassId]) {
        let graph = self.space.graph;
        for input in 0..graph.inputs() {
            let leaf = graph.leaf(input);
            self.arr.set(leaf.0, self.space.label(leaf));
        }
        for gate in gates {
            let time = self.through(self.sel.get(gate.0));
            self.arr.set(gate.0, time);
        }
        self.require(gates);
    }

    /// All required times.
    pub(crate) fn require(&mut self, gates: &[ClassId]) {
        self.req.copy(&self.deadline);
        for gate in gates.iter().rev() {
            let time = self.req.get(gate.0);
            let of = self.matches.get(self.sel.get(gate.0));
            for place in of.first..of.end {
                let leg = self.matches.leg(place);
                let left = time.saturating_sub(leg.delay);
                self.req
                    .set(leg.class.0, left.min(self.req.get(leg.class.0)));
            }
        }
    }

    // Takes the pins of a gate away, and the gates that are then of no use. What lost a use is
    // noted.
    fn remove(&mut self, gate: ClassId) -> Result<(), AllocError> {
        self.stack.clear();
        self.stack.push((gate, 0))?;
        for _ in 0..self.most_steps() {
            let Some((gate, _)) = self.stack.pop() else {
                break;
            };
            let of = self.matches.get(self.sel.get(gate.0));
            for place in of.first..of.end {
                let class = self.matches.leg(place).class;
                self.touched.push(class)?;
                if self.unlink(of, place) == 0 && !self.space.is_leaf(class) {
                    self.stack.push((class, 0))?;
                }
            }
        }
        Ok(())
    }

    // Has the pins of a gate wait.
    fn open(&mut self, gate: ClassId) -> Result<(), AllocError> {
        let number = self.sel.get(gate.0);
        self.matches.open_links(number)?;
        self.stack.push((gate, self.matches.get(number).first))?;
        Ok(())
    }

    // The contrary. Gates that come into use are noted, pins first.
    fn add(&mut self, top: ClassId) -> Result<(), AllocError> {
        self.stack.clear();
        self.open(top)?;
        for _ in 0..self.most_steps() {
            let Some((gate, place)) = self.stack.pop() else {
                break;
            };
            let of = self.matches.get(self.sel.get(gate.0));
            if place >= of.end {
                if gate != top {
                    self.fresh.push(gate)?;
                }
                continue;
            }
            self.stack.push((gate, place.saturating_add(1)))?;
            let class = self.matches.leg(place).class;
            if self.link(of, place, gate) == 1 && !self.space.is_leaf(class) {
                self.open(class)?;
            }
        }
        Ok(())
    }

    // Arrivals from a gate on. Gates wait by their old arrivals, so that most are made once.
    // Whether it came to an end.
    fn forward(&mut self, from: ClassId) -> Result<bool, AllocError> {
        self.rising.clear();
        self.rising.push(Reverse((0, from.0)))?;
        for _ in 0..self.most_steps() {
            let Some(Reverse((_, number))) = self.rising.pop() else {
                return Ok(true);
            };
            let time = self.through(self.sel.get(number));
            if time == self.arr.get(number) {
                continue;
            }
            self.arr.set(number, time);
            let mut use_at = self.uses.get(number);
            for _ in 0..self.refs.get(number) {
                if use_at == NONE {
                    break;
                }
                let link = self.matches.link(use_at);
                self.rising
                    .push(Reverse((self.arr.get(link.gate.0), link.gate.0)))?;
                use_at = link.next;
            }
        }
        Ok(false)
    }

    // By when a class has to arrive, by its deadline and its uses.
    fn needed_by(&self, number: u32) -> u64 {
        let mut time = self.deadline.get(number);
        let mut use_at = self.uses.get(number);
        for _ in 0..self.refs.get(number) {
            if use_at == NONE {
                break;
            }
            let link = self.matches.link(use_at);
            let delay = self.matches.leg(link.place).delay;
            time = time.min(self.req.get(link.gate.0).saturating_sub(delay));
            use_at = link.next;
        }
        time
    }

    // Required times of the classes that were touched, and below them. Whether it came to an end.
    fn backward(&mut self) -> Result<bool, AllocError> {
        self.falling.clear();
        for k in 0..self.touched.len() {
            let Some(class) = self.touched.get(k).copied() else {
                break;
            };
            let time = self.req.get(class.0);
            self.falling.push((time, class.0))?;
        }
        for _ in 0..self.most_steps() {
            let Some((_, number)) = self.falling.pop() else {
                return Ok(true);
            };
            if self.refs.get(number) == 0 {
                continue;
            }
            let time = self.needed_by(number);
            if time == self.req.get(number) {
                continue;
            }
            self.req.set(number, time);
            if self.space.is_leaf(ClassId(number)) {
                continue;
            }
            let of = self.matches.get(self.sel.get(number));
            for place in of.first..of.end {
                let class = self.matches.leg(place).class.0;
                self.falling.push((self.req.get(class), class))?;
            }
        }
        Ok(false)
    }

    // Notes the pins of a gate as touched.
    fn touch_pins(&mut self, gate: ClassId) -> Result<(), AllocError> {
        let of = self.matches.get(self.sel.get(gate.0));
        for place in of.first..of.end {
            self.touched.push(self.matches.leg(place).class)?;
        }
        Ok(())
    }

    /// Gives a gate another match, and the classes that come into use theirs; then all is exact
    /// again, or false, where that took too many steps.
    pub(crate) fn apply(
        &mut self,
        gate: ClassId,
        number: u32,
        links: &[Linked],
    ) -> Result<bool, AllocError> {
        self.touched.clear();
        self.fresh.clear();
        self.remove(gate)?;
        for link in links {
            self.sel.set(link.class.0, link.number);
        }
        self.sel.set(gate.0, number);
        self.add(gate)?;
        for k in 0..self.fresh.len() {
            let Some(class) = self.fresh.get(k).copied() else {
                break;
            };
            let time = self.through(self.sel.get(class.0));
            self.arr.set(class.0, time);
            self.touch_pins(class)?;
        }
        self.touch_pins(gate)?;
        let ends = self.forward(gate)?;
        Ok(self.backward()? && ends)
    }

    /// All times of the present cover anew. Whether it is acyclic.
    pub(crate) fn retime(&mut self) -> Result<bool, AllocError> {
        let Some(gates) = self.gates_of(&self.sel)? else {
            return Ok(false);
        };
        self.time(&gates);
        Ok(true)
    }

    /// The match of each class, as a table.
    pub(crate) fn copy_sel(&self) -> Result<Table<u32>, AllocError> {
        let mut sel = Table::new(self.alloc, self.sel.len() as usize, NONE)?;
        sel.copy(&self.sel);
        Ok(sel)
    }

    /// How often each class is used, as a table.
    pub(crate) fn copy_refs(&self) -> Result<Table<u32>, AllocError> {
        let mut refs = Table::new(self.alloc, self.refs.len() as usize, 0)?;
        refs.copy(&self.refs);
        Ok(refs)
    }
}
