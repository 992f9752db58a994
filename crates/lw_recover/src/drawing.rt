// Covers that are drawn from curves, and those of the networks' own gates.
use crate::cover::Cover;
use crate::curves::{Curves, Front};
use crate::matches::NONE;
use crate::stock::{Stock, Within};
use lw_kinds::{LATE, Table};
use lw_pool::ClassId;
use std::alloc::{AllocError, Global};
use std::collections::BinaryHeap;

/// How often a class is drawn before it gets its fastest match.
const OFTEN: u8 = 20;

/// The nodes of a network, fan-ins before nodes: the class of each, and those of its fan-ins, in a
/// row that ends at a place.
#[derive(Drop)]
pub struct Nodes {
    pub classes: Vec<ClassId>,
    pub fanins: Vec<ClassId>,
    pub ends: Vec<usize>,
}

// A cover that is drawn: the match of each class so far, by when it is needed, how often it was
// drawn, and what waits, the highest classes first.
#[derive(Drop)]
struct Drawing {
    sel: Table<u32>,
    req: Table<u64>,
    drawn: Table<u8>,
    wait: BinaryHeap<(u64, u32, u32, u64)>,
}

impl Drawing {
    fn new(alloc: Global, classes: usize) -> Result<Drawing, AllocError> {
        Ok(Drawing {
            sel: Table::new(alloc, classes, NONE)?,
            req: Table::new(alloc, classes, LATE)?,
            drawn: Table::new(alloc, classes, 0)?,
            wait: BinaryHeap::new(alloc),
        })
    }
}

impl<'a> Cover<'a> {
    // The curve of a class once more.
    fn curve_again(
        &self,
        class: ClassId,
        stock: &Stock,
        old: &Curves,
        curves: &Curves,
        horizon: u64,
        front: &mut Front,
    ) -> Result<(), AllocError> {
        front.points.clear();
        for number in stock.matches(class) {
            self.add_points(*number, curves, Some(old), horizon, front)?;
        }
        let own = self.sel.get(class.0);
        if own != NONE {
            self.add_points(own, curves, Some(old), horizon, front)?;
        }
        Ok(())
    }

    /// The curves once more, over the matches in stock, those of the cover and those of others,
    /// where flows are shared by so many uses.
    pub(crate) fn again(
        &self,
        stock: &Stock,
        old: &Curves,
        others: &[Table<u32>],
        uses: &Table<u32>,
        horizon: u64,
    ) -> Result<Curves, AllocError> {
        let mut curves = Curves::new(self.alloc, self.space.graph.classes() as usize)?;
        for input in 0..self.space.graph.inputs() {
            let leaf = self.space.graph.leaf(input);
            curves.put_leaf(leaf, self.space.label(leaf))?;
        }
        let mut front = Front {
            points: Vec::new(self.alloc),
        };
        for class in &stock.order {
            if self.space.is_leaf(*class) {
                continue;
            }
            self.curve_again(*class, stock, old, &curves, horizon, &mut front)?;
            for other in others {
                let number = other.get(class.0);
                if number != NONE {
                    self.add_points(number, &curves, Some(old), horizon, &mut front)?;
                }
            }
            front.thin(uses.get(class.0))?;
            curves.put(*class, &front.points)?;
        }
        Ok(curves)
    }

    // Whether all pins of a match can be there in time.
    fn can_be_by(&self, number: u32, time: u64) -> bool {
        let of = self.matches.get(number);
        for place in of.first..of.end {
            let leg = self.matches.leg(place);
            if self.space.label(leg.class).saturating_add(leg.delay) > time {
                return false;
            }
        }
        true
    }

    // The match that a class is drawn with.
    fn draw_one(
        &mut self,
        curves: &Curves,
        class: ClassId,
        time: u64,
        often: u8,
    ) -> Result<u32, AllocError> {
        if often <= OFTEN {
            for point in curves.of(class).iter().rev() {
                if point.time <= time && self.can_be_by(point.number, time) {
                    return Ok(point.number);
                }
            }
        }
        self.fastest(class)
    }

    // Has a class wait, unless it is needed as early already.
    fn await_class(
        &self,
        drawing: &mut Drawing,
        class: ClassId,
        time: u64,
    ) -> Result<(), AllocError> {
        if time < drawing.req.get(class.0) {
            drawing.req.set(class.0, time);
            let height = self.space.heights.get(class.0);
            drawing
                .wait
                .push((self.space.label(class), height, class.0, time))?;
        }
        Ok(())
    }

    /// The matches of the cover that the curves give, from the roots down. A class is drawn again
    /// where its required time falls; it falls from a gate to its pins, so what is drawn last has
    /// no cycle. A class that is drawn often gets its fastest match, and those alone fall in the
    /// order: so drawing ends.
    pub(crate) fn draw(&mut self, curves: &Curves) -> Result<Table<u32>, AllocError> {
        let mut drawing = Drawing::new(self.alloc, self.space.graph.classes() as usize)?;
        for root in &self.roots {
            self.await_class(&mut drawing, root.class, root.time)?;
        }
        for _ in 0..self.most_steps() {
            let Some((_, _, number, time)) = drawing.wait.pop() else {
                break;
            };
            let class = ClassId(number);
            if self.space.is_leaf(class) || time > drawing.req.get(number) {
                continue;
            }
            let often = drawing.drawn.get(number).saturating_add(1);
            drawing.drawn.set(number, often);
            let chosen = self.draw_one(curves, class, time, often)?;
            drawing.sel.set(number, chosen);
            let of = self.matches.get(chosen);
            for place in of.first..of.end {
                let leg = self.matches.leg(place);
                self.await_class(&mut drawing, leg.class, time.saturating_sub(leg.delay))?;
            }
        }
        Ok(drawing.sel)
    }

    // The least match of a class over some pins.
    fn smallest(
        &mut self,
        class: ClassId,
        only: &[ClassId],
        curves: &Curves,
    ) -> Result<u32, AllocError> {
        let within = Within {
            curves,
            only: Some(only),
            horizon: LATE - 1,
            steps: 500,
        };
        let drafts = self.drafts(class, within, u32::MAX)?;
        let mut least = None;
        for draft in &drafts {
            match least {
                Some((flow, _)) if flow <= draft.flow => {}
                _ => least = Some((draft.flow, *draft)),
            }
        }
        match least {
            Some((_, draft)) => self.put_draft(&draft),
            None => Ok(NONE),
        }
    }

    // The least match of a class over the classes of fan-ins, or over these and their complements.
    fn own_match(
        &mut self,
        class: ClassId,
        fanins: &[ClassId],
        curves: &Curves,
    ) -> Result<u32, AllocError> {
        let number = self.smallest(class, fanins, curves)?;
        if number != NONE {
            return Ok(number);
        }
        let mut both = Vec::new(self.alloc);
        for fanin in fanins {
            both.push(*fanin)?;
            both.push(fanin.flip())?;
        }
        self.smallest(class, &both, curves)
    }

    // Puts the match of a node, and inverters before it where it needs them.
    fn own_node(
        &mut self,
        class: ClassId,
        number: u32,
        sel: &mut Table<u32>,
        curves: &mut Curves,
    ) -> Result<(), AllocError> {
        let of = self.matches.get(number);
        for place in of.first..of.end {
            let pin = self.matches.leg(place).class;
            if sel.get(pin.0) == NONE && !self.space.is_leaf(pin) {
                let inverted = self.inverted(pin)?;
                sel.set(pin.0, inverted);
            }
        }
        sel.set(class.0, number);
        curves.put_leaf(class, 0)?;
        curves.put_leaf(class.flip(), 0)
    }

    /// The gates that a network has already: for the class of each node, its first, the least match
    /// whose pins are the classes of the node's fan-ins, or their complements by inverters. All
    /// that a match needs was set before it: no cycle.
    pub(crate) fn own(&mut self, nodes: &Nodes) -> Result<Table<u32>, AllocError> {
        let classes = self.space.graph.classes() as usize;
        let mut sel = Table::new(self.alloc, classes, NONE)?;
        let mut curves = Curves::new(self.alloc, classes)?;
        for input in 0..self.space.graph.inputs() {
            let leaf = self.space.graph.leaf(input);
            curves.put_leaf(leaf, 0)?;
            curves.put_leaf(leaf.flip(), 0)?;
        }
        let mut first = 0;
        for (class, end) in nodes.classes.iter().zip(&nodes.ends) {
            let (from, to) = (first, *end);
            first = to;
            if self.space.is_leaf(*class) || sel.get(class.0) != NONE {
                continue;
            }
            if from <= to && to <= nodes.fanins.len() {
                let number = self.own_match(*class, &nodes.fanins[from..to], &curves)?;
                if number != NONE {
                    self.own_node(*class, number, &mut sel, &mut curves)?;
                }
            }
        }
        Ok(sel)
    }
}
