// A cover: one match for each class in use, with uses and times that are exact between moves.
//
// Between moves, for each gate, which is a class in use that is no input's: its pins are in use or
// inputs, and it is not in its own cone; `refs` counts the pins in use that are at the class, and
// one for each root; the links from `uses` on name the gates of these pins; `arr` is the greatest
// of a pin's `arr` and its delay, and `req` the least of the class's deadline and of what the gates
// above leave.
use crate::matches::{Gate, Gates, Link, Matches, NONE, Put};
use lw_cost::Match;
use lw_kinds::{LATE, Space, Table};
use lw_pool::ClassId;
use std::alloc::{AllocError, Global};
use std::cmp::Reverse;
use std::collections::BinaryHeap;

/// The class of an output, and by when it has to arrive.
#[derive(Clone, Copy)]
pub struct Root {
    pub class: ClassId,
    pub time: u64,
}

/// A cover that is kept: its area, and the match of each class.
#[derive(Drop)]
pub(crate) struct Kept {
    pub area: u64,
    pub sel: Table<u32>,
}

#[derive(Drop)]
pub(crate) struct Cover<'a> {
    pub alloc: Global,
    pub space: &'a Space<'a>,
    /// For each class a match that attains its label and its height, where there is one.
    attained: &'a [Option<Match>],
    pub matches: Matches,
    pub refs: Table<u32>,
    /// The match of each class in use; of one that was in use, its last.
    pub sel: Table<u32>,
    fast: Table<u32>,
    inverted: Table<u32>,
    pub arr: Table<u64>,
    pub req: Table<u64>,
    /// The first use of each class.
    pub uses: Table<u32>,
    pub roots: Vec<Root>,
    /// The least deadline of each class.
    pub deadline: Table<u64>,
    pub rising: BinaryHeap<Reverse<(u64, u32)>>,
    pub falling: BinaryHeap<(u64, u32)>,
    pub stack: Vec<(ClassId, u32)>,
    pub touched: Vec<ClassId>,
    pub fresh: Vec<ClassId>,
}

// A gate on the way down, and which of its pins comes next.
#[derive(Clone, Copy)]
struct Step {
    class: ClassId,
    pin: u32,
}

/// Where a walk down has been.
#[derive(Clone, Copy, PartialEq, Eq)]
enum Seen {
    Not,
    Within,
    Done,
}

impl<'a> Cover<'a> {
    /// No gate. `start` makes the first cover.
    pub(crate) fn new(
        alloc: Global,
        space: &'a Space<'a>,
        attained: &'a [Option<Match>],
        roots: &[Root],
    ) -> Result<Self, AllocError> {
        let classes = space.graph.classes() as usize;
        let mut deadline = Table::new(alloc, classes, LATE)?;
        for root in roots {
            let number = root.class.0;
            deadline.set(number, root.time.min(deadline.get(number)));
        }
        Ok(Cover {
            alloc,
            space,
            attained,
            matches: Matches::new(alloc, space)?,
            refs: Table::new(alloc, classes, 0)?,
            sel: Table::new(alloc, classes, NONE)?,
            fast: Table::new(alloc, classes, NONE)?,
            inverted: Table::new(alloc, classes, NONE)?,
            arr: Table::new(alloc, classes, LATE)?,
            req: Table::new(alloc, classes, LATE)?,
            uses: Table::new(alloc, classes, NONE)?,
            roots: Vec::from_slice(alloc, roots)?,
            deadline,
            rising: BinaryHeap::new(alloc),
            falling: BinaryHeap::new(alloc),
            stack: Vec::new(alloc),
            touched: Vec::new(alloc),
            fresh: Vec::new(alloc),
        })
    }

    /// A match that attains the label and the height of a class, where there is one.
    pub(crate) fn fastest(&mut self, class: ClassId) -> Result<u32, AllocError> {
        let known = self.fast.get(class.0);
        if known != NONE {
            return Ok(known);
        }
        let attained = self.attained;
        let Some(Some(found)) = attained.get(class.0 as usize) else {
            return Ok(NONE);
        };
        let number = self.matches.put(found.pat, found.pins.as_slice())?;
        self.fast.set(class.0, number);
        Ok(number)
    }

    /// The match of an inverter behind the complement of a class, where there is such a cell.
    pub(crate) fn inverted(&mut self, class: ClassId) -> Result<u32, AllocError> {
        let known = self.inverted.get(class.0);
        if known != NONE {
            return Ok(known);
        }
        let Some(inverter) = self.space.inverter else {
            return Ok(NONE);
        };
        let number = self.matches.put(inverter.pat, &[class.flip()])?;
        self.inverted.set(class.0, number);
        Ok(number)
    }

    // The matches that attain labels, of all classes that are needed.
    fn fastest_cover(&mut self) -> Result<Table<u32>, AllocError> {
        let classes = self.space.graph.classes();
        let mut sel = Table::new(self.alloc, classes as usize, NONE)?;
        let mut stack = Vec::new(self.alloc);
        for root in &self.roots {
            stack.push(root.class)?;
        }
        for _ in 0..self.most_steps() {
            let Some(class) = stack.pop() else {
                break;
            };
            if sel.get(class.0) == NONE && !self.space.is_leaf(class) {
                let number = self.fastest(class)?;
                sel.set(class.0, number);
                let of = self.matches.get(number);
                for place in of.first..of.end {
                    stack.push(self.matches.leg(place).class)?;
                }
            }
        }
        Ok(sel)
    }

    /// Makes the first cover: each class needed has a match that attains its label. Whether that is
    /// a cover.
    pub(crate) fn start(&mut self) -> Result<bool, AllocError> {
        let first = self.fastest_cover()?;
        self.adopt(&first)
    }

    /// How many steps a walk over all gates has at most.
    pub(crate) fn most_steps(&self) -> u64 {
        let roots = self.roots.len() as u64;
        (self.space.graph.classes() as u64)
            .saturating_mul(40)
            .saturating_add(roots)
    }

    // What is next on a walk: false where it has met a cycle or a class without match.
    fn step(
        &self,
        sel: &Table<u32>,
        seen: &mut Table<Seen>,
        stack: &mut Vec<Step>,
        all: &mut Vec<ClassId>,
        at: Step,
    ) -> Result<bool, AllocError> {
        let number = at.class.0;
        let was = seen.get(number);
        if self.space.is_leaf(at.class) || at.pin == 0 && was == Seen::Done {
            return Ok(true);
        }
        let chosen = sel.get(number);
        if chosen == NONE || at.pin == 0 && was == Seen::Within {
            return Ok(false);
        }
        seen.set(number, Seen::Within);
        let of = self.matches.get(chosen);
        let place = of.first.saturating_add(at.pin);
        if place < of.end {
            stack.push(Step {
                class: at.class,
                pin: at.pin.saturating_add(1),
            })?;
            stack.push(Step {
                class: self.matches.leg(place).class,
                pin: 0,
            })?;
        } else {
            seen.set(number, Seen::Done);
            all.push(at.class)?;
        }
        Ok(true)
    }

    /// The gates below the roots, pins first. None where a gate is in its own cone, or a class has
    /// no match.
    pub(crate) fn gates_of(&self, sel: &Table<u32>) -> Result<Option<Vec<ClassId>>, AllocError> {
        let classes = self.space.graph.classes() as usize;
        let mut seen = Table::new(self.alloc, classes, Seen::Not)?;
        let mut all = Vec::new(self.alloc);
        let mut stack = Vec::new(self.alloc);
        for root in self.roots.iter().rev() {
            stack.push(Step {
                class: root.class,
                pin: 0,
            })?;
        }
        for _ in 0..self.most_steps() {
            let Some(at) = stack.pop() else {
                return Ok(Some(all));
            };
            if !self.step(sel, &mut seen, &mut stack, &mut all, at)? {
                return Ok(None);
            }
        }
        Ok(None)
    }

    /// The gates of the present cover, pins first; none where it is not acyclic.
    pub(crate) fn gates(&self) -> Result<Vec<ClassId>, AllocError> {
        match self.gates_of(&self.sel)? {
            Some(gates) => Ok(gates),
            None => Ok(Vec::new(self.alloc)),
        }
    }

    /// The area of the present cover.
    pub(crate) fn area(&self) -> Result<u64, AllocError> {
        let mut area = 0u64;
        for class in &self.gates()? {
            area = area.saturating_add(self.matches.get(self.sel.get(class.0)).area);
        }
        Ok(area)
    }

    /// Whether each root is there by its deadline.
    pub(crate) fn is_in_time(&self) -> bool {
        self.roots
            .iter()
            .all(|root| self.arr.get(root.class.0) <= root.time)
    }

    // Links the pins of a gate to the classes that they are at.
    fn link_pins(&mut self, gate: ClassId) -> Result<(), AllocError> {
        let number = self.sel.get(gate.0);
        self.matches.open_links(number)?;
        let of = self.matches.get(number);
        for place in of.first..of.end {
            self.link(of, place, gate);
        }
        Ok(())
    }

    /// Counts the use of a class by the pin at this place, which is one of a gate with this match:
    /// how often it is used now.
    pub(crate) fn link(&mut self, of: Put, place: u32, gate: ClassId) -> u32 {
        let number = self.matches.leg(place).class.0;
        let (own, next) = (of.link_at(place), self.uses.get(number));
        self.matches.set_link(
            own,
            Link {
                gate,
                place,
                next,
                before: NONE,
            },
        );
        let after = self.matches.link(next);
        self.matches.set_link(
            next,
            Link {
                before: own,
                ..after
            },
        );
        self.uses.set(number, own);
        let count = self.refs.get(number).saturating_add(1);
        self.refs.set(number, count);
        count
    }

    /// The contrary.
    pub(crate) fn unlink(&mut self, of: Put, place: u32) -> u32 {
        let number = self.matches.leg(place).class.0;
        let link = self.matches.link(of.link_at(place));
        let after = self.matches.link(link.next);
        self.matches.set_link(
            link.next,
            Link {
                before: link.before,
                ..after
            },
        );
        if link.before == NONE {
            self.uses.set(number, link.next);
        } else {
            let before = self.matches.link(link.before);
            self.matches.set_link(
                link.before,
                Link {
                    next: link.next,
                    ..before
                },
            );
        }
        let count = self.refs.get(number).saturating_sub(1);
        self.refs.set(number, count);
        count
    }

    /// Takes these matches, unless they have a cycle. Uses and times are made anew.
    pub(crate) fn adopt(&mut self, sel: &Table<u32>) -> Result<bool, AllocError> {
        let Some(gates) = self.gates_of(sel)? else {
            return Ok(false);
        };
        self.sel.copy(sel);
        self.refs.fill(0);
        self.uses.fill(NONE);
        for k in 0..self.roots.len() {
            let Some(root) = self.roots.get(k).copied() else {
                break;
            };
            let count = self.refs.get(root.class.0).saturating_add(1);
            self.refs.set(root.class.0, count);
        }
        for gate in &gates {
            self.link_pins(*gate)?;
        }
        self.time(&gates);
        Ok(true)
    }

    // How deep each of these gates is, which stand pins first: inputs are 0 deep.
    fn depths(&self, gates: &[ClassId]) -> Result<Table<u32>, AllocError> {
        let classes = self.space.graph.classes() as usize;
        let mut depths = Table::new(self.alloc, classes, 0)?;
        for gate in gates {
            let of = self.matches.get(self.sel.get(gate.0));
            let mut deepest = 0u32;
            for place in of.first..of.end {
                let pin = self.matches.leg(place).class;
                deepest = deepest.max(depths.get(pin.0));
            }
            depths.set(gate.0, deepest.saturating_add(1));
        }
        Ok(depths)
    }

    /// The list of gates by depth, and so pins first.
    pub(crate) fn listed(&self) -> Result<Gates, AllocError> {
        let mut gates = self.gates()?;
        let depths = self.depths(&gates)?;
        gates.sort_by_key(|class| depths.get(class.0))?;
        let mut items = Vec::new(self.alloc);
        for class in &gates {
            let gate: Gate = self.matches.gate(*class, self.sel.get(class.0));
            items.push(gate)?;
        }
        Ok(Gates { items })
    }
}
