// Matches that were put, with the classes of their pins.
use lw_kinds::Space;
use lw_pool::{CellId, ClassId, PatId};
use std::alloc::{AllocError, Global};

/// No match, or no use.
pub(crate) const NONE: u32 = u32::MAX;

/// A match: its pattern and cell, what its cell takes, where its pins stand in the list of all
/// pins, and where their links stand, if it has any.
#[derive(Clone, Copy)]
pub(crate) struct Put {
    pub pat: PatId,
    pub cell: CellId,
    pub area: u64,
    pub first: u32,
    pub end: u32,
    pub links: u32,
}

impl Put {
    /// The link of the pin at a place.
    #[inline]
    pub(crate) fn link_at(self, place: u32) -> u32 {
        if self.links == NONE {
            return NONE;
        }
        self.links.saturating_add(place.saturating_sub(self.first))
    }
}

/// A pin of a match: the class that it is at, and its delay.
#[derive(Clone, Copy)]
pub(crate) struct Leg {
    pub class: ClassId,
    pub delay: u64,
}

/// The use of a class by a pin of a gate: the gate, the place of the pin, and the next use and the
/// one before of the class.
#[derive(Clone, Copy)]
pub(crate) struct Link {
    pub gate: ClassId,
    pub place: u32,
    pub next: u32,
    pub before: u32,
}

// What is kept of a match.
#[derive(Clone, Copy)]
struct Kept {
    pat: PatId,
    first: u32,
    end: u32,
    links: u32,
}

// What is kept of a pin: its class, and the place of its delay.
#[derive(Clone, Copy)]
struct Pin {
    class: ClassId,
    delay: u32,
}

// What a pattern's cell is, what it takes, and where its delays stand.
#[derive(Clone, Copy)]
struct Info {
    cell: CellId,
    area: u64,
    delays: u32,
    count: usize,
}

/// Matches by number and their pins in a row. A match has links only once it is that of a gate.
#[derive(Drop)]
pub(crate) struct Matches {
    list: Vec<Kept>,
    pins: Vec<Pin>,
    links: Vec<Link>,
    infos: Vec<Info>,
    delays: Vec<u64>,
}

/// A gate: the class that it is for, the pattern that stands there, and the classes of its pins.
#[derive(Clone, Copy)]
pub struct Gate {
    pub class: ClassId,
    pub pat: PatId,
    pub pins: [ClassId; 16],
    pub count: usize,
}

/// Gates in order, pins first.
#[derive(Drop)]
pub struct Gates {
    pub items: Vec<Gate>,
}

const NOTHING: Kept = Kept {
    pat: PatId(NONE),
    first: 0,
    end: 0,
    links: NONE,
};

const NO_INFO: Info = Info {
    cell: CellId(NONE),
    area: 0,
    delays: NONE,
    count: 0,
};

const NOWHERE: Pin = Pin {
    class: ClassId(NONE),
    delay: NONE,
};

const UNUSED: Link = Link {
    gate: ClassId(NONE),
    place: NONE,
    next: NONE,
    before: NONE,
};

// A length as a number.
fn number_of(length: usize) -> u32 {
    length.min(NONE as usize) as u32
}

impl Matches {
    /// No match, for the patterns of a space.
    pub(crate) fn new(alloc: Global, space: &Space) -> Result<Matches, AllocError> {
        let (mut infos, mut delays) = (Vec::new(alloc), Vec::new(alloc));
        for number in 0..space.pats.len() {
            let mut info = NO_INFO;
            if let Some((cell, of)) = space.cell_of(PatId(number)) {
                let area = of.area().0;
                let (first, count) = (number_of(delays.len()), of.delays().len());
                info = Info {
                    cell,
                    area,
                    delays: first,
                    count,
                };
                for delay in of.delays() {
                    delays.push(delay.0)?;
                }
            }
            infos.push(info)?;
        }
        Ok(Matches {
            list: Vec::new(alloc),
            pins: Vec::new(alloc),
            links: Vec::new(alloc),
            infos,
            delays,
        })
    }

    #[inline]
    fn kept(&self, number: u32) -> Kept {
        let place = number as usize;
        if place < self.list.len() {
            self.list[place]
        } else {
            NOTHING
        }
    }

    #[inline]
    fn info(&self, pat: PatId) -> Info {
        let place = pat.0 as usize;
        if place < self.infos.len() {
            self.infos[place]
        } else {
            NO_INFO
        }
    }

    /// The match with a number.
    #[inline]
    pub(crate) fn get(&self, number: u32) -> Put {
        let kept = self.kept(number);
        let info = self.info(kept.pat);
        Put {
            pat: kept.pat,
            cell: info.cell,
            area: info.area,
            first: kept.first,
            end: kept.end,
            links: kept.links,
        }
    }

    /// The pin at a place.
    #[inline]
    pub(crate) fn leg(&self, place: u32) -> Leg {
        let place = place as usize;
        let pin = if place < self.pins.len() {
            self.pins[place]
        } else {
            NOWHERE
        };
        let row = pin.delay as usize;
        let delay = if row < self.delays.len() {
            self.delays[row]
        } else {
            0
        };
        Leg {
            class: pin.class,
            delay,
        }
    }

    /// The link with a number.
    #[inline]
    pub(crate) fn link(&self, number: u32) -> Link {
        let place = number as usize;
        if place < self.links.len() {
            self.links[place]
        } else {
            UNUSED
        }
    }

    #[inline]
    pub(crate) fn set_link(&mut self, number: u32, link: Link) {
        let place = number as usize;
        if place < self.links.len() {
            self.links[place] = link;
        }
    }

    /// Gives a match its links, if it has none.
    pub(crate) fn open_links(&mut self, number: u32) -> Result<(), AllocError> {
        let mut kept = self.kept(number);
        if kept.links != NONE {
            return Ok(());
        }
        kept.links = number_of(self.links.len());
        for _ in kept.first..kept.end {
            self.links.push(UNUSED)?;
        }
        if (number as usize) < self.list.len() {
            self.list[number as usize] = kept;
        }
        Ok(())
    }

    /// Appends a match of a pattern with its pins at these classes.
    pub(crate) fn put(&mut self, pat: PatId, pins: &[ClassId]) -> Result<u32, AllocError> {
        let info = self.info(pat);
        if info.cell.0 == NONE {
            return Ok(NONE);
        }
        let first = number_of(self.pins.len());
        for (place, class) in pins.iter().take(info.count).enumerate() {
            let delay = info.delays.saturating_add(number_of(place));
            self.pins.push(Pin {
                class: *class,
                delay,
            })?;
        }
        let end = number_of(self.pins.len());
        self.list.push(Kept {
            pat,
            first,
            end,
            links: NONE,
        })?;
        Ok(number_of(self.list.len().saturating_sub(1)))
    }

    /// The gate that a match is at a class.
    pub(crate) fn gate(&self, class: ClassId, number: u32) -> Gate {
        let of = self.kept(number);
        let mut gate = Gate {
            class,
            pat: of.pat,
            pins: [ClassId(0); 16],
            count: 0,
        };
        for place in of.first..of.end {
            if gate.count < 16 {
                gate.pins[gate.count] = self.leg(place).class;
                gate.count += 1;
            }
        }
        gate
    }
}
