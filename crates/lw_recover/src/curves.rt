// Curves: for each class points of time and area flow, the flows falling.
//
// A point is a match with each pin at a point of its own curve, so all of a point's cone arrives by
// its time. Pins may stand anywhere in the order: time falls from a gate to its pins, which is what
// keeps drawn covers free of cycles.
use crate::matches::NONE;
use lw_kinds::Table;
use lw_pool::ClassId;
use std::alloc::{AllocError, Global};

/// A time, what the cover by then takes where each class shares what it takes with its uses, and
/// the match.
#[derive(Clone, Copy)]
pub(crate) struct Point {
    pub time: u64,
    pub flow: u64,
    pub number: u32,
}

/// Points by class: those of a class stand in a row, by rising time.
#[derive(Drop)]
pub(crate) struct Curves {
    starts: Table<u32>,
    ends: Table<u32>,
    points: Vec<Point>,
}

/// The most points of a class.
pub(crate) const MOST_POINTS: usize = 6;

/// The most steps of a ladder: each pin at each of its points, and one more.
pub(crate) const MOST_RUNGS: usize = 16 * MOST_POINTS + 1;

/// A flow less the tenth part, by which a point has to be lower than the one before it.
#[inline]
pub(crate) fn thinner(flow: u64) -> u64 {
    flow - flow / 10
}

impl Curves {
    /// No points.
    pub(crate) fn new(alloc: Global, classes: usize) -> Result<Curves, AllocError> {
        Ok(Curves {
            starts: Table::new(alloc, classes, NONE)?,
            ends: Table::new(alloc, classes, NONE)?,
            points: Vec::new(alloc),
        })
    }

    /// Whether a class has its points.
    #[inline]
    pub(crate) fn is_made(&self, class: ClassId) -> bool {
        self.starts.get(class.0) != NONE
    }

    /// The points of a class.
    #[inline]
    pub(crate) fn of(&self, class: ClassId) -> &[Point] {
        let (start, end) = (
            self.starts.get(class.0) as usize,
            self.ends.get(class.0) as usize,
        );
        if start <= end && end <= self.points.len() {
            &self.points[start..end]
        } else {
            &[]
        }
    }

    /// The match of the last point of a class by a time.
    pub(crate) fn at(&self, class: ClassId, time: u64) -> u32 {
        for point in self.of(class).iter().rev() {
            if point.time <= time {
                return point.number;
            }
        }
        NONE
    }

    /// Gives a class its points.
    pub(crate) fn put(&mut self, class: ClassId, points: &[Point]) -> Result<(), AllocError> {
        let start = self.points.len().min(NONE as usize) as u32;
        for point in points {
            self.points.push(*point)?;
        }
        self.starts.set(class.0, start);
        self.ends
            .set(class.0, self.points.len().min(NONE as usize) as u32);
        Ok(())
    }

    /// Gives a class the one point of an input that starts then.
    pub(crate) fn put_leaf(&mut self, class: ClassId, time: u64) -> Result<(), AllocError> {
        self.put(
            class,
            &[Point {
                time,
                flow: 0,
                number: NONE,
            }],
        )
    }
}

/// A pin on a ladder: its points, which of them comes next, and its delay.
#[derive(Clone, Copy)]
pub(crate) struct Rung<'p> {
    of: &'p [Point],
    place: usize,
    delay: u64,
}

/// All pins of a match at their last points, then each that is last of all at an earlier one, and
/// so on: the time and the flow of each step.
#[derive(Clone, Copy)]
pub(crate) struct Ladder<'p> {
    /// No step is earlier.
    pub first: u64,
    rungs: [Rung<'p>; 16],
    count: usize,
    area: u64,
    before: u64,
    ends: bool,
}

impl<'p> Ladder<'p> {
    /// The ladder of a match that takes so much and has no pin yet, up to a time.
    pub(crate) fn new(area: u64, horizon: u64) -> Ladder<'p> {
        Ladder {
            first: 0,
            rungs: [Rung {
                of: &[],
                place: 0,
                delay: 0,
            }; 16],
            count: 0,
            area,
            before: horizon.saturating_add(1),
            ends: false,
        }
    }

    /// Adds a pin with these points.
    pub(crate) fn push(&mut self, of: &'p [Point], delay: u64) {
        if self.count < 16 {
            self.rungs[self.count] = Rung {
                of,
                place: of.len(),
                delay,
            };
            self.count += 1;
        }
        if let Some(point) = of.first() {
            self.first = self.first.max(point.time.saturating_add(delay));
        }
    }

    /// The next step, if there is one: it is earlier than the one before, and takes no less.
    pub(crate) fn step(&mut self) -> Option<(u64, u64)> {
        if self.ends {
            return None;
        }
        let (mut time, mut flow) = (0u64, self.area);
        let (before, count) = (self.before, self.count);
        for rung in self.rungs.iter_mut().take(count) {
            let point = rung.step(before)?;
            time = time.max(point.time.saturating_add(rung.delay));
            flow = flow.saturating_add(point.flow);
        }
        self.before = time;
        self.ends = self.count == 0;
        Some((time, flow))
    }
}

impl Rung<'_> {
    // The last point before a time, if there is one.
    fn step(&mut self, before: u64) -> Option<Point> {
        for _ in 0..MOST_POINTS {
            if self.place == 0 || self.place > self.of.len() {
                return None;
            }
            let point = self.of[self.place - 1];
            if point.time.saturating_add(self.delay) < before {
                return Some(point);
            }
            self.place -= 1;
        }
        None
    }
}

/// Some points, none of which is as early and as small as another one.
#[derive(Drop)]
pub(crate) struct Front {
    pub points: Vec<Point>,
}

impl Front {
    /// Whether a point is as early and as small.
    pub(crate) fn is_beaten(&self, time: u64, flow: u64) -> bool {
        self.points
            .iter()
            .any(|old| old.time <= time && old.flow <= flow)
    }

    /// Adds a point, unless one is as early and as small.
    pub(crate) fn add(&mut self, new: Point) -> Result<(), AllocError> {
        if self.is_beaten(new.time, new.flow) {
            return Ok(());
        }
        self.points
            .retain(|old| old.time < new.time || old.flow < new.flow);
        self.points.push(new)?;
        Ok(())
    }

    /// Puts the points in order and thins them out: the first, the last, and those between that are
    /// lower by a part. Flows are shared by so many uses, in parts of 256.
    pub(crate) fn thin(&mut self, uses: u32) -> Result<(), AllocError> {
        self.points.sort_by_key(|point| point.time)?;
        let (mut kept, mut last) = (0usize, u64::MAX);
        let count = self.points.len();
        for k in 0..count {
            let Some(old) = self.points.get(k).copied() else {
                break;
            };
            let flow = old.flow.saturating_mul(256) / u64::from(uses.max(1));
            let is_low = kept == 0 || flow < thinner(last);
            let is_kept = k + 1 == count || is_low && kept < MOST_POINTS - 1;
            if is_kept && kept < self.points.len() {
                self.points[kept] = Point { flow, ..old };
                last = flow;
                kept = kept.saturating_add(1);
            }
        }
        self.points.truncate(kept);
        Ok(())
    }
}
