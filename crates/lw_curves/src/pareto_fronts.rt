// The points that were found so far: of each class the best ones by time and area.
ghost use Rattle.std.specs.Prelude.{◌≡◌, ◌<◌, ◌≤◌, IfOk, IfSome, OnOk, OnErr, Some, length, map};
ghost use Rattle.lw_curves.specs.Backing.{spot_in};
ghost use Rattle.lw_curves.specs.Fronts.{AreFoundAt, ArePointsSame, CountsSpots, HasNoSpots};
ghost use Rattle.lw_curves.specs.Fronts.{IsLeastSpot, IsLessOr, IsPlaceFor, IsPutTo, IsTried};
ghost use Rattle.lw_curves.specs.Fronts.{MayJump, MayPut, MayTry, held_of, spots_of};
ghost use Rattle.lw_curves.specs.CurveTables.{IsRowPushed};
ghost use Rattle.lw_curves.specs.Settling.{Spot, spot, Has};

use crate::point::{Found, Point, Way};
use lw_choices::Chains;
use lw_fixed::Micro;
use lw_pool::ClassId;
use std::alloc::{AllocError, Global};
use std::marker::Model;

/// The points of all classes that were found so far, in the order in which they were found.
#[derive(Drop)]
pub(crate) struct Fronts {
    links: Chains,
    points: Vec<Found>,
    // how many areas were gained
    gains: u64,
    // the least area of a point of each class, and one more than the greatest area where it has
    // none
    least: Vec<u64>,
}

impl Model for Fronts {
    ghost use Rattle.lw_curves.specs.Fronts.{FrontState, IsFronts, held_of, spots_of};

    ghost Value = { FrontState };

    ghost view = { λ f. record {
      spots = spots_of f.links.classes f.points.items;
      least = f.least.items;
      held = held_of f.links.classes f.points.items;
    } };

    ghost invariant = { λ f. IsFronts f.links f.points.items f.least.items f.gains };
}

// More than any area, which is 2^62 millionths at most.
const NO_AREA: u64 = 4_611_686_018_427_387_905;

impl Fronts {
    /// No points, for so many classes.
    pub(crate) fn new(alloc: Global, classes: usize) -> Result<Fronts, AllocError>
        ensures { IfOk result (HasNoSpots classes) }
    {
        Ok(Fronts {
            links: Chains::new(alloc, classes)?,
            points: Vec::new(alloc),
            gains: 0,
            least: vec![in alloc; NO_AREA; classes]?,
        })
    }

    /// How many points there are.
    pub(crate) fn len(&self) -> u32
        ensures { CountsSpots self.now result }
    {
        self.links.len()
    }

    /// The least area of the points of a class by a time, none if it has no point by then.
    pub(crate) fn area_by(&self, class: ClassId, time: u64) -> Option<u64>
        requires { class.0 < length self.now.least }
        ensures { IsLeastSpot self.now.spots class.0 time result }
    {
        area_by(&self.links, self.points.as_slice(), class, time)
    }

    /// The least area of the points of a class by a time, as `area_by` gives it. It is found at
    /// once if `place` is where a point of the class at just this time stands.
    pub(crate) fn area_near(&self, class: ClassId, time: u64, place: u64) -> Option<u64>
        requires { class.0 < length self.now.least }
        ensures { IsLeastSpot self.now.spots class.0 time result }
    {
        let points = self.points.as_slice();
        if let Some(area) = area_at(&self.links, points, class, time, place) {
            return Some(area);
        }
        area_by(&self.links, points, class, time)
    }

    /// Where the last point of a class stands, `u64::MAX` if it has none. Groups that come have it
    /// as a hint.
    pub(crate) fn last_place(&self, class: ClassId) -> u64
        requires { class.0 < length self.now.least }
    {
        match self.links.last(class) {
            Some(place) => place as u64,
            None => u64::MAX,
        }
    }

    /// Appends the points of a class to `to`, and how they came to `ways`, the last one first.
    pub(crate) fn push_row(
        &self,
        class: ClassId,
        to: &mut Vec<Point>,
        ways: &mut Vec<Way>,
    ) -> Result<(), AllocError>
        requires { class.0 < length self.now.least }
        ensures { OnOk result (IsRowPushed self.now.held class.0 to.old.items to.new.items
            ways.old.items ways.new.items) }
    {
        push_row(&self.links, self.points.as_slice(), class, to, ways)
    }

    /// Whether all points of a class have more than an area. The contract alone needs `time`, which
    /// none of them is after.
    pub(crate) fn is_less(&self, class: ClassId, time: u64, area: u64) -> bool
        requires { MayTry self.now class.0 time area }
        ensures { IsLessOr self.now.spots class.0 time area result }
    {
        let least = self.least[class.0 as usize];
        if least <= area {
            return false;
        }
        true
    }

    /// Adds a point of a class that a choice gives, unless the class has one of no greater area,
    /// and says whether it did. There is no memory for 2^64 gains.
    pub(crate) fn gain(
        &mut self,
        class: ClassId,
        time: u64,
        area: u64,
        choice: u32,
    ) -> Result<bool, AllocError>
        requires { MayTry self.old class.0 time area }
        ensures count { length self.new.least ≡ length self.old.least }
        ensures spots { map spot_in self.old.held ≡ self.old.spots }
        ensures tried { IfOk result (IsTried self.old self.new (spot class.0 time area) choice) }
    {
        if self.least[class.0 as usize] <= area {
            return Ok(false);
        }
        if self.gains == u64::MAX {
            return Err(AllocError);
        }
        let (depth, jump) = jump_for(&self.links, self.points.as_slice(), class, time);
        let found = Found {
            time: Micro(time),
            area,
            order: self.gains,
            choice,
            depth,
            jump,
        };
        put(&mut self.links, &mut self.points, class, found)?;
        self.gains += 1;
        self.least[class.0 as usize] = area;
        Ok(true)
    }
}

// The place of the last point of a class if that is of this time, which no point of the class is
// after; else none.
fn place_at(links: &Chains, points: &[Found], class: ClassId, time: Micro) -> Option<u32>
    requires class { class.0 < links.now.count }
    requires are { AreFoundAt links.now.classes points.now }
    requires late { (k : Spot) → Has (spots_of links.now.classes points.now) k → k.time ≤ time.0 }
    ensures { IsPlaceFor links.now.classes points.now class.0 time.0 result }
{
    let Some(place) = links.last(class) else {
        return None;
    };
    if points[place as usize].time.0 == time.0 {
        return Some(place);
    }
    None
}

// The least area of the points of a class by a time, none if it has no point by then. It goes back
// from the last point, by jumps where they lead to points that are still too late.
fn area_by(links: &Chains, points: &[Found], class: ClassId, time: u64) -> Option<u64>
    requires class { class.0 < links.now.count }
    requires are { AreFoundAt links.now.classes points.now }
    ensures { IsLeastSpot (spots_of links.now.classes points.now) class.0 time result }
{
    let mut place = links.last(class)?;
    while points[place as usize].time.0 > time {
        let jump = points[place as usize].jump;
        if jump < place && links.class(jump).0 == class.0 && points[jump as usize].time.0 > time {
            place = jump;
            continue;
        }
        place = links.before(place)?;
    }
    Some(points[place as usize].area)
}

// The area of the point at a place, if that is one of a class at a time; else none.
fn area_at(links: &Chains, points: &[Found], class: ClassId, time: u64, place: u64) -> Option<u64>
    requires { AreFoundAt links.now.classes points.now }
    ensures { IfSome result (λ area. IsLeastSpot (spots_of links.now.classes points.now) class.0
        time (Some area)) }
{
    if place >= points.len() as u64 {
        return None;
    }
    let _ = links.len();
    let found = points[place as usize];
    if links.class(place as u32).0 != class.0 || found.time.0 != time {
        return None;
    }
    Some(found.area)
}

// Where two jumps from a point lead, if both leave out as many points of the class; else none.
fn far_jump(points: &[Found], point: Found) -> Option<u32> {
    if point.jump as usize >= points.len() {
        return None;
    }
    let near = points[point.jump as usize];
    if near.jump as usize >= points.len() {
        return None;
    }
    let far = near.depth.saturating_sub(points[near.jump as usize].depth);
    if point.depth.saturating_sub(near.depth) != far {
        return None;
    }
    Some(near.jump)
}

// What a new point of a class gets: how many points of the class are before it, and where it jumps
// to, `u32::MAX` for the first. From one to the next a search leaves out about half of those that
// are left.
fn jump_for(links: &Chains, points: &[Found], class: ClassId, time: u64) -> (u32, u32)
    requires { MayJump links.now points.now class.0 }
{
    let Some(last) = links.last(class) else {
        return (0, u32::MAX);
    };
    let point = points[last as usize];
    if point.time.0 == time {
        return (point.depth, point.jump);
    }
    (
        point.depth.saturating_add(1),
        far_jump(points, point).unwrap_or(last),
    )
}

// Puts a point of a class after all, or in place of the last one of the class where that is of the
// same time.
fn put(
    links: &mut Chains,
    points: &mut Vec<Found>,
    class: ClassId,
    point: Found,
) -> Result<(), AllocError>
    requires { MayPut links.old points.old.items class.0 point }
    ensures count { links.new.count ≡ links.old.count }
    ensures are { AreFoundAt links.new.classes points.new.items }
    ensures put { OnOk result (IsPutTo links.old.classes links.new.classes points.old.items
        points.new.items class.0 point) }
    ensures err { OnErr result (ArePointsSame links.old.classes links.new.classes points.old.items
        points.new.items) }
{
    if let Some(place) = place_at(links, points.as_slice(), class, point.time) {
        points[place as usize] = point;
        return Ok(());
    }
    points.reserve(1)?;
    links.push(class)?;
    points.push(point)?;
    Ok(())
}

// Appends the points of a class to `to`, and how they came to `ways`, the last one first.
fn push_row(
    links: &Chains,
    points: &[Found],
    class: ClassId,
    to: &mut Vec<Point>,
    ways: &mut Vec<Way>,
) -> Result<(), AllocError>
    requires class { class.0 < links.now.count }
    requires are { AreFoundAt links.now.classes points.now }
    ensures { OnOk result (IsRowPushed (held_of links.now.classes points.now) class.0
        to.old.items to.new.items ways.old.items ways.new.items) }
{
    let mut next = links.last(class);
    while let Some(place) = next {
        let found = points[place as usize];
        to.push(Point {
            time: found.time,
            area: found.area,
        })?;
        ways.push(Way {
            order: found.order,
            choice: found.choice,
        })?;
        next = links.before(place);
    }
    Ok(())
}
