// The points of each class as a curve.
ghost use Rattle.std.specs.Prelude.{IfOk, IfSome, MatchOption, None, OnOk, Some, [], length};
ghost use Rattle.std.specs.Prelude.{option_map, reverse, slice_get, slice_range, ℕ, ◌<◌, ◌≡◌, ◌≤◌};
ghost use Rattle.lw_curves.specs.CurveTables.{IsStandAt, AreCurvesOf, IsTable};
ghost use Rattle.lw_curves.specs.Lasts.{ArePointsRising, IsLastOf, IsRowAt};
ghost use Rattle.lw_curves.specs.Points.{AreCurves, BoundCovers};
ghost use Rattle.lw_choices.specs.Tasks.{IsLeastAreaBy, Task};
ghost use Rattle.lw_choices.specs.Stands.{plain_row};

use crate::last_point::last_by;
use crate::pareto_fronts::Fronts;
use crate::point::{Point, Way};
use lw_choices::{ListedChoice, Listing, Stand};
use lw_fixed::Micro;
use lw_pool::ClassId;
use std::alloc::{AllocError, Global};
use std::marker::Model;

/// The points of each class, and the choices that gave them their areas.
///
/// The points stand in one array, one class after the other, and for each class it is noted how
/// many are left from its first one on.
#[derive(Drop)]
pub struct Curves {
    points: Vec<Point>,
    // one for each point
    ways: Vec<Way>,
    // one more than there are classes: none are left behind the last one
    lefts: Vec<usize>,
    rows: Listing,
}

impl Model for Curves {
    ghost use Rattle.lw_curves.specs.CurveTables.{AreCurveArrays, CurveLists, rows_of};

    ghost Value = { CurveLists };

    ghost view = { λ c. record {
      points = rows_of c.points.items c.lefts.items;
      ways = rows_of c.ways.items c.lefts.items;
      choices = c.rows;
    } };

    ghost invariant = { λ c. AreCurveArrays c.points.items c.ways.items c.lefts.items };
}

impl Curves {
    /// The points of a class, by rising time.
    pub fn of(&self, class: ClassId) -> &[Point]
        requires { class.0 < length self.now.points }
        ensures points { slice_get self.now.points class.0 ≡ Some result.now }
        ensures rising { ArePointsRising result.now }
    {
        let class = class.0 as usize;
        let count = self.points.len();
        let first = count - self.lefts[class];
        let end = count - self.lefts[class + 1];
        part(self.points.as_slice(), first, end)
    }

    /// The least area of the covers of a class that arrive by a time, as far as the curves go; none
    /// if there is no such cover.
    pub fn area_by(&self, class: ClassId, time: Micro) -> Option<u64>
        requires { class.0 < length self.now.points }
        ensures { (s : Task) (horizon : ℕ) → AreCurves s horizon self.now.points →
            BoundCovers s horizon self.now.points → time.0 ≤ horizon →
            IsLeastAreaBy s class.0 time.0 result }
    {
        let points = self.of(class);
        let place = last_by(points, 0, time.0)?;
        Some(points[place].area)
    }

    /// The points of a class, by rising time, and nothing past the last class.
    pub fn get(&self, class: ClassId) -> Option<&[Point]>
        ensures { MatchOption result (slice_get self.now.points class.0 ≡ None)
            (λ row. IsRowAt self.now.points class.0 row.now) }
    {
        if class.0 as usize + 1 >= self.lefts.len() {
            return None;
        }
        Some(self.of(class))
    }

    /// The place of the last point of a class whose time plus `delay` is no later than `time`; none
    /// if there is none.
    pub fn last_by(&self, class: ClassId, delay: u64, time: u64) -> Option<usize>
        ensures { IsLastOf self.now.points class.0 delay time result }
    {
        let Some(points) = self.get(class) else {
            return None;
        };
        last_by(points, delay, time)
    }

    /// How the points of a class came, in their order, and nothing past the last class.
    pub fn ways_of(&self, class: ClassId) -> Option<&[Way]>
        ensures { slice_get self.now.ways class.0 ≡ option_map (λ row. row.now) result }
    {
        let class = class.0 as usize;
        if class + 1 >= self.lefts.len() {
            return None;
        }
        let count = self.ways.len();
        let first = count - self.lefts[class];
        let end = count - self.lefts[class + 1];
        Some(part(self.ways.as_slice(), first, end))
    }

    /// How many points there are.
    pub(crate) fn points(&self) -> usize {
        self.points.len()
    }

    /// What stands at the point of a class at a place: an input, or a cell with its pins. None past
    /// the last.
    pub fn stand(&self, class: ClassId, place: u32) -> Option<Stand>
        ensures { IfSome result (IsStandAt self.now class.0 place) }
    {
        let ways = self.ways_of(class)?;
        let place = place as usize;
        if place >= ways.len() {
            return None;
        }
        let choice = ways[place].choice;
        if choice as usize >= self.rows.len() {
            return None;
        }
        Some(self.choice(choice).stand)
    }

    /// The choice with this number: what may stand at which class.
    pub(crate) fn choice(&self, choice: u32) -> ListedChoice
        requires { choice < length self.now.choices }
        ensures { slice_get self.now.choices choice ≡ Some (plain_row result) }
    {
        self.rows.at(choice as usize)
    }
}

/// The curves of so many classes, made once by `curves`: the points of the fronts class by class,
/// with the choices.
pub(crate) fn group(
    alloc: Global,
    fronts: &Fronts,
    classes: u32,
    rows: Listing,
) -> Result<Curves, AllocError>
    requires { classes ≡ length fronts.now.least }
    ensures { IfOk result (AreCurvesOf fronts.now classes rows) }
{
    let count = fronts.len() as usize;
    let mut points = Vec::with_capacity(alloc, count)?;
    let mut ways = Vec::with_capacity(alloc, count)?;
    let mut lefts = Vec::new(alloc);
    push_rows(fronts, classes, &mut points, &mut ways, &mut lefts)?;
    points.reverse();
    ways.reverse();
    lefts.reverse();
    Ok(Curves {
        points,
        ways,
        lefts,
        rows,
    })
}

// What stands at the places from `first` on and before `end`.
fn part<T>(points: &[T], first: usize, end: usize) -> &[T]
    requires first { first ≤ end }
    requires end { end ≤ length points.now }
    ensures { result.now ≡ slice_range points.now first end }
{
    &points[first..end]
}

// Lists the points of the classes, the last one of the last class first, and how they came. `lefts`
// gets how many are listed before each class, and at the end of all: `group` turns the lists round.
fn push_rows(
    fronts: &Fronts,
    classes: u32,
    points: &mut Vec<Point>,
    ways: &mut Vec<Way>,
    lefts: &mut Vec<usize>,
) -> Result<(), AllocError>
    requires classes { classes ≡ length fronts.now.least }
    requires points { points.old.items ≡ [] }
    requires ways { ways.old.items ≡ [] }
    requires lefts { lefts.old.items ≡ [] }
    ensures { OnOk result (IsTable fronts.now.held classes 0 (reverse points.new.items)
        (reverse ways.new.items) (reverse lefts.new.items)) }
{
    lefts.push(0)?;
    let mut class = classes;
    while class > 0 {
        class -= 1;
        fronts.push_row(ClassId(class), points, ways)?;
        lefts.push(points.len())?;
    }
    Ok(())
}
