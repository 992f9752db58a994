//! The points of each class at which more time buys less area, by rising time.
//!
//! In come a graph, patterns, a library, the starts of the inputs and a horizon. Out come the curve
//! of each class up to the horizon and the choice behind each point, or `Limit` where all classes
//! together have more than 8,000,000 points. Times and areas are in millionths.
//!
//! Time passes from 0 to the horizon. When a class gains a point, each group of pins at it comes
//! later by the delay of the group. When a group comes, the choices with a pin in it wait to be
//! priced. The modules in the order in which points are found:
//!
//! * `point`: what is known of a point;
//! * `finding`: from a graph to its curves, by all that follows (`curves`);
//! * `setup`: what stays the same meanwhile;
//! * `first_choices`: the choices that wait at the start: inputs, and cells without pins;
//! * `settling`: from one time to the next, until nothing waits up to the horizon;
//! * `waking`: the groups that come, and which of their choices may give less area;
//! * `seen_areas`: the least area that each group has seen;
//! * `tallies`: from that, a lower bound of the area of each choice;
//! * `choice_area`: the least area that a choice gives by a time;
//! * `pareto_fronts`: the points so far, and searches among those of a class;
//! * `curve_table`: the points by class, with their choices (`Curves`);
//! * `last_point`: the last point of a class by a time.
//!
//! The words of this crate:
//!
//! * point: a time, and the least area of the covers of a class that arrive by then, where less
//!   time buys only more area. A class gains a point when one is found with less area;
//! * choice: an input or a match at a class, by its number in the list of all (`rows`);
//! * group: the pins of choices that have one class and one delay, by its number;
//! * seen: the least area of the points of its class that have come to a group, `UNSEEN` at first;
//! * tally: of a choice, its class and a bound of its area: its cell and what the groups of its
//!   pins have seen;
//! * queue: `queue` has the choices that wait for a time, and `coming` the groups that come at one;
//! * front: the points of a class that were found so far. A place is an index among the points of
//!   all classes, or in `Curves` among those of one class. A hint is a place that need not be
//!   right;
//! * way: how a point came: by which choice, and as which gain.
//!
//! The one definition to read is `AreCurves` in `specs/Points.antt`. Start at `lw_trade`, through
//! which `lw_map` calls `curves`; `lw_backtrace` reads what comes out.
#![tactic(auto)]

mod choice_area;
mod curve_table;
mod finding;
mod first_choices;
mod last_point;
mod pareto_fronts;
mod point;
mod seen_areas;
mod settling;
mod setup;
mod tallies;
mod waking;

pub use curve_table::Curves;
pub use finding::curves;
pub use last_point::last_by;
pub use point::{CurveFault, Point, Way};
