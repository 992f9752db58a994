//! A netlist of least area under a deadline.
//!
//! In come a graph, patterns, a library, the starts of the inputs, the curves of these, and
//! targets. Out comes a netlist whose outputs arrive by their times, each with the least area of
//! all covers of its class that do. This area counts each use of a shared part.
//!
//! `lw_choices` has what may stand at a class, `lw_curves` the points at which more time buys less
//! area, and `lw_backtrace` the way from the roots down; `lw_queue` is a queue that `lw_curves`
//! waits by. What callers need of them is given on here. The modules in order:
//!
//! * `trading`: from curves to a netlist (`trade`);
//! * `assembly`: the gates that the way down found, by depth and with their names;
//! * `laws`: theorems on netlists that are built from points.
//!
//! The words of this crate:
//!
//! * target: the class of an output, with its name and the time by which it has to arrive. Times
//!   are in millionths of a unit of time, and areas of a unit of area;
//! * point: a time, and the least area of the covers of a class that arrive by then;
//! * walk: the gates that the way down found, by their numbers from 0, with the nets of their pins.
//!   The inputs are the first nets, and each gate drives the next one;
//! * depth: the length of the longest path to a gate from an input, in gates;
//! * place: the number that a gate gets once the gates stand by depth.
//!
//! The one definition to read is `IsTraded` in `specs/Traded.antt`. `lw_map` calls `curves` and
//! `trade`, and for `trade none` it finds labels by `AreaCost`.
#![tactic(auto)]

mod assembly;
mod laws;
mod trading;

pub use laws::{built_nets_are_covers, pins_come_before};
pub use lw_backtrace::Targets;
pub use lw_choices::AreaCost;
pub use lw_curves::{CurveFault, Curves, Point, curves};
pub use trading::trade;
