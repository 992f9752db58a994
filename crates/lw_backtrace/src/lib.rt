//! The way down: from the roots to the points that get a gate.
//!
//! In come a graph, a library, curves and targets: roots, each with the time by which it has to
//! arrive. A root is the class of an output. Out comes a list of gates with the nets of their pins.
//! Each root takes the last point of its class by its time. Each pin of a point's gate takes the
//! last point of its own class by the point's time, less the delay of the pin. A root whose last
//! point has the cut area 2^62 takes any point that comes by its time, and its gates are shared by
//! class. The modules in order:
//!
//! * `targets`: what a netlist is built for (`Targets`);
//! * `wants`: what a walk goes by, and what a pin or a root asks for;
//! * `trail`: what a walk has found so far;
//! * `walk`: the walk from the roots through the pins of each gate found (`walk_down`);
//! * `shared_points`: the point of each class that shared uses take, the highest class first;
//! * `second_look`: whether what a walk has found is right, gate by gate. The walk itself is not
//!   proved; what it found is looked at again, and only what passes goes out. Where a walk that
//!   shares gates does not pass, one without sharing is tried. Where that does not pass either, the
//!   answer is that memory is out.
//!
//! The words of this crate:
//!
//! * point: a time and the least area of a class by then (`lw_curves`), by its place in the curve
//!   of its class. Times are in millionths of a unit of time, and areas of a unit of area;
//! * node: a point that gets a gate. It is exact if the gate has the area of the point; else the
//!   gate is shared, and has only to come by the point's time;
//! * gate: a cell with the nets of its pins, by its number, from 0. The inputs are the first nets,
//!   and gate j drives the j-th net after them;
//! * cut: a root whose last point by its time has the area 2^62, at which areas are cut;
//! * want: a class by a time, asked for by a root or a pin, which is then the user of a gate;
//! * owner: the exact gate of a point; spare: the shared gate of a class;
//! * rank: the order of classes in which shared points are chosen, by the first point of each.
//!
//! The one definition to read is `IsWalk` in `specs/Walks.antt`. Start at `lw_trade`, which calls
//! `walk_down`.
#![tactic(auto)]

mod second_look;
mod shared_points;
mod targets;
mod trail;
mod walk;
mod wants;

pub use targets::Targets;
pub use trail::Walk;
pub use walk::walk_down;
