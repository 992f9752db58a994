//! A queue of numbers that wait, each for a time up to a horizon, the earliest first.
//!
//! What comes in by rising time stands in lanes, which cost nothing to keep in order. For the
//! groups of `lw_curves` a lane is for one delay: points are found by rising time, so what one
//! delay puts off comes in order. An item that does not fit its lane goes to a heap. The modules in
//! order:
//!
//! * `lane`: one lane, in which each waits at least as long as those before it;
//! * `lanes`: lanes side by side, of which any may have the first;
//! * `queue`: the lanes and the heap together (`Queue`).
//!
//! The words of this crate:
//!
//! * number: what waits, that of a choice or of a group of pins;
//! * left: the horizon less the time for which a number waits, in millionths. The earliest has most
//!   left;
//! * hint: a number that comes back with one that waits;
//! * item: what is left, and then the hint and the number.
//!
//! The one definition to read is `Waits` in `specs/Queues.antt`. Start at `lw_trade`. `lw_curves`
//! has two queues: of the groups of pins that come, and of the choices that wait to be looked at.
#![tactic(auto)]

mod lane;
mod lanes;
mod queue;

pub use queue::Queue;
