//! The search by one pattern: branch and bound over the bindings of its pins.
//!
//! In come a pattern, a class of the graph, the marks of the classes, a cost, and the best match so
//! far. `search` makes the best the least of what it was and the matches by the pattern at the
//! class.
//!
//! `job` is what stays the same in a search and how far it goes, and `binding` the classes at which
//! the pins stand so far. `branching` takes the next goal, and `needs` tells what the goals after
//! it need of the operands of a NAND. `bisecting` finds the pairs of a class that may hold another
//! class. `pruning` says when a branch holds no match before the best.
//!
//! The words of this crate:
//!
//! * mark: the cost of a class, in units of the job's cost, and its height in gates. It is before
//!   another if it costs less, or as much with less height. If only marks count, any of the matches
//!   with the least mark will do;
//! * goal: a node of the pattern, by its place, with the class at which it has to stand;
//! * side: what a node is in the table of bounds: a pin, a constant, a part or any tree, or the
//!   complement of one. A part is a NAND of two sides;
//! * number: what the table says of a side at a class. The greatest cost of a pin below it, with
//!   the pin's gap, is at least so much there; `u64::MAX` says that the side stands nowhere there;
//! * row: the numbers of all parts at one class; in `bisecting`, the pairs of a class;
//! * gap: what a pin is guessed to cost less than its cell. It is certified at a cost `top` if the
//!   cell costs at least `top` wherever that pin costs at least `top` minus the gap;
//! * limit: the number from which on sides are passed over; `u64::MAX` passes over only those that
//!   stand nowhere;
//! * floor: what no match at the class costs less than, 0 if nothing is known;
//! * hunt: a search that may end with any match before its bound, which is a mark.
//!
//! The definition to read is `Searches` in `specs/Jobs.antt`: the best becomes the least of what it
//! was and the matches that meet the goals. `lw_match` calls `search` for each pattern at a class.
#![tactic(auto)]

mod binding;
mod bisecting;
mod branching;
mod job;
mod needs;
mod pruning;

pub use binding::{Binding, Unbound};
pub use branching::{candidate, search};
pub use job::{Job, Scope};
pub use needs::has_repeats;
pub use pruning::{is_over, is_too_high, limit_of, standing};
