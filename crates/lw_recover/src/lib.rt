//! A cover made smaller: gates that no output needs as early as they are get smaller matches.
//!
//! A `Cover` has a match for each class in use, with uses and times that are exact between
//! moves. `Moves` visits gates one after another, tries other matches with all that they alone
//! need, and puts the smallest that is in time. `Curves` hold points of time and area, from which
//! whole covers are drawn. `recover` says which covers to begin with, and in which order.
//!
//! Nothing here is owed to be right: the list of gates that comes out is looked at by whoever takes
//! it. So tables have a value past their ends, sums stop at the greatest number, and loops have a
//! bound on their turns.
#![tactic(auto)]

mod chance;
mod cover;
mod curves;
mod drawing;
mod matches;
mod moves;
mod recovering;
mod stock;
mod times;
mod trial;
mod visits;

pub use cover::Root;
pub use drawing::Nodes;
pub use matches::{Gate, Gates};
pub use recovering::{Effort, recover};
