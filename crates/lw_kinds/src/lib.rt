//! Kinds: the patterns of all cells joined by their trees, with the graph in which they are put.
//!
//! Each pattern is turned so that the larger side of a NAND comes first (`turning`); patterns with
//! one tree are one kind, with the cells that have it and the ways to give its leaves to their
//! pins. A `Walk` goes over the matches of a kind at a class, where a table says which shapes stand
//! at which classes at all. A `Space` has all of this with the labels of the classes.
#![tactic(auto)]

mod binding;
mod kinds;
mod placing;
mod shapes;
mod space;
mod standing;
mod table;
mod turning;
mod walking;

pub use kinds::{Kind, MOST_LEAVES, Matched, Nand, Side, Use, Way, What};
pub use space::{Inverter, LATE, Space};
pub use standing::Standing;
pub use table::Table;
pub use walking::{Low, Walk, Walker};
