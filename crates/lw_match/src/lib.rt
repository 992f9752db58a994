//! The least match at a class, and matches that are better than a bound, under a cost.
//!
//! In come a graph, the patterns of a library, a mark or none for each class, a class, a cost and a
//! table of bounds. Out comes a match at the class whose pins all have marks, or none.
//!
//! A call makes a `site` of its arguments, and of that a `query`, which has the numbers of sides at
//! the class. `finding` goes through all patterns for the least match, and `improving` asks for a
//! match before a bound. What is sought there stands in `want`, and what a match has to be before
//! in `target`. `hunting` asks one pattern, and `sweeping` those whose roots are near. `tops`
//! remembers at which costs the gaps of all patterns may be trusted. `choosing` finds the least
//! match where the least mark is known.
//!
//! The words of this crate:
//!
//! * mark: the cost of a class, in units of the cost, and its height in gates. It is before another
//!   if it costs less, or as much with less height. A bound is a mark that a match has to be
//!   before;
//! * gap: what a pin is guessed to cost less than its cell. It is certified at a cost `top` if the
//!   cell costs at least `top` wherever that pin costs at least `top` minus the gap;
//! * side: what a node of a pattern is in the table of bounds: a pin, a constant, a part or any
//!   tree, or the complement of one. A part is a NAND of two sides, and a root is the side of a
//!   whole pattern;
//! * number: what the table says of a side at a class. A match that has the side there costs at
//!   least so much if its gaps are certified at the number; `u64::MAX` says that there is none;
//! * row: the numbers of all parts at one class;
//! * list: the numbers of all sides at a class are in three. List 0 has those of pins, constants
//!   and any tree, list 1 is the row of the class, and list 2 that of its complement;
//! * shift: what is added to a number of a list for a root: what the gaps of its pins have in
//!   common;
//! * top: the number from which on sides are passed over. A root is near if its number is below it;
//! * bare: a list without numbers, or a pattern without NANDs;
//! * floor: what no match at the class costs less than, 0 if nothing is known;
//! * hunt: a search that may end with any match before a bound, unless marks count.
//!
//! The definitions to read are `IsLeastMatch` in `specs/Least.antt` of `lw_cost`, and `IsOutcome`
//! in `specs/Hunts.antt`. `lw_label` calls `better_within`, `better_without_nands` and
//! `lower_within`, `lw_extract` calls `least_before`, and `lw_check` calls `least_within`. `least`
//! is for callers of the library: it reads no table, no command calls it, and tests compare it with
//! all matches. What matches are and what they cost stands in `lw_cost`, the table in `lw_bounds`,
//! and the search by one pattern in `lw_branch`. What a caller needs of these and of `lw_cursor` is
//! given on here.
#![tactic(auto)]

mod choosing;
mod finding;
mod hunting;
mod improving;
mod query;
mod scratch;
mod site;
mod sweeping;
mod target;
mod tops;
mod want;

pub use choosing::least_before;
pub use finding::{least, least_within};
pub use improving::{Outcome, better_within, better_without_nands, lower_within};
pub use lw_bounds::{Bounds, HeightBounds, bounds_of_fewer, settled_bounds_are_bounds};
pub use lw_cost::{
    Best, Cost, Mark, Match, Pins, library_patterns_are_of_cells, matches_have_cells,
};
pub use lw_cursor::Cursor;
pub use scratch::Scratch;
pub use tops::Tops;
