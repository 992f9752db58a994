//! What matches are, what they cost, and the labels of classes.
//!
//! In the order in which a reader needs them: `cost` is what matches are priced with, `mark` and
//! `pins` are marks of classes and matches with their marks, `labels` is a mark for each class,
//! `counting` says how many pins a pattern has, and `goals` are nodes of a pattern with the classes
//! at which they have to stand, which both the cursor and the search meet one by one. `laws` has
//! what other crates cite.
//!
//! The definitions to read are `IsLeastMatch` in `specs/Least.antt`, the least match at a class;
//! `AreMatches` in `specs/Coming.antt`, all matches at a class; and `AreLeastMarks` in
//! `specs/Labels.antt`, the least costs of covers with their heights. Everything that searches,
//! stores or chooses matches stands on this crate: `lw_cursor`, `lw_bounds`, `lw_branch`,
//! `lw_match`, `lw_label`, `lw_settle`, `lw_extract`, `lw_check` and `lw_choices`.
#![tactic(auto)]

mod cost;
mod counting;
mod goals;
mod labels;
mod laws;
mod mark;
mod pins;

pub use cost::Cost;
pub use counting::pin_count;
pub use goals::{Goal, Goals, zero_of};
pub use labels::Labels;
pub use laws::{library_patterns_are_of_cells, matches_have_cells};
pub use mark::{Best, Mark, Match};
pub use pins::Pins;
