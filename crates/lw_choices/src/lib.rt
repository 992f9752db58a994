//! The choices of each class: an input, or a cell by a match, and what they cost.
//!
//! In come a graph, the patterns and the cells of a library. Out come the list of choices, of those
//! that are alike one, the pins of these in groups, and the area of covers as a cost. The modules
//! in order:
//!
//! * `area`: the area of a cell with those of its pins, cut at 2^62 (`AreaCost`);
//! * `rows`: a choice at its class (`ListedChoice`), and all of them, with their pins in one list
//!   (`Listing`);
//! * `pin_uses`: the pins of a match with their delays, sorted;
//! * `listed`: a list of matches, and where one that is alike is found by a hash;
//! * `choices`: the inputs, and behind them the matches of a store, or of a search at each class
//!   where there are too many to store (`list_choices`);
//! * `chains`: an array of numbers, each place linked to the last one before it with the same
//!   number;
//! * `pin_groups`: the pins of all choices in groups by class and delay, since those of a group
//!   come at the same times (`pin_groups_of`), and the lane in which each group waits;
//! * `group_choices`: the choices of each group, one group behind another.
//!
//! A lane is for one delay. Points are found by rising time, so what one delay puts off comes in
//! order. Delays past the first 1024 share lane 0; what does not fit its lane goes to the heap of
//! the queue (`lw_queue`).
//!
//! The words of this crate:
//!
//! * choice: what may stand at a class; it is known by its number in the list of all, from 0;
//! * match: a pattern of a cell at a class, with a class for each pin;
//! * alike: of one class and one cell, with as many pins of each class and delay. They give the
//!   same times and areas;
//! * pin: a pin of the cell of a choice. All pins are numbered too, choice after choice: the owner
//!   of a pin is its choice, and the first of a choice its first pin;
//! * group: the pins of one class with one delay, in millionths of a unit of time, by its number.
//!   Its members are its pins;
//! * place: an index in an array, for `Chains` that of a pin or a group;
//! * area: in millionths of a unit of area.
//!
//! The one definition to read is `AreListedChoices` in `specs/Choices.antt`: what may stand at a
//! class and nothing else, and for each that may one that is alike. Start at `lw_trade`.
//! `lw_curves` calls `list_choices` and `pin_groups_of`, and `lw_backtrace` reads the choice of a
//! point.
#![tactic(auto)]

mod area;
mod chains;
mod choices;
mod group_choices;
mod listed;
mod pin_groups;
mod pin_uses;
mod rows;

pub use area::{AreaCost, MOST_AREA, joined};
pub use chains::Chains;
pub use choices::list_choices;
pub use pin_groups::{PinGroups, lane_of, pin_groups_of};
pub use rows::{Gate, ListedChoice, Listing, Stand};
