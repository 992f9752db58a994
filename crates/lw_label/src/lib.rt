//! Labels of classes: the least cost of their covers, and their heights.
//!
//! In come a graph, patterns and a cost. Out comes a mark for each class that has a cover. A mark
//! is a label with its height (`lw_cost`).
//!
//! Labels come first, to their end, and then heights. A class and its complement share a place, and
//! the places of its parts come before it where no cycle forbids it. A place whose parts are still,
//! that is, have got what they keep, is visited once and is still then. The other places, those on
//! cycles and those above them, go on in rounds. A round passes over a place whose parts have not
//! changed since it was visited. Once such rounds change nothing, a round follows that passes over
//! none but the still ones: where it changes nothing either, nothing is left to change. Searches
//! are cut by a table of bounds, whose numbers come from the pairs of a class, as its labels do.
//! Where classes have many pairs, searches for heights are cut by a table of bounds on heights too.
//!
//! The modules in order:
//!
//! * `delay`: the time of covers as a cost (`DelayCost`);
//! * `labelling`: what labels are found by, and what is found so far;
//! * `order`: the order in which classes are visited;
//! * `visits`: which classes are visited again;
//! * `lowering`, `once`: labels in rounds, and by one visit of each place;
//! * `table`, `heights`: a table of bounds on heights, and heights in rounds;
//! * `labels`: labels, then heights (`relabel_with_bounds`);
//! * `laws`: theorems on labels by time.
//!
//! The words of this crate:
//!
//! * label: the least cost of a cover of a class, in units of the cost: by `DelayCost` the earliest
//!   arrival, in millionths of the library's unit of time;
//! * height: the most gates on a way from a class to an input, by the matches that attain the
//!   labels and make it least;
//! * mark: a label with a height. It is before another if it costs less, or as much with less
//!   height. While labels are sought, heights are 0;
//! * place: a class with its complement. Place p has the classes 2p and 2p + 1;
//! * part: of a place, the place of a class in one of its pairs;
//! * number: an entry of the table of bounds. A class with pairs has a row of them, one for each
//!   NAND of the patterns by its two sides. The greatest cost of a pin below that NAND at the
//!   class, with the pin's gap, is at least so much. `u64::MAX` says that it stands nowhere there;
//! * gap: what a pin is guessed to cost less than its cell. It is certified at a cost `top` if the
//!   cell costs at least `top` wherever that pin costs at least `top` minus the gap. `Tops` has
//!   such costs.
//!
//! The one definition to read is `AreLeastMarks` in `specs/Labels.antt` of `lw_cost`. `lw_map`
//! calls `relabel_with_bounds`.
#![tactic(auto)]

mod delay;
mod heights;
mod labelling;
mod labels;
mod laws;
mod lowering;
mod once;
mod order;
mod table;
mod visits;

pub use delay::DelayCost;
pub use labels::{BoundedLabels, relabel, relabel_with_bounds};
pub use laws::{library_patterns_are_of_cells, library_times_are_low, times_stay_low};
pub use lw_cost::Labels;
