//! The table of bounds by which searches for matches are cut: what the pins of a part of a pattern
//! cost at least where the part stands at a class.
//!
//! In the order in which a table comes to be: `gaps` guesses what each pin costs less than its
//! cell, and tests whether a guess may be trusted; `parts` and `shapes` find the parts of patterns,
//! where pins with the same gap are alike; `making` puts these with a row of numbers for each
//! class, and `bounds` is the table. `numbers` are the numbers of sides at classes, which `places`
//! and `rows` lay out as lists; `renewing` and `lowering` let the numbers of a class fall to what
//! its pairs give, and `settling` and `times` do so until none falls. `cuts` and `heights` are what
//! a search reads of one table, or of two. `laws` has what other crates cite.
//!
//! The words of this crate, all costs in the unit of the cost in use (millionths, or gates for
//! heights):
//!
//! * a *mark* is the cost and the height that a class has by now, if it has one;
//! * the *gap* of a pin is what the pin is guessed to cost less than its cell; it is *certified* at
//!   a cost `top` if the cell costs at least `top` wherever that pin costs `top - gap`;
//! * a *part* is a NAND in a pattern, known by its two *sides*; parts of several patterns that look
//!   the same are one part, which has a place in a list, its number in the code;
//! * the *number* of a part at a class is a lower bound on what its pins cost, each with its gap,
//!   if the part stands there, `u64::MAX` if it can't; numbers only fall while a table settles;
//! * a *row* is the numbers of all parts at one class; a class without pairs has none;
//! * a *shift* is what is added to the number of a side: a part carries what the gaps of its pins
//!   have in common;
//! * a *rule* says in which lists and where the numbers of the two sides of a part stand. List 0
//!   has the numbers of pins and constants at a class, list 1 is its row, and list 2 the row of its
//!   complement. A *group* is the rules that read the same two lists.
//!
//! The definitions to read are `BoundsTree` and `AreBounds` in `specs/Bounds.antt`. `lw_label`
//! keeps the table while labels fall, and `lw_match` searches by it.
#![tactic(auto)]

mod bounds;
mod cuts;
mod gaps;
mod heights;
mod laws;
mod lowering;
mod making;
mod numbers;
mod parts;
mod places;
mod renewing;
mod rows;
mod settling;
mod shapes;
mod times;

pub use bounds::Bounds;
pub use cuts::{Cuts, numbers_of, sides_at};
pub use gaps::{gaps_at, is_certified, is_certified_by, known_of};
pub use heights::{HeightBounds, with_heights};
pub use laws::{bounds_of_fewer, settled_bounds_are_bounds};
pub use numbers::{Numbers, shifted, side_number};
pub use parts::{Root, Side};
pub use rows::{View, leaves_at, list_at, row_number, view_at, view_number};
