//! Several networks over the inputs of the first as one graph of choices, in which forms of equal
//! value are linked.
//!
//! In go a network, and further ones with the place of each of their inputs among its own. Out come
//! the graph of all their forms, the classes of the first network's outputs, and what was left out;
//! then the cover of these classes by cells, or the verdict on a netlist. Nothing is assumed of the
//! further networks. The modules in order:
//!
//! * `places`: the inputs of a network among those of another;
//! * `uniting`: the network of all nodes;
//! * `taking`: which networks are within the limits;
//! * `choices`: the graph (`join`);
//! * `covering`: the cover of the outputs (`cover`);
//! * `checking`: the verdict on a netlist (`check`);
//! * `laws`: theorems on what is joined.
//!
//! The definition to read is `IsJoin` in `specs/Joins.antt`. `lw_area` calls `join`, `cover` and
//! `check`.
#![tactic(auto)]

mod checking;
mod choices;
mod covering;
mod laws;
mod places;
mod taking;
mod uniting;

pub use checking::check;
pub use choices::{Joined, join};
pub use covering::{Covered, cover};
pub use lw_links::Counts;
pub use places::{Inputs, Places};
pub use taking::{Left, Limit};
pub use uniting::Other;
