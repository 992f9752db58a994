//! The look at a list of matches that decides: whether it makes a netlist that is right, in time
//! and not too large. In go a list of matches, whoever made it, and the cover that a network is
//! mapped to; out comes the netlist of the list, or that cover if the list is refused.
//!
//! Each match is one at its class, by the pattern that the list names. Each of its pins is an
//! input's class or stands earlier in the list. No class stands twice, and none is an input's. So
//! the netlist has the values of its classes, and no cycle. Each output's class is there, and the
//! output arrives by its time. The gates stand by depth, so that a reader of the netlist keeps
//! their order. The area, each gate counted once, is at most that of the other cover.
//!
//! `listing` looks at the list, `depths`, `timing` and `areas` at the netlist, and `looking` takes
//! them together. `lw_area` calls `choose`.
//!
//! The words of this crate:
//!
//! * match: a pattern of a cell at a class, with a class for each pin; in the code `Chosen`, or a
//!   gate;
//! * seen: a truth value for each class of the graph: whether it is an input's, or a match before
//!   the present one in the list has it;
//! * depth: how many gates the longest path from an input to a net has;
//! * root: the class of an output;
//! * times: by when each output has to arrive, and starts: when inputs do, in millionths of a unit
//!   of time;
//! * most: the greatest area, in millionths of a unit of area.
#![tactic(auto)]

mod areas;
mod depths;
mod laws;
mod listing;
mod look;
mod looking;
mod timing;

pub use areas::area_of;
pub use laws::{covers_are_match_netlists, mappings_arrive_by};
pub use look::{Look, Looked};
pub use timing::arrivals_of;
