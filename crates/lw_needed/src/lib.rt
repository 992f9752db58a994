//! The classes that a netlist needs, by their depth.
//!
//! In come classes with their depths, and the classes of the outputs. Out come the classes by
//! depth, and a flag for each class that an output or a chosen part needs. A netlist is chosen from
//! the deepest class down, so that each class is known to be needed or not before it is looked at.
//! The modules in order:
//!
//! * `places`: classes with their depths, and their order (`sort_places`);
//! * `needed`: the classes that outputs or chosen parts need (`need`, `needed_by`).
//!
//! The definitions to read are `AreInDepthOrder` in `specs/Places.antt` and `AreRoots` in
//! `specs/Needed.antt`. `lw_extract` chooses gates by these, and `lw_lut` tables.
#![tactic(auto)]

mod needed;
mod places;

pub use needed::{need, needed_by};
pub use places::{Place, sort_places};
