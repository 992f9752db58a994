//! Names for the nets of gates: that of the first output of the gate's class, or else the next of
//! n1, n2 and so on that no input and no output has.
//!
//! In come the names of inputs and outputs, the classes of the outputs, and those of the gates. Out
//! come names. The modules in order:
//!
//! * `name_set`: names, to be found fast;
//! * `owners`: the first output of each class;
//! * `free_names`: the names n1, n2 and so on that are not taken;
//! * `naming`: the names of gates and nets (`gate_names`, `net_names`).
//!
//! The one definition to read is `net_names` in `specs/Names.antt` of `lw_laws`. `lw_extract`,
//! `lw_lut` and `lw_trade` call these.
#![tactic(auto)]

mod free_names;
mod name_set;
mod naming;
mod owners;

pub use naming::{gate_names, net_names};
