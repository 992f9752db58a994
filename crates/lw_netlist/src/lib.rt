//! Netlists of library cells: their gates, the values of their nets, and when these arrive.
//!
//! In come gates, each a cell with the nets of its pins, and outputs. The nets are the inputs, in
//! order, and then what the gates drive, in order. Out come the value and the arrival of each net.
//! The modules in order:
//!
//! * `gate`, `netlist`: gates and outputs, and the netlist of them (`Netlist`);
//! * `values`, `arrivals`: the values of nets, and when they arrive.
//!
//! The definitions to read are `IsNetlist` in `specs/Netlists.antt` and `plain` in
//! `specs/Plain.antt`. `lw_extract` and `lw_trade` make netlists, `lw_named_netlist` closes them
//! from drafts by names, and all that writes or looks at a netlist reads them.
#![tactic(auto)]

mod arrivals;
mod gate;
mod netlist;
mod values;

pub use gate::{Gate, Gates, Port, PortList};
pub use netlist::Netlist;
