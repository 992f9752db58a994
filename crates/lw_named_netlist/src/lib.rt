//! Netlists that are closed from drafts by names.
//!
//! In comes a draft, whose nets are known by names. Out comes the netlist of it, whose nets are
//! numbers and whose gates stand by depth, or the fault of the draft. The modules in order:
//!
//! * `draft`, `fault`: what comes in, and why it is no netlist;
//! * `spelled`, `spelled_names`: names in rows of bytes;
//! * `apart`, `buckets`, `signals`: the numbers of names, which are found by chains or by order;
//! * `graph`, `naming`: what is kept of a draft, with numbers in place of names;
//! * `levels`, `placing`: how deep the gates are, and the netlist with the gates in their places;
//! * `closing`, `making`: from a draft to the netlist (`close`).
//!
//! The one definition to read is `IsClosed` in `specs/Closing.antt`. `lw_mapped` and `lw_verilog`
//! close what they read.
#![tactic(auto)]

mod apart;
mod buckets;
mod closing;
mod draft;
mod fault;
mod graph;
mod levels;
mod making;
mod naming;
mod placing;
mod signals;
mod spelled;
mod spelled_names;

pub use draft::{DraftGate, DraftGates, GateDraft, Wire, Wires};
pub use fault::NetlistFault;
pub use making::close;
pub use signals::Signals;
pub use spelled::SpelledGate;
pub use spelled_names::SpelledNames;
