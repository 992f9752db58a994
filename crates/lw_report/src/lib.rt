//! Reports: the timing of a netlist, and the simulation of a network or a netlist.
//!
//! For timing, in come a netlist, its library and the starts of its inputs; out goes a report of
//! arrivals, area and critical path. For simulation, in come a network or a netlist, and vectors;
//! out goes a line of the values of the outputs for each vector. The modules in order:
//!
//! * `lines`: words that end up in lines;
//! * `mapped`, `timed`: a netlist with its library, and with a time for each net;
//! * `totals`: the greatest arrival of an output, and the area of the gates;
//! * `step`, `path`: the critical path, step by step;
//! * `report`, `timing`: the lines of a timing report, and the whole of it (`Timing`);
//! * `fault`, `block`, `vectors`: vectors, 64 in a block, read line by line (`Vectors`);
//! * `nodes`, `gates`: the values of the nets of a network and of a netlist;
//! * `outputs`, `sim`: the lines of outputs, and the whole of a simulation (`Sim`);
//! * `laws`: theorems that there is only one report.
//!
//! The definitions to read are `IsTimingOf` in `specs/Timings.antt`, and `IsNetworkSimulation` and
//! `IsNetlistSimulation` in `specs/Simulated.antt`. `lw_top` calls both, and `lw_map` asks `Timing`
//! for the greatest arrival.
#![tactic(auto)]

mod block;
mod fault;
mod gates;
pub mod laws;
mod lines;
mod mapped;
mod nodes;
mod outputs;
mod path;
mod report;
mod sim;
mod step;
mod timed;
mod timing;
mod totals;
mod vectors;

pub use block::Block;
pub use fault::VectorFault;
pub use sim::Sim;
pub use step::Step;
pub use timing::Timing;
pub use vectors::Vectors;
