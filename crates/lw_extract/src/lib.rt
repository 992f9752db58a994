//! From the labels of a graph's classes to the netlist of the chosen matches, and from any list of
//! matches to the netlist that it makes.
//!
//! In come a graph, patterns, a library, labels, the cost that they are least by, and ports: names,
//! and the class of each output. Out comes a netlist with the class of each gate (`Cover`), or
//! `NoCover` with the first output whose class has no label. Each class that is needed and is no
//! input's has one gate, which is its chosen match. The modules in order:
//!
//! * `ports`: the ports that come in, and the cover that goes out;
//! * `fault`: why labels give no netlist;
//! * `job`: the labels and the ports together, as one argument;
//! * `ordering`: the classes that may have a gate, by height;
//! * `choosing`: those of them that are needed, each with its chosen match;
//! * `nets`: the net of each class;
//! * `gates`: the gates of matches and the outputs, over these nets;
//! * `assembling`: the netlist of any list of matches (`assemble`);
//! * `extracting`: from labels to the netlist (`extract_with`);
//! * `laws`: theorems on when nets arrive.
//!
//! The words of this crate:
//!
//! * label: the least cost of a cover of a class, in units of the cost, with the class's height in
//!   gates. The code has both as a mark;
//! * match: a pattern of a cell at a class, with a class for each pin. It attains label and height
//!   if they are its own: its cost, and one gate more than its highest pin has;
//! * needed: the class of an output, or of a pin of the chosen match of a needed class;
//! * bounds: a table by which the search for the chosen match is cut, and `tops` are costs at which
//!   the table may be trusted;
//! * nets: a net or none for each class. Nets are numbered from 0, inputs first and then gates.
//!
//! The one definition to read is `IsCoverBy` in `specs/Covers.antt`. `lw_map` calls `extract_with`.
#![tactic(auto)]

mod assembling;
mod attaining;
mod choosing;
mod extracting;
mod fault;
mod gates;
mod job;
mod laws;
mod nets;
mod ordering;
mod ports;

pub use assembling::assemble;
pub use attaining::attaining_matches;
pub use choosing::Chosen;
pub use extracting::{extract, extract_with};
pub use fault::ExtractFault;
pub use laws::{inputs_keep_their_starts, nets_arrive_at_their_labels};
pub use ports::{Cover, Ports};
