//! The checker of certificates: whether a mapped netlist, whoever wrote it, is a fastest mapping of
//! a network.
//!
//! In come a network with its frame and starts, a library, its patterns, the graph of the network's
//! forms, the class of each output, and a netlist with its frame and certificate. Out comes `Yes`,
//! or the first of six tests that fails, with what fails it first. The modules in order:
//!
//! * `case`, `verdict`: all that comes in, and what goes out;
//! * `ports`: the first test, the inputs, the outputs and the frame;
//! * `classes`: the second test, the class numbers of the certificate;
//! * `spans`, `standing`, `gates`: the third test, whether each gate is a match at its class;
//! * `labelling`, `bounding`, `trial`, `labels`: the fourth test, whether the labels are a
//!   potential: no class lacks a label, or has one above what a match or an input costs;
//! * `outputs`: the fifth test, the classes of the outputs, and the sixth, when they arrive;
//! * `checking`: the six tests in order (`check`);
//! * `laws`: theorems on verdicts.
//!
//! The words of this crate:
//!
//! * certificate: labels for some classes, and the class of the net of some gates;
//! * label: the claimed earliest arrival of a class, in millionths of the library's unit of time;
//!   in `labelling`, `bounding` and `trial` a number in units of any cost;
//! * frame: how many inputs and outputs the circuit itself has, and its latches;
//! * root: the class of an output in the graph of the network;
//! * match: a pattern of a cell at a class, with a class for each pin. A class is low if a match
//!   whose pins all have labels costs less than its label, or it has none;
//! * bound: a label that is at most what an input of the class or a match at it costs;
//! * span: the places from the first pattern of a cell to its last;
//! * place: the index of a pattern, a gate or an output.
//!
//! The one definition to read is `IsVerdictOn` in `specs/Verdicts.antt`; `yes_is_a_mapping` in
//! `laws` says what a `Yes` means. `lw_map` calls `check`.
#![tactic(auto)]

mod bounding;
mod case;
mod checking;
mod classes;
mod gates;
mod labelling;
mod labels;
pub mod laws;
mod outputs;
mod ports;
mod spans;
mod standing;
mod trial;
mod verdict;

pub use bounding::bound;
pub use checking::check;
pub use standing::class_of_pattern;
pub use verdict::{Reason, Verdict};
