//! The program: from words and files to a status, the bytes for out and a line for err.
//!
//! In go the command line, a shelf and two sinks. `lwmap` calls `run` with those of the system, the
//! tests with some in memory. Out comes the exit status. The one definition to read is `IsAnswer`
//! of `specs/Answers.antt`, what words and files come to.
//!
//! A run goes through the modules in this order. `words` reads the command. `sources` reads its
//! files by `lw_files`, each with its name for a fault. `answer` has the answer of each command:
//! `answering` makes it by the calls of `lw_map`, `reports` by timing and simulation, and `verilog`
//! from and for texts in Verilog. A `refusal` is why there is none. `outcome` writes the answer,
//! `telling` and `reasons` the line of a refusal. `top` holds these together. `laws` says what a
//! text of tables is.
//!
//! The words of this crate:
//!
//! * word: an argument of the command line after the program's name. A file's word is its name
//!   there;
//! * command: one of the written forms, with its options and the words for its files;
//! * shelf: where files are read from, by name; sink: where bytes go, which may fail;
//! * model: a network with its latches and its inputs' starts;
//! * mapped: a mapped netlist with its frame, starts and certificate. What stands around a netlist
//!   is its frame: how many inputs and outputs the circuit has, and its latches;
//! * leaves: how many fan-ins a lookup table has at most, from 2 to 6;
//! * seed and count: the number that a network is drawn from, and how many nodes it has;
//! * status: the exit status, 0 for an answer that was written.
#![tactic(auto)]

mod answer;
mod answering;
mod laws;
mod outcome;
mod reasons;
mod refusal;
mod reports;
mod sources;
mod telling;
mod top;
mod verilog;
mod words;

pub use laws::answers_are_tables;
pub use lw_map::generate;
pub use reasons::put_reason;
pub use top::run;
