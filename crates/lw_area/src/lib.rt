//! A network mapped to the cells of a library with little area: the program `lwarea` without its
//! system.
//!
//! In go the words of the command line, files and two streams; out come the exit status, the
//! netlist on the first stream, or a line on the second one. `words` says what is asked for,
//! `sources` reads the files, `deadlines` says by when outputs have to arrive, `recovering` looks
//! for a smaller cover, `mapping` makes the netlist, `checking` has the verdict on one, `refusal`
//! lists why there is none, `timing` says how long parts took, `telling` has the lines and the
//! pages, and `top` takes them together. `laws` has theorems. The definition to read is
//! `IsRecovered` in `specs/Recovered.antt`. The program crate `lwarea` calls `run`.
#![tactic(auto)]

mod checking;
mod deadlines;
mod laws;
mod mapping;
mod outcome;
mod recovering;
mod refusal;
mod sources;
mod telling;
mod timing;
mod top;
mod words;

pub use laws::{uncovered_roots_are_refused, written_netlists_are_accepted};
pub use top::run;
