//! The files and the standard streams of the system, as a shelf and as sinks (`lw_io`), for the
//! programs.
//!
//! In come the handles that `main` gets from the system. The modules in order:
//!
//! * `retrying`: calls of the system, which are made anew where a signal interrupts them;
//! * `file_shelf`: opens and reads files, and counts its failures;
//! * `std_sink`: writes a stream, and counts its failures.
//!
//! No contract says what the system does; the traits that these implement are in `lw_io`. `lwmap`
//! and `lwequal` call them.
#![tactic(auto)]

mod file_shelf;
mod retrying;
mod std_sink;

pub use file_shelf::FileShelf;
pub use std_sink::StdSink;
