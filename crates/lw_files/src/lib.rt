//! Files that are read to their values: libraries, networks and mapped netlists, for every program
//! that reads them.
//!
//! In go a shelf, which is where files are, and the name of one. Out comes its value, or a
//! `FileFault` with its exit status and its text.
//!
//! The modules in order:
//!
//! * `reading`: one file from a shelf, up to its limit;
//! * `texts`: the lines of a text, given to a reader;
//! * `sources`: what a file of each kind holds, or its fault;
//! * `fault`: the faults, with the exit status of each;
//! * `telling`, `kinds`, `putting`: the text of a fault, with the word by which the caller's line
//!   names the file.
//!
//! The words of this crate:
//!
//! * model: a network with its latches and its inputs' starts, as BLIF has it;
//! * kind: the rule that a line breaks;
//! * marked: the way in which lines of a mapped text are read, which keeps a `#@` at the start of
//!   one;
//! * piece: some bytes of a text, at most 4096 where it is read or cut into lines;
//! * put: to write through a `Writer`, which keeps a failure of its sink until its end.
//!
//! The one definition to read is `Reads` in `specs/Reading.antt`. `lw_top` and `lw_equal_top` call
//! these.
#![tactic(auto)]

mod fault;
mod kinds;
mod putting;
mod reading;
mod sources;
mod telling;
mod texts;

pub use fault::FileFault;
pub use putting::{put_count, put_number, put_three, put_time, put_two};
pub use reading::read_file;
pub use sources::{library_in, mapped_in, model_in, read_library, read_mapped, read_model};
pub use telling::{put_broken, put_fault};
pub use texts::{TakesLines, read_lines};
