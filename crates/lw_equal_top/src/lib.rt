//! The comparison of networks as a program: from words and files to a status, the bytes for out and
//! the line for err.
//!
//! In go the words behind the program's name, a shelf of files and two sinks; out comes the exit
//! status. `words` finds what is asked for (`request`). `reading` reads the library and the files,
//! each to a `source`: a network, or a netlist of the library's cells. `comparing` gives them to
//! `lw_equal` as sides. `saying` writes the answer and `pages` has the help; `outcome` is the way
//! from a request to what it came to, or to a refusal (`fault`). `telling` writes the line for err,
//! and `top` does all of it. The one definition to read is `IsTold` in `specs/Promises.antt`.
//! `lwequal` calls `run`.
#![tactic(auto)]

mod comparing;
mod fault;
mod outcome;
mod pages;
mod reading;
mod request;
mod saying;
mod source;
mod telling;
mod top;
mod words;

pub use top::run;
