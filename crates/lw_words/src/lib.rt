//! The logical lines of a text, whatever the pieces in which it comes.
//!
//! In come the bytes of a text, piece by piece. Out come its logical lines, each with its words and
//! the number of its first physical line. The modules in order:
//!
//! * `words`, `line`: the words of a line, and a line of them;
//! * `place`: where a reader stands in a physical line;
//! * `gathering`, `reading`: the words of a line, byte by byte, and those of a word in one go;
//! * `lines`: lines of the bytes that are fed (`Lines`);
//! * `names`, `commands`: words that may be names, and words that a reader knows;
//! * `laws`: what holds of all logical lines.
//!
//! The one definition to read is `logical_lines` in `specs/Lines.antt`. `lw_files` gives the lines
//! of each file to its reader.
#![tactic(auto)]

mod commands;
mod gathering;
mod laws;
mod line;
mod lines;
mod names;
mod place;
mod reading;
mod words;

pub use commands::{is, is_ignored};
pub use laws::{finished_lines_stay, words_fit};
pub use line::Line;
pub use lines::Lines;
pub use names::{are_names, is_name};
pub use words::Words;
