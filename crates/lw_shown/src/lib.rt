//! Names as a line of a message shows them: control bytes and backslashes are escaped.
//!
//! In come names and what is wrong with a file; out goes the text of a message, through the
//! `Writer` of `lw_io`. The modules in order:
//!
//! * `bytes`: a name as it is shown (`put_shown`);
//! * `faults`: what is wrong with a file, with the word that names it (`put_shown_fault`).
//!
//! The one definition to read is `shown_fault` in `specs/Faults.antt`. `lw_equal_top` writes its
//! messages with both.
#![tactic(auto)]

mod bytes;
mod faults;

pub use bytes::put_shown;
pub use faults::{put_behind, put_named, put_shown_fault};
