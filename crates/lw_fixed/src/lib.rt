//! Decimals in millionths: read and printed exactly, with no floating point and no memory.
//!
//! To read, in comes a text; out comes its value, or the first rule that it breaks. To print, in
//! comes a value; out goes its shortest text. The modules in order:
//!
//! * `micro`, `lists`: a value in millionths (`Micro`), and lists of values;
//! * `fault`: the rules that a text may break;
//! * `digits`, `reading`: the value of digits, and of a text (`read`);
//! * `printing`: the text of a value (`print`);
//! * `laws`: theorems, such as that what was printed reads back.
//!
//! The definitions to read are `decimal_of` in `specs/Decimals.antt` and `decimal_text` in
//! `specs/Printed.antt`. Every crate that reads or writes times or areas calls these.
#![tactic(auto)]

mod digits;
mod fault;
mod laws;
mod lists;
mod micro;
mod printing;
mod reading;

pub use digits::are_digits;
pub use fault::DecimalFault;
pub use laws::{printed_is_shortest, printed_reads_back, shortest_is_printed};
pub use lists::Micros;
pub use micro::Micro;
pub use printing::print;
pub use reading::read;
