//! Reads a model's text, in the Berkeley Logic Interchange Format, line by line.
//!
//! In come the lines of a text. Out come the network, its frame and the starts of its inputs
//! (`Parsed`), or the first rule that is broken, with its line. The network is the combinational
//! part: the outputs of latches are inputs of it. The modules in order:
//!
//! * `fault`: the rules that a line may break;
//! * `command`: what the first word of a line asks for;
//! * `lengths`: lines that have as many words as their commands want;
//! * `naming`, `rules`, `rows`, `arrival`: the rules of each kind of line;
//! * `defining`, `adding`: what a line adds to what was read;
//! * `parts`: what lines say, as far as they were read;
//! * `drafting`: the draft of a network from what lines say;
//! * `parsed`: what comes out;
//! * `reader`: line by line, up to the end (`Reader`);
//! * `laws`: the theorem that what comes out is a network.
//!
//! The one definition to read is `IsBlifNetwork` in `specs/BlifNetworks.antt`. `lw_files` gives the
//! lines to `Reader`.
#![tactic(auto)]

mod adding;
mod arrival;
mod command;
mod defining;
mod drafting;
mod fault;
mod laws;
mod lengths;
mod naming;
mod parsed;
mod parts;
mod reader;
mod rows;
mod rules;

pub use command::Command;
pub use fault::{BlifFault, BlifKind};
pub use laws::model_is_network;
pub use parsed::Parsed;
pub use reader::Reader;
