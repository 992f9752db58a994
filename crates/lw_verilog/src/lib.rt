//! Structural Verilog: the text of a netlist of library cells, written and read.
//!
//! To write, in come a library and a netlist; out goes the text (`write_verilog`), where `sayable`
//! finds no reason against it. To read, in come a library and the bytes of a text; out comes the
//! netlist, or the first fault with its line (`read_verilog`). The modules in order:
//!
//! * `reason`, `refusing`: why a netlist has no text, and which has none (`sayable`);
//! * `known`, `taken`: nets with the name of an output, and names that instances may not have;
//! * `putting`, `writing`: names and declarations, and the text;
//! * `fault`: the rules that a token may break;
//! * `kind`, `pieces`: the pieces of a text;
//! * `place`, `rules`, `gates`: where a token stands, and what it may be there;
//! * `contents`, `reader`: what tokens say together, token by token (`read_verilog`);
//! * `laws`: theorems on texts, such as that what was written reads back.
//!
//! The one definition to read is `verilog_text` in `specs/Texts.antt` for what is written, and
//! `IsRead` in `specs/Verdicts.antt` for what is read. `lw_top` calls both.
#![tactic(auto)]

mod contents;
mod fault;
mod gates;
mod kind;
mod known;
mod laws;
mod pieces;
mod place;
mod putting;
mod reader;
mod reason;
mod refusing;
mod rules;
mod taken;
mod writing;

pub use contents::Contents;
pub use fault::{Refusal, VerilogFault, VerilogKind};
pub use kind::{Kind, Piece};
pub use laws::{
    derived_tokens_are_read, faults_have_their_tokens, read_tokens_are_derived, table_is_grammar,
    texts_have_one_meaning, written_texts_read_back,
};
pub use place::{Move, Place, Task};
pub use reader::read_verilog;
pub use reason::NoVerilog;
pub use refusing::sayable;
pub use writing::write_verilog;
