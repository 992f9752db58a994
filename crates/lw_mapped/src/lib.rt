//! Mapped BLIF: the text of a netlist of library cells, written and read.
//!
//! To write, in come a library, a netlist, its frame, its starts and a certificate or none; out
//! goes the text (`write`). To read, in come a library and the lines of a text; out come the
//! netlist, the frame, the starts and the certificate (`Mapped`), or the first rule that is broken,
//! with its line. The modules in order:
//!
//! * `certificate`: labels of classes and classes of gates;
//! * `lines`, `frames`, `gates`, `certificate_lines`, `writing`: the text, from its words to the
//!   whole;
//! * `fault`: the rules that a line may break;
//! * `command`, `naming`, `ties`, `saying`, `parsing`: what one line says;
//! * `contents`, `parts`, `reader`: what lines say together, line by line (`MappedReader`);
//! * `closing`: from what lines say to the netlist (`Mapped`);
//! * `laws`: theorems on texts, such as that what was written reads back.
//!
//! The one definition to read is `mapped_text` in `specs/Texts.antt` for what is written, and
//! `IsUnmapped` in `specs/Unmapped.antt` for what is read. `lw_files` gives the lines to
//! `MappedReader`, and `lw_top` calls `write`.
#![tactic(auto)]

mod certificate;
mod certificate_lines;
mod closing;
mod command;
mod contents;
mod fault;
mod frames;
mod gates;
mod laws;
mod lines;
mod naming;
mod parsing;
mod parts;
mod reader;
mod saying;
mod ties;
mod writing;

pub use certificate::{Certificate, OptClasses, OptMicros};
pub use closing::Mapped;
pub use command::Command;
pub use contents::Contents;
pub use fault::{MappedFault, MappedKind, Refusal};
pub use laws::{
    lines_have_one_meaning, read_netlists_are_kept, read_netlists_have_names,
    written_texts_read_back,
};
pub use lines::name_of;
pub use parts::Parts;
pub use reader::MappedReader;
pub use saying::Saying;
pub use writing::write;
